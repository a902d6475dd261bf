//! Sessions that go on from checkpoints which no session of this program stored. Their seals and their digests of scripts were
//! computed by another program.
use crate::vaults::{EMPTY, GOLAY, GOLAY_TEXT, HAMMING, Line, ends, holds};
use lc_io::{MemoryVault, Slot, Vault};
use std::alloc::Global;
use std::test::Fail;
use std::thread::Threads;

const EXTENDED: &[u8] = b"MinimumDistance(ExtendedBinaryGolayCode());";

const EXTENDED_TEXT: &[u8] =
    b"distance 8 word [1,0,0,0,0,0,0,0,0,0,0,0,1,0,1,0,1,1,1,0,0,0,1,1] blocks 3\n";

const HEAVY_TEXT: &[u8] = b"distance 3 word [1,0,0,1,1,0,0] blocks 3\n";

// Two blocks of the Hamming code with a weight that its word hasn't.
const TOO_LIGHT: &[u8] = b"\
62efb10a10f56a0807099bb00c7916ea512fe83775f65310c934f8e1d12e1c8e
{\"blocks\":2,\"budget\":1048576,\"done\":[],\"place\":0,\"script\":\"c629143d35fe9f066b16a6029d25f634bea9b4a2698113a90bcd8943df251505\",\"turn\":0,\"version\":2,\"weight\":2}";

// Two blocks of the Hamming code with a word that isn't the best of them.
const HEAVY: &[u8] = b"\
34272d745559593bc593a8b025bf0d1054ddb762d27323a82c38c217c4aacc03
{\"blocks\":2,\"budget\":1048576,\"done\":[],\"place\":3,\"script\":\"c629143d35fe9f066b16a6029d25f634bea9b4a2698113a90bcd8943df251505\",\"turn\":0,\"version\":2,\"weight\":4}";

// A search of the Hamming code that is settled before its end.
const SETTLED_EARLY: &[u8] = b"\
1db4531ae67f7316ddf4fb7e8275b8757ca35e453a670d09ecae5a9bfbbeab7f
{\"blocks\":2,\"budget\":1048576,\"done\":[[1,3,0]],\"place\":0,\"script\":\"c629143d35fe9f066b16a6029d25f634bea9b4a2698113a90bcd8943df251505\",\"turn\":0,\"version\":2,\"weight\":3}";

// Two searches of the Hamming code.
const SETTLED_TWICE: &[u8] = b"\
f3512aeda3d16ceed9967b2a6fe59c8ac20e843ca8939905cf3f15ba4e0bbc00
{\"blocks\":2,\"budget\":1048576,\"done\":[[2,3,0]],\"place\":0,\"script\":\"c629143d35fe9f066b16a6029d25f634bea9b4a2698113a90bcd8943df251505\",\"turn\":0,\"version\":2,\"weight\":3}";

// Five blocks of the Golay code, as a program stored them that used no divisor.
const GOLAY_BEFORE: &[u8] = b"\
a03333e77dd673d0a33e6422bdf72459f662b5ebfc3b8b4e923b18d3c0a69036
{\"blocks\":5,\"budget\":1048576,\"done\":[],\"place\":0,\"script\":\"6603edb308fb0d7f83beea572cfc9d246767111e8493a04d00c559e5e00e0d90\",\"turn\":4,\"version\":1,\"weight\":7}";

// All six blocks.
const GOLAY_LAST: &[u8] = b"\
90f0587fe8706a995747b8afc0088694e25c482634867ff96a5c2ec0e1a15e24
{\"blocks\":6,\"budget\":1048576,\"done\":[],\"place\":0,\"script\":\"6603edb308fb0d7f83beea572cfc9d246767111e8493a04d00c559e5e00e0d90\",\"turn\":5,\"version\":2,\"weight\":7}";

// Five blocks of the extended Golay code, whose weights are divisible by 4.
const EXTENDED_BEFORE: &[u8] = b"\
235a3fb81f71358b364fe1e7d8c9b7711c5b690d0a3bfb27c9effb46057f4faf
{\"blocks\":5,\"budget\":1048576,\"done\":[],\"place\":0,\"script\":\"e6dacc1ac67a7d4e59bf887dc85783b49eedb32414eb5ff6a685fe301b60a688\",\"turn\":4,\"version\":1,\"weight\":8}";

// The three blocks that its search takes.
const EXTENDED_LAST: &[u8] = b"\
a01e482ed864247b128b1bbcf12badf24ea9ba5d8c91b608a16391a1fa7c2701
{\"blocks\":3,\"budget\":1048576,\"done\":[],\"place\":0,\"script\":\"e6dacc1ac67a7d4e59bf887dc85783b49eedb32414eb5ff6a685fe301b60a688\",\"turn\":7,\"version\":2,\"weight\":8}";

// Five blocks of the Golay code in a version that isn't known.
const GOLAY_LATER: &[u8] = b"\
6bf00514eb739c38418e6a03f56fab958d37b0af6e74272c140b29f21ca7b7db
{\"blocks\":5,\"budget\":1048576,\"done\":[],\"place\":0,\"script\":\"6603edb308fb0d7f83beea572cfc9d246767111e8493a04d00c559e5e00e0d90\",\"turn\":4,\"version\":3,\"weight\":7}";

// What `resume` says of a checkpoint in slot zero, with this script.
type Row = (&'static [u8], &'static [u8], &'static [u8], Line);

const RESUMED: [Row; 9] = [
    (b"", HAMMING, EMPTY, b"codes: no checkpoint\n"),
    (b"x", HAMMING, EMPTY, b"codes: damaged checkpoint\n"),
    (GOLAY_LATER, GOLAY, EMPTY, b"codes: damaged checkpoint\n"),
    (
        TOO_LIGHT,
        GOLAY,
        EMPTY,
        b"codes: checkpoint of another script or budget\n",
    ),
    (
        TOO_LIGHT,
        HAMMING,
        EMPTY,
        b"codes: checkpoint does not fit query 0\n",
    ),
    (HEAVY, HAMMING, HEAVY_TEXT, b""),
    (
        SETTLED_EARLY,
        HAMMING,
        EMPTY,
        b"codes: checkpoint does not fit query 0\n",
    ),
    (
        SETTLED_TWICE,
        HAMMING,
        EMPTY,
        b"codes: checkpoint does not fit query 1\n",
    ),
    (GOLAY_BEFORE, GOLAY, GOLAY_TEXT, b""),
];

// Whether `resume` ends so on this vault with the bytes in slot zero, and leaves the slots as they were.
fn leaves_the_slots<R: Threads + Sync>(
    rt: &R,
    alloc: Global,
    vault: &mut MemoryVault,
    row: &Row,
) -> Result<bool, Fail> {
    let stored = vault.store(Slot::Zero, row.0).is_ok();
    let ended = ends(rt, alloc, &["resume"], row.1, vault, row.2, row.3)?;
    // without `keep=yes` nothing is stored
    Ok(stored && ended && holds(vault, Slot::Zero, row.0) && holds(vault, Slot::One, b""))
}

fn is_resumed<R: Threads + Sync>(rt: &R, alloc: Global, row: &Row) -> Result<bool, Fail> {
    let mut vault = MemoryVault::new(alloc, 4096, &[])?;
    leaves_the_slots(rt, alloc, &mut vault, row)
}

#[test]
fn checkpoints_are_judged(rt: HostRuntime) -> Result<(), Fail> {
    for row in &RESUMED {
        assert!(rt; is_resumed(&rt, rt.alloc(), row)?);
    }
    Ok(())
}

// Scripts with what slot zero holds at the start, the text, and what slot one holds at the end.
const EARLIER: [(&[u8], &[u8], &[u8], &[u8]); 2] = [
    (GOLAY, GOLAY_BEFORE, GOLAY_TEXT, GOLAY_LAST),
    (EXTENDED, EXTENDED_BEFORE, EXTENDED_TEXT, EXTENDED_LAST),
];

// Whether `resume` ends so on this vault with the bytes in slot zero, and stores the last checkpoint.
fn stores_the_last<R: Threads + Sync>(
    rt: &R,
    alloc: Global,
    vault: &mut MemoryVault,
    row: &(&[u8], &[u8], &[u8], &[u8]),
) -> Result<bool, Fail> {
    let words = ["resume", "keep=yes"];
    let stored = vault.store(Slot::Zero, row.1).is_ok();
    let ended = ends(rt, alloc, &words, row.0, vault, row.2, b"")?;
    Ok(stored && ended && holds(vault, Slot::One, row.3))
}

fn goes_on<R: Threads + Sync>(
    rt: &R,
    alloc: Global,
    row: &(&[u8], &[u8], &[u8], &[u8]),
) -> Result<bool, Fail> {
    let mut vault = MemoryVault::new(alloc, 4096, &[])?;
    stores_the_last(rt, alloc, &mut vault, row)
}

#[test]
fn checkpoints_of_version_1_are_used_up_to_the_first_divisor(rt: HostRuntime) -> Result<(), Fail> {
    for row in &EARLIER {
        assert!(rt; goes_on(&rt, rt.alloc(), row)?);
    }
    Ok(())
}
