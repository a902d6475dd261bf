//! Checkpoints that are read and written back, and texts that are none. The seals are those of another program.
ghost use Rattle.lc_formats.specs.Checkpoint.{IsInRange};
ghost use Rattle.lc_checkpoint.specs.Seen.{point_of};

use lc_checkpoint::{Checkpoint, decode, encode};
use std::alloc::{AllocError, Global};
use std::test::Fail;

const POINT: &str =
    "847d91cf47a720409db78dbcab63ea2db8e1568003825ee5da236d9cc44ad727\n{\"blocks\":2,\"budget\":1048576,\"done\":[[2,3,0],[1,7,4096]],\"place\":0,\"script\":\"abababababababababababababababababababababababababababababababab\",\"turn\":3,\"version\":2,\"weight\":7}";

// The number of the refusal of a text; 0 for a checkpoint.
fn refusal_of(alloc: Global, text: &str) -> u8 {
    match decode(alloc, text.as_bytes()) {
        Ok(_) => 0,
        Err(refusal) => refusal.number(),
    }
}

// The text of a checkpoint in range; none is written for version 1 and for many settled needs.
fn written(alloc: Global, point: &Checkpoint) -> Result<Vec<u8>, AllocError>
    requires ranged { IsInRange (point_of point.now) }
{
    if point.version != 2 {
        return Err(AllocError);
    }
    if point.settled.len() >= 70000 {
        return Err(AllocError);
    }
    let Ok(text) = encode(alloc, point) else {
        return Err(AllocError);
    };
    Ok(text)
}

// The text of the checkpoint that a text is.
fn rewritten(alloc: Global, text: &str) -> Result<Vec<u8>, AllocError> {
    let Ok(point) = decode(alloc, text.as_bytes()) else {
        return Err(AllocError);
    };
    written(alloc, &point)
}

#[test]
fn checkpoints_are_written_back(rt: HostRuntime) -> Result<(), Fail> {
    assert_eq!(rt; rewritten(rt.alloc(), POINT)?.as_slice(), POINT.as_bytes());
    Ok(())
}

#[test]
fn broken_checkpoints(rt: HostRuntime) {
    let cases: [(&str, u8); 10] = [
        (POINT, 0),
        (
            "d2751997ce487e83b2d4b593dca890151f13f095da93a2a6f62ef33acefcc36b\n{\"blocks\":2,\"budget\":1048576,\"done\":[[2,3,0],[1,7,4096]],\"place\":0,\"script\":\"abababababababababababababababababababababababababababababababab\",\"turn\":3,\"version\":1,\"weight\":7}",
            0,
        ),
        ("x", 20),
        (
            "847d91cf47a720409db78dbcab63ea2db8e1568003825ee5da236d9cc44ad727\n{\"blocks\":2,\"budget\":1048576,\"done\":[[2,3,0],[1,7,4096]],\"place\":0,\"script\":\"abababababababababababababababababababababababababababababababab\",\"turn\":3,\"version\":2,\"weight\":7",
            20,
        ),
        (
            "047d91cf47a720409db78dbcab63ea2db8e1568003825ee5da236d9cc44ad727\n{\"blocks\":2,\"budget\":1048576,\"done\":[[2,3,0],[1,7,4096]],\"place\":0,\"script\":\"abababababababababababababababababababababababababababababababab\",\"turn\":3,\"version\":2,\"weight\":7}",
            20,
        ),
        (
            "916799807f748e9adb25b9a8a9a74a6bfe898f01add0bd23201d5b109f7ad6c9\n{\"blocks\":2,\"budget\":1048576,\"done\":[[2,3,0],[1,7,4096]],\"place\":0,\"script\":\"abababababababababababababababababababababababababababababababab\",\"turn\":3,\"version\":3,\"weight\":7}",
            21,
        ),
        (
            "4f53cda18c2baa0c0354bb5f9a3ecbe5ed12ab4d8e11ba873c2f11161202b945\n[]",
            22,
        ),
        (
            "e59b5e8184748e5a5c88d9282b71f0e2932836f47f72284997625e6b7bd258cb\n{\"blocks\":1048577,\"budget\":1048576,\"done\":[[2,3,0],[1,7,4096]],\"place\":0,\"script\":\"abababababababababababababababababababababababababababababababab\",\"turn\":3,\"version\":2,\"weight\":7}",
            22,
        ),
        (
            "e5054101c3364410f4e0a590c732359b220dea94c2f06bc45841a1c52587095e\n{\"blocks\":2,\"budget\":1048576,\"done\":[[2,3,0],[1,7,4096]],\"place\":0,\"script\":\"abababababababababababababababababababababababababababababababab\",\"turn\":3,\"version\":2,\"weight\":256}",
            22,
        ),
        (
            "d460dddbc706e33250f03052a664b92d3faccf2bafb2557b40d40c3d9df979d4\n{\"blocks\":2,\"budget\":1048576,\"done\":[[2,3,0],[1,7,4096]],\"place\":0,\"script\":\"abababababababababababababababababababababababababababababababab\",\"turn\":3,\"version\":2,\"weight\":7,\"x\":0}",
            22,
        ),
    ];
    for (text, number) in &cases {
        assert!(rt; refusal_of(rt.alloc(), *text) == *number);
    }
}
