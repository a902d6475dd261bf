//! What scripts print, by the steps of the machine.
use lc_eval::{Machine, Step};
use lc_field::NoMemory;
use lc_parse::parse;
use std::alloc::Global;
use std::test::Fail;

// What a step printed.
fn printed(step: &Step) -> &[u8] {
    match step {
        Step::Line(line) => line.as_slice(),
        Step::Fault(line) => line.as_slice(),
        Step::Need(_) => b"a query\n",
        Step::Weights(_) => b"a distribution\n",
        Step::Near(..) => b"a nearest word\n",
        Step::Silent => b"",
        Step::End => b"",
    }
}

// Appends what the next step prints. Returns whether another step may follow.
fn append_next(alloc: Global, machine: &mut Machine, text: &mut Vec<u8>) -> Result<bool, NoMemory> {
    let step = machine.step(alloc)?;
    text.extend_from_slice(printed(&step))?;
    Ok(!matches!(step, Step::End))
}

// Appends what at most twenty statements print.
fn append_all(alloc: Global, machine: &mut Machine, text: &mut Vec<u8>) -> Result<(), NoMemory> {
    for _ in 0..20 {
        if !append_next(alloc, machine, text)? {
            return Ok(());
        }
    }
    Ok(())
}

// Whether at most twenty statements print this text.
fn prints(alloc: Global, machine: &mut Machine, text: &str) -> Result<bool, NoMemory> {
    let mut found = Vec::new(alloc);
    append_all(alloc, machine, &mut found)?;
    Ok(found.as_slice() == text.as_bytes())
}

// Whether the bytes are a script that prints this text.
fn has_text(alloc: Global, bytes: &str, text: &str) -> Result<bool, NoMemory> {
    match parse(alloc, bytes.as_bytes()) {
        Ok(script) => {
            let mut machine = Machine::start(alloc, script);
            prints(alloc, &mut machine, text)
        }
        Err(_) => Ok(false),
    }
}

// Scripts and what they print.
static TEXTS: [(&str, &str); 18] = [
    ("", ""),
    ("x := 5; y := [x, 2]; y; x;", "[5,2]\n5\n"),
    ("[[], [1]]; []; [[]];", "[[],[1]]\n[]\n[[]]\n"),
    ("x := 1; x := [x]; x;", "[1]\n"),
    ("1; z; 2;", "1\nfault 44 at 3\n"),
    ("[1, [2], z];", "fault 45 at 4\n"),
    ("[1, [2], [3]];", "fault 45 at 4\n"),
    ("[[1], 2, 3];", "fault 45 at 6\n"),
    ("Nothing(z);", "fault 44 at 0\n"),
    ("x := LeastWord(z);", "fault 45 at 5\n"),
    ("GF(z, 3);", "fault 46 at 0\n"),
    ("HammingCode([1], [2]);", "fault 45 at 12\n"),
    (
        "c := HammingCode(3, GF(2)); c; [Dimension(c), WordLength(c)];",
        "code [7,4] GF(2)\n[4,7]\n",
    ),
    (
        "LeastWord([[1,0,1],[0,1,1]], GF(2));",
        "least 2 word [0,1,1]\n",
    ),
    ("LeastWord([[0,0]], GF(3));", "least none\n"),
    ("Weight([]); Weight([0,3,0]);", "0\n1\n"),
    (
        "CheckMat(RepetitionCode(3, GF(2))); 1;",
        "[[1,0,1],[0,1,1]]\n1\n",
    ),
    ("IsCodeword(NullCode(2, GF(2)), [0,0]);", "true\n"),
];

#[test]
fn texts_of_scripts(rt: HostRuntime) -> Result<(), Fail> {
    for row in &TEXTS {
        assert!(rt; has_text(rt.alloc(), row.0, row.1)?, "{}", row.0);
    }
    Ok(())
}
