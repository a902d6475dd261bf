//! Command lines, and what they ask for.
use lc_session::{Command, OptionRefusal, Settings, options};
use std::alloc::{AllocError, Global};
use std::test::Fail;

// What a command asks for with no key.
const PLAIN: Settings = Settings {
    command: Command::Run,
    workers: 1,
    round: 256,
    budget: 1_048_576,
    slice: None,
    keep: false,
    number: 0,
};

// Command lines that are refused, and the index of the argument that is wrong or missing.
const REFUSED: [(&str, usize); 27] = [
    ("", 0),
    ("walk", 0),
    ("run workers=0", 1),
    ("run workers=257", 1),
    ("run round=0", 1),
    ("run round=1048577", 1),
    ("resume round=", 1),
    ("resume round=+1", 1),
    ("run round=7 workers=2 round=7", 3),
    ("check round=7", 1),
    ("summary round=7", 2),
    ("run budget=1099511627777", 1),
    ("run budget=+1", 1),
    ("run budget=01", 1),
    ("run slice=2", 1),
    ("run budget=7 slice=2", 2),
    ("run slice=2 keep=no", 1),
    ("run slice=0 keep=yes", 1),
    ("run keep=yes keep=no", 2),
    ("run keep=maybe", 1),
    ("run seed=1", 1),
    ("resume workers", 1),
    ("check budget=7", 1),
    ("summary", 1),
    ("summary budget=7", 2),
    ("summary seed=18446744073709551616", 1),
    ("summary seed=1 keep=yes", 2),
];

// The arguments of a command line, with a space between each two.
fn arguments_in(alloc: Global, line: &str) -> Result<Vec<String>, AllocError> {
    let mut arguments = Vec::with_capacity(alloc, 8)?;
    for piece in line.split_whitespace() {
        let argument = String::from_str(alloc, piece)?;
        if arguments.push(argument).is_err() {
            return Err(AllocError);
        }
    }
    Ok(arguments)
}

// What a command line asks for, or why it is refused.
fn asked_in(alloc: Global, line: &str) -> Result<Result<Settings, OptionRefusal>, AllocError> {
    let arguments = arguments_in(alloc, line)?;
    Ok(options(alloc, &arguments))
}

#[test]
fn refused_command_lines(rt: HostRuntime) -> Result<(), Fail> {
    for (line, index) in &REFUSED {
        assert!(rt; asked_in(rt.alloc(), line)? == Err(OptionRefusal::Usage(*index)));
    }
    Ok(())
}

#[test]
fn accepted_runs(rt: HostRuntime) -> Result<(), Fail> {
    let cases: [(&str, Settings); 5] = [
        ("run", PLAIN),
        ("run round=1", Settings { round: 1, ..PLAIN }),
        (
            "run budget=0 workers=256",
            Settings {
                workers: 256,
                budget: 0,
                ..PLAIN
            },
        ),
        (
            "run budget=1099511627776",
            Settings {
                budget: 1_099_511_627_776,
                ..PLAIN
            },
        ),
        ("run keep=no", PLAIN),
    ];
    for (line, asked) in &cases {
        assert!(rt; asked_in(rt.alloc(), line)? == Ok(*asked));
    }
    Ok(())
}

#[test]
fn accepted_commands(rt: HostRuntime) -> Result<(), Fail> {
    let cases: [(&str, Settings); 3] = [
        (
            "check",
            Settings {
                command: Command::Check,
                ..PLAIN
            },
        ),
        (
            "resume slice=3 keep=yes round=1048576",
            Settings {
                command: Command::Resume,
                round: 1_048_576,
                slice: Some(3),
                keep: true,
                ..PLAIN
            },
        ),
        (
            "summary workers=4 round=7 seed=18446744073709551615",
            Settings {
                command: Command::Summary,
                workers: 4,
                round: 7,
                number: 18_446_744_073_709_551_615,
                ..PLAIN
            },
        ),
    ];
    for (line, asked) in &cases {
        assert!(rt; asked_in(rt.alloc(), line)? == Ok(*asked));
    }
    Ok(())
}
