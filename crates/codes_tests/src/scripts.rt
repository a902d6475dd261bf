//! Scripts as they are read: trees, tokens and faults.
use lc_parse::{ParseRefusal, Script, Token, TokenKind, parse, tokens};
use std::alloc::Global;
use std::test::Fail;

// The number and the offset of the fault of a script, or 0 and 0 if it has none. None if memory runs out.
fn fault_of(alloc: Global, bytes: &[u8]) -> Option<(u8, usize)> {
    match parse(alloc, bytes) {
        Ok(_) => Some((0, 0)),
        Err(ParseRefusal::Fault { number, offset }) => Some((number, offset)),
        Err(ParseRefusal::NoMemory) => None,
    }
}

// Texts, and the numbers and offsets of their faults.
static FAULTS: [(&str, u8, usize); 27] = [
    ("", 0, 0),
    ("MinimumDistance(HammingCode(3,GF(2))", 41, 36),
    ("x := 18446744073709551616;", 43, 5),
    ("x := 018446744073709551615;", 0, 0),
    ("$", 40, 0),
    ("[[[[[[[[[[[[[[[[[[[[[[[[[[[[[[[[[", 42, 32),
    (
        "[[[[[[[[[[[[[[[[[[[[[[[[[[[[[[[[1]]]]]]]]]]]]]]]]]]]]]]]]]]]]]]]];",
        0,
        0,
    ),
    ("x : y;", 40, 2),
    ("x :", 40, 2),
    (";", 41, 0),
    ("()", 41, 0),
    ("x", 41, 1),
    ("x :=", 41, 4),
    ("x(", 41, 2),
    ("x(1", 41, 3),
    ("x(1,", 41, 4),
    ("x(1)", 41, 4),
    ("[", 41, 1),
    ("[1,];", 41, 3),
    ("x(,1);", 41, 2),
    ("x(1];", 41, 3),
    ("x;;", 41, 2),
    ("1 := 2;", 41, 2),
    ("x y;", 41, 2),
    ("# a comment\n)", 41, 12),
    ("# a comment", 0, 0),
    ("f (1) ;\tg\r\n;", 0, 0),
];

#[test]
fn faults_stand_at_the_first_offset(rt: HostRuntime) {
    for row in &FAULTS {
        let fault = fault_of(rt.alloc(), row.0.as_bytes());
        assert!(rt; fault == Some((row.1, row.2)), "{}", row.0);
    }
    let lone = fault_of(rt.alloc(), &[255]);
    let commented = fault_of(rt.alloc(), &[b'#', 255, b'\n', b'1', b';']);
    assert!(rt; lone == Some((40, 0)) && commented == Some((0, 0)));
}

// A token's kind, the offset of its first byte, and the offset after its last.
type Row = (TokenKind, usize, usize);

// The tokens of `C := f(3,[x_1]); # end`.
static TOKENS: [Row; 11] = [
    (TokenKind::Name, 0, 1),
    (TokenKind::Assign, 2, 4),
    (TokenKind::Name, 5, 6),
    (TokenKind::Open, 6, 7),
    (TokenKind::Number, 7, 8),
    (TokenKind::Comma, 8, 9),
    (TokenKind::OpenList, 9, 10),
    (TokenKind::Name, 10, 13),
    (TokenKind::CloseList, 13, 14),
    (TokenKind::Close, 14, 15),
    (TokenKind::End, 15, 16),
];

// Whether the token is as the row says.
fn is_token(token: &Token, row: &Row) -> bool {
    token.kind == row.0 && token.start == row.1 && token.end == row.2
}

// Whether the tokens are those of the rows.
fn are_tokens(found: &[Token], rows: &[Row]) -> bool {
    if found.len() != rows.len() {
        return false;
    }
    for (token, row) in found.iter().zip(rows.iter()) {
        if !is_token(token, row) {
            return false;
        }
    }
    true
}

// Whether the bytes have these tokens.
fn has_tokens(alloc: Global, bytes: &[u8], rows: &[Row]) -> bool {
    match tokens(alloc, bytes) {
        Ok(found) => are_tokens(&found, rows),
        Err(_) => false,
    }
}

#[test]
fn tokens_have_kinds_and_spans(rt: HostRuntime) {
    assert!(rt; has_tokens(rt.alloc(), b"C := f(3,[x_1]); # end", &TOKENS));
}

// A script of six statements, and what `tools/script_tree.py` prints for it: the spans of its tokens, and its tree.
const SCRIPT: &str = "\
C := HammingCode(3,GF(2));
C;
MinimumDistance(C);
y := [1,1,0,0,0,1,1];
Decode(C,y);
IsCodeword(C,y);
";

const SPANS: &str = "\
    0-1 2-4 5-16 16-17 17-18 18-19 19-21 21-22 22-23 23-24 24-25 25-26 27-28 28-29 \
    30-45 45-46 46-47 47-48 48-49 50-51 52-54 55-56 56-57 57-58 58-59 59-60 60-61 61-62 \
    62-63 63-64 64-65 65-66 66-67 67-68 68-69 69-70 70-71 72-78 78-79 79-80 80-81 81-82 \
    82-83 83-84 85-95 95-96 96-97 97-98 98-99 99-100 100-101 ";

const TREE: &str = "\
    Script { statements: [Statement { target: Some(\"C\"), expr: Expr { offset: 5, node: Call(\"HammingCode\", [Expr { offset: 17, node: Number(3) }, Expr { offset: 19, node: Call(\"GF\", [Expr { offset: 22, node: Number(2) }]) }]) } }, \
    Statement { target: None, expr: Expr { offset: 27, node: Name(\"C\") } }, \
    Statement { target: None, expr: Expr { offset: 30, node: Call(\"MinimumDistance\", [Expr { offset: 46, node: Name(\"C\") }]) } }, \
    Statement { target: Some(\"y\"), expr: Expr { offset: 55, node: List([Expr { offset: 56, node: Number(1) }, Expr { offset: 58, node: Number(1) }, Expr { offset: 60, node: Number(0) }, Expr { offset: 62, node: Number(0) }, Expr { offset: 64, node: Number(0) }, Expr { offset: 66, node: Number(1) }, Expr { offset: 68, node: Number(1) }]) } }, \
    Statement { target: None, expr: Expr { offset: 72, node: Call(\"Decode\", [Expr { offset: 79, node: Name(\"C\") }, Expr { offset: 81, node: Name(\"y\") }]) } }, \
    Statement { target: None, expr: Expr { offset: 85, node: Call(\"IsCodeword\", [Expr { offset: 96, node: Name(\"C\") }, Expr { offset: 98, node: Name(\"y\") }]) } }] }";

// The spans of the tokens, a space after each.
fn spans_of(alloc: Global, found: &[Token]) -> Result<String, Fail> {
    let mut spans = String::new(alloc);
    for token in found {
        write!(spans, "{}-{} ", token.start, token.end)?;
    }
    Ok(spans)
}

// Whether the tokens have these spans.
fn are_spans(alloc: Global, found: &[Token], text: &str) -> Result<bool, Fail> {
    let spans = spans_of(alloc, found)?;
    Ok(spans.as_str() == text)
}

// Whether the tokens of the bytes have these spans.
fn has_spans(alloc: Global, bytes: &[u8], text: &str) -> Result<bool, Fail> {
    match tokens(alloc, bytes) {
        Ok(found) => are_spans(alloc, &found, text),
        Err(_) => Ok(false),
    }
}

#[test]
fn a_script_has_its_spans(rt: HostRuntime) -> Result<(), Fail> {
    assert!(rt; has_spans(rt.alloc(), SCRIPT.as_bytes(), SPANS)?);
    Ok(())
}

// Whether this is the tree of the script.
fn is_tree(alloc: Global, script: &Script, text: &str) -> Result<bool, Fail> {
    let tree = format!(in alloc; "{script:?}")?;
    Ok(tree.as_str() == text)
}

// Whether this is the tree of the script that the bytes are.
fn has_tree(alloc: Global, bytes: &[u8], text: &str) -> Result<bool, Fail> {
    match parse(alloc, bytes) {
        Ok(script) => is_tree(alloc, &script, text),
        Err(_) => Ok(false),
    }
}

#[test]
fn a_script_has_its_tree(rt: HostRuntime) -> Result<(), Fail> {
    assert!(rt; has_tree(rt.alloc(), SCRIPT.as_bytes(), TREE)?);
    Ok(())
}

// The bytes that scripts are made of, and one that begins no token.
static BYTES: [u8; 16] = [
    b'a', b'b', b'_', b'1', b'9', b' ', b'\n', b'(', b')', b'[', b']', b',', b';', b':', b'=', 255,
];

// The generator of the inputs: x goes to 6364136223846793005 x + 1442695040888963407 modulo 2^64, and the
// bits from 33 on pick a byte, or the length.
fn next(seed: u64) -> u64 {
    seed.wrapping_mul(6364136223846793005)
        .wrapping_add(1442695040888963407)
}

// Whether the bytes are a script. None if memory runs out, or if they are refused with another number than those of parsing, or at
// no offset of theirs.
fn is_script(alloc: Global, bytes: &[u8]) -> Option<bool> {
    match parse(alloc, bytes) {
        Ok(_) => Some(true),
        Err(ParseRefusal::Fault { number, offset }) => {
            if number < 40 || 43 < number || bytes.len() < offset {
                return None;
            }
            Some(false)
        }
        Err(ParseRefusal::NoMemory) => None,
    }
}

#[test]
fn any_bytes_are_parsed_or_refused(rt: HostRuntime) {
    let mut seed = 1u64;
    let mut read = false;
    for _ in 0..100000 {
        let mut bytes = [0u8; 12];
        for b in bytes.iter_mut() {
            seed = next(seed);
            *b = BYTES[((seed >> 33) % 16) as usize];
        }
        seed = next(seed);
        let len = ((seed >> 33) % 13) as usize;
        let answer = is_script(rt.alloc(), &bytes[..len]);
        assert!(rt; answer.is_some(), "{bytes:?}");
        read = read || answer == Some(true);
    }
    assert!(rt; read);
}
