ghost use Rattle.std.specs.Prelude.{◌≡◌, ◌∷◌, ◌^◌, ◌≤◌, ◌==◌, ◌&&◌, [], nat_lt, not, length, slice_range, IfOk, IsOk, MatchOption};
ghost use Rattle.std.specs.List.{prefix_len};
ghost use Rattle.lc_grammar.specs.Token.{is_blank, is_letter, is_digit, is_name_byte, number_of, cut_of, assign_at, sign_at, token_at, is_number, widest, scan};
ghost use Rattle.lc_parse.specs.Reading.{cuts_of, ending_of, IsStep};

use lc_grammar::{Token, TokenKind};
use std::alloc::{AllocError, Global};

// How the tokens of a script end, each with its offset.
#[derive(Clone, Copy, Debug)]
pub(crate) enum Ending {
    ScriptEnd(usize),
    BadToken(usize),
    TooWide(usize),
}

// A token's kind and its number of bytes.
#[derive(Clone, Copy, Debug)]
pub(crate) struct Cut {
    pub kind: TokenKind,
    pub len: usize,
}

// What is at an offset: bytes that are passed over, a token, or the end of the tokens.
#[derive(Clone, Copy, Debug)]
pub(crate) enum Lexeme {
    Skip(usize),
    Token(Token),
    End(Ending),
}

#[tactic(auto, unfolding(lc_grammar::specs::Token::is_blank))]
fn is_blank(b: u8) -> bool
    ensures { result ≡ is_blank b }
{
    b == b' ' || b == b'\t' || b == b'\r' || b == b'\n'
}

#[tactic(auto, unfolding(lc_grammar::specs::Token::is_letter))]
fn is_letter(b: u8) -> bool
    ensures { result ≡ is_letter b }
{
    (b >= b'A' && b <= b'Z') || (b >= b'a' && b <= b'z')
}

#[tactic(auto, unfolding(lc_grammar::specs::Token::is_digit))]
fn is_digit(b: u8) -> bool
    ensures { result ≡ is_digit b }
{
    b >= b'0' && b <= b'9'
}

#[tactic(auto, unfolding(lc_grammar::specs::Token::is_name_byte))]
fn is_name_byte(b: u8) -> bool
    ensures { result ≡ is_name_byte b }
{
    is_letter(b) || is_digit(b) || b == b'_'
}

fn name_len(rest: &[u8]) -> usize
    ensures { result ≡ prefix_len is_name_byte rest.now }
{
    rest.iter().take_while(|b| is_name_byte(**b)).count()
}

fn digits_len(rest: &[u8]) -> usize
    ensures { result ≡ prefix_len is_digit rest.now }
{
    rest.iter().take_while(|b| is_digit(**b)).count()
}

fn line_len(rest: &[u8]) -> usize
    ensures { result ≡ prefix_len (λ b. not (b == 10)) rest.now }
{
    rest.iter().take_while(|b| **b != b'\n').count()
}

/// The number that decimal digits write, or None if it has more than 64 bits. `text` is the digits as ASCII bytes, the highest one
/// first; leading zeros are allowed, and no digit at all is 0.
#[tactic(auto, using(crate::proofs::Scanning::value_of_laws))]
pub fn value_of(text: &[u8]) -> Option<u64>
    ensures { MatchOption result (2 ^ 64 ≤ number_of text.now) (λ n. number_of text.now ≡ n) }
{
    let mut n: u64 = 0;
    for b in text {
        let digit = u64::from(b.saturating_sub(b'0'));
        match n.checked_mul(10) {
            None => return None,
            Some(tens) => match tens.checked_add(digit) {
                None => return None,
                Some(sum) => n = sum,
            },
        }
    }
    Some(n)
}

// `:=`, after the colon.
#[tactic(auto, unfolding(lc_grammar::specs::Token::assign_at, lc_grammar::specs::Token::cut_of))]
fn assign_at(rest: &[u8]) -> Option<Cut>
    ensures { cuts_of result ≡ assign_at rest.now }
{
    let (first, _) = rest.split_first()?;
    if *first == b'=' {
        Some(Cut {
            kind: TokenKind::Assign,
            len: 2,
        })
    } else {
        None
    }
}

#[tactic(auto, unfolding(lc_grammar::specs::Token::cut_of))]
fn sign(kind: TokenKind) -> Option<Cut>
    ensures { cuts_of result ≡ cut_of kind 1 }
{
    Some(Cut { kind, len: 1 })
}

// The sign that begins with the byte, the rest after it.
#[tactic(auto, unfolding(lc_grammar::specs::Token::sign_at))]
fn sign_at(b: u8, rest: &[u8]) -> Option<Cut>
    ensures { cuts_of result ≡ sign_at b rest.now }
{
    if b == b':' {
        assign_at(rest)
    } else if b == b'(' {
        sign(TokenKind::Open)
    } else if b == b')' {
        sign(TokenKind::Close)
    } else if b == b'[' {
        sign(TokenKind::OpenList)
    } else if b == b']' {
        sign(TokenKind::CloseList)
    } else if b == b',' {
        sign(TokenKind::Comma)
    } else if b == b';' {
        sign(TokenKind::End)
    } else {
        None
    }
}

// The token that begins with the first byte, the rest after it.
fn token_at(here: &[u8], first: u8, rest: &[u8]) -> Option<Cut>
    requires { here.now ≡ first ∷ rest.now }
    ensures { cuts_of result ≡ token_at first rest.now }
{
    if is_letter(first) {
        Some(Cut {
            kind: TokenKind::Name,
            len: name_len(here),
        })
    } else if is_digit(first) {
        Some(Cut {
            kind: TokenKind::Number,
            len: digits_len(here),
        })
    } else {
        sign_at(first, rest)
    }
}

// Whether the token is a number that is too wide.
#[tactic(auto, using(crate::proofs::Scanning::is_wide_laws))]
fn is_wide(cut: Cut, here: &[u8]) -> bool
    requires { cut.len ≤ length here.now }
    ensures { result ≡ (is_number cut.kind && nat_lt widest (number_of (slice_range here.now 0 cut.len))) }
{
    match cut.kind {
        TokenKind::Number => match value_of(&here[..cut.len]) {
            None => true,
            Some(_) => false,
        },
        _ => false,
    }
}

// What is at an offset.
fn lexeme_at(bytes: &[u8], at: usize) -> Lexeme
    requires { at ≤ length bytes.now }
    ensures { IsStep bytes.now at result }
{
    let here = &bytes[at..];
    let Some((first, rest)) = here.split_first() else {
        return Lexeme::End(Ending::ScriptEnd(at));
    };
    if is_blank(*first) {
        return Lexeme::Skip(1);
    }
    if *first == b'#' {
        return Lexeme::Skip(line_len(here));
    }
    let Some(cut) = token_at(here, *first, rest) else {
        return Lexeme::End(Ending::BadToken(at));
    };
    if is_wide(cut, here) {
        return Lexeme::End(Ending::TooWide(at));
    }
    Lexeme::Token(Token {
        kind: cut.kind,
        start: at,
        end: at + cut.len,
    })
}

// The tokens of a script, and how they end.
pub(crate) fn scan(alloc: Global, bytes: &[u8]) -> Result<(Vec<Token>, Ending), AllocError>
    ensures tokens { IfOk result (λ r. r.0.items ≡ (scan bytes.now).tokens) }
    ensures ending { IfOk result (λ r. ending_of r.1 ≡ (scan bytes.now).ending) }
    ensures nothing { bytes.now ≡ [] → IsOk result }
    ensures blank { (scan bytes.now).tokens ≡ [] → IsOk result }
{
    let mut tokens = Vec::new(alloc);
    let mut at = 0;
    loop {
        match lexeme_at(bytes, at) {
            Lexeme::Skip(n) => at += n,
            Lexeme::Token(token) => {
                tokens.push(token)?;
                at = token.end;
            }
            Lexeme::End(ending) => return Ok((tokens, ending)),
        }
    }
}
