//! Tests of the algebraic decoder. The errors in the received words are known; what is nearest to words with more errors was found by
//! going through all words of the code.
ghost use Rattle.std.specs.Prelude.{IfOk};
ghost use Rattle.lc_constructions.specs.Alternant.{IsFormOf};

use lc_alternant::decode;
use lc_code::{CodeRefusal, FormedCode};
use lc_cyclic::{bch, reed_solomon};
use lc_field::Field;
use lc_goppa::{alternant, goppa};
use std::alloc::Global;
use test_rows::is_word;

// A code of an alternant form.
enum Form {
    // The Reed-Solomon code of a length and a design distance.
    ReedSolomon(u64, u64),
    // The binary BCH code of length 15 and a design distance.
    Bch(u64),
    // The binary Goppa code of 1 + x + x^2 whose points are all elements of the field of 8.
    Goppa,
    // The alternant code over 5 elements with multipliers 1, all points and so many checks.
    Alternant(u64),
}

fn goppa_code(alloc: Global, field: &Field) -> Result<FormedCode, CodeRefusal>
    ensures form { IfOk result (λ f. IsFormOf f.code f.form) }
{
    match Field::of(alloc, 8) {
        Ok(locator) => goppa(
            alloc,
            &[1, 1, 1],
            &[0, 1, 2, 3, 4, 5, 6, 7],
            &locator,
            field,
        ),
        Err(_) => Err(CodeRefusal::NoMemory),
    }
}

// The code over a field.
fn code_of(alloc: Global, field: &Field, code: &Form) -> Result<FormedCode, CodeRefusal>
    ensures form { IfOk result (λ f. IsFormOf f.code f.form) }
{
    match code {
        Form::ReedSolomon(n, d) => reed_solomon(alloc, *n, *d),
        Form::Bch(d) => bch(alloc, 15, 1, *d, field),
        Form::Goppa => goppa_code(alloc, field),
        Form::Alternant(r) => alternant(alloc, *r, &[0, 1, 2, 3, 4], &[1; 5], field, field),
    }
}

// The size of a field, a code over it, a received word, and the word to which it is decoded: no symbols if there is none.
type Row = (u64, Form, (&'static [u8], &'static [u8]));

// Whether the received word is decoded as the row says.
fn is_decoded(alloc: Global, formed: &FormedCode, row: &Row) -> bool
    requires formed { IsFormOf formed.now.code formed.now.form }
{
    let code = &formed.code;
    if !is_word(code.field(), code.length(), row.2.0) {
        return false;
    }
    match decode(alloc, code, &formed.form, row.2.0) {
        Ok(Some(word)) => word.symbols() == row.2.1,
        Ok(None) => row.2.1.is_empty(),
        Err(_) => false,
    }
}

// The same by the code over the field.
fn is_decoded_over(alloc: Global, field: &Field, row: &Row) -> bool {
    match code_of(alloc, field, &row.1) {
        Ok(formed) => is_decoded(alloc, &formed, row),
        Err(_) => false,
    }
}

// The same of all rows.
fn are_decoded(alloc: Global, rows: &[Row]) -> bool {
    for row in rows {
        let Ok(field) = Field::of(alloc, row.0) else {
            return false;
        };
        if !is_decoded_over(alloc, &field, row) {
            return false;
        }
    }
    true
}

// Reed-Solomon codes: over 5 elements; over 8, where the word is the generator polynomial with 0, 1, 2 and 3 errors; and over 9,
// likewise.
static REED_SOLOMON: [Row; 17] = [
    (2, Form::ReedSolomon(4, 3), (&[1, 1, 3, 4], &[1, 0, 3, 4])),
    (2, Form::ReedSolomon(4, 3), (&[0, 0, 1, 1], &[])),
    (2, Form::ReedSolomon(4, 3), (&[1, 0, 3, 2], &[1, 0, 3, 4])),
    (
        2,
        Form::ReedSolomon(7, 5),
        (&[3, 2, 1, 3, 1, 0, 0], &[3, 2, 1, 3, 1, 0, 0]),
    ),
    (
        2,
        Form::ReedSolomon(7, 5),
        (&[3, 2, 1, 3, 1, 0, 5], &[3, 2, 1, 3, 1, 0, 0]),
    ),
    (
        2,
        Form::ReedSolomon(7, 5),
        (&[2, 2, 1, 3, 1, 7, 0], &[3, 2, 1, 3, 1, 0, 0]),
    ),
    (
        2,
        Form::ReedSolomon(7, 5),
        (&[3, 1, 7, 3, 1, 0, 0], &[3, 2, 1, 3, 1, 0, 0]),
    ),
    (2, Form::ReedSolomon(7, 5), (&[2, 2, 1, 1, 1, 0, 4], &[])),
    (2, Form::ReedSolomon(7, 5), (&[4, 5, 6, 3, 1, 0, 0], &[])),
    (
        2,
        Form::ReedSolomon(7, 5),
        (&[0, 2, 4, 3, 7, 0, 0], &[0, 4, 4, 3, 7, 0, 3]),
    ),
    (
        2,
        Form::ReedSolomon(8, 5),
        (&[4, 7, 1, 8, 1, 0, 0, 0], &[4, 7, 1, 8, 1, 0, 0, 0]),
    ),
    (
        2,
        Form::ReedSolomon(8, 5),
        (&[4, 7, 1, 8, 1, 0, 0, 8], &[4, 7, 1, 8, 1, 0, 0, 0]),
    ),
    (
        2,
        Form::ReedSolomon(8, 5),
        (&[8, 7, 1, 8, 1, 0, 2, 0], &[4, 7, 1, 8, 1, 0, 0, 0]),
    ),
    (
        2,
        Form::ReedSolomon(8, 5),
        (&[4, 7, 2, 1, 1, 0, 0, 0], &[4, 7, 1, 8, 1, 0, 0, 0]),
    ),
    (2, Form::ReedSolomon(8, 5), (&[5, 7, 1, 7, 1, 0, 4, 0], &[])),
    (
        2,
        Form::ReedSolomon(8, 5),
        (&[4, 8, 1, 2, 1, 4, 0, 0], &[4, 8, 8, 2, 1, 4, 1, 0]),
    ),
    (
        2,
        Form::ReedSolomon(7, 1),
        (&[1, 2, 3, 4, 5, 6, 7], &[1, 2, 3, 4, 5, 6, 7]),
    ),
];

#[test]
fn words_of_reed_solomon_codes(rt: HostRuntime) {
    assert!(rt; are_decoded(rt.alloc(), &REED_SOLOMON));
}

// The generator polynomial of the BCH code of dimension 5 (Lin and Costello, Error Control Coding, chapter 6).
const GENERATOR: &[u8] = &[1, 1, 1, 0, 1, 1, 0, 0, 1, 0, 1, 0, 0, 0, 0];

// Received words with 0 to 3 errors, and with 4.
static BCH: [Row; 7] = [
    (2, Form::Bch(7), (GENERATOR, GENERATOR)),
    (
        2,
        Form::Bch(7),
        (&[1, 1, 1, 0, 1, 1, 0, 0, 1, 0, 1, 0, 0, 0, 1], GENERATOR),
    ),
    (
        2,
        Form::Bch(7),
        (&[0, 1, 1, 0, 1, 1, 0, 0, 1, 0, 1, 0, 0, 1, 0], GENERATOR),
    ),
    (
        2,
        Form::Bch(7),
        (&[1, 1, 1, 1, 1, 1, 0, 1, 1, 0, 1, 1, 0, 0, 0], GENERATOR),
    ),
    (
        2,
        Form::Bch(7),
        (&[1, 1, 1, 0, 1, 1, 0, 0, 1, 0, 1, 1, 1, 1, 1], &[]),
    ),
    (
        2,
        Form::Bch(7),
        (&[0, 1, 1, 1, 1, 1, 0, 1, 1, 0, 1, 1, 0, 0, 0], &[]),
    ),
    (
        2,
        Form::Bch(7),
        (&[1, 1, 1, 0, 1, 1, 0, 0, 1, 1, 1, 0, 1, 1, 1], &[]),
    ),
];

#[test]
fn words_of_a_bch_code(rt: HostRuntime) {
    assert!(rt; are_decoded(rt.alloc(), &BCH));
}

// One error is corrected, and two aren't, although the code has distance 5.
static GOPPA: [Row; 3] = [
    (
        2,
        Form::Goppa,
        (&[1, 1, 0, 1, 0, 1, 0, 1], &[1, 1, 0, 1, 0, 1, 0, 1]),
    ),
    (
        2,
        Form::Goppa,
        (&[1, 1, 1, 1, 0, 1, 0, 1], &[1, 1, 0, 1, 0, 1, 0, 1]),
    ),
    (2, Form::Goppa, (&[1, 1, 1, 1, 1, 1, 0, 1], &[])),
];

#[test]
fn words_of_a_goppa_code(rt: HostRuntime) {
    assert!(rt; are_decoded(rt.alloc(), &GOPPA));
}

// One check: only words of the code, whose symbols have the sum 0. As many as points: only the zero word.
static ALTERNANT: [Row; 4] = [
    (5, Form::Alternant(1), (&[1, 2, 0, 0, 2], &[1, 2, 0, 0, 2])),
    (5, Form::Alternant(1), (&[1, 2, 0, 0, 3], &[])),
    (5, Form::Alternant(5), (&[0, 3, 0, 0, 4], &[0, 0, 0, 0, 0])),
    (5, Form::Alternant(5), (&[1, 3, 0, 0, 4], &[])),
];

#[test]
fn words_of_alternant_codes(rt: HostRuntime) {
    assert!(rt; are_decoded(rt.alloc(), &ALTERNANT));
}
