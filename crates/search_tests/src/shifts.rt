//! Codes over 2 elements of the shifts of one word.
ghost use Rattle.std.specs.Prelude.{◌<◌, IfOk, length};

use lc_code::Code;
use lc_field::{Field, NoMemory};
use lc_vec::Word;
use std::alloc::Global;
use std::process::Abort;
use std::test::Fail;
use test_rows::are_words;

// The Hamming code of length 7.
pub(crate) const HAMMING: Shifts = Shifts {
    length: 7,
    dimension: 4,
    exponents: &[0, 1, 3],
};

// The quadratic residue code of length 47 (MacWilliams and Sloane, chapter 16).
pub(crate) const RESIDUES: Shifts = Shifts {
    length: 47,
    dimension: 24,
    exponents: &[0, 1, 2, 3, 5, 6, 7, 9, 10, 12, 13, 14, 18, 19, 23],
};

// A code whose best word is in block 4.
pub(crate) const SHIFTS: Shifts = Shifts {
    length: 60,
    dimension: 26,
    exponents: &[
        0, 3, 4, 5, 10, 12, 13, 15, 17, 18, 21, 22, 23, 25, 28, 30, 32, 33, 34,
    ],
};

// A code of even weights, whose best word is in block 11.
pub(crate) const EVEN_SHIFTS: Shifts = Shifts {
    length: 60,
    dimension: 26,
    exponents: &[0, 1, 2, 6, 8, 10, 16, 21, 23, 26, 32, 34],
};

// A code whose best word is in block 101, one of 68 of its phase.
pub(crate) const LATE_SHIFTS: Shifts = Shifts {
    length: 62,
    dimension: 34,
    exponents: &[0, 2, 4, 6, 8, 11, 15, 21, 22, 24, 28],
};

// The BCH code of length 63 with design distance 7: the shifts of its generator polynomial.
pub(crate) const BCH_63: Shifts = Shifts {
    length: 63,
    dimension: 45,
    exponents: &[0, 1, 2, 3, 6, 7, 9, 15, 16, 17, 18],
};

// The BCH code of length 255 with design distance 15, whose plan is cut.
pub(crate) const BCH_255: Shifts = Shifts {
    length: 255,
    dimension: 199,
    exponents: &[
        0, 5, 6, 7, 10, 13, 15, 16, 17, 22, 26, 30, 31, 32, 34, 36, 39, 40, 45, 46, 48, 49, 52, 53,
        54, 55, 56,
    ],
};

// The code over 2 elements of the shifts of one word, with ones at the exponents.
pub(crate) struct Shifts {
    length: usize,
    dimension: usize,
    exponents: &'static [usize],
}

// The word with ones at the exponents, moved by so many coordinates.
fn shifted(alloc: Global, shifts: &Shifts, by: usize) -> Result<Word, NoMemory> {
    let mut symbols = vec![in alloc; 0u8; shifts.length]?;
    for exponent in shifts.exponents {
        if let Some(symbol) = symbols.get_mut(exponent.saturating_add(by)) {
            *symbol = 1;
        }
    }
    Ok(Word::from_vec(symbols))
}

// The words of the shifts.
fn words_of(alloc: Global, shifts: &Shifts) -> Result<Vec<Word>, NoMemory> {
    let mut words = Vec::new(alloc);
    for by in 0..shifts.dimension {
        words.push(shifted(alloc, shifts, by)?)?;
    }
    Ok(words)
}

// The code of rows that are seen to be words of n symbols, of dimension at least 1.
fn code_over(
    rt: &impl Abort,
    alloc: Global,
    field: &Field,
    n: usize,
    words: &[Word],
) -> Result<Code, Fail>
    ensures some { IfOk result (λ c. 0 < length c.rows) }
{
    assert!(rt; field.is_symbol() && 1 <= n && n <= 255 && are_words(field, n, words));
    let code = Code::from_rows(alloc, field, n, words)?;
    assert!(rt; 1 <= code.dimension());
    Ok(code)
}

// The code of the shifts, of dimension at least 1.
pub(crate) fn code_of(rt: &impl Abort, alloc: Global, shifts: &Shifts) -> Result<Code, Fail>
    ensures some { IfOk result (λ c. 0 < length c.rows) }
{
    let field = Field::of(alloc, 2)?;
    let words = words_of(alloc, shifts)?;
    code_over(rt, alloc, &field, shifts.length, &words)
}
