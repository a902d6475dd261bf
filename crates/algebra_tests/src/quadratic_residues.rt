//! Tests of quadratic residue codes, by their lengths and dimensions (MacWilliams and Sloane, chapter 16); each refusal is seen.
use lc_code::{Code, CodeRefusal};
use lc_field::Field;
use lc_residues::quadratic_residue;
use std::alloc::Global;

// The size of a field, a length, and the dimension of the code, none where there is no such code, or why it is refused.
static CODES: [(u64, u64, Result<Option<usize>, CodeRefusal>); 15] = [
    (2, 7, Ok(Some(4))),
    (2, 17, Ok(Some(9))),
    (2, 23, Ok(Some(12))),
    (3, 11, Ok(Some(6))),
    (3, 13, Ok(Some(7))),
    (4, 5, Ok(Some(3))),
    (5, 11, Ok(Some(6))),
    (2, 11, Ok(None)),
    (4, 9, Ok(None)),
    (3, 3, Ok(None)),
    (3, 2, Ok(None)),
    (2, 1, Ok(None)),
    (2, 0, Err(CodeRefusal::BadLength)),
    (2, 256, Err(CodeRefusal::BadLength)),
    (25, 256, Err(CodeRefusal::FieldTooLarge)),
];

fn dimension_of(code: Result<Option<Code>, CodeRefusal>) -> Result<Option<usize>, CodeRefusal> {
    match code? {
        Some(code) => Ok(Some(code.dimension())),
        None => Ok(None),
    }
}

// The dimension of the code of this length over q elements.
fn dimension(alloc: Global, q: u64, n: u64) -> Result<Option<usize>, CodeRefusal> {
    match Field::of(alloc, q) {
        Ok(field) => dimension_of(quadratic_residue(alloc, n, &field)),
        Err(_) => Err(CodeRefusal::NoMemory),
    }
}

#[test]
fn dimensions_of_quadratic_residue_codes(rt: HostRuntime) {
    for row in &CODES {
        let k = dimension(rt.alloc(), row.0, row.1);
        assert!(rt; k == row.2, "{} over {}", row.1, row.0);
    }
}
