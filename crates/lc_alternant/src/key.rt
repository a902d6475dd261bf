//! The key polynomial of a received word's syndromes: it is 0 at the point of each error, if there are few.
ghost use Rattle.std.specs.Prelude.{◌≡◌, ◌*◌, ◌≤◌, length, map, IfOk};
ghost use Rattle.lc_algebra.specs.Polynomial.{value_at};
ghost use Rattle.lc_algebra.specs.Word.{Fits};
ghost use Rattle.lc_alternant.specs.Key.{AreKeyRows, IsKey, AreKeyValues};

use lc_field::{Field, NoMemory};
use lc_matrix::Matrix;
use lc_poly::Poly;
use lc_vec::Word;
use std::alloc::Global;

// The values of a key polynomial at the points. There are 2 t syndromes.
pub(crate) fn key_values(
    alloc: Global,
    locator: &Field,
    points: &[u8],
    syndromes: &[u8],
    t: usize,
) -> Result<Vec<u8>, NoMemory>
    requires points { Fits locator.now points.now }
    requires syndromes { Fits locator.now syndromes.now }
    requires count { length syndromes.now ≡ 2 * t }
    requires few { t ≤ 255 }
    ensures are { IfOk result (λ vs. AreKeyValues locator.now t syndromes.now points.now vs.items) }
{
    let key = key_polynomial(alloc, locator, syndromes, t)?;
    values_at(alloc, &key, points)
}

// A polynomial of degree at most t, not 0, whose recurrence on the syndromes gives 0 in t places.
fn key_polynomial(
    alloc: Global,
    locator: &Field,
    syndromes: &[u8],
    t: usize,
) -> Result<Poly, NoMemory>
    requires syndromes { Fits locator.now syndromes.now }
    requires count { length syndromes.now ≡ 2 * t }
    requires few { t ≤ 255 }
    ensures field { IfOk result (λ p. p.field ≡ locator.now) }
    ensures key { IfOk result (λ p. IsKey locator.now t syndromes.now p.coefficients) }
{
    let rows = key_rows(alloc, syndromes, t)?;
    let matrix = Matrix::from_rows(alloc, locator, t + 1, &rows)?;
    let kernel = matrix.kernel(alloc)?;
    let key = Poly::from_list(alloc, locator, kernel.row(0))?;
    Ok(key)
}

// The rows of the key equation: row j has the syndromes j to j + t.
#[tactic(auto, using(crate::proofs::StepLaws::key_rows_laws))]
fn key_rows(alloc: Global, syndromes: &[u8], t: usize) -> Result<Vec<Word>, NoMemory>
    requires count { length syndromes.now ≡ 2 * t }
    requires few { t ≤ 255 }
    ensures are { IfOk result (λ rows. AreKeyRows t t syndromes.now rows.items) }
{
    let mut rows = Vec::with_capacity(alloc, t)?;
    for j in 0..t {
        rows.push(Word::from_slice(alloc, &syndromes[j..j + t + 1])?)?;
    }
    Ok(rows)
}

// The values of the polynomial at the points.
#[tactic(auto, using(crate::proofs::StepLaws::values_at_laws))]
fn values_at(alloc: Global, polynomial: &Poly, points: &[u8]) -> Result<Vec<u8>, NoMemory>
    requires points { Fits polynomial.now.field points.now }
    ensures are { IfOk result
        (λ vs. vs.items ≡ map (value_at polynomial.now.field polynomial.now.coefficients) points.now) }
{
    let mut values = Vec::with_capacity(alloc, points.len())?;
    for i in 0..points.len() {
        values.push(polynomial.eval(points[i]))?;
    }
    Ok(values)
}
