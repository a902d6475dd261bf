//! The errors at given coordinates: the one solution of the check equations there.
ghost use Rattle.std.specs.Prelude.{◌≡◌, ℕ, ◌≤◌, List, length, Some, IfOk, IfSome};
ghost use Rattle.lc_algebra.specs.Word.{Fits, IsWord};
ghost use Rattle.lc_alternant.specs.Checks.{IsPointed};
ghost use Rattle.lc_alternant.specs.Chosen.{chosen, spread, HasSums, IsZeroBut};

use crate::checks::check_rows;
use lc_field::{Field, NoMemory};
use lc_matrix::Matrix;
use lc_vec::Word;
use std::alloc::Global;

// The word over the locator field that is 0 at each coordinate at which the values aren't, and whose sums for the first checks are
// the right side. The values are 0 at no more coordinates than the right side has entries, so no other word is such. If there is
// none, the answer is None or any word: who decodes tests it.
pub(crate) fn errors_at_zeros(
    alloc: Global,
    locator: &Field,
    points: &[u8],
    multipliers: &[u8],
    values: &[u8],
    right: &[u8],
) -> Result<Option<Word>, NoMemory>
    requires pointed { IsPointed locator.now points.now multipliers.now }
    requires values { length values.now ≡ length points.now }
    requires right { Fits locator.now right.now }
    requires few { length (chosen values.now points.now) ≤ length right.now }
    ensures word { IfOk result (λ o. IfSome o (λ e. IsWord locator.now (length points.now) e)) }
    ensures one { IfOk result (λ o. (z : List ℕ) → IsWord locator.now (length points.now) z → IsZeroBut values.now z →
        HasSums locator.now points.now multipliers.now z right.now → o ≡ Some z) }
{
    let points = chosen(alloc, values, points)?;
    let multipliers = chosen(alloc, values, multipliers)?;
    match solution(alloc, locator, &points, &multipliers, right)? {
        Some(errors) => {
            let word = spread(alloc, values, errors.symbols())?;
            Ok(Some(Word::from_vec(word)))
        }
        None => Ok(None),
    }
}

// The word whose sums for the first checks are the right side. If there is none, the answer is None or any word.
fn solution(
    alloc: Global,
    locator: &Field,
    points: &[u8],
    multipliers: &[u8],
    right: &[u8],
) -> Result<Option<Word>, NoMemory>
    requires pointed { IsPointed locator.now points.now multipliers.now }
    requires right { Fits locator.now right.now }
    requires few { length points.now ≤ length right.now }
    ensures word { IfOk result (λ o. IfSome o (λ w. IsWord locator.now (length points.now) w)) }
    ensures one { IfOk result (λ o. (z : List ℕ) → IsWord locator.now (length points.now) z →
        HasSums locator.now points.now multipliers.now z right.now → o ≡ Some z) }
{
    let rows = check_rows(alloc, locator, points, multipliers, right.len())?;
    let system = Matrix::from_rows(alloc, locator, points.len(), &rows)?;
    let solution = system.solve(alloc, right)?;
    Ok(solution)
}

// The entries at the coordinates at which the values are 0.
#[tactic(auto, using(crate::proofs::ChosenLaws::chosen_laws))]
fn chosen(alloc: Global, values: &[u8], entries: &[u8]) -> Result<Vec<u8>, NoMemory>
    requires lengths { length entries.now ≡ length values.now }
    ensures are { IfOk result (λ v. v.items ≡ chosen values.now entries.now) }
{
    let mut chosen = Vec::new(alloc);
    for i in 0..values.len() {
        if values[i] == 0 {
            chosen.push(entries[i])?;
        }
    }
    Ok(chosen)
}

// The entries, in their order, at the coordinates at which the values are 0, and 0 at the others.
#[tactic(auto, using(crate::proofs::ChosenLaws::spread_laws))]
fn spread(alloc: Global, values: &[u8], entries: &[u8]) -> Result<Vec<u8>, NoMemory>
    ensures are { IfOk result (λ v. v.items ≡ spread values.now entries.now) }
{
    let mut word = Vec::with_capacity(alloc, values.len())?;
    let mut next = 0;
    for i in 0..values.len() {
        if values[i] == 0 && next < entries.len() {
            word.push(entries[next])?;
            next += 1;
        } else {
            word.push(0)?;
        }
    }
    Ok(word)
}
