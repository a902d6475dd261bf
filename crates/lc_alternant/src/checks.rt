//! Check rows of an alternant form, and the syndromes of a word.
ghost use Rattle.std.specs.Prelude.{◌≡◌, ◌<◌, length, map, IfOk};
ghost use Rattle.lc_algebra.specs.Embedding.{IsSubfield, embed};
ghost use Rattle.lc_algebra.specs.Field.{size};
ghost use Rattle.lc_algebra.specs.Word.{Fits, IsWord, word_dot};
ghost use Rattle.lc_constructions.specs.Alternant.{IsForm, check_row};
ghost use Rattle.lc_alternant.specs.Checks.{AreCheckRows, AreSyndromes};

use lc_code::Alternant;
use lc_field::{Field, NoMemory};
use lc_vec::{Word, dot};
use std::alloc::Global;

// The first check rows, as many as `count`: row j has the products of the multipliers with the j-th powers of the points.
#[tactic(auto, using(crate::proofs::StepLaws::check_rows_laws))]
pub(crate) fn check_rows(
    alloc: Global,
    locator: &Field,
    points: &[u8],
    multipliers: &[u8],
    count: usize,
) -> Result<Vec<Word>, NoMemory>
    requires points { Fits locator.now points.now }
    requires lengths { length multipliers.now ≡ length points.now }
    requires multipliers { Fits locator.now multipliers.now }
    ensures are { IfOk result (λ rows. AreCheckRows locator.now points.now multipliers.now count rows.items) }
{
    let mut rows = Vec::new(alloc);
    for j in 0..count {
        let entries = check_entries(alloc, locator, points, multipliers, j)?;
        rows.push(Word::from_vec(entries))?;
    }
    Ok(rows)
}

// The entries of check row j.
#[tactic(auto, using(crate::proofs::StepLaws::check_entries_laws))]
fn check_entries(
    alloc: Global,
    locator: &Field,
    points: &[u8],
    multipliers: &[u8],
    j: usize,
) -> Result<Vec<u8>, NoMemory>
    requires points { Fits locator.now points.now }
    requires lengths { length multipliers.now ≡ length points.now }
    requires multipliers { Fits locator.now multipliers.now }
    ensures are { IfOk result (λ entries. entries.items ≡ check_row locator.now points.now multipliers.now j) }
    ensures word { IfOk result (λ entries. IsWord locator.now (length points.now) entries.items) }
{
    let mut entries = Vec::with_capacity(alloc, points.len())?;
    for k in 0..points.len() {
        let power = locator.pow(points[k], j as u64);
        entries.push(locator.mul(multipliers[k], power))?;
    }
    Ok(entries)
}

// The syndromes of the word for the first checks, as many as `count`.
#[tactic(auto, using(crate::proofs::StepLaws::syndromes_laws))]
pub(crate) fn syndromes(
    alloc: Global,
    field: &Field,
    form: &Alternant,
    word: &[u8],
    count: usize,
) -> Result<Vec<u8>, NoMemory>
    requires form { IsForm field.now form.now }
    requires word { IsWord field.now (length form.now.points) word.now }
    ensures are { IfOk result (λ s. AreSyndromes field.now form.now word.now count s.items) }
    ensures fits { IfOk result (λ s. Fits form.now.locator s.items) }
{
    let images = images(alloc, field, &form.locator, word)?;
    let mut syndromes = Vec::with_capacity(alloc, count)?;
    for j in 0..count {
        let syndrome = syndrome(alloc, form, &images, j)?;
        syndromes.push(syndrome)?;
    }
    Ok(syndromes)
}

// The sum of the products of the symbols with the entries of check row j.
fn syndrome(alloc: Global, form: &Alternant, images: &[u8], j: usize) -> Result<u8, NoMemory>
    requires points { Fits form.now.locator form.now.points }
    requires lengths { length form.now.multipliers ≡ length form.now.points }
    requires multipliers { Fits form.now.locator form.now.multipliers }
    requires symbols { length images.now ≡ length form.now.points }
    requires images { Fits form.now.locator images.now }
    ensures is { IfOk result
        (λ s. s ≡ word_dot form.now.locator images.now
        (check_row form.now.locator form.now.points form.now.multipliers j)) }
    ensures below { IfOk result (λ s. s < size form.now.locator) }
{
    let row = check_entries(alloc, &form.locator, &form.points, &form.multipliers, j)?;
    Ok(dot(&form.locator, images, &row))
}

// The images of the symbols in the locator field.
#[tactic(auto, using(crate::proofs::StepLaws::images_laws))]
fn images(alloc: Global, field: &Field, locator: &Field, word: &[u8]) -> Result<Vec<u8>, NoMemory>
    requires subfield { IsSubfield field.now locator.now }
    requires word { Fits field.now word.now }
    ensures are { IfOk result (λ v. v.items ≡ map (embed field.now locator.now) word.now) }
    ensures length { IfOk result (λ v. length v.items ≡ length word.now) }
    ensures fits { IfOk result (λ v. Fits locator.now v.items) }
{
    let mut images = Vec::with_capacity(alloc, word.len())?;
    for i in 0..word.len() {
        images.push(locator.embed(field, word[i]))?;
    }
    Ok(images)
}
