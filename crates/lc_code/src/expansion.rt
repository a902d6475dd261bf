//! The checks of an alternant form, expanded from the locator field to the symbol field.
ghost use Rattle.std.specs.Prelude.{◌≡◌, ℕ, ◌<◌, ◌++◌, length, map, slice_index, IfOk, IsTrue};
ghost use Rattle.lc_algebra.specs.Field.{shape_of, size, is_symbol};
ghost use Rattle.lc_algebra.specs.Residue.{digits};
ghost use Rattle.lc_algebra.specs.Polynomial.{value_at};
ghost use Rattle.lc_algebra.specs.Embedding.{IsSubfield, embed};
ghost use Rattle.lc_algebra.specs.Word.{Fits, IsWord};
ghost use Rattle.lc_algebra.specs.Span.{below};
ghost use Rattle.lc_algebra.specs.Matrix.{AreRows};
ghost use Rattle.lc_constructions.specs.Alternant.{IsForm, check_row};
ghost use Rattle.lc_code.specs.Coordinates.{relative_degree, element_of, IsNumbering, coordinate_row, AreExpandedChecks};

use crate::alternant::Alternant;
use lc_field::{Field, NoMemory};
use lc_vec::Word;
use std::alloc::Global;

// The coordinates over the field of the entries of the first `count` check rows.
#[tactic(auto, using(crate::proofs::CoordinateSteps::expanded_checks_laws))]
pub(crate) fn expanded_checks(
    alloc: Global,
    field: &Field,
    form: &Alternant,
    count: usize,
) -> Result<Vec<Word>, NoMemory>
    requires form { IsForm field.now form.now }
    ensures checks { IfOk result (λ rows. AreExpandedChecks field.now form.now count rows.items) }
    ensures words { IfOk result (λ rows. AreRows field.now (length form.now.points) rows.items) }
{
    let numbers = numbers(alloc, field, &form.locator)?;
    let degree = relative_degree(field, &form.locator);
    let mut rows = Vec::new(alloc);
    for j in 0..count {
        let entries = check_entries(alloc, form, j)?;
        add_coordinates(alloc, field, degree, &numbers, &entries, &mut rows)?;
    }
    Ok(rows)
}

// The entries of check row j: the products of the multipliers with the j-th powers of the points.
#[tactic(auto, using(crate::proofs::CoordinateSteps::check_entries_laws))]
fn check_entries(alloc: Global, form: &Alternant, j: usize) -> Result<Vec<u8>, NoMemory>
    requires points { Fits form.now.locator form.now.points }
    requires count { length form.now.multipliers ≡ length form.now.points }
    requires multipliers { Fits form.now.locator form.now.multipliers }
    ensures are { IfOk result (λ hs. hs.items ≡ check_row form.now.locator form.now.points form.now.multipliers j) }
{
    let mut entries = Vec::with_capacity(alloc, form.points.len())?;
    for k in 0..form.points.len() {
        let power = form.locator.pow(form.points[k], j as u64);
        entries.push(form.locator.mul(form.multipliers[k], power))?;
    }
    Ok(entries)
}

// Adds a row for each coordinate of the entries.
#[tactic(auto, using(crate::proofs::CoordinateSteps::add_coordinates_laws))]
fn add_coordinates(
    alloc: Global,
    field: &Field,
    degree: u8,
    numbers: &[u8],
    entries: &[u8],
    rows: &mut Vec<Word>,
) -> Result<(), NoMemory>
    requires symbol { IsTrue (is_symbol field.now) }
    requires entries { (k : ℕ) → k < length entries.now → slice_index entries.now k < length numbers.now }
    ensures added { IfOk result
        (λ _. rows.new.items ≡ rows.old.items ++ map (λ i. coordinate_row field.now degree numbers.now i entries.now)
        (below degree)) }
{
    for i in 0..degree {
        let row = coordinate_row(alloc, field, degree, numbers, entries, i)?;
        rows.push(row)?;
    }
    Ok(())
}

// Coordinate i of each entry.
#[tactic(auto, using(crate::proofs::CoordinateSteps::coordinate_row_laws))]
fn coordinate_row(
    alloc: Global,
    field: &Field,
    degree: u8,
    numbers: &[u8],
    entries: &[u8],
    i: u8,
) -> Result<Word, NoMemory>
    requires symbol { IsTrue (is_symbol field.now) }
    requires coordinate { i < degree }
    requires entries { (k : ℕ) → k < length entries.now → slice_index entries.now k < length numbers.now }
    ensures is { IfOk result (λ w. w ≡ coordinate_row field.now degree numbers.now i entries.now) }
{
    let mut row = Vec::with_capacity(alloc, entries.len())?;
    for k in 0..entries.len() {
        row.push(coordinate(field, degree, numbers[entries[k] as usize], i))?;
    }
    Ok(Word::from_vec(row))
}

// Coordinate i of those with number t.
#[tactic(auto, using(crate::proofs::CoordinateSteps::coordinate_laws))]
fn coordinate(field: &Field, degree: u8, t: u8, i: u8) -> u8
    requires symbol { IsTrue (is_symbol field.now) }
    requires coordinate { i < degree }
    ensures is { result ≡ slice_index (digits (size field.now) degree t) i }
{
    let q = field.size() as u8;
    if i == 0 {
        return t % q;
    }
    coordinate(field, degree - 1, t / q, i - 1)
}

// For each element of the locator field the number of its coordinates.
#[tactic(auto, using(crate::proofs::CoordinateSteps::numbers_laws))]
fn numbers(alloc: Global, field: &Field, locator: &Field) -> Result<Vec<u8>, NoMemory>
    requires symbol { IsTrue (is_symbol field.now) }
    requires subfield { IsSubfield field.now locator.now }
    ensures are { IfOk result (λ ts. IsNumbering field.now locator.now ts.items) }
{
    let size = locator.size() as usize;
    let degree = relative_degree(field, locator);
    let mut numbers = vec![in alloc; 0; size]?;
    for t in 0..size {
        let a = element(field, locator, degree, t as u8);
        numbers[a as usize] = t as u8;
    }
    Ok(numbers)
}

// The degree of the locator field over the field.
#[tactic(auto, using(crate::proofs::CoordinateSteps::relative_degree_laws))]
fn relative_degree(field: &Field, locator: &Field) -> u8
    ensures is { result ≡ relative_degree field.now locator.now }
{
    locator.degree() / field.degree()
}

// The element whose coordinates, as many as `degree`, have the number t.
#[tactic(auto, using(crate::proofs::CoordinateSteps::element_laws))]
fn element(field: &Field, locator: &Field, degree: u8, t: u8) -> u8
    requires symbol { IsTrue (is_symbol field.now) }
    requires subfield { IsSubfield field.now locator.now }
    ensures is { result ≡ value_at locator.now (map (embed field.now locator.now) (digits (size field.now) degree t))
        (shape_of locator.now).primitive }
    ensures below { result < size locator.now }
{
    if degree == 0 {
        return 0;
    }
    let q = field.size() as u8;
    let rest = element(field, locator, degree - 1, t / q);
    locator.add(
        locator.embed(field, t % q),
        locator.mul(locator.primitive(), rest),
    )
}
