//! The codes that claims make of the codes of their parts, with their bounds.
ghost use Rattle.std.specs.Prelude.{◌≡◌, ◌≤◌, ◌==◌, if◌then◌else◌, length, All, IsTrue, IsErrOf, IfOk};
ghost use Rattle.std.specs.List.{list_all};
ghost use Rattle.lc_algebra.specs.Word.{IsWord, Fits};
ghost use Rattle.lc_algebra.specs.Divisor.{rounded};
ghost use Rattle.lc_formats.specs.Claim.{puncture};
ghost use Rattle.lc_formats.specs.ClaimMeaning.{in_code, place_bound};
ghost use Rattle.lc_certificate.specs.Trees.{pair_of, place_of};
ghost use Rattle.lc_trees.specs.Outcome.{IsOutcomeOf, PairOutcome, NestOutcome, SpanOutcome, PlaceOutcome, ExtendOutcome};

use crate::outcome::{Made, Stop, own};
use lc_certificate::{PairKind, PlaceKind};
use lc_code::Code;
use lc_combine::{concatenated, direct_product, direct_sum, extended, punctured, shortened, uuv};
use lc_field::NoMemory;
use lc_vec::Word;
use std::alloc::Global;

// What comes of two codes combined, by the claim of this number.
pub(crate) fn combined(
    alloc: Global,
    number: u64,
    kind: PairKind,
    one: &Made,
    two: &Made,
) -> Result<Made, Stop>
    ensures is { IsOutcomeOf result
        (PairOutcome number (pair_of kind) one.now.code one.now.bound two.now.code two.now.bound) }
{
    let first = one.bound as u64;
    let second = two.bound as u64;
    match kind {
        PairKind::Uuv => {
            let code = uuv(alloc, &one.code, &two.code);
            own(number, code, (2 * first).min(second))
        }
        PairKind::Sum => {
            let code = direct_sum(alloc, &one.code, &two.code);
            own(number, code, first.min(second))
        }
        PairKind::Product => {
            let code = direct_product(alloc, &one.code, &two.code);
            own(number, code, first * second)
        }
    }
}

// What comes of the concatenation of an outer and an inner code.
pub(crate) fn nested(alloc: Global, number: u64, outer: &Made, inner: &Made) -> Result<Made, Stop>
    ensures is { IsOutcomeOf result (NestOutcome number outer.now.code outer.now.bound inner.now.code inner.now.bound) }
{
    let bound = outer.bound as u64 * inner.bound as u64;
    let code = concatenated(alloc, &outer.code, &inner.code);
    own(number, code, bound)
}

// What comes of the span of some rows that are to be words of the code.
#[tactic(auto, using(crate::proofs::KindLaws::spanned_laws))]
pub(crate) fn spanned(alloc: Global, number: u64, rows: &[Word], of: &Made) -> Result<Made, Stop>
    requires rows { All (λ row. Fits of.now.code.field row) rows.now }
    ensures is { IsOutcomeOf result (SpanOutcome number rows.now of.now.code of.now.bound) }
    ensures needed { IsErrOf result Stop.NoMemory →
        IsTrue (list_all (λ row. length row == of.now.code.columns) rows.now) }
{
    if !have_length(rows, of.code.length()) {
        return Err(Stop::Refused(number, 12));
    }
    if !are_inside(alloc, &of.code, rows)? {
        return Err(Stop::Refused(number, 33));
    }
    let span = Code::from_rows(alloc, of.code.field(), of.code.length(), rows)?;
    own(number, Ok(span), of.bound as u64)
}

// Whether each row has n symbols.
fn have_length(rows: &[Word], n: usize) -> bool
    ensures is { result ≡ list_all (λ row. length row == n) rows.now }
{
    rows.iter().all(|row| row.len() == n)
}

// Whether each row is a word of the code.
#[tactic(auto, using(crate::proofs::KindLaws::are_inside_laws))]
fn are_inside(alloc: Global, code: &Code, rows: &[Word]) -> Result<bool, NoMemory>
    requires rows { All (IsWord code.now.field code.now.columns) rows.now }
    ensures is { IfOk result (λ b. b ≡ list_all (in_code code.now) rows.now) }
{
    let mut buffer = vec![in alloc; 0u8; code.length()]?;
    for row in rows {
        if !code.contains(row.symbols(), &mut buffer) {
            return Ok(false);
        }
    }
    Ok(true)
}

// What comes of the code punctured or shortened at these coordinates.
pub(crate) fn placed(
    alloc: Global,
    number: u64,
    kind: PlaceKind,
    places: &[u64],
    of: &Made,
) -> Result<Made, Stop>
    ensures is { IsOutcomeOf result (PlaceOutcome number (place_of kind) places.now of.now.code of.now.bound) }
{
    let bound = of.bound as u64;
    match kind {
        PlaceKind::Puncture => {
            let code = punctured(alloc, &of.code, places);
            own(number, code, bound_without(bound, places.len() as u64))
        }
        PlaceKind::Shorten => {
            let code = shortened(alloc, &of.code, places);
            own(number, code, bound)
        }
    }
}

// The bound of a code that is punctured at n coordinates.
#[tactic(auto, unfolding(lc_formats::specs::ClaimMeaning::place_bound))]
fn bound_without(bound: u64, n: u64) -> u64
    ensures is { result ≡ place_bound puncture bound n }
{
    bound.saturating_sub(n).max(1)
}

// What comes of the extended code.
pub(crate) fn lengthened(alloc: Global, number: u64, of: &Made) -> Result<Made, Stop>
    ensures is { IsOutcomeOf result (ExtendOutcome number of.now.code of.now.bound) }
{
    let bound = even_bound(of.code.field().size(), of.bound as u64);
    let code = extended(alloc, &of.code);
    own(number, code, bound)
}

// The bound of the extended code of a code over q elements.
#[tactic(auto, unfolding(lc_algebra::specs::Divisor::rounded))]
fn even_bound(q: u16, bound: u64) -> u64
    requires small { bound ≤ 65535 }
    ensures is { result ≡ (if q == 2 then rounded 2 bound else bound) }
{
    if q == 2 { (bound + 1) / 2 * 2 } else { bound }
}
