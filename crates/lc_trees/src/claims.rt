//! Claims, tried after their parts.
ghost use Rattle.std.specs.Prelude.{◌≡◌, ◌+◌, ◌≤◌, IsTrue};
ghost use Rattle.lc_algebra.specs.Field.{is_symbol};
ghost use Rattle.lc_formats.specs.Claim.{pair, concat, subcode, at_places, extend, claim_total};
ghost use Rattle.lc_formats.specs.ClaimMeaning.{HasOutcome};
ghost use Rattle.lc_formats.specs.Document.{IsShapedClaim};
ghost use Rattle.lc_certificate.specs.Trees.{pair_of, place_of, claim_of};
ghost use Rattle.lc_trees.specs.Outcome.{IsOutcomeOf};

use crate::kinds::{combined, lengthened, nested, placed, spanned};
use crate::leaves::{StatedForm, formed, searched};
use crate::outcome::{Made, Stop, total};
use lc_certificate::{Claim, PairKind, PlaceKind};
use lc_field::Field;
use lc_vec::Word;
use std::alloc::Global;

// What comes of the claim over the field, whose number this is.
#[cycle(made)]
#[tactic(auto, unfolding(crate::proofs::Opened::claims))]
pub(crate) fn made(alloc: Global, field: &Field, claim: &Claim, number: u64) -> Result<Made, Stop>
    requires symbol { IsTrue (is_symbol field.now) }
    requires shaped { IsShapedClaim field.now (claim_of claim.now) }
    requires few { number + claim_total (claim_of claim.now) ≤ 1024 }
    ensures is { IsOutcomeOf result (HasOutcome field.now number (claim_of claim.now)) }
{
    match claim {
        Claim::Search(cert) => searched(alloc, field, cert, number),
        Claim::Alternant {
            locator,
            points,
            multipliers,
            r,
        } => {
            let form = StatedForm {
                locator: *locator,
                points: points.symbols(),
                multipliers: multipliers.symbols(),
                r: *r,
            };
            formed(alloc, field, &form, number)
        }
        Claim::Pair(kind, left, right) => pair(alloc, field, *kind, left, right, number),
        Claim::Concat {
            large,
            outer,
            inner,
        } => concat(alloc, field, *large, outer, inner, number),
        Claim::Subcode { of, rows } => subcode(alloc, field, of, rows, number),
        Claim::Places(kind, of, places) => at_places(alloc, field, *kind, of, places, number),
        Claim::Extend(of) => extend(alloc, field, of, number),
    }
}

// What comes of two claims combined.
#[cycle(made)]
fn pair(
    alloc: Global,
    field: &Field,
    kind: PairKind,
    left: &Claim,
    right: &Claim,
    number: u64,
) -> Result<Made, Stop>
    requires symbol { IsTrue (is_symbol field.now) }
    requires shaped { IsShapedClaim field.now (pair (pair_of kind) (claim_of left.now) (claim_of right.now)) }
    requires few { number + claim_total (pair (pair_of kind) (claim_of left.now) (claim_of right.now)) ≤ 1024 }
    ensures is { IsOutcomeOf result
        (HasOutcome field.now number (pair (pair_of kind) (claim_of left.now) (claim_of right.now))) }
{
    let one = made(alloc, field, left, number + 1)?;
    let two = made(alloc, field, right, number + 1 + total(left))?;
    combined(alloc, number, kind, &one, &two)
}

// What comes of a concatenation.
#[cycle(made)]
fn concat(
    alloc: Global,
    field: &Field,
    large: u64,
    outer: &Claim,
    inner: &Claim,
    number: u64,
) -> Result<Made, Stop>
    requires symbol { IsTrue (is_symbol field.now) }
    requires shaped { IsShapedClaim field.now (concat large (claim_of outer.now) (claim_of inner.now)) }
    requires few { number + claim_total (concat large (claim_of outer.now) (claim_of inner.now)) ≤ 1024 }
    ensures is { IsOutcomeOf result
        (HasOutcome field.now number (concat large (claim_of outer.now) (claim_of inner.now))) }
{
    let Ok(larger) = Field::of(alloc, large) else {
        return Err(Stop::NoMemory);
    };
    let one = made(alloc, &larger, outer, number + 1)?;
    let two = made(alloc, field, inner, number + 1 + total(outer))?;
    nested(alloc, number, &one, &two)
}

// What comes of the span of some words of a code.
#[cycle(made)]
fn subcode(
    alloc: Global,
    field: &Field,
    of: &Claim,
    rows: &[Word],
    number: u64,
) -> Result<Made, Stop>
    requires symbol { IsTrue (is_symbol field.now) }
    requires shaped { IsShapedClaim field.now (subcode (claim_of of.now) rows.now) }
    requires few { number + claim_total (subcode (claim_of of.now) rows.now) ≤ 1024 }
    ensures is { IsOutcomeOf result (HasOutcome field.now number (subcode (claim_of of.now) rows.now)) }
{
    let one = made(alloc, field, of, number + 1)?;
    spanned(alloc, number, rows, &one)
}

// What comes of a code punctured or shortened.
#[cycle(made)]
fn at_places(
    alloc: Global,
    field: &Field,
    kind: PlaceKind,
    of: &Claim,
    places: &[u64],
    number: u64,
) -> Result<Made, Stop>
    requires symbol { IsTrue (is_symbol field.now) }
    requires shaped { IsShapedClaim field.now (at_places (place_of kind) (claim_of of.now) places.now) }
    requires few { number + claim_total (at_places (place_of kind) (claim_of of.now) places.now) ≤ 1024 }
    ensures is { IsOutcomeOf result
        (HasOutcome field.now number (at_places (place_of kind) (claim_of of.now) places.now)) }
{
    let one = made(alloc, field, of, number + 1)?;
    placed(alloc, number, kind, places, &one)
}

// What comes of an extended code.
#[cycle(made)]
fn extend(alloc: Global, field: &Field, of: &Claim, number: u64) -> Result<Made, Stop>
    requires symbol { IsTrue (is_symbol field.now) }
    requires shaped { IsShapedClaim field.now (extend (claim_of of.now)) }
    requires few { number + claim_total (extend (claim_of of.now)) ≤ 1024 }
    ensures is { IsOutcomeOf result (HasOutcome field.now number (extend (claim_of of.now))) }
{
    let one = made(alloc, field, of, number + 1)?;
    lengthened(alloc, number, &one)
}
