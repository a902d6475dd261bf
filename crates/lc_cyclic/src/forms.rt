//! The alternant forms of BCH codes.
ghost use Rattle.std.specs.Prelude.{◌≡◌, ◌-◌, ◌<◌, ◌≤◌, IfOk};
ghost use Rattle.lc_algebra.specs.Field.{size};
ghost use Rattle.lc_constructions.specs.Alternant.{bch_form};
ghost use Rattle.lc_constructions.specs.Cyclic.{root_of_unity};
ghost use Rattle.lc_cyclic.specs.Powers.{powers};

use lc_code::Alternant;
use lc_field::{Field, NoMemory};
use std::alloc::Global;

// The form with the points β^i, the multipliers β^(i b) and d - 1 checks, where β is an element of order n of the locator field.
#[tactic(auto, using(crate::proofs::BchLaws::form_told))]
pub(crate) fn form_of(
    alloc: Global,
    locator: Field,
    n: u64,
    b: u64,
    d: u64,
) -> Result<Alternant, NoMemory>
    requires least { 1 ≤ n }
    requires most { n ≤ 255 }
    requires first { b < 256 }
    requires delta { 1 ≤ d }
    ensures is { IfOk result (λ form. form ≡ bch_form locator n b d) }
{
    let root = root_of_unity(&locator, n);
    let points = powers(alloc, &locator, root, 1, n)?;
    let multipliers = powers(alloc, &locator, root, b, n)?;
    Ok(form_from(locator, points, multipliers, (d - 1) as usize))
}

// The form with these parts.
fn form_from(locator: Field, points: Vec<u8>, multipliers: Vec<u8>, r: usize) -> Alternant
    ensures locator { result.locator ≡ locator }
    ensures points { result.points ≡ points.items }
    ensures multipliers { result.multipliers ≡ multipliers.items }
    ensures r { result.r ≡ r }
{
    Alternant {
        locator,
        points,
        multipliers,
        r,
    }
}

// The power of the primitive element that has order n, if n divides the number of nonzero elements.
#[tactic(auto, unfolding(lc_constructions::specs::Cyclic::root_of_unity))]
pub(crate) fn root_of_unity(locator: &Field, n: u64) -> u8
    requires least { 1 ≤ n }
    ensures is { result ≡ root_of_unity locator.now n }
    ensures below { result < size locator.now }
{
    locator.pow(locator.primitive(), (locator.size() as u64 - 1) / n)
}

// The powers of x by i s, for i below n.
#[tactic(auto, using(crate::proofs::BchLaws::powers_none, crate::proofs::BchLaws::powers_more))]
fn powers(alloc: Global, field: &Field, x: u8, s: u64, n: u64) -> Result<Vec<u8>, NoMemory>
    requires element { x < size field.now }
    requires step { s < 256 }
    requires most { n ≤ 255 }
    ensures are { IfOk result (λ xs. xs.items ≡ powers field.now x s n) }
{
    let mut powers = Vec::with_capacity(alloc, n as usize)?;
    for i in 0..n {
        powers.push(field.pow(x, i * s))?;
    }
    Ok(powers)
}
