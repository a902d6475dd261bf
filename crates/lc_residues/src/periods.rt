//! Gaussian periods in a field.
ghost use Rattle.std.specs.Prelude.{◌≡◌, ◌<◌, ◌≤◌, IsTrue};
ghost use Rattle.lc_algebra.specs.Field.{size, is_symbol};
ghost use Rattle.lc_language.specs.QuadraticResidues.{is_residue_length, period_norm, is_period, period};

use lc_field::Field;

// The constant coefficient of the polynomial of the periods.
#[tactic(auto, unfolding(lc_language::specs::QuadraticResidues::period_norm))]
fn period_norm(field: &Field, n: u64) -> u8
    requires least { 0 < n }
    requires most { n ≤ 255 }
    ensures is { result ≡ period_norm field.now n }
    ensures below { result < size field.now }
{
    let p = field.characteristic() as u64;
    if n % 4 == 1 {
        field.neg(((n - 1) / 4 % p) as u8)
    } else {
        ((n + 1) / 4 % p) as u8
    }
}

// Whether the element t is a period.
#[tactic(auto, unfolding(lc_language::specs::QuadraticResidues::is_period))]
fn is_period(field: &Field, n: u64, t: u8) -> bool
    requires least { 0 < n }
    requires most { n ≤ 255 }
    requires element { t < size field.now }
    ensures is { result ≡ is_period field.now n t }
{
    let sum = field.add(field.mul(t, t), t);
    field.add(sum, period_norm(field, n)) == 0
}

// The least period.
#[tactic(auto, using(crate::proofs::PeriodLaws::period_found))]
pub(crate) fn period(field: &Field, n: u64) -> u8
    requires symbol { IsTrue (is_symbol field.now) }
    requires least { 0 < n }
    requires most { n ≤ 255 }
    requires length { IsTrue (is_residue_length (size field.now) n) }
    ensures is { result ≡ period field.now n }
    ensures below { result < size field.now }
{
    for t in 0..field.size() {
        if is_period(field, n, t as u8) {
            return t as u8;
        }
    }
    unreachable!()
}
