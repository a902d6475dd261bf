//! Sums of polynomials, by the digits of their numbers.
ghost use Rattle.std.specs.Prelude.{◌≡◌, ℕ, ◌<◌, ◌≤◌, ◌^◌};
ghost use Rattle.lc_field.specs.Tables.{combined};

// The number of the polynomial a + c b, coefficient by coefficient modulo p: the polynomials of the numbers a and b have
// degree below s.
pub(crate) fn combine(p: u32, s: u32, c: u32, a: u32, b: u32) -> u32
    requires prime { 1 < p }
    requires small { p ^ s ≤ 256 }
    requires residue { c < 256 }
    ensures is { result ≡ combined p s c a b }
    ensures below { result < p ^ s }
{
    if s == 0 {
        return 0;
    }
    let lowest = (a % p + c * (b % p)) % p;
    lowest + p * combine(p, s - 1, c, a / p, b / p)
}
