//! Odd primes and quadratic residues.
ghost use Rattle.std.specs.Prelude.{◌≡◌, ◌<◌, ◌≤◌};
ghost use Rattle.lc_language.specs.QuadraticResidues.{is_odd_prime, is_residue, is_residue_length};

// Whether n is an odd prime.
#[tactic(auto, using(crate::proofs::ResidueTests::is_odd_prime_laws))]
fn is_odd_prime(n: u64) -> bool
    ensures is { result ≡ is_odd_prime n }
{
    if n <= 2 {
        return false;
    }
    for d in 2..n {
        if n % d == 0 {
            return false;
        }
    }
    true
}

// Whether a is a nonzero square modulo n.
#[tactic(auto, using(crate::proofs::ResidueTests::is_residue_laws))]
pub(crate) fn is_residue(n: u64, a: u64) -> bool
    requires least { 0 < n }
    requires most { n ≤ 255 }
    ensures is { result ≡ is_residue n a }
{
    if a % n == 0 {
        return false;
    }
    for j in 0..n {
        if j * j % n == a % n {
            return true;
        }
    }
    false
}

// Whether n is an odd prime modulo which q is a quadratic residue.
#[tactic(auto, unfolding(lc_language::specs::QuadraticResidues::is_residue_length))]
pub(crate) fn is_residue_length(q: u64, n: u64) -> bool
    requires least { 0 < n }
    requires most { n ≤ 255 }
    ensures is { result ≡ is_residue_length q n }
{
    is_odd_prime(n) && is_residue(n, q)
}
