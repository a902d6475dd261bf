//! Which codes the weight distribution isn't computed of: those with too many words, whose dual has too many words too, or
//! lies in too large a space.
ghost use Rattle.std.specs.Prelude.{◌≡◌, ◌^◌, ◌<◌, length, nat_lt, ◌&&◌, ◌||◌, option_map};
ghost use Rattle.lc_algebra.specs.Field.{size};
ghost use Rattle.lc_enumeration.specs.Distribution.{distribution_refusal};
ghost use Rattle.lc_macwilliams.specs.Refused.{refused_sizes};

use lc_code::Code;

// At most so many words are counted.
const MOST_WORDS: u64 = 1 << 24;

// The distribution is found from that of the dual if there are at most so many vectors.
const MOST_VECTORS: u64 = 1 << 63;

/// A code whose weight distribution isn't computed: its dimension, and that of its dual.
#[derive(Clone, Copy, Debug, PartialEq, Eq)]
pub struct DistributionRefusal {
    /// The dimension k of the code.
    pub dimension: usize,
    /// The dimension n - k of its dual.
    pub codimension: usize,
}

/// Whether the weight distribution of a code isn't computed: over q elements, with dimension k and length n, exactly if q^k
/// is above 2^24 and besides q^(n - k) is above 2^24 or q^n is above 2^63. It takes no memory.
pub fn refusal(code: &Code) -> Option<DistributionRefusal>
    ensures is { option_map refused_sizes result
        ≡ distribution_refusal (size code.now.field) code.now.columns (length code.now.rows) }
{
    let q = u64::from(code.field().size());
    let n = code.length();
    let k = code.dimension();
    let many = is_power_above(q, k, MOST_WORDS);
    let many_of_dual = is_power_above(q, n - k, MOST_WORDS);
    let large = is_power_above(q, n, MOST_VECTORS);
    if is_refused(many, many_of_dual, large) {
        return Some(DistributionRefusal {
            dimension: k,
            codimension: n - k,
        });
    }
    None
}

// Whether a code is refused that has many words, whose dual has many, and whose words are among so many vectors.
fn is_refused(many: bool, many_of_dual: bool, large: bool) -> bool
    ensures is { result ≡ (many && (many_of_dual || large)) }
{
    many && (many_of_dual || large)
}

/// Whether a code has more than 2^24 words, so many that its dual's are counted instead. It takes no memory.
pub fn has_many_words(code: &Code) -> bool
    ensures is { result ≡ nat_lt (2 ^ 24) (size code.now.field ^ length code.now.rows) }
{
    is_power_above(u64::from(code.field().size()), code.dimension(), MOST_WORDS)
}

// Whether q^e is above a bound. It stops as soon as it is.
#[tactic(auto, using(crate::proofs::RefusalLaws::power_laws))]
fn is_power_above(q: u64, e: usize, bound: u64) -> bool
    requires base { 1 < q }
    ensures is { result ≡ nat_lt bound (q ^ e) }
{
    let most = u128::from(bound);
    let factor = u128::from(q);
    let mut product: u128 = 1;
    for _counter in 0..e {
        if product > most {
            return true;
        }
        product *= factor;
    }
    product > most
}
