//! The bound at the beginning of a phase.

ghost use Rattle.std.specs.Prelude.{◌≡◌, ℕ, ◌+◌, ◌-◌, ◌*◌, ◌/◌, ◌^◌, ◌<◌, ◌≤◌, length};
ghost use Rattle.lc_algebra.specs.Field.{size};
ghost use Rattle.lc_enumeration.specs.Search.{set_count, ranks_of};
ghost use Rattle.lc_enumeration.specs.NearWord.{coset_blocks_before, coset_phases, levels_done, near_sum};
ghost use Rattle.lc_infoset.specs.Bound.{set_at};

use lc_infoset::Sets;

/// The bound at the beginning of a phase: the sum over the sets of levels done - (k - fresh columns), where that is positive.
/// The phase begins below block 2^40.
pub(crate) fn bound_at(sets: &Sets, phase: usize) -> u64
    requires inside { phase ≤ coset_phases (length sets.now.rows) (set_count sets.now) }
    requires uncut { coset_blocks_before (length sets.now.rows) (size sets.now.field)
        (set_count sets.now) phase < 2 ^ 40 }
    ensures is { result ≡ near_sum (length sets.now.rows) (ranks_of sets.now)
        (levels_done sets.now (coset_blocks_before (length sets.now.rows) (size sets.now.field)
        (set_count sets.now) phase)) }
{
    let _long = sets.length();
    let _many = sets.dimension();
    let mut sum: u64 = 0;
    for j in 0..sets.count() {
        sum += bound_on(sets, phase, j);
    }
    sum
}

// What a set gives at the beginning of a phase.
fn bound_on(sets: &Sets, phase: usize, j: usize) -> u64
    requires set { j < set_count sets.now }
    requires few { phase < 2 ^ 17 }
    ensures is { result ≡ (phase + (set_count sets.now - 1 - j)) / set_count sets.now -
        (length sets.now.rows - length (set_at sets.now j).fresh) }
    ensures few { result < 2 ^ 18 }
{
    let _long = sets.length();
    let m = sets.count();
    let done = (phase + (m - 1 - j)) / m;
    done.saturating_sub(sets.dimension() - sets.fresh(j).len()) as u64
}
