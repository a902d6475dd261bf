//! The message at a place of its level, entry by entry and without memory.

ghost use Rattle.std.specs.Prelude.{◌≡◌, ℕ, ◌+◌, ◌-◌, ◌*◌, ◌/◌, ◌%◌, ◌^◌, ◌<◌, ◌≤◌, ◌++◌, ◌∷◌, [], Some, slice_get, vec_len, vec_capacity};
ghost use Rattle.lc_enumeration.specs.Message.{supports_from, leading_lists, choose};
ghost use Rattle.lc_place.specs.Tables.{IsTable, choose_entry, power_entry};

/// Puts `item` at the end of a list that has room for it.
fn put<T: Drop>(list: &mut Vec<T>, item: T)
    requires { vec_len list.old < vec_capacity list.old }
    ensures items { list.new.items ≡ list.old.items ++ item ∷ [] }
    ensures len { vec_len list.new ≡ vec_len list.old + 1 }
    ensures capacity { vec_capacity list.old ≤ vec_capacity list.new }
{
    let Ok(()) = list.push(item) else {
        unreachable!();
    };
}

/// The support of `width` places below `k` at a place of their list.
#[tactic(auto, using(crate::proofs::Unranking::fill_support_laws))]
pub(crate) fn fill_support(
    chooses: &[u64],
    k: usize,
    width: usize,
    rank: u64,
    support: &mut Vec<usize>,
)
    requires table { IsTable choose_entry ((k + 1) * 256) chooses.now }
    requires dimension { k ≤ 255 }
    requires level { width ≤ k }
    requires small { rank < 2 ^ 52 }
    requires inside { rank < choose k width }
    requires room { width ≤ vec_capacity support.old }
    ensures at { slice_get (supports_from 0 k width) rank ≡ Some support.new.items }
    ensures capacity { vec_capacity support.old ≤ vec_capacity support.new }
{
    support.clear();
    let mut rest = rank;
    for place in 0..k {
        let taken = support.len();
        if taken < width {
            let with_place = chooses[(k - place - 1) * 256 + (width - taken - 1)];
            if rest < with_place {
                put(support, place);
            } else {
                rest -= with_place;
            }
        }
    }
}

/// The coefficients of `width` places at a place of their list.
#[tactic(auto, using(crate::proofs::Unranking::fill_coefficients_laws))]
pub(crate) fn fill_coefficients(
    powers: &[u64],
    k: usize,
    q: u64,
    width: usize,
    rank: u64,
    coefficients: &mut Vec<u8>,
)
    requires table { IsTable (power_entry q) k powers.now }
    requires field { (2 ≤ q) × (q ≤ 16) }
    requires level { (1 ≤ width) × (width ≤ k) }
    requires small { rank < 2 ^ 52 }
    requires inside { rank < (q - 1) ^ (width - 1) }
    requires room { width ≤ vec_capacity coefficients.old }
    ensures at { slice_get (leading_lists q width) rank ≡ Some coefficients.new.items }
    ensures capacity { vec_capacity coefficients.old ≤ vec_capacity coefficients.new }
{
    let _size = q;
    coefficients.clear();
    put(coefficients, 1);
    let mut rest = rank;
    for place in 1..width {
        let row = powers[width - 1 - place];
        put(coefficients, 1 + (rest / row) as u8);
        rest %= row;
    }
}
