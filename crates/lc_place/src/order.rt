//! The two moves from a message to the next, on the lists of its coefficients and of its places.

ghost use Rattle.std.specs.Prelude.{◌≡◌, ◌≢◌, ℕ, ◌+◌, ◌-◌, ◌<◌, ◌≤◌, ◌++◌, length, take, slice_index, IfSome, MatchOption};
ghost use Rattle.lc_enumeration.specs.Message.{numbers_from};

/// The last place from 1 on at which a coefficient is below `top`; 0 if there is none. No coefficient is 0.
pub(crate) fn last_below(coefficients: &[u8], top: u8) -> usize
    requires { (u : ℕ) → u < length coefficients.now → 1 ≤ slice_index coefficients.now u }
    ensures inside { 0 < result → result < length coefficients.now }
    ensures below { 0 < result → slice_index coefficients.now result < top }
    ensures later { (u : ℕ) → result < u → u < length coefficients.now → top ≤ slice_index coefficients.now u }
{
    if top < 2 {
        return 0;
    }
    let mut place = coefficients.len();
    while place > 1 {
        place -= 1;
        if coefficients[place] < top {
            return place;
        }
    }
    0
}

/// Raises the coefficient at `place` by 1, and makes 1 of those after it.
pub(crate) fn raise(coefficients: &mut [u8], place: usize)
    requires inside { place < length coefficients.old }
    requires room { slice_index coefficients.old place < 255 }
    ensures before { (u : ℕ) → u < place → slice_index coefficients.new u ≡ slice_index coefficients.old u }
    ensures at { slice_index coefficients.new place ≡ slice_index coefficients.old place + 1 }
    ensures later { (u : ℕ) → place < u → u < length coefficients.old → slice_index coefficients.new u ≡ 1 }
{
    coefficients[place] += 1;
    for later in place + 1..coefficients.len() {
        coefficients[later] = 1;
    }
}

/// Makes 1 of each coefficient, all of which are `top` but the first, and answers the least index at which
/// the coefficients or the support changed, if the support changed from `place` on.
#[tactic(auto, using(crate::proofs::Steps::all_same))]
pub(crate) fn reset(coefficients: &mut [u8], top: u8, place: usize) -> usize
    requires inside { place < length coefficients.old }
    requires first { slice_index coefficients.old 0 ≡ 1 }
    requires high { (u : ℕ) → 0 < u → u < length coefficients.old → slice_index coefficients.old u ≡ top }
    ensures ones { (u : ℕ) → u < length coefficients.old → slice_index coefficients.new u ≡ 1 }
    ensures early { result ≤ place }
    ensures same { (u : ℕ) → u < result → slice_index coefficients.new u ≡ slice_index coefficients.old u }
    ensures changed { result < place → slice_index coefficients.new result ≢ slice_index coefficients.old result }
{
    if top == 1 {
        return place;
    }
    for coefficient in coefficients.iter_mut() {
        *coefficient = 1;
    }
    place.min(1)
}

/// The last place of a support that can move on, with all after it, and stay below `k`.
pub(crate) fn last_movable(support: &[usize], k: usize) -> Option<usize>
    requires { (u : ℕ) → u < length support.now → slice_index support.now u + (length support.now - u) ≤ k }
    ensures inside { MatchOption result
        ((u : ℕ) → u < length support.now → k ≤ slice_index support.now u + (length support.now - u))
        (λ j. j < length support.now) }
    ensures room { IfSome result (λ j. slice_index support.now j + (length support.now - j) < k) }
    ensures later { IfSome result (λ j. (u : ℕ) → j < u → u < length support.now →
        k ≤ slice_index support.now u + (length support.now - u)) }
{
    let mut room = 0;
    let mut place = support.len();
    while place > 0 {
        place -= 1;
        room += 1;
        if support[place] + room < k {
            return Some(place);
        }
    }
    None
}

/// Moves the coordinate at index `place` of a support on by 1, and those after it to follow it without a gap. The last of them is below
/// 256 then, which the caller sees to.
pub fn move_on(support: &mut [usize], place: usize)
    requires inside { place < length support.old }
    requires room { slice_index support.old place + (length support.old - place) < 256 }
    ensures before { (u : ℕ) → u < place → slice_index support.new u ≡ slice_index support.old u }
    ensures later { (u : ℕ) → place ≤ u → u < length support.old →
        slice_index support.new u ≡ slice_index support.old place + 1 + (u - place) }
{
    let mut column = support[place];
    for later in place..support.len() {
        column += 1;
        support[later] = column;
    }
}

/// Moves the places from `place` on to the last ones below `k`.
pub(crate) fn move_to_end(support: &mut [usize], place: usize, k: usize)
    requires inside { place ≤ length support.old }
    requires room { length support.old - place ≤ k }
    ensures is { support.new ≡ take place support.old ++ numbers_from (k - (length support.old - place))
        (length support.old - place) }
{
    let many = support.len();
    for later in place..many {
        support[later] = k - (many - later);
    }
}
