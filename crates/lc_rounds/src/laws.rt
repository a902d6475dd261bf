//! What holds of a search before its rounds.
ghost use Rattle.std.specs.Prelude.{◌≡◌, ◌<◌, ℕ, length, true};
ghost use Rattle.lc_algebra.specs.Matrix.{Matrix};
ghost use Rattle.lc_enumeration.specs.Search.{fits};
ghost use Rattle.lc_enumeration.specs.Records.{found_of};
ghost use Rattle.lc_search.specs.State.{first_state};

/// A search that starts fits its code: there is a word at place 0, and the state has its weight. It proves this, and does
/// nothing when it is run.
pub fn searches_start_fitting()
    ensures fits { (C : Matrix) (budget : ℕ) → 0 < length C.rows →
        fits (first_state C budget).code (first_state C budget).progress.blocks
        (found_of (first_state C budget).progress) ≡ true }
{}
