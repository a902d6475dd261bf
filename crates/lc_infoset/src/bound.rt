//! The lower bound that whole levels of the sets give.

ghost use Rattle.std.specs.Prelude.{◌≡◌, ℕ, ◌+◌, ◌-◌, ◌^◌, ◌<◌, ◌≤◌, max, length, All};
ghost use Rattle.lc_algebra.specs.Divisor.{divisor_of, rounded};
ghost use Rattle.lc_enumeration.specs.Search.{set_count, ranks_of, bound_sum, bound_of};
ghost use Rattle.lc_infoset.specs.Bound.{set_at};

use crate::sets::Sets;

impl Sets {
    /// The lower bound on the weights of the words that aren't seen if the words of these levels are: the least multiple of the
    /// divisor that is at least 1 and at least the sum over the sets of level + 1 - (k - fresh columns), where that is positive
    /// (Brouwer and Zimmermann; Grassl, Searching for linear codes with large minimum distance).
    ///
    /// There is one level for each set, each below k: for a level of k there is no unseen word.
    #[tactic(auto, using(crate::proofs::LevelLaws::bound_laws))]
    pub fn bound(&self, levels: &[u64]) -> u64
        requires count { length levels.now ≡ set_count self.now }
        requires below { All (λ w. w < length self.now.rows) levels.now }
        ensures is { result ≡ rounded (divisor_of self.now)
            (max 1 (bound_sum (length self.now.rows) (ranks_of self.now) levels.now)) }
        ensures bound { (weight : ℕ) →
            bound_of (divisor_of self.now) (length self.now.rows) (ranks_of self.now) levels.now weight ≡ result }
    {
        let least = self.sum_of(levels).max(1);
        let d = self.divisor();
        (least + (d - 1)) / d * d
    }

    // The sum over the sets of level + 1 - (k - fresh columns), where that is positive.
    #[tactic(auto, using(crate::proofs::LevelLaws::sum_of_laws))]
    fn sum_of(&self, levels: &[u64]) -> u64
        requires count { length levels.now ≡ set_count self.now }
        requires below { All (λ w. w < length self.now.rows) levels.now }
        ensures is { result ≡ bound_sum (length self.now.rows) (ranks_of self.now) levels.now }
        ensures few { result < 2 ^ 16 }
    {
        let _few = self.count();
        let _most = self.length();
        let mut sum = 0;
        for j in 0..levels.len() {
            sum += self.least_on(j, levels[j]);
        }
        sum
    }

    // What the level of set j gives: level + 1 - (k - fresh columns), where that is positive.
    fn least_on(&self, j: usize, level: u64) -> u64
        requires set { j < set_count self.now }
        requires below { level < length self.now.rows }
        ensures is { result ≡ (level + 1) - (length self.now.rows - length (set_at self.now j).fresh) }
        ensures few { result ≤ 255 }
    {
        let k = self.dimension();
        let _most = self.length();
        (level + 1).saturating_sub((k - self.fresh(j).len()) as u64)
    }
}
