//! The first nonzero word of some rows, by a scan of all sums of their multiples.
ghost use Rattle.std.specs.Prelude.{◌≡◌, ◌⊎◌, ◌↔◌, ◌<◌, IfOk, IsTrue, length, option_map};
ghost use Rattle.lc_algebra.specs.Word.{Fits, weight as weight_of, zero_word, AtMost, ComesNoLater};
ghost use Rattle.lc_algebra.specs.Matrix.{AreRows};
ghost use Rattle.lc_least.specs.Scan.{IsFirst, IsInCoset, IsInCosetBelow, IsLeastOr};

use lc_field::{Field, NoMemory};
use lc_vec::{Word, add_scaled, weight};
use std::alloc::Global;

/// The first nonzero word so far, by weight and then lexicographically; the zero word where there
/// is none.
#[derive(Drop)]
struct Best {
    symbols: Vec<u8>,
    weight: usize,
    ghost weighed: { weight ≡ weight_of symbols.items },
}

// Whether u is v or comes before it.
#[tactic(auto, using(crate::proofs::ScanLaws::at_most_told))]
fn is_at_most(u: &[u8], v: &[u8]) -> bool
    ensures { IsTrue result ↔ AtMost u.now v.now }
{
    u <= v
}

fn zeros(alloc: Global, n: usize) -> Result<Vec<u8>, NoMemory>
    ensures { IfOk result (λ v. v.items ≡ zero_word n) }
{
    Ok(vec![in alloc; 0; n]?)
}

impl Best {
    fn none(alloc: Global, n: usize) -> Result<Best, NoMemory>
        ensures { IfOk result (λ b. b.symbols.items ≡ zero_word n) }
    {
        let symbols = zeros(alloc, n)?;
        let weight = weight(&symbols);
        Ok(Best { symbols, weight })
    }

    // Whether a nonzero word of this weight takes the place of the best one.
    fn yields_to(&self, weight: usize, word: &[u8]) -> bool
        requires { weight ≡ weight_of word.now }
        ensures { IsTrue result
            ↔ ((weight_of self.now.symbols.items ≡ 0) ⊎ ComesNoLater word.now self.now.symbols.items) }
    {
        self.weight == 0
            || weight < self.weight
            || (weight == self.weight && is_at_most(word, &self.symbols))
    }

    // Takes a word if it is nonzero and comes no later.
    fn offer(&mut self, word: &[u8])
        requires { length self.old.symbols.items ≡ length word.now }
        ensures first { IsFirst (λ w. w ≡ word.now) self.old.symbols.items self.new.symbols.items }
        ensures length { length self.new.symbols.items ≡ length self.old.symbols.items }
    {
        let weight = weight(word);
        if weight > 0 && self.yields_to(weight, word) {
            self.symbols.copy_from_slice(word);
            self.weight = weight;
        }
    }
}

// Offers all sums of `sum` and multiples of the rows.
fn scan(field: &Field, rows: &[Word], sum: &mut [u8], best: &mut Best)
    requires rows { AreRows field.now (length sum.old) rows.now }
    requires sum { Fits field.now sum.old }
    requires best { length best.old.symbols.items ≡ length sum.old }
    ensures first { IsFirst
        (IsInCoset field.now (length sum.old) rows.now sum.old) best.old.symbols.items best.new.symbols.items }
    ensures length { length best.new.symbols.items ≡ length best.old.symbols.items }
    ensures sum { sum.new ≡ sum.old }
{
    let Some((row, others)) = rows.split_first() else {
        best.offer(sum);
        return;
    };
    for c in 0..field.size() {
        let c = c as u8;
        add_scaled(field, sum, row.symbols(), c);
        scan(field, others, sum, best);
        add_scaled(field, sum, row.symbols(), field.neg(c));
    }
}

/// The first nonzero word, by weight and then lexicographically, among the sums of multiples of
/// the rows; None exactly if there is none, all rows being zero. The rows are words of `n` symbols of the field.
///
/// All q^k sums of the k rows are made, so this is for few rows. Refused only for want of memory.
pub fn least_word(
    alloc: Global,
    field: &Field,
    n: usize,
    rows: &[Word],
) -> Result<Option<Word>, NoMemory>
    requires { AreRows field.now n rows.now }
    ensures { IfOk result (IsLeastOr field.now n rows.now) }
{
    let mut sum = zeros(alloc, n)?;
    let mut best = Best::none(alloc, n)?;
    scan(field, rows, &mut sum, &mut best);
    if best.weight == 0 {
        return Ok(None);
    }
    Ok(Some(Word::from_slice(alloc, &best.symbols)?))
}
