//! Tables of coset leaders, and decoding by them.
ghost use Rattle.std.specs.Prelude.{◌≡◌, ◌↔◌, ℕ, ◌-◌, ◌^◌, ◌<◌, ◌≤◌, length, IfOk, IfSome, IsNone, Some, None};
ghost use Rattle.std.specs.Result.{IsErrOf};
ghost use Rattle.lc_algebra.specs.Field.{size};
ghost use Rattle.lc_algebra.specs.Word.{IsWord};
ghost use Rattle.lc_constructions.specs.Coset.{too_many_cosets};
ghost use Rattle.lc_constructions.specs.Nearest.{IsNearest};
ghost use Rattle.lc_syndrome.specs.Leading.{HasLeaders};
ghost use Rattle.lc_syndrome.specs.Checks.{IsChecked};
ghost use Rattle.lc_syndrome.specs.declared.refusal.SyndromeRefusal.TheVariants as refusal;

use crate::refusal::SyndromeRefusal;
use crate::steps::Steps;
use crate::syndromes::Syndromes;
use lc_code::Code;
use lc_field::NoMemory;
use std::alloc::Global;
use std::marker::Model;

/// A code with the leaders of its cosets: in each coset the first word, by weight and then lexicographically.
///
/// Contracts see it as the matrix of the code. It decodes a word by the leader of its coset (MacWilliams and Sloane, The Theory of
/// Error-Correcting Codes, chapter 1). For each coset it keeps two bytes: the first nonzero symbol of the leader and its coordinate.
#[derive(Drop)]
pub struct Leaders {
    code: Code,
    syndromes: Syndromes,
    steps: Steps,
}

impl Model for Leaders {
    ghost use Rattle.lc_algebra.specs.Matrix.{Matrix};
    ghost use Rattle.lc_syndrome.specs.Checks.{IsLed};

    ghost Value = { Matrix };

    ghost view = { λ l. l.code };

    ghost invariant = { λ l. IsLed l.code l.syndromes l.steps.coordinates.items l.steps.symbols.items };
}

impl Leaders {
    /// The leaders of the cosets of the code, which is kept as a copy.
    ///
    /// Refused with `TooManyCosets(n - k)` exactly if the code, of length n and dimension k over q elements, has more than 2^20
    /// cosets, of which there are q^(n - k); then it never answers `NoMemory`.
    pub fn build(alloc: Global, code: &Code) -> Result<Leaders, SyndromeRefusal>
        ensures leaders { IfOk result (λ l. l ≡ code.now) }
        ensures refused { (m : ℕ) → IsErrOf result (refusal.TooManyCosets m) ↔ too_many_cosets code.now ≡ Some m }
    {
        if let Some(checks) = too_many_cosets(code) {
            return Err(SyndromeRefusal::TooManyCosets(checks));
        }
        let syndromes = syndromes_of(alloc, code)?;
        let steps = Steps::build(alloc, &syndromes)?;
        Ok(Leaders {
            code: code.copy(alloc)?,
            syndromes,
            steps,
        })
    }

    /// The code.
    pub fn code(&self) -> &Code
        ensures is { result.now ≡ self.now }
    {
        &self.code
    }

    /// Writes the word of the code nearest to `word` into `out`: the word less the leader of its coset, which is the first error, by
    /// weight and then lexicographically, that leads into the code.
    ///
    /// Both have the length of the code, and the symbols of `word` are elements of its field. No memory is taken.
    pub fn nearest(&self, word: &[u8], out: &mut [u8])
        requires word { IsWord self.now.field self.now.columns word.now }
        requires length { length out.old ≡ self.now.columns }
        ensures is { IsNearest self.now word.now out.new }
        ensures length { length out.new ≡ length out.old }
    {
        let _rows = self.code.matrix();
        out.copy_from_slice(word);
        self.steps
            .correct(&self.syndromes, self.syndromes.of(word), out);
    }
}

// The number n - k of checks, if the code has more than 2^20 cosets.
fn too_many_cosets(code: &Code) -> Option<usize>
    ensures is { result ≡ too_many_cosets code.now }
{
    let checks = code.length() - code.dimension();
    let cosets = (code.field().size() as u64).saturating_pow(checks as u32);
    if cosets > 1_048_576 {
        return Some(checks);
    }
    None
}

// The syndromes by the checks of a code with at most 2^20 cosets.
fn syndromes_of(alloc: Global, code: &Code) -> Result<Syndromes, NoMemory>
    requires few { too_many_cosets code.now ≡ None }
    ensures checked { IfOk result (λ s. IsChecked code.now s) }
    ensures leaders { IfOk result (λ s. HasLeaders s) }
{
    let _symbols = code.field();
    let _most = code.length();
    let matrix = code.matrix();
    let checks = matrix.kernel(alloc)?;
    Ok(Syndromes::build(alloc, checks)?)
}

// Proved only where its argument may go to another thread and be shared with it.
fn crosses_threads<T: Send + Sync>(_value: &T) {}

// A table of leaders is `Send` and `Sync`.
fn leaders_cross_threads(leaders: &Leaders) {
    crosses_threads(leaders);
}
