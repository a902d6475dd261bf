//! Kernels.
ghost use Rattle.std.specs.Prelude.{◌≡◌, ◌≢◌, ℕ, ◌+◌, ◌-◌, ◌<◌, ◌≤◌, List, [], length, slice_index, slice_index_or, All, IfOk};
ghost use Rattle.std.specs.Bool.{OnTrue, OnFalse};
ghost use Rattle.lc_algebra.specs.Word.{zero_word};
ghost use Rattle.lc_algebra.specs.Span.{SameSpan};
ghost use Rattle.lc_algebra.specs.Matrix.{AreRows, IsReducedGenerator, IsOrthogonal};
ghost use Rattle.lc_matrix.specs.Elimination.{IsTurned};
ghost use Rattle.lc_matrix.specs.Kernel.{IsReducedBack, IsFree, IsKernelWord, AreKernelWords};

use crate::matrix::Matrix;
use lc_field::NoMemory;
use std::alloc::Global;

impl Matrix {
    /// The reduced row echelon matrix of exactly the words that have dot 0 with each row: a check matrix of the rows' words
    /// (MacWilliams and Sloane, chapter 1).
    pub fn kernel(&self, alloc: Global) -> Result<Matrix, NoMemory>
        ensures field { IfOk result (λ m. m.field ≡ self.now.field) }
        ensures columns { IfOk result (λ m. m.columns ≡ self.now.columns) }
        ensures kernel { IfOk result
            (λ m. IsReducedGenerator self.now.field self.now.columns
            (IsOrthogonal self.now.field self.now.rows) m.rows) }
    {
        let _height = self.rows();
        let mut matrix = self.copy(alloc)?;
        let places = matrix.reduce_back(alloc)?;
        let kernel = matrix.kernel_words(alloc, &places)?;
        Ok(kernel)
    }

    // Reduces the rows from the right: the last nonzero symbol of a row is a 1, and alone in its column. Gives these columns.
    fn reduce_back(&mut self, alloc: Global) -> Result<Vec<usize>, NoMemory>
        ensures field { self.new.field ≡ self.old.field }
        ensures columns { self.new.columns ≡ self.old.columns }
        ensures words { AreRows self.new.field self.new.columns self.new.rows }
        ensures same { SameSpan self.old.field self.old.columns self.old.rows self.new.rows }
        ensures reduced { IfOk result (λ ps. IsReducedBack self.new.columns ps.items self.new.rows) }
    {
        let _height = self.rows();
        let n = self.cols();
        let order = turned(alloc, n)?;
        let at = self.reduce(alloc, &order)?;
        let places = turned_places(alloc, n, &at)?;
        Ok(places)
    }

    // The words of the free columns, if the rows are reduced from the right, at these places.
    fn kernel_words(&self, alloc: Global, places: &[usize]) -> Result<Matrix, NoMemory>
        requires reduced { IsReducedBack self.now.columns places.now self.now.rows }
        ensures field { IfOk result (λ m. m.field ≡ self.now.field) }
        ensures columns { IfOk result (λ m. m.columns ≡ self.now.columns) }
        ensures kernel { IfOk result
            (λ m. (free : List ℕ) × IsFree places.now self.now.columns free
            × AreKernelWords self.now.field self.now.columns places.now self.now.rows free (length free) m.rows) }
    {
        let kernel = Matrix::empty(alloc, self.field(), self.cols())?;
        let free = free_columns(alloc, places, self.cols())?;
        let mut kernel = kernel;
        self.push_words(alloc, places, &free, &mut kernel)?;
        Ok(kernel)
    }

    // Puts the words of the free columns below the rows of the kernel, which has none yet.
    #[tactic(auto, using(crate::proofs::KernelLaws::push_words_laws))]
    fn push_words(
        &self,
        alloc: Global,
        places: &[usize],
        free: &[usize],
        kernel: &mut Matrix,
    ) -> Result<(), NoMemory>
        requires reduced { IsReducedBack self.now.columns places.now self.now.rows }
        requires free { IsFree places.now self.now.columns free.now }
        requires field { kernel.old.field ≡ self.now.field }
        requires columns { kernel.old.columns ≡ self.now.columns }
        requires none { kernel.old.rows ≡ [] }
        ensures field { kernel.new.field ≡ self.now.field }
        ensures columns { kernel.new.columns ≡ self.now.columns }
        ensures words { IfOk result
            (λ _. AreKernelWords self.now.field self.now.columns places.now self.now.rows free.now
            (length free.now) kernel.new.rows) }
    {
        let _width = self.cols();
        for i in 0..free.len() {
            let word = self.kernel_word(alloc, places, free[i])?;
            kernel.push(&word)?;
        }
        Ok(())
    }

    // The word that is 1 at the free column j, 0 at the other free columns, and has dot 0 with each row.
    #[tactic(auto, using(crate::proofs::KernelLaws::kernel_word_laws))]
    fn kernel_word(&self, alloc: Global, places: &[usize], j: usize) -> Result<Vec<u8>, NoMemory>
        requires reduced { IsReducedBack self.now.columns places.now self.now.rows }
        requires column { j < self.now.columns }
        requires free { (k : ℕ) → k < length places.now → slice_index places.now k ≢ j }
        ensures is { IfOk result
            (λ w. IsKernelWord self.now.field self.now.columns places.now self.now.rows j (length places.now) w.items) }
    {
        let mut word = zeros(alloc, self.cols())?;
        word[j] = 1;
        for i in 0..places.len() {
            word[places[i]] = self.field().neg(self.symbol(i, j));
        }
        Ok(word)
    }
}

// The symbols of the zero word of length n.
fn zeros(alloc: Global, n: usize) -> Result<Vec<u8>, NoMemory>
    ensures { IfOk result (λ w. w.items ≡ zero_word n) }
{
    Ok(vec![in alloc; 0u8; n]?)
}

// The columns n - 1 to 0.
fn turned(alloc: Global, n: usize) -> Result<Vec<usize>, NoMemory>
    ensures are { IfOk result (λ order. IsTurned n order.items) }
    ensures inside { IfOk result (λ order. All (λ c. c < n) order.items) }
{
    let mut order = Vec::new(alloc);
    for c in 0..n {
        order.push(n - 1 - c)?;
    }
    Ok(order)
}

// The columns at these places of the order n - 1 to 0.
fn turned_places(alloc: Global, n: usize, at: &[usize]) -> Result<Vec<usize>, NoMemory>
    requires inside { (i : ℕ) → i < length at.now → slice_index at.now i < n }
    ensures count { IfOk result (λ ps. length ps.items ≡ length at.now) }
    ensures are { IfOk result
        (λ ps. (i : ℕ) → i < length at.now → slice_index ps.items i ≡ n - 1 - slice_index at.now i) }
{
    let mut places = Vec::new(alloc);
    for p in at {
        places.push(n - 1 - *p)?;
    }
    Ok(places)
}

// The columns below n that are none of the places.
#[tactic(auto, using(crate::proofs::KernelLaws::free_none))]
fn free_columns(alloc: Global, places: &[usize], n: usize) -> Result<Vec<usize>, NoMemory>
    ensures are { IfOk result (λ free. IsFree places.now n free.items) }
{
    let mut free = Vec::new(alloc);
    for j in 0..n {
        read_free(places, j, &mut free)?;
    }
    Ok(free)
}

#[tactic(auto, using(crate::proofs::KernelLaws::free_pushed))]
fn read_free(places: &[usize], j: usize, free: &mut Vec<usize>) -> Result<(), NoMemory>
    requires state { IsFree places.now j free.old.items }
    ensures state { IfOk result (λ _. IsFree places.now (j + 1) free.new.items) }
{
    if holds(places, j) {
        return Ok(());
    }
    free.push(j)?;
    Ok(())
}

// Whether j is one of the places.
pub(crate) fn holds(places: &[usize], j: usize) -> bool
    ensures yes { OnTrue result ((k : ℕ) × (k < length places.now) × (slice_index places.now k ≡ j)) }
    ensures no { OnFalse result ((k : ℕ) → k < length places.now → slice_index places.now k ≢ j) }
{
    for i in 0..places.len() {
        if places[i] == j {
            return true;
        }
    }
    false
}
