//! Whether a code lies in its dual, is its dual, or is cyclic.
ghost use Rattle.std.specs.Prelude.{◌≡◌, ◌↔◌, ◌<◌, ◌≤◌, ℕ, All, [], length, slice_index_or, IsTrue, IfOk};
ghost use Rattle.std.specs.Bool.{OnTrue, OnFalse};
ghost use Rattle.lc_algebra.specs.Word.{word_dot};
ghost use Rattle.lc_constructions.specs.Code.{InCode};
ghost use Rattle.lc_language.specs.Relations.{IsSelfOrthogonal, IsSelfDual, IsCyclic, shifted};

use crate::comparison::have_same_rows;
use lc_code::Code;
use lc_field::NoMemory;
use lc_vec::dot;
use std::alloc::Global;

/// Whether each word of the code has dot 0 with each word of the code, so that the code lies in its dual (MacWilliams and Sloane,
/// chapter 1; GUAVA manual, `IsSelfOrthogonalCode`). No memory is taken.
#[tactic(auto, using(crate::proofs::StructureLaws::orthogonal_by_rows))]
pub fn is_self_orthogonal(code: &Code) -> bool
    ensures is { IsTrue result ↔ IsSelfOrthogonal code.now }
{
    let _matrix = code.matrix();
    for j in 0..code.dimension() {
        if !is_orthogonal_to_earlier(code, j) {
            return false;
        }
    }
    true
}

// Whether the dot of row j with each row up to row j is 0.
fn is_orthogonal_to_earlier(code: &Code, j: usize) -> bool
    requires row { j < length code.now.rows }
    ensures yes { OnTrue result ((i : ℕ) → i ≤ j →
        word_dot code.now.field (slice_index_or code.now.rows i []) (slice_index_or code.now.rows j []) ≡ 0) }
    ensures no { OnFalse result (((i : ℕ) → i ≤ j →
        word_dot code.now.field (slice_index_or code.now.rows i []) (slice_index_or code.now.rows j []) ≡ 0) → ⊥) }
{
    for i in 0..=j {
        if dot(code.field(), code.row(i), code.row(j)) != 0 {
            return false;
        }
    }
    true
}

/// Whether the code is its own dual (MacWilliams and Sloane, chapter 1; GUAVA manual, `IsSelfDualCode`).
pub fn is_self_dual(alloc: Global, code: &Code) -> Result<bool, NoMemory>
    ensures is { IfOk result (λ t. IsTrue t ↔ IsSelfDual code.now) }
{
    let _matrix = code.matrix();
    let dual = code.dual(alloc)?;
    Ok(have_same_rows(code, &dual))
}

/// Whether the cyclic shift of each word of the code is a word of the code (MacWilliams and Sloane, chapter 7; GUAVA manual,
/// `IsCyclicCode`).
pub fn is_cyclic(alloc: Global, code: &Code) -> Result<bool, NoMemory>
    ensures is { IfOk result (λ t. IsTrue t ↔ IsCyclic code.now) }
{
    let _matrix = code.matrix();
    let mut shift = vec![in alloc; 0u8; code.length()]?;
    let mut rest = vec![in alloc; 0u8; code.length()]?;
    Ok(shifts_are_inside(code, &mut shift, &mut rest))
}

// Whether the cyclic shift of each row is in the code. Both buffers have as many symbols as a row.
fn shifts_are_inside(code: &Code, shift: &mut [u8], rest: &mut [u8]) -> bool
    requires shift { length shift.old ≡ code.now.columns }
    requires rest { length rest.old ≡ code.now.columns }
    ensures is { IsTrue result ↔ All (λ row. InCode code.now (shifted row)) code.now.rows }
{
    for i in 0..code.dimension() {
        put_shifted(code.row(i), shift);
        if !code.contains(shift, rest) {
            return false;
        }
    }
    true
}

// Makes the buffer, which is as long as the word, the cyclic shift of the word.
#[tactic(auto, using(crate::proofs::StructureLaws::turned))]
fn put_shifted(word: &[u8], shift: &mut [u8])
    requires lengths { length shift.old ≡ length word.now }
    requires some { 0 < length word.now }
    ensures is { shift.new ≡ shifted word.now }
{
    shift.copy_from_slice(word);
    shift.rotate_right(1);
}
