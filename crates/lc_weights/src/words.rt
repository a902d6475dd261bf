//! The words of some rows of a code of which all others are multiples.
ghost use Rattle.std.specs.Prelude.{◌≡◌, ◌≤◌, length, take, IfOk};
ghost use Rattle.lc_weights.specs.Leads.{leads};

use lc_code::Code;
use lc_field::NoMemory;
use lc_span::{push_sums, words_of};
use lc_vec::Word;
use std::alloc::Global;

/// The words of the first `to` rows of a code whose first coefficient other than 0 is 1, in the order of `leads`. `to` is at
/// most the dimension.
pub(crate) fn leads_of(alloc: Global, code: &Code, to: usize) -> Result<Vec<Word>, NoMemory>
    requires to { to ≤ length code.now.rows }
    ensures are { IfOk result (λ ws. ws.items ≡ leads code.now.field code.now.columns (take to code.now.rows)) }
{
    let matrix = code.matrix();
    let mut list = Vec::new(alloc);
    for i in 0..to {
        let after = words_of(alloc, matrix, i + 1, to)?;
        push_sums(
            alloc,
            code.field(),
            code.row(i),
            after.as_slice(),
            &mut list,
        )?;
    }
    Ok(list)
}
