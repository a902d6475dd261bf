//! Codes by a matrix.
ghost use Rattle.std.specs.Prelude.{◌≡◌, IfOk};
ghost use Rattle.lc_constructions.specs.Code.{IsCode, CheckedBy};
ghost use Rattle.lc_constructions.specs.Basic.{GeneratedBy};
ghost use Rattle.lc_constructions.specs.Refusal.{first_refusal, IsRefusedAs, RefusesFirst};
ghost use Rattle.lc_constructions.specs.Refusals.{columns_of, matrix_refusals};

use crate::refusal::{check_matrix, columns_of};
use lc_code::{Code, CodeRefusal};
use lc_field::Field;
use lc_vec::Word;
use std::alloc::Global;

/// The code with this generator matrix: all sums of multiples of the rows, which need not be independent
/// (GUAVA manual, `GeneratorMatCode`).
///
/// The length of the code is that of the first row. Refused in this order: the field has more than 16 elements, FieldTooLarge;
/// there is no row, or the first one has no symbol or more than 255, BadLength; a row has another length, LengthsDiffer; an entry
/// isn't below the size of the field, BadArgument(1).
#[tactic(auto, using(lc_constructions::proofs::RefusalLaws::refused_or_not))]
pub fn generator_mat(alloc: Global, rows: &[Word], field: &Field) -> Result<Code, CodeRefusal>
    ensures code { IfOk result
        (λ c. IsCode field.now (columns_of rows.now) (GeneratedBy field.now (columns_of rows.now) rows.now) c) }
    ensures refused { IsRefusedAs result (first_refusal (matrix_refusals field.now rows.now)) }
    ensures first { RefusesFirst result (first_refusal (matrix_refusals field.now rows.now)) }
{
    check_matrix(field, rows)?;
    Ok(Code::from_rows(alloc, field, columns_of(rows), rows)?)
}

/// The code with this check matrix: all words that have dot 0 with each row (GUAVA manual, `CheckMatCode`).
///
/// The length of the code is that of the first row. Refused as `generator_mat` is, in the same order.
#[tactic(auto, using(lc_constructions::proofs::RefusalLaws::refused_or_not))]
pub fn check_mat(alloc: Global, rows: &[Word], field: &Field) -> Result<Code, CodeRefusal>
    ensures code { IfOk result (λ c. IsCode field.now (columns_of rows.now) (CheckedBy field.now rows.now) c) }
    ensures refused { IsRefusedAs result (first_refusal (matrix_refusals field.now rows.now)) }
    ensures first { RefusesFirst result (first_refusal (matrix_refusals field.now rows.now)) }
{
    check_matrix(field, rows)?;
    Ok(Code::from_checks(alloc, field, columns_of(rows), rows)?)
}
