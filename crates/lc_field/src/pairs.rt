//! Tables of sums and of products of all pairs of elements.
ghost use Rattle.std.specs.Prelude.{◌≡◌, ◌≤◌, IfOk};
ghost use Rattle.lc_algebra.specs.Field.{size, add, mul};
ghost use Rattle.lc_field.specs.Tables.{IsTable};
ghost use Rattle.lc_field.specs.Rows.{IsRow};

use crate::digits::combine;
use crate::logarithms::Logarithms;
use crate::refusal::NoMemory;
use crate::row::Row;
use std::alloc::Global;

// The sums of all pairs of elements.
pub(crate) fn sums_of(alloc: Global, row: &Row) -> Result<Vec<u8>, NoMemory>
    requires row { IsRow row.now }
    ensures { IfOk result (λ sums. IsTable (add row.now.name) (size row.now.name) sums.items) }
{
    let elements = row.size as u32;
    let mut sums = Vec::with_capacity(alloc, (elements * elements) as usize)?;
    for pair in 0..elements * elements {
        sums.push(sum(row, pair / elements, pair % elements))?;
    }
    Ok(sums)
}

// The sum of a and b.
#[tactic(auto, using(crate::proofs::SumLaws::sum_is))]
fn sum(row: &Row, a: u32, b: u32) -> u8
    requires row { IsRow row.now }
    ensures is { result ≡ add row.now.name a b }
{
    combine(row.characteristic as u32, row.degree as u32, 1, a, b) as u8
}

// The products of all pairs of elements of a symbol field.
pub(crate) fn products_of(
    alloc: Global,
    row: &Row,
    logarithms: &Logarithms,
) -> Result<Vec<u8>, NoMemory>
    requires row { IsRow row.now }
    requires logarithms { logarithms.now ≡ row.now.name }
    requires small { row.now.size ≤ 16 }
    ensures { IfOk result (λ products. IsTable (mul row.now.name) (size row.now.name) products.items) }
{
    let elements = row.size;
    let mut products = Vec::with_capacity(alloc, (elements * elements) as usize)?;
    for pair in 0..elements * elements {
        products.push(logarithms.mul((pair / elements) as u8, (pair % elements) as u8))?;
    }
    Ok(products)
}
