//! Products, inverses and powers by logarithms to the base of the primitive element.
ghost use Rattle.std.specs.Prelude.{◌≡◌, ℕ, ◌-◌, ◌<◌, IfOk};
ghost use Rattle.lc_algebra.specs.Field.{size, shape_of, mul, pow, IsInverse};
ghost use Rattle.lc_field.specs.Tables.{IsPowers, IsLogarithms};
ghost use Rattle.lc_field.specs.Rows.{IsRow};

use crate::digits::combine;
use crate::refusal::NoMemory;
use crate::row::Row;
use lc_algebra::FieldName;
use std::alloc::Global;
use std::marker::Model;

// The powers of the primitive element, and at each nonzero element the exponent that gives it.
#[derive(Drop)]
pub(crate) struct Logarithms {
    name: FieldName,
    elements: u16,
    powers: Vec<u8>,
    logs: Vec<u8>,
}

impl Model for Logarithms {
    ghost use Rattle.std.specs.Prelude.{◌≡◌};
    ghost use Rattle.lc_algebra.specs.declared.FieldName.{FieldName};
    ghost use Rattle.lc_algebra.specs.Field.{size as size_of};
    ghost use Rattle.lc_field.specs.Tables.{IsPowers, IsLogarithms};

    ghost Value = { FieldName };

    ghost view = { λ t. t.name };

    ghost invariant = { λ t. (t.elements ≡ size_of t.name) × IsPowers t.name t.powers.items × IsLogarithms t.name t.logs.items };
}

impl Logarithms {
    pub(crate) fn make(alloc: Global, row: &Row) -> Result<Logarithms, NoMemory>
        requires row { IsRow row.now }
        ensures name { IfOk result (λ t. t ≡ row.now.name) }
    {
        let powers = powers_of(alloc, row)?;
        let logs = logs_of(alloc, row, &powers)?;
        Ok(Logarithms {
            name: row.name,
            elements: row.size,
            powers,
            logs,
        })
    }

    pub(crate) fn copy(&self, alloc: Global) -> Result<Logarithms, NoMemory>
        ensures name { IfOk result (λ t. t ≡ self.now) }
    {
        let powers = copied(alloc, &self.powers)?;
        let logs = copied(alloc, &self.logs)?;
        Ok(Logarithms {
            name: self.name,
            elements: self.elements,
            powers,
            logs,
        })
    }

    #[inline]
    #[tactic(auto, using(crate::proofs::LogarithmLaws::mul_laws))]
    pub(crate) fn mul(&self, a: u8, b: u8) -> u8
        requires first { a < size self.now }
        requires second { b < size self.now }
        ensures is { result ≡ mul self.now a b }
        ensures below { result < size self.now }
    {
        if a == 0 || b == 0 {
            return 0;
        }
        self.powers[self.logs[a as usize] as usize + self.logs[b as usize] as usize]
    }

    #[inline]
    pub(crate) fn inv(&self, a: u8) -> u8
        requires element { a < size self.now }
        requires nonzero { 0 < a }
        ensures is { IsInverse self.now a result }
    {
        self.powers[self.elements as usize - 1 - self.logs[a as usize] as usize]
    }

    pub(crate) fn pow(&self, a: u8, e: u64) -> u8
        requires element { a < size self.now }
        ensures is { result ≡ pow self.now a e }
        ensures below { result < size self.now }
    {
        if e == 0 {
            return 1;
        }
        if a == 0 {
            return 0;
        }
        let order = self.elements as u64 - 1;
        self.powers[(self.logs[a as usize] as u64 * (e % order) % order) as usize]
    }
}

// A copy of a table.
pub(crate) fn copied(alloc: Global, table: &[u8]) -> Result<Vec<u8>, NoMemory>
    ensures { IfOk result (λ copy. copy.items ≡ table.now) }
{
    Ok(table.to_vec(alloc)?)
}

// The product of the primitive element and a.
#[tactic(auto, using(crate::proofs::RowLaws::next_power))]
fn next_power(row: &Row, a: u8) -> u8
    requires row { IsRow row.now }
    requires element { a < size row.now.name }
    ensures is { result ≡ mul row.now.name (shape_of row.now.name).primitive a }
    ensures below { result < size row.now.name }
{
    let p = row.characteristic as u32;
    let head = row.size as u32 / p;
    combine(
        p,
        row.degree as u32,
        a as u32 / head,
        a as u32 % head * p,
        row.carry as u32,
    ) as u8
}

// The powers of the primitive element, twice round.
#[tactic(auto, using(crate::proofs::LogarithmLaws::powers_of_laws))]
fn powers_of(alloc: Global, row: &Row) -> Result<Vec<u8>, NoMemory>
    requires row { IsRow row.now }
    ensures { IfOk result (λ powers. IsPowers row.now.name powers.items) }
{
    let count = 2 * (row.size - 1);
    let mut powers = Vec::with_capacity(alloc, count as usize)?;
    let mut power = 1;
    for _n in 0..count {
        powers.push(power)?;
        power = next_power(row, power);
    }
    Ok(powers)
}

// At each nonzero element the exponent of the power that it is.
#[tactic(auto, using(crate::proofs::LogarithmLaws::logs_of_laws))]
fn logs_of(alloc: Global, row: &Row, powers: &[u8]) -> Result<Vec<u8>, NoMemory>
    requires row { IsRow row.now }
    requires powers { IsPowers row.now.name powers.now }
    ensures { IfOk result (λ logs. IsLogarithms row.now.name logs.items) }
{
    let mut logs = vec![in alloc; 0u8; row.size as usize]?;
    for n in 0..(row.size - 1) as u8 {
        logs[powers[n as usize] as usize] = n;
    }
    Ok(logs)
}
