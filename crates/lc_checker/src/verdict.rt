//! What the checker says of a certificate.

ghost use Rattle.std.specs.Prelude.{◌≡◌, ◌∷◌, [], IfOk, IsOk};
ghost use Rattle.lc_formats.specs.Certificate.{reason_number, reason_values};
ghost use Rattle.lc_checker.specs.Verdict.{reason_of};

use lc_field::NoMemory;
use lc_vec::Word;
use std::alloc::Global;

/// What the checker says of a certificate. Contracts see it as `verdict_of` it, a `Verdict` of `lc_formats`.
#[derive(Drop)]
pub enum Verdict {
    /// The certificate proves its distance.
    Accepted,
    /// It doesn't, for the first reason in the checker's order.
    Rejected(Reason),
}

/// Why a certificate is rejected. Contracts see it as `reason_of` it, a `Reason` of `lc_formats`. The first three are given by
/// those who read one, the last two by those who check one by construction, and `check` gives the others.
#[derive(Drop)]
pub enum Reason {
    /// The bytes are no JSON value.
    NotJson,
    /// The number of the first rule of shape that is broken, 1 to 12.
    Shape(u32),
    /// The length, the number of rows or the number of sets is above 255.
    Limit,
    /// The word is no word of the rows.
    WordNotInCode,
    /// The weight of the word, which isn't the distance.
    WordWeight(u64),
    /// The number, from 1, of the first set whose basis is no information set.
    SetNotInformation(u64),
    /// The least coordinate that is fresh in two sets.
    FreshOverlap(u64),
    /// The first seen word that isn't zero and is lighter than the distance.
    SeenLighter(Word),
    /// The bound that the levels give, which is below the distance.
    BoundShort(u64),
    /// The cost of a check, as `checking_cost` gives it, which is above 2^32.
    TooCostly(u64),
    /// Of a certificate by construction: the number of the first claim that is refused, from 0, and that of its refusal.
    PartRefused(u64, u8),
    /// Of a certificate by construction: the bound of its claim, which is below the distance.
    ClaimShort(u64),
}

impl Reason {
    /// The number of the reason: 30 to 39 in the order of the cases, and 48 and 49 for the last two.
    #[tactic(auto, unfolding(crate::proofs::Opened::number_of_reason))]
    pub fn number(&self) -> u8
        ensures is { result ≡ reason_number (reason_of self.now) }
    {
        match self {
            Reason::NotJson => 30,
            Reason::Shape(_) => 31,
            Reason::Limit => 32,
            Reason::WordNotInCode => 33,
            Reason::WordWeight(_) => 34,
            Reason::SetNotInformation(_) => 35,
            Reason::FreshOverlap(_) => 36,
            Reason::SeenLighter(_) => 37,
            Reason::BoundShort(_) => 38,
            Reason::TooCostly(_) => 39,
            Reason::PartRefused(_, _) => 48,
            Reason::ClaimShort(_) => 49,
        }
    }

    /// The numbers that the reason carries: none, one, two, or the symbols of the lighter word. If it carries none, no memory is taken.
    #[tactic(auto, unfolding(crate::proofs::Opened::values_of_reason))]
    pub fn values(&self, alloc: Global) -> Result<Vec<u64>, NoMemory>
        ensures are { IfOk result (λ values. values.items ≡ reason_values (reason_of self.now)) }
        ensures none { reason_values (reason_of self.now) ≡ [] → IsOk result }
    {
        match self {
            Reason::Shape(rule) => one(alloc, *rule as u64),
            Reason::WordWeight(n)
            | Reason::SetNotInformation(n)
            | Reason::FreshOverlap(n)
            | Reason::BoundShort(n)
            | Reason::TooCostly(n)
            | Reason::ClaimShort(n) => one(alloc, *n),
            Reason::PartRefused(claim, refusal) => two(alloc, *claim, *refusal as u64),
            Reason::SeenLighter(word) => numbers(alloc, word.symbols()),
            Reason::NotJson | Reason::Limit | Reason::WordNotInCode => Ok(Vec::new(alloc)),
        }
    }
}

// The list of one number.
fn one(alloc: Global, n: u64) -> Result<Vec<u64>, NoMemory>
    ensures is { IfOk result (λ values. values.items ≡ n ∷ []) }
{
    let mut values = Vec::with_capacity(alloc, 1)?;
    values.push(n)?;
    Ok(values)
}

// The list of two numbers.
fn two(alloc: Global, m: u64, n: u64) -> Result<Vec<u64>, NoMemory>
    ensures is { IfOk result (λ values. values.items ≡ m ∷ n ∷ []) }
{
    let mut values = Vec::with_capacity(alloc, 2)?;
    values.push(m)?;
    values.push(n)?;
    Ok(values)
}

// The symbols as numbers.
fn numbers(alloc: Global, symbols: &[u8]) -> Result<Vec<u64>, NoMemory>
    ensures are { IfOk result (λ values. values.items ≡ symbols.now) }
    ensures none { symbols.now ≡ [] → IsOk result }
{
    let mut values = Vec::with_capacity(alloc, symbols.len())?;
    for a in symbols {
        values.push(*a as u64)?;
    }
    Ok(values)
}
