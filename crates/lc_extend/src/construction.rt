//! Construction X.
ghost use Rattle.std.specs.Prelude.{◌≡◌, ◌+◌, ◌-◌, ◌≤◌, length, IfOk};
ghost use Rattle.lc_constructions.specs.Code.{longest, IsCode};
ghost use Rattle.lc_constructions.specs.Refusal.{first_refusal};
ghost use Rattle.lc_language.specs.Refusal.{first_of};
ghost use Rattle.lc_language.specs.Relations.{IsSubcode};
ghost use Rattle.lc_language.specs.ConstructionX.{InComplement, InConstructionX, unlike_codes, construction_x_refusals};
ghost use Rattle.lc_extend.specs.Told.{IsRefusedWith, IsRefusedFirst};

use crate::refusal::{ExtensionRefusal, check_alike, check_tail};
use crate::rows::{complement_checks, extended_rows};
use lc_code::Code;
use lc_field::NoMemory;
use lc_relations::lies_in;
use std::alloc::Global;

/// The code that construction X makes of a code `c`, a subcode `d` of it and a code `e` for the tails (MacWilliams and Sloane,
/// chapter 18; GUAVA manual, `ConstructionXCode`).
///
/// A word of `c` is a word of `d` and a combination of the rows of the complement of `d`, the words of `c` that are 0 where the
/// rows of `d` begin. The code has each word of `c`, followed by the combination of the rows of `e` with the same coefficients;
/// both matrices are reduced. Refused in this order: the fields differ, Codes(FieldsDiffer); the lengths of `c` and `d` differ,
/// Codes(LengthsDiffer); `d` is not a subcode of `c`, NotASubcode; the dimension of `e` is not that of `c` less that of `d`,
/// Codes(InnerDimension); the lengths of `c` and `e` add up to more than 255, Codes(BadLength). The first two come before any memory
/// is taken. Fails if memory runs out, Codes(NoMemory).
#[tactic(auto, using(crate::proofs::RefusalLaws::construction_x_laws))]
pub fn construction_x(alloc: Global, c: &Code, d: &Code, e: &Code) -> Result<Code, ExtensionRefusal>
    ensures code { IfOk result
        (λ x. IsCode c.now.field (c.now.columns + e.now.columns) (InConstructionX c.now d.now e.now) x) }
    ensures refused { IsRefusedWith result (first_of (construction_x_refusals c.now d.now e.now)) }
    ensures first { IsRefusedFirst result (first_refusal (unlike_codes c.now d.now e.now)) }
{
    check_alike(c, d, e)?;
    let _whole = c.matrix();
    let _part = d.matrix();
    if !lies_in(alloc, d, c)? {
        return Err(ExtensionRefusal::NotASubcode);
    }
    check_tail(c, d, e)?;
    Ok(extended_words(alloc, c, d, e)?)
}

// The code of these codes.
#[tactic(auto, using(crate::proofs::ConstructionLaws::tails_count))]
fn extended_words(alloc: Global, c: &Code, d: &Code, e: &Code) -> Result<Code, NoMemory>
    requires field { c.now.field ≡ d.now.field }
    requires tail_field { c.now.field ≡ e.now.field }
    requires columns { c.now.columns ≡ d.now.columns }
    requires inside { IsSubcode d.now c.now }
    requires dimension { length e.now.rows ≡ length c.now.rows - length d.now.rows }
    requires most { c.now.columns + e.now.columns ≤ longest }
    ensures code { IfOk result
        (λ x. IsCode c.now.field (c.now.columns + e.now.columns) (InConstructionX c.now d.now e.now) x) }
{
    let _whole = c.matrix();
    let _part = d.matrix();
    let _tail = e.matrix();
    let complement = complement(alloc, c, d)?;
    let _matrix = complement.matrix();
    let rows = extended_rows(alloc, d, &complement, e)?;
    Ok(Code::from_rows(alloc, c.field(), c.length() + e.length(), &rows)?)
}

// The words of a code that are 0 where the rows of another one begin.
fn complement(alloc: Global, c: &Code, d: &Code) -> Result<Code, NoMemory>
    requires field { c.now.field ≡ d.now.field }
    requires columns { c.now.columns ≡ d.now.columns }
    ensures code { IfOk result (λ b. IsCode c.now.field c.now.columns (InComplement c.now d.now) b) }
{
    let _whole = c.matrix();
    let _part = d.matrix();
    let dual = c.dual(alloc)?;
    let _checks = dual.matrix();
    let checks = complement_checks(alloc, &dual, d)?;
    Ok(Code::from_checks(alloc, c.field(), c.length(), &checks)?)
}
