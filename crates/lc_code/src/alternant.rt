//! Alternant forms, and the codes that have one.
ghost use Rattle.std.specs.Prelude.{◌≡◌, length, IfOk};
ghost use Rattle.lc_constructions.specs.Code.{IsCode};
ghost use Rattle.lc_constructions.specs.Alternant.{IsForm, IsFormOf, IsAlternantWord};
ghost use Rattle.lc_code.specs.Coordinates.{IsEnough};

use crate::code::Code;
use crate::expansion::expanded_checks;
use lc_field::{Field, NoMemory};
use std::alloc::Global;
use std::marker::Model;

/// An alternant form: a locator field, points and as many multipliers in it, and a number r. It gives the code over a symbol field
/// of the words whose sums of w_i y_i a_i^j are 0 for each j below r, with the points a_i and the multipliers y_i
/// (MacWilliams and Sloane, The Theory of Error-Correcting Codes, chapter 12).
///
/// Contracts see it as the record `AlternantForm`.
#[derive(Drop)]
pub struct Alternant {
    /// The field of the points and the multipliers.
    pub locator: Field,
    /// The points, one for each coordinate.
    pub points: Vec<u8>,
    /// The multipliers, as many as points.
    pub multipliers: Vec<u8>,
    /// The number of checks over the locator field.
    pub r: usize,
}

impl Model for Alternant {
    ghost use Rattle.lc_constructions.specs.Alternant.{AlternantForm};

    ghost Value = { AlternantForm };

    ghost view = { λ a. record { locator = a.locator; points = a.points.items; multipliers = a.multipliers.items; r = a.r } };
}

/// A code beside an alternant form. The calls that make one say that its words are those of the form (`formed`).
#[derive(Drop)]
pub struct FormedCode {
    /// The code.
    pub code: Code,
    /// Its form.
    pub form: Alternant,
}

/// The code over `field` of the words of an alternant form.
///
/// The field has at most 16 elements and lies in the locator field. There are 1 to 255 points, all distinct, and as many multipliers,
/// none of them 0; points and multipliers are elements of the locator field. r may be any number.
#[tactic(auto, using(crate::proofs::CoordinateSteps::form_length))]
pub fn alternant_code(alloc: Global, field: &Field, form: &Alternant) -> Result<Code, NoMemory>
    requires form { IsForm field.now form.now }
    ensures code { IfOk result (λ c. IsCode field.now (length form.now.points) (IsAlternantWord field.now form.now) c) }
    ensures form { IfOk result (λ c. IsFormOf c form.now) }
{
    let n = length_of(form);
    let checks = expanded_checks(alloc, field, form, enough_checks(form))?;
    Ok(Code::from_checks(alloc, field, n, &checks)?)
}

/// The code over `field` of the words of an alternant form, beside the form, which is as `alternant_code` asks.
pub fn formed(alloc: Global, field: &Field, form: Alternant) -> Result<FormedCode, NoMemory>
    requires form { IsForm field.now form }
    ensures code { IfOk result (λ c. IsCode field.now (length form.points) (IsAlternantWord field.now form) c.code) }
    ensures form { IfOk result (λ c. c.form ≡ form) }
    ensures formed { IfOk result (λ c. IsFormOf c.code c.form) }
{
    let code = alternant_code(alloc, field, &form)?;
    Ok(FormedCode { code, form })
}

// The number of points: the length of the code.
fn length_of(form: &Alternant) -> usize
    ensures is { result ≡ length form.now.points }
{
    form.points.len()
}

// As many checks as say all: r, but no more than there are points.
#[tactic(auto, using(crate::proofs::CoordinateSteps::enough_checks_laws))]
fn enough_checks(form: &Alternant) -> usize
    ensures enough { IsEnough form.now result }
{
    let n = length_of(form);
    if form.r < n { form.r } else { n }
}
