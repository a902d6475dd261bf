//! What the calls give that make a code with its alternant form.
ghost use Rattle.std.specs.Prelude.{◌≡◌, ◌≤◌, IfOk};
ghost use Rattle.lc_constructions.specs.Alternant.{IsFormOf};
ghost use Rattle.lc_language.specs.Calls as bound;
ghost use Rattle.lc_language.specs.Evaluation.{AppliesTo};
ghost use Rattle.lc_calls.specs.Applied.{Answers};
ghost use Rattle.lc_calls.specs.Made.{IsFormed};

use crate::rows::word_of;
use crate::wide::{is_wide, refuse_alternant, refuse_goppa};
use lc_calls::{CodeValue, Stop, Value, refused_as};
use lc_code::{CodeRefusal, FormedCode};
use lc_field::Field;
use std::alloc::Global;
use std::rc::Rc;

/// An alternant form that is asked for: r, its points and multipliers as numbers, and its locator field.
#[derive(Clone, Copy)]
pub(crate) struct AskedForm<'a> {
    pub(crate) r: u64,
    pub(crate) points: &'a [u64],
    pub(crate) multipliers: &'a [u64],
    pub(crate) locator: &'a Field,
}

/// A code with its alternant form, or its refusal at this offset.
pub(crate) fn formed(
    alloc: Global,
    offset: usize,
    code: Result<FormedCode, CodeRefusal>,
) -> Result<Value, Stop>
    requires formed { IfOk code (λ c. IsFormOf c.code c.form) }
    requires few { IfOk code (λ c. c.form.r ≤ 255) }
    ensures { IsFormed code offset result }
{
    match code {
        Ok(FormedCode { code, form }) => {
            let form = Some(form);
            Ok(Value::Code(Rc::new(alloc, CodeValue { code, form })?))
        }
        Err(refusal) => Err(refused_as(alloc, offset, refusal)),
    }
}

/// The Goppa code of a polynomial and points of a locator field, with its form.
#[tactic(auto, using(crate::proofs::FormLaws::goppa_wide))]
pub(crate) fn goppa_code(
    alloc: Global,
    offset: usize,
    list: &[u64],
    points: &[u64],
    locator: &Field,
    field: &Field,
) -> Result<Value, Stop>
    ensures { Answers result (AppliesTo offset (bound.goppa_code list.now points.now locator.now field.now)) }
{
    if is_wide(list) || is_wide(points) {
        let refusal = refuse_goppa(field, locator, list, points);
        return Err(refused_as(alloc, offset, refusal));
    }
    let g = word_of(alloc, list)?;
    let points = word_of(alloc, points)?;
    let code = lc_goppa::goppa(alloc, g.symbols(), points.symbols(), locator, field);
    formed(alloc, offset, code)
}

/// The code of an alternant form, with its form.
#[tactic(auto, using(crate::proofs::FormLaws::alternant_wide))]
pub(crate) fn alternant_code(
    alloc: Global,
    offset: usize,
    form: &AskedForm<'_>,
    field: &Field,
) -> Result<Value, Stop>
    ensures { Answers result
        (AppliesTo offset (bound.alternant_code form.now.r form.now.points.now form.now.multipliers.now
        form.now.locator.now field.now)) }
{
    let AskedForm {
        r,
        points,
        multipliers,
        locator,
    } = *form;
    if is_wide(points) || is_wide(multipliers) {
        let refusal = refuse_alternant(field, locator, r, points, multipliers);
        return Err(refused_as(alloc, offset, refusal));
    }
    let x = word_of(alloc, points)?;
    let y = word_of(alloc, multipliers)?;
    let code = lc_goppa::alternant(alloc, r, x.symbols(), y.symbols(), locator, field);
    formed(alloc, offset, code)
}
