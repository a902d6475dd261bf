//! The value of a code.
use lc_code::{Alternant, Code};
use std::marker::Model;

/// A code as a value, with its alternant form if it was made with one: a form that has the code's words, and at most 255
/// checks.
#[derive(Drop)]
pub struct CodeValue {
    /// the code
    pub code: Code,
    /// the form that it was made with
    pub form: Option<Alternant>,
}

impl Model for CodeValue {
    ghost use Rattle.std.specs.Prelude.{◌≤◌, IfSome};
    ghost use Rattle.lc_constructions.specs.Alternant.{IsFormOf};
    ghost use Rattle.lc_language.specs.Value.{CodeValue};

    ghost Value = { CodeValue };

    ghost view = { λ c. record { code = c.code; form = c.form } };

    ghost invariant = { λ c. IfSome c.form (λ f. IsFormOf c.code f) × IfSome c.form (λ f. f.r ≤ 255) };
}
