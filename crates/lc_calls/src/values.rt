//! The values of a script.
ghost use Rattle.std.specs.Prelude.{◌≡◌, ℕ, Bool, map, option_map, IfOk, IsOk};
ghost use Rattle.lc_language.specs.Value as language;
ghost use Rattle.lc_language.specs.Value.{number_in, field_in, numbers_in, lists_in, code_in};
ghost use Rattle.lc_calls.specs.Value.{value_of};

use crate::code_value::CodeValue;
use lc_field::{Field, NoMemory};
use std::rc::Rc;

/// The value of an expression. What is large is shared by all that have the value.
#[derive(Drop)]
pub enum Value {
    /// a number
    Number(u64),
    /// a field
    Field(Rc<Field>),
    /// a list of numbers; the empty list is a list of lists too
    Numbers(Rc<Vec<u64>>),
    /// a list of lists of numbers
    Lists(Rc<Vec<Vec<u64>>>),
    /// a code
    Code(Rc<CodeValue>),
    /// a truth value
    Truth(bool),
}

/// A name, and the value that it was assigned.
#[derive(Drop)]
pub struct Binding {
    /// the name
    pub name: String,
    /// its value
    pub value: Value,
}

impl Value {
    /// The number that the value is; None if it is none.
    #[tactic(auto, unfolding(lc_language::specs::Value::number_in))]
    pub fn number(&self) -> Option<u64>
        ensures { result ≡ number_in (value_of self.now) }
    {
        match self {
            Value::Number(n) => Some(*n),
            _ => None,
        }
    }

    /// The field that the value is; None if it is none.
    #[tactic(auto, unfolding(lc_language::specs::Value::field_in))]
    pub fn field(&self) -> Option<&Field>
        ensures { option_map (λ f. f.now) result ≡ field_in (value_of self.now) }
    {
        match self {
            Value::Field(field) => Some(field),
            _ => None,
        }
    }

    /// The list of numbers that the value is; None if it is none. An empty list of lists is one.
    #[tactic(auto, unfolding(lc_language::specs::Value::numbers_in))]
    pub fn numbers(&self) -> Option<&[u64]>
        ensures { option_map (λ u. u.now) result ≡ numbers_in (value_of self.now) }
    {
        match self {
            Value::Numbers(numbers) => Some(numbers.as_slice()),
            Value::Lists(lists) if lists.is_empty() => Some(&[]),
            _ => None,
        }
    }

    /// The list of lists of numbers that the value is; None if it is none. An empty list of numbers is one.
    #[tactic(auto, unfolding(lc_language::specs::Value::lists_in))]
    pub fn lists(&self) -> Option<&[Vec<u64>]>
        ensures { option_map (λ rows. map (λ row. row.items) rows.now) result ≡ lists_in (value_of self.now) }
    {
        match self {
            Value::Lists(lists) => Some(lists.as_slice()),
            Value::Numbers(numbers) if numbers.is_empty() => Some(&[]),
            _ => None,
        }
    }

    /// The code that the value is, with its alternant form; None if it is none.
    #[tactic(auto, unfolding(lc_language::specs::Value::code_in))]
    pub fn code(&self) -> Option<&CodeValue>
        ensures { option_map (λ c. c.now) result ≡ code_in (value_of self.now) }
    {
        match self {
            Value::Code(code) => Some(code),
            _ => None,
        }
    }

    /// The same value, which shares what is large.
    pub fn share(&self) -> Result<Value, NoMemory>
        ensures is { IfOk result (λ v. value_of v ≡ value_of self.now) }
        // A number and a truth value take no memory.
        ensures number { (n : ℕ) → value_of self.now ≡ language.number n → IsOk result }
        ensures truth { (b : Bool) → value_of self.now ≡ language.truth b → IsOk result }
    {
        match self {
            Value::Number(n) => Ok(Value::Number(*n)),
            Value::Field(field) => Ok(Value::Field(field.clone()?)),
            Value::Numbers(numbers) => Ok(Value::Numbers(numbers.clone()?)),
            Value::Lists(lists) => Ok(Value::Lists(lists.clone()?)),
            Value::Code(code) => Ok(Value::Code(code.clone()?)),
            Value::Truth(holds) => Ok(Value::Truth(*holds)),
        }
    }
}
