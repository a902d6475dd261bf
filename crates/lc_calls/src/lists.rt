//! The values of lists.
ghost use Rattle.std.specs.Prelude.{◌≡◌, ◌≢◌, ℕ, List, None, Err, IfOk};
ghost use Rattle.lc_language.specs.Value as language;
ghost use Rattle.lc_language.specs.Value.{number_in, numbers_in};
ghost use Rattle.lc_language.specs.Evaluation as evaluation;
ghost use Rattle.lc_calls.specs.Value.{value_of};
ghost use Rattle.lc_calls.specs.Listed.{listed_of, ListsOn};

use crate::refusals::{MISFIT, Stop, fault};
use crate::values::Value;
use lc_field::NoMemory;
use std::alloc::Global;
use std::rc::Rc;

/// What the elements of a list so far make.
#[derive(Drop)]
pub enum Listed {
    /// there are none yet
    Nothing,
    /// numbers
    Numbers(Vec<u64>),
    /// lists of numbers
    Lists(Vec<Vec<u64>>),
}

impl Listed {
    /// The same with one value more, which is that of the element at this offset. Refused there, with 45, if it is neither a number
    /// nor a list of numbers, or isn't what the elements before it are.
    #[tactic(auto, unfolding(lc_language::specs::Value::number_in))]
    pub fn with(self, alloc: Global, offset: usize, value: &Value) -> Result<Listed, Stop>
        ensures is { ListsOn result (listed_of self) (value_of value.now) offset }
        // What is neither a number nor a list of numbers takes no memory, nor does a number after lists.
        ensures told { number_in (value_of value.now) ≡ None → numbers_in (value_of value.now) ≡ None →
            result ≢ Err Stop.NoMemory }
        ensures apart { (n : ℕ) (rows : List (List ℕ)) → value_of value.now ≡ language.number n →
            listed_of self ≡ evaluation.all_lists rows → result ≢ Err Stop.NoMemory }
    {
        if let Some(number) = value.number() {
            return self.with_number(alloc, offset, number);
        }
        if let Some(list) = value.numbers() {
            return self.with_list(alloc, offset, list.to_vec(alloc)?);
        }
        Err(Stop::Refused(fault(alloc, MISFIT, offset)))
    }

    // The same with one number more.
    #[tactic(auto, unfolding(lc_language::specs::Evaluation::listed_with))]
    fn with_number(self, alloc: Global, offset: usize, number: u64) -> Result<Listed, Stop>
        ensures is { ListsOn result (listed_of self) (language.number number) offset }
        ensures told { (rows : List (List ℕ)) → listed_of self ≡ evaluation.all_lists rows →
            result ≢ Err Stop.NoMemory }
    {
        let mut found = match self {
            Listed::Nothing => Vec::new(alloc),
            Listed::Numbers(numbers) => numbers,
            Listed::Lists(_) => return Err(Stop::Refused(fault(alloc, MISFIT, offset))),
        };
        found.push(number)?;
        Ok(Listed::Numbers(found))
    }

    // The same with one list of numbers more.
    #[tactic(auto, unfolding(lc_language::specs::Evaluation::listed_with))]
    fn with_list(self, alloc: Global, offset: usize, list: Vec<u64>) -> Result<Listed, Stop>
        ensures is { ListsOn result (listed_of self) (language.numbers list.items) offset }
        ensures told { (u : List ℕ) → listed_of self ≡ evaluation.all_numbers u → result ≢ Err Stop.NoMemory }
    {
        let mut found = match self {
            Listed::Nothing => Vec::new(alloc),
            Listed::Lists(lists) => lists,
            Listed::Numbers(_) => return Err(Stop::Refused(fault(alloc, MISFIT, offset))),
        };
        found.push(list)?;
        Ok(Listed::Lists(found))
    }

    /// The list of these elements.
    #[tactic(auto, unfolding(lc_language::specs::Evaluation::list_value))]
    pub fn value(self, alloc: Global) -> Result<Value, NoMemory>
        ensures { IfOk result (λ v. value_of v ≡ evaluation.list_value (listed_of self)) }
    {
        match self {
            Listed::Nothing => Ok(Value::Numbers(Rc::new(alloc, Vec::new(alloc))?)),
            Listed::Numbers(numbers) => Ok(Value::Numbers(Rc::new(alloc, numbers)?)),
            Listed::Lists(lists) => Ok(Value::Lists(Rc::new(alloc, lists)?)),
        }
    }
}
