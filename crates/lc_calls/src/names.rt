//! The names that a script bound.
ghost use Rattle.std.specs.Prelude.{◌≡◌, [], MatchOption, None, Some, string_bytes, IfOk, IfErr};
ghost use Rattle.lc_language.specs.Value as language;
ghost use Rattle.lc_calls.specs.Value.{value_of};
ghost use Rattle.lc_calls.specs.Names.{IsBound};

use crate::values::Value;
use lc_field::NoMemory;
use std::alloc::Global;
use std::collections::BTreeMap;
use std::marker::Model;

/// The names that are bound, each with the value that it was assigned last. Contracts see their bindings.
#[derive(Drop)]
pub struct Names {
    values: BTreeMap<String, Value>,
}

impl Model for Names {
    ghost use Rattle.std.specs.Prelude.{List};
    ghost use Rattle.lc_language.specs.Value as language;
    ghost use Rattle.lc_calls.specs.Names.{bindings_of};

    ghost Value = { List language.Binding };

    ghost view = { λ n. bindings_of n.values };
}

impl Names {
    /// No name is bound.
    pub fn new(alloc: Global) -> Names
        ensures { result ≡ [] }
    {
        Names {
            values: BTreeMap::new(alloc),
        }
    }

    /// The value that a name was assigned last.
    pub fn value_of(&self, name: &str) -> Option<&Value>
        ensures { MatchOption result (language.value_named name.now self.now ≡ None)
            (λ v. language.value_named name.now self.now ≡ Some (value_of v.now)) }
    {
        self.values.get(name)
    }

    /// Assigns a value to a name; the one that it had is freed. If no memory is left the names are as before.
    pub fn bind(&mut self, name: String, value: Value) -> Result<(), NoMemory>
        ensures bound { IfOk result (λ _. IsBound (record { name = string_bytes name; value = value_of value }) self.old
            self.new) }
        ensures kept { IfErr result (λ _. self.new ≡ self.old) }
    {
        self.values.insert(name, value)?;
        Ok(())
    }
}
