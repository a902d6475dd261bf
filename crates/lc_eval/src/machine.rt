//! The statements of a script, one after another.
ghost use Rattle.std.specs.Prelude.{◌≡◌, [], IfOk, IfErr, IsOk};
ghost use Rattle.lc_parse.specs.Views.{script_of};
ghost use Rattle.lc_eval.specs.Machine.{State, Does};

use crate::statement::{Effect, effect_of};
use crate::stock::Stock;
use lc_calls::{Binding, Names};
use lc_code::Code;
use lc_field::NoMemory;
use lc_parse::Script;
use lc_vec::Word;
use std::alloc::Global;
use std::marker::Model;

/// What a query asks of a code.
#[derive(Clone, Copy, Debug, PartialEq, Eq)]
pub enum QueryKind {
    /// the minimum distance
    Distance,
    /// a certificate of the minimum distance by levels of information sets
    Levels,
    /// a certificate of the minimum distance by a scan of all words
    Scan,
}

/// A query that the machine leaves to its caller to answer, by a search.
#[derive(Drop)]
pub struct Query {
    /// what it asks
    pub kind: QueryKind,
    /// of which code, whose dimension is at least 1
    pub code: Code,
}

/// What a step of the machine answers.
#[derive(Drop)]
pub enum Step {
    /// the line that the statement prints, with its newline
    Line(Vec<u8>),
    /// the statement assigned a value to a name, and prints nothing
    Silent,
    /// the statement needs the answer of a query, whose line it prints
    Need(Query),
    /// the statement prints the weight distribution of this code, which `lc_macwilliams::refusal` doesn't refuse
    Weights(Code),
    /// the statement prints a word of this code that is nearest to this word, or what is known of it within the budget; the code
    /// has dimension at least 1, and the word is of its length and over its field
    Near(Code, Word),
    /// the fault line, with its newline; no statement is done after it
    Fault(Vec<u8>),
    /// no statement is left
    End,
}

/// The state between two statements of a script: the names that are bound, and the statements that are left.
#[derive(Drop)]
pub struct Machine {
    script: Script,
    next: usize,
    names: Names,
    stock: Stock,
}

impl Model for Machine {
    ghost use Rattle.std.specs.Prelude.{◌≤◌, length, drop};
    ghost use Rattle.std.specs.Coded.{codes};
    ghost use Rattle.lc_parse.specs.contracts.tree.Expr as expr;
    ghost use Rattle.lc_eval.specs.Machine.{State};

    ghost Value = { State };

    ghost view = { λ m. record { bindings = m.names; left = drop m.next m.script.statements.items } };

    ghost coded = { Prim.hlevel (codes, expr.the_row.coded) };

    ghost invariant = { λ m. m.next ≤ length m.script.statements.items };
}

impl Machine {
    /// The machine at the first statement of the script, with no name bound.
    pub fn start(alloc: Global, script: Script) -> Machine
        ensures { result ≡ record { bindings = []; left = script.statements.items } }
    {
        Machine {
            script,
            next: 0,
            names: Names::new(alloc),
            stock: Stock::new(alloc),
        }
    }

    /// Does one statement: evaluates its expression, and binds the value to the statement's name or answers the line that it
    /// prints, or the query, the code, or the code and the word whose line it prints. After a fault, every further step answers
    /// `End`. If no memory is left the machine is as before; with no statement left that never happens.
    pub fn step(&mut self, alloc: Global) -> Result<Step, NoMemory>
        ensures does { IfOk result (λ step. Does self.old step self.new) }
        ensures kept { IfErr result (λ _. self.new ≡ self.old) }
        // With no statement left it is never refused.
        ensures nothing { self.old.left ≡ [] → IsOk result }
    {
        let Some(statement) = self.script.statements.get(self.next) else {
            return Ok(Step::End);
        };
        match effect_of(alloc, &self.names, &mut self.stock, statement)? {
            Effect::Binds(Binding { name, value }) => {
                self.names.bind(name, value)?;
                self.next += 1;
                Ok(Step::Silent)
            }
            Effect::Prints(line) => {
                self.next += 1;
                Ok(Step::Line(line))
            }
            Effect::Needs(query) => {
                self.next += 1;
                Ok(Step::Need(query))
            }
            Effect::Counts(code) => {
                self.next += 1;
                Ok(Step::Weights(code))
            }
            Effect::Nears(code, word) => {
                self.next += 1;
                Ok(Step::Near(code, word))
            }
            Effect::Fails(line) => {
                self.next = self.script.statements.len();
                Ok(Step::Fault(line))
            }
        }
    }
}
