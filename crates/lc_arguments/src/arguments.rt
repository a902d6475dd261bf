//! The arguments of the command line, one after another.
ghost use Rattle.std.specs.List.{list_any, before_first, after_first};
ghost use Rattle.std.specs.Prelude.{◌≡◌, ◌+◌, ◌++◌, ◌∷◌, [], List, ℕ, Bool, true, false, length, map, option_map, MatchOption, MatchResult};
ghost use Rattle.lc_session_rules.specs.Options.{all_options, key_text, options, options_from, put_key, settings, settings_of, usage};
ghost use Rattle.lc_arguments.specs.Asked.{words_of, command_for, key_for, keys_of, settings_for, Refuses, IsWithin, is_equals, name_of, place_named, IsCourse, IsRefusedAfter};

use crate::keys::{Key, command_in, is_text, key_in};
use crate::numbers::{number_within, yes_or_no};
use crate::request::{Command, OptionRefusal, Settings};
use lc_enumeration::{CUT, DEFAULT_BUDGET};
use std::alloc::Global;

/// The name and the value of an argument: what comes before its first `=`, and what comes after it. None if it has none.
#[tactic(auto, using(crate::proofs::TextLaws::split_told))]
pub fn parts_of(argument: &str) -> Option<(&str, &str)>
    ensures { MatchOption result ((list_any is_equals argument.now ≡ false) × (name_of argument.now ≡ argument.now))
        (λ x. (list_any is_equals argument.now ≡ true) × (x.0.now ≡ name_of argument.now)
        × (x.1.now ≡ after_first is_equals argument.now)) }
{
    argument.split_once('=')
}

// The name in an argument: what comes before its first `=`, or all of it.
fn name_in(argument: &str) -> &str
    ensures { result.now ≡ name_of argument.now }
{
    match parts_of(argument) {
        Some((name, _)) => name,
        None => argument,
    }
}

// The number of the first argument with this key, counted from 1.
#[tactic(auto, using(crate::proofs::CourseLaws::place_of_laws))]
fn place_of(arguments: &[String], key: Key) -> Option<usize>
    ensures { result ≡ place_named (key_text (key_for key)) (map name_of (words_of arguments.now)) 1 }
{
    for i in 0..arguments.len() {
        if is_text(name_in(arguments[i].as_str()), key.text()) {
            return Some(i + 1);
        }
    }
    None
}

// What is asked for once a key has this value; None if the key takes no such value.
#[tactic(auto, unfolding(crate::proofs::Opened::keys_and_numbers))]
fn with_value(asked: Settings, key: Key, value: &str) -> Option<Settings>
    ensures { option_map settings_for result ≡ put_key (key_for key) value.now (settings_for asked) }
{
    match key {
        Key::Workers => {
            let workers = number_within(value, 1, 256)? as u32;
            Some(Settings { workers, ..asked })
        }
        Key::Round => {
            let round = number_within(value, 1, 1 << 20)?;
            Some(Settings { round, ..asked })
        }
        Key::Budget => {
            let budget = number_within(value, 0, CUT)?;
            Some(Settings { budget, ..asked })
        }
        Key::Slice => {
            let slice = number_within(value, 1, CUT)?;
            Some(Settings {
                slice: Some(slice),
                ..asked
            })
        }
        Key::Keep => {
            let keep = yes_or_no(value)?;
            Some(Settings { keep, ..asked })
        }
        Key::Seed => {
            let number = number_within(value, 0, u64::MAX)?;
            Some(Settings { number, ..asked })
        }
    }
}

// What is asked for after one more argument; None if the argument is refused.
fn with_argument(
    command: Command,
    asked: Settings,
    before: &[String],
    argument: &str,
) -> Option<Settings>
    requires { IsCourse (command_for command) (words_of before.now) asked }
    ensures { MatchOption result (IsRefusedAfter (command_for command) (words_of before.now) argument.now)
        (λ next. IsCourse (command_for command) (words_of before.now ++ argument.now ∷ []) next) }
{
    let Some((name, value)) = parts_of(argument) else {
        return None;
    };
    let Some(key) = key_in(command, name) else {
        return None;
    };
    if place_of(before, key).is_some() {
        return None;
    }
    with_value(asked, key, value)
}

// What is asked for in the end, unless a slice comes without keep=yes or a summary without a seed.
fn checked(asked: Settings, arguments: &[String]) -> Result<Settings, usize>
    requires { IsCourse (command_for asked.command) (words_of arguments.now) asked }
    ensures { MatchResult result (λ a. (options_from (keys_of (command_for asked.command)) (words_of arguments.now) []
        (settings_of (command_for asked.command)) ≡ settings (settings_for a)) × IsWithin a)
        (λ i. options_from (keys_of (command_for asked.command)) (words_of arguments.now) []
        (settings_of (command_for asked.command)) ≡ usage i) }
{
    if let Some(place) = place_of(arguments, Key::Slice) {
        return if asked.keep { Ok(asked) } else { Err(place) };
    }
    match asked.command {
        Command::Summary => match place_of(arguments, Key::Seed) {
            Some(_) => Ok(asked),
            None => Err(arguments.len() + 1),
        },
        Command::Run | Command::Resume | Command::Check => Ok(asked),
    }
}

// What the arguments after the command ask for, or the index of the one that is refused, counted from the command.
fn settings_in(command: Command, arguments: &[String]) -> Result<Settings, usize>
    ensures { MatchResult result (λ a. (options_from (keys_of (command_for command)) (words_of arguments.now) []
        (settings_of (command_for command)) ≡ settings (settings_for a)) × IsWithin a)
        (λ i. options_from (keys_of (command_for command)) (words_of arguments.now) []
        (settings_of (command_for command)) ≡ usage i) }
{
    let mut asked = Settings {
        command,
        workers: 1,
        round: 256,
        budget: DEFAULT_BUDGET,
        slice: None,
        keep: false,
        number: 0,
    };
    for i in 0..arguments.len() {
        let Some(next) = with_argument(command, asked, &arguments[..i], arguments[i].as_str())
        else {
            return Err(i + 1);
        };
        asked = next;
    }
    checked(asked, arguments)
}

// What the arguments of the command line ask for, or the index of the one that is refused.
fn settings_by(arguments: &[String]) -> Result<Settings, usize>
    ensures { MatchResult result (λ a. (options all_options (words_of arguments.now) ≡ settings (settings_for a))
        × IsWithin a) (λ i. options all_options (words_of arguments.now) ≡ usage i) }
{
    let Some((first, others)) = arguments.split_first() else {
        return Err(0);
    };
    match command_in(first.as_str()) {
        Some(command) => settings_in(command, others),
        None => Err(0),
    }
}

/// What the arguments of the command line ask for. The first one is the command: `run` or `resume`, after which there may be
/// `workers=N`, `round=N`, `budget=N`, `slice=N` and `keep=yes` or `keep=no`; `check` alone; or `summary`, after which there is
/// `seed=N` and there may be `workers=N`, `round=N` and `budget=N`. The keys come in any order, each at most once, and a slice
/// only with `keep=yes`.
///
/// Refused with the index of the first argument that is wrong, or that would have to be there. It takes no memory, so it is
/// never refused for want of it.
pub fn options(_alloc: Global, arguments: &[String]) -> Result<Settings, OptionRefusal>
    ensures { MatchResult result (λ a. (options all_options (words_of arguments.now) ≡ settings (settings_for a))
        × IsWithin a) (λ r. Refuses r (options all_options (words_of arguments.now))) }
{
    match settings_by(arguments) {
        Ok(settings) => Ok(settings),
        Err(index) => Err(OptionRefusal::Usage(index)),
    }
}
