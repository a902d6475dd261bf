//! The commands and the keys, by their names.
ghost use Rattle.std.specs.Prelude.{◌≡◌, map, option_map};
ghost use Rattle.lc_formats.specs.Text.{same_bytes};
ghost use Rattle.lc_session_rules.specs.Options.{all_options, command_text, key_named, key_text, row_named};
ghost use Rattle.lc_arguments.specs.Asked.{command_for, key_for, keys_of, row_of};

use crate::request::Command;
use lc_json::is_same;

/// A key of the command line.
#[derive(Clone, Copy)]
pub(crate) enum Key {
    Workers,
    Round,
    Budget,
    Slice,
    Keep,
    Seed,
}

const SEARCH_KEYS: [Key; 5] = [Key::Workers, Key::Round, Key::Budget, Key::Slice, Key::Keep];

const SUMMARY_KEYS: [Key; 4] = [Key::Seed, Key::Workers, Key::Round, Key::Budget];

// Whether a text is this name.
pub(crate) fn is_text(text: &str, name: &str) -> bool
    ensures { result ≡ same_bytes name.now text.now }
{
    is_same(name.as_bytes(), text.as_bytes())
}

impl Key {
    // The name of the key.
    #[tactic(auto, unfolding(lc_session_rules::specs::Options::key_text))]
    pub(crate) fn text(self) -> &'static str
        ensures { result.now ≡ key_text (key_for self) }
    {
        match self {
            Key::Workers => "workers",
            Key::Round => "round",
            Key::Budget => "budget",
            Key::Slice => "slice",
            Key::Keep => "keep",
            Key::Seed => "seed",
        }
    }
}

// The first of these keys that has this name.
#[tactic(auto, using(crate::proofs::KeyLaws::named_laws))]
fn named(keys: &[Key], name: &str) -> Option<Key>
    ensures { option_map key_for result ≡ key_named (map key_for keys.now) name.now }
{
    for key in keys {
        if is_text(name, key.text()) {
            return Some(*key);
        }
    }
    None
}

// The key of a command that has this name.
#[tactic(auto, using(crate::proofs::KeyLaws::check_has_none))]
pub(crate) fn key_in(command: Command, name: &str) -> Option<Key>
    ensures { option_map key_for result ≡ key_named (keys_of (command_for command)) name.now }
{
    match command {
        Command::Run | Command::Resume => named(&SEARCH_KEYS, name),
        Command::Check => None,
        Command::Summary => named(&SUMMARY_KEYS, name),
    }
}

// The command that has this name.
#[tactic(auto, using(crate::proofs::KeyLaws::command_in_laws))]
pub(crate) fn command_in(name: &str) -> Option<Command>
    ensures { option_map row_of result ≡ row_named all_options name.now }
{
    if is_text(name, "run") {
        return Some(Command::Run);
    }
    if is_text(name, "resume") {
        return Some(Command::Resume);
    }
    if is_text(name, "check") {
        return Some(Command::Check);
    }
    if is_text(name, "summary") {
        return Some(Command::Summary);
    }
    None
}
