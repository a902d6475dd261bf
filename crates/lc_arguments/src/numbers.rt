//! The values of keys.
ghost use Rattle.std.specs.List.{list_all};
ghost use Rattle.std.specs.Prelude.{◌≡◌, ◌<◌, ◌≤◌, ◌==◌, ◌||◌, not, length, slice_index, IfSome};
ghost use Rattle.lc_grammar.specs.Token.{is_digit};
ghost use Rattle.lc_session_rules.specs.Options.{number_in, number_within, yes_or_no};

use crate::keys::is_text;
use lc_parse::value_of;

#[tactic(auto, unfolding(lc_grammar::specs::Token::is_digit))]
fn is_digit(b: u8) -> bool
    ensures { result ≡ is_digit b }
{
    b >= b'0' && b <= b'9'
}

fn are_digits(text: &[u8]) -> bool
    ensures { result ≡ list_all is_digit text.now }
{
    text.iter().all(|b| is_digit(*b))
}

// Whether a text that isn't empty has no leading zero, unless that is all of it.
fn is_plain(text: &[u8]) -> bool
    requires { 0 < length text.now }
    ensures { result ≡ ((length text.now == 1) || not (slice_index text.now 0 == 48)) }
{
    text.len() == 1 || text[0] != b'0'
}

// The number that the text writes: one to twenty digits with no leading zero, save 0 itself.
#[tactic(auto, using(crate::proofs::NumberLaws::number_in_laws))]
fn number_in(text: &[u8]) -> Option<u64>
    ensures { result ≡ number_in text.now }
{
    if text.is_empty() {
        return None;
    }
    if text.len() > 20 {
        return None;
    }
    if !are_digits(text) {
        return None;
    }
    if !is_plain(text) {
        return None;
    }
    let n = value_of(text)?;
    Some(n)
}

/// The number that the text writes in one to twenty digits with no leading zero, save 0 itself, if it is from `low` to `high`.
#[tactic(auto, using(crate::proofs::NumberLaws::number_within_laws))]
pub fn number_within(text: &str, low: u64, high: u64) -> Option<u64>
    ensures is { result ≡ number_within low high text.now }
    ensures range { IfSome result (λ n. (low ≤ n) × (n ≤ high)) }
{
    let n = number_in(text.as_bytes())?;
    if n < low {
        return None;
    }
    if n > high {
        return None;
    }
    Some(n)
}

// Whether the text says yes; None if it says neither yes nor no.
#[tactic(auto, using(crate::proofs::NumberLaws::yes_or_no_laws))]
pub(crate) fn yes_or_no(text: &str) -> Option<bool>
    ensures { result ≡ yes_or_no text.now }
{
    if is_text("yes", text) {
        return Some(true);
    }
    if is_text("no", text) {
        return Some(false);
    }
    None
}
