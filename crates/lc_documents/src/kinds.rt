//! The kinds of claims.
ghost use Rattle.std.specs.Prelude.{◌≡◌, find, option_map};
ghost use Rattle.serde_json.specs.View.{view};
ghost use Rattle.lc_formats.specs.Text.{same_bytes};
ghost use Rattle.lc_formats.specs.Document.{kind_text, all_kinds, kind_at, object_at};
ghost use Rattle.lc_json.specs.Inside.{members_in};
ghost use Rattle.lc_documents.specs.Parts.{kind_of};

use lc_certificate::{PairKind, PlaceKind};
use lc_json::{is_same, text_at};
use serde_json::Value;

// What stands at the key `kind` of a claim.
#[derive(Clone, Copy)]
pub(crate) enum Kind {
    Search,
    Form,
    Pair(PairKind),
    Concat,
    Subcode,
    Places(PlaceKind),
    Extend,
}

// The kind of this name.
#[tactic(auto, unfolding(crate::proofs::Opened::kinds))]
fn kind_named(name: &[u8]) -> Option<Kind>
    ensures is { option_map kind_of result ≡ find (λ kind. same_bytes (kind_text kind) name.now) all_kinds }
{
    if is_same(b"search", name) {
        return Some(Kind::Search);
    }
    if is_same(b"alternant", name) {
        return Some(Kind::Form);
    }
    if is_same(b"uuv", name) {
        return Some(Kind::Pair(PairKind::Uuv));
    }
    if is_same(b"sum", name) {
        return Some(Kind::Pair(PairKind::Sum));
    }
    if is_same(b"product", name) {
        return Some(Kind::Pair(PairKind::Product));
    }
    if is_same(b"concat", name) {
        return Some(Kind::Concat);
    }
    if is_same(b"subcode", name) {
        return Some(Kind::Subcode);
    }
    if is_same(b"puncture", name) {
        return Some(Kind::Places(PlaceKind::Puncture));
    }
    if is_same(b"shorten", name) {
        return Some(Kind::Places(PlaceKind::Shorten));
    }
    if is_same(b"extend", name) {
        return Some(Kind::Extend);
    }
    None
}

// The kind of the claim that an object states.
#[tactic(auto, using(crate::proofs::KindLaws::kind_at_laws))]
pub(crate) fn kind_at(object: &Value) -> Option<Kind>
    ensures is { option_map kind_of result ≡ kind_at (members_in (view object.now)) }
{
    match text_at(object, "kind") {
        Some(name) => kind_named(name.as_bytes()),
        None => None,
    }
}

// The object at a key of an object.
#[tactic(auto, using(crate::proofs::KindLaws::object_at_laws))]
pub(crate) fn object_at<'v>(object: &'v Value, key: &str) -> Option<&'v Value>
    ensures is { option_map (λ v. members_in (view v.now)) result ≡ object_at key.now (members_in (view object.now)) }
{
    match object.get(key) {
        Some(value) => {
            if value.is_object() {
                return Some(value);
            }
            None
        }
        None => None,
    }
}
