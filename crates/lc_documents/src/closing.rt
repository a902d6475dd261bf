//! Whether the sets of searches have their keys and no other.
ghost use Rattle.std.specs.Prelude.{◌≡◌};
ghost use Rattle.serde_json.specs.View.{view};
ghost use Rattle.lc_formats.specs.Document.{object_at, all_of, are_closed};
ghost use Rattle.lc_json.specs.Inside.{members_in};

use crate::kinds::object_at;
use lc_certificate::are_set_keys;
use serde_json::Value;

// Whether the sets of the searches of a claim have no other keys; those of claims more than `most` deep aren't looked at.
#[cycle(closed)]
#[tactic(auto, using(crate::proofs::ClosedLaws::are_closed_laws))]
fn are_closed(most: u8, object: &Value) -> bool
    ensures is { result ≡ are_closed most (members_in (view object.now)) }
{
    if most == 0 {
        return true;
    }
    are_set_keys(object)
        && are_closed_at(most - 1, object, "left")
        && are_closed_at(most - 1, object, "right")
        && are_closed_at(most - 1, object, "outer")
        && are_closed_at(most - 1, object, "inner")
        && are_closed_at(most - 1, object, "of")
}

// The same of the claim at a key; if there is none, nothing is wrong with it.
#[cycle(closed)]
#[tactic(auto, using(crate::proofs::ClosedLaws::are_closed_at_laws))]
pub(crate) fn are_closed_at(most: u8, object: &Value, key: &str) -> bool
    ensures is { result ≡ all_of (are_closed most) (object_at key.now (members_in (view object.now))) }
{
    match object_at(object, key) {
        Some(part) => are_closed(most, part),
        None => true,
    }
}
