//! How a certificate by construction is written.
ghost use Rattle.std.specs.Prelude.{◌≡◌, ◌++◌, OnOk, IfOk};
ghost use Rattle.lc_formats.specs.Claim.{search, alternant, pair, concat, subcode, at_places, extend, built_text};
ghost use Rattle.lc_formats.specs.Document.{IsShapedTree};
ghost use Rattle.lc_certificate.specs.Seen.{certificate_of};
ghost use Rattle.lc_certificate.specs.Trees.{pair_of, place_of, claim_of, built_of};
ghost use Rattle.lc_certificate.specs.TreePieces.{tree_text, search_head, search_tail, form_head, form_tail, pair_head, place_head, outer_head, built_tail};

use crate::certificate::Certificate;
use crate::claims::{Built, Claim, PairKind, PlaceKind};
use crate::writing::{push_front, push_rows, push_sets};
use lc_field::NoMemory;
use lc_json::{push_list, push_number, push_symbols, push_text};
use lc_vec::Word;
use std::alloc::Global;

// The object of a search, up to the value at `rows`.
#[tactic(auto, unfolding(crate::specs::Seen::certificate_of, crate::specs::TreePieces::search_head))]
fn push_search_head(text: &mut Vec<u8>, cert: &Certificate) -> Result<(), NoMemory>
    ensures { OnOk result (text.new.items ≡ text.old.items ++ search_head (certificate_of cert.now)) }
{
    push_front(text, &cert.basis_of)?;
    push_text(text, b",\"distance\":")?;
    push_number(text, cert.distance)?;
    push_text(text, b",\"kind\":\"search\",\"rows\":")?;
    push_rows(text, &cert.rows)?;
    Ok(())
}

// The object of a search, after the value at `rows`.
#[tactic(auto, unfolding(crate::specs::Seen::certificate_of, crate::specs::TreePieces::search_tail))]
fn push_search_tail(text: &mut Vec<u8>, cert: &Certificate) -> Result<(), NoMemory>
    ensures { OnOk result (text.new.items ≡ text.old.items ++ search_tail (certificate_of cert.now)) }
{
    push_sets(text, &cert.basis_of)?;
    push_text(text, b",\"word\":")?;
    push_symbols(text, cert.word.symbols())?;
    push_text(text, b"}")?;
    Ok(())
}

// The object of an alternant form, up to the value at `locator`.
#[tactic(auto, unfolding(crate::specs::TreePieces::form_head))]
fn push_form_head(text: &mut Vec<u8>, locator: u64, multipliers: &[u8]) -> Result<(), NoMemory>
    ensures { OnOk result (text.new.items ≡ text.old.items ++ form_head locator multipliers.now) }
{
    push_text(text, b"{\"kind\":\"alternant\",\"locator\":")?;
    push_number(text, locator)?;
    push_text(text, b",\"multipliers\":")?;
    push_symbols(text, multipliers)?;
    Ok(())
}

// The object of an alternant form, after the value at `multipliers`.
#[tactic(auto, unfolding(crate::specs::TreePieces::form_tail))]
fn push_form_tail(text: &mut Vec<u8>, points: &[u8], r: u64) -> Result<(), NoMemory>
    ensures { OnOk result (text.new.items ≡ text.old.items ++ form_tail points.now r) }
{
    push_text(text, b",\"points\":")?;
    push_symbols(text, points)?;
    push_text(text, b",\"r\":")?;
    push_number(text, r)?;
    push_text(text, b"}")?;
    Ok(())
}

// A search.
fn push_search(text: &mut Vec<u8>, cert: &Certificate) -> Result<(), NoMemory>
    ensures { OnOk result (text.new.items ≡ text.old.items ++ tree_text (search (certificate_of cert.now))) }
{
    push_search_head(text, cert)?;
    push_search_tail(text, cert)?;
    Ok(())
}

// An alternant form.
fn push_form(
    text: &mut Vec<u8>,
    locator: u64,
    points: &[u8],
    multipliers: &[u8],
    r: u64,
) -> Result<(), NoMemory>
    ensures { OnOk result
        (text.new.items ≡ text.old.items ++ tree_text (alternant locator points.now multipliers.now r)) }
{
    push_form_head(text, locator, multipliers)?;
    push_form_tail(text, points, r)?;
    Ok(())
}

// The object of two codes combined, up to the value at `left`.
#[tactic(auto, unfolding(crate::specs::TreePieces::pair_head, crate::specs::Trees::pair_of))]
fn push_pair_head(text: &mut Vec<u8>, kind: PairKind) -> Result<(), NoMemory>
    ensures { OnOk result (text.new.items ≡ text.old.items ++ pair_head (pair_of kind)) }
{
    match kind {
        PairKind::Uuv => push_text(text, b"{\"kind\":\"uuv\",\"left\":")?,
        PairKind::Sum => push_text(text, b"{\"kind\":\"sum\",\"left\":")?,
        PairKind::Product => push_text(text, b"{\"kind\":\"product\",\"left\":")?,
    }
    Ok(())
}

// The object of a code punctured or shortened, up to the value at `of`.
#[tactic(auto, unfolding(crate::specs::TreePieces::place_head, crate::specs::Trees::place_of))]
fn push_place_head(text: &mut Vec<u8>, kind: PlaceKind) -> Result<(), NoMemory>
    ensures { OnOk result (text.new.items ≡ text.old.items ++ place_head (place_of kind)) }
{
    match kind {
        PlaceKind::Puncture => push_text(text, b"{\"kind\":\"puncture\",\"of\":")?,
        PlaceKind::Shorten => push_text(text, b"{\"kind\":\"shorten\",\"of\":")?,
    }
    Ok(())
}

// The object of a concatenation, from the value at `inner` to that at `outer`.
#[tactic(auto, unfolding(crate::specs::TreePieces::outer_head))]
fn push_outer_head(text: &mut Vec<u8>, large: u64) -> Result<(), NoMemory>
    ensures { OnOk result (text.new.items ≡ text.old.items ++ outer_head large) }
{
    push_text(text, b",\"kind\":\"concat\",\"large\":")?;
    push_number(text, large)?;
    push_text(text, b",\"outer\":")?;
    Ok(())
}

// The claim as an object.
#[cycle(push_tree)]
#[tactic(auto, unfolding(crate::proofs::Opened::claims))]
fn push_tree(text: &mut Vec<u8>, claim: &Claim) -> Result<(), NoMemory>
    ensures is { OnOk result (text.new.items ≡ text.old.items ++ tree_text (claim_of claim.now)) }
{
    match claim {
        Claim::Search(cert) => push_search(text, cert),
        Claim::Alternant {
            locator,
            points,
            multipliers,
            r,
        } => push_form(text, *locator, points.symbols(), multipliers.symbols(), *r),
        Claim::Pair(kind, left, right) => push_pair(text, *kind, left, right),
        Claim::Concat {
            large,
            outer,
            inner,
        } => push_concat(text, *large, outer, inner),
        Claim::Subcode { of, rows } => push_subcode(text, of, rows),
        Claim::Places(kind, of, places) => push_places(text, *kind, of, places),
        Claim::Extend(of) => push_extend(text, of),
    }
}

// Two codes combined.
#[cycle(push_tree)]
fn push_pair(
    text: &mut Vec<u8>,
    kind: PairKind,
    left: &Claim,
    right: &Claim,
) -> Result<(), NoMemory>
    ensures is { OnOk result
        (text.new.items ≡ text.old.items ++ tree_text (pair (pair_of kind) (claim_of left.now) (claim_of right.now))) }
{
    push_pair_head(text, kind)?;
    push_tree(text, left)?;
    push_text(text, b",\"right\":")?;
    push_tree(text, right)?;
    push_text(text, b"}")?;
    Ok(())
}

// A concatenation.
#[cycle(push_tree)]
fn push_concat(text: &mut Vec<u8>, large: u64, outer: &Claim, inner: &Claim) -> Result<(), NoMemory>
    ensures is { OnOk result
        (text.new.items ≡ text.old.items ++ tree_text (concat large (claim_of outer.now) (claim_of inner.now))) }
{
    push_text(text, b"{\"inner\":")?;
    push_tree(text, inner)?;
    push_outer_head(text, large)?;
    push_tree(text, outer)?;
    push_text(text, b"}")?;
    Ok(())
}

// The span of some words of a code.
#[cycle(push_tree)]
fn push_subcode(text: &mut Vec<u8>, of: &Claim, rows: &[Word]) -> Result<(), NoMemory>
    ensures is { OnOk result (text.new.items ≡ text.old.items ++ tree_text (subcode (claim_of of.now) rows.now)) }
{
    push_text(text, b"{\"kind\":\"subcode\",\"of\":")?;
    push_tree(text, of)?;
    push_text(text, b",\"rows\":")?;
    push_rows(text, rows)?;
    push_text(text, b"}")?;
    Ok(())
}

// A code punctured or shortened.
#[cycle(push_tree)]
fn push_places(
    text: &mut Vec<u8>,
    kind: PlaceKind,
    of: &Claim,
    places: &[u64],
) -> Result<(), NoMemory>
    ensures is { OnOk result
        (text.new.items ≡ text.old.items ++ tree_text (at_places (place_of kind) (claim_of of.now) places.now)) }
{
    push_place_head(text, kind)?;
    push_tree(text, of)?;
    push_text(text, b",\"places\":")?;
    push_list(text, places)?;
    push_text(text, b"}")?;
    Ok(())
}

// An extended code.
#[cycle(push_tree)]
fn push_extend(text: &mut Vec<u8>, of: &Claim) -> Result<(), NoMemory>
    ensures is { OnOk result (text.new.items ≡ text.old.items ++ tree_text (extend (claim_of of.now))) }
{
    push_text(text, b"{\"kind\":\"extend\",\"of\":")?;
    push_tree(text, of)?;
    push_text(text, b"}")?;
    Ok(())
}

// The certificate's text from the value at `claim` on.
#[tactic(auto, unfolding(crate::specs::Trees::built_of, crate::specs::TreePieces::built_tail))]
fn push_built_tail(text: &mut Vec<u8>, built: &Built) -> Result<(), NoMemory>
    ensures { OnOk result (text.new.items ≡ text.old.items ++ built_tail (built_of built.now)) }
{
    push_text(text, b",\"distance\":")?;
    push_number(text, built.distance)?;
    push_text(text, b",\"field\":")?;
    push_number(text, built.field_size())?;
    push_text(text, b",\"version\":2,\"word\":")?;
    push_symbols(text, built.word.symbols())?;
    push_text(text, b"}")?;
    Ok(())
}

/// The text of the certificate by construction: compact JSON, its keys in rising order. Its claims have the shape and are within
/// the limits, as those of one that was read are: at most 1,024 claims, at most 32 deep. Fails if memory runs out.
#[tactic(auto, unfolding(crate::specs::Trees::built_of), using(crate::proofs::TreeTexts::built_pieces))]
pub fn write_built(alloc: Global, built: &Built) -> Result<Vec<u8>, NoMemory>
    requires shaped { IsShapedTree (built_of built.now) }
    ensures is { IfOk result (λ text. text.items ≡ built_text (built_of built.now)) }
{
    let mut text = Vec::new(alloc);
    push_text(&mut text, b"{\"claim\":")?;
    push_tree(&mut text, &built.claim)?;
    push_built_tail(&mut text, built)?;
    Ok(text)
}
