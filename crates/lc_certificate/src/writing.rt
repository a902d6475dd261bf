//! How a certificate is written.
ghost use Rattle.std.specs.Prelude.{◌≡◌, ◌∷◌, ◌++◌, map, flat_map, OnOk, IfOk};
ghost use Rattle.serde_json.specs.Written.{compact_text};
ghost use Rattle.lc_formats.specs.Text.{numbers_text, lists_text};
ghost use Rattle.lc_formats.specs.Shape.{IsShaped};
ghost use Rattle.lc_formats.specs.CertificateText.{claim_json, certificate_text};
ghost use Rattle.lc_certificate.specs.Seen.{claim_of, proof_of, certificate_of};
ghost use Rattle.lc_certificate.specs.Pieces.{front_text, claims_text, sets_text, head_text, tail_text};

use crate::certificate::{Certificate, Proof, SetClaim};
use lc_field::NoMemory;
use lc_json::{push_list, push_number, push_symbols, push_text};
use lc_vec::Word;
use std::alloc::Global;

// Each row as an array with a comma before it.
fn push_led_rows(text: &mut Vec<u8>, rows: &[Word]) -> Result<(), NoMemory>
    ensures { OnOk result (text.new.items ≡ text.old.items ++ flat_map (λ row. 44 ∷ numbers_text row) rows.now) }
{
    for row in rows {
        text.push(b',')?;
        push_symbols(text, row.symbols())?;
    }
    Ok(())
}

// The rows as an array of arrays.
pub(crate) fn push_rows(text: &mut Vec<u8>, rows: &[Word]) -> Result<(), NoMemory>
    ensures { OnOk result (text.new.items ≡ text.old.items ++ lists_text rows.now) }
{
    let [first, rest @ ..] = rows else {
        push_text(text, b"[]")?;
        return Ok(());
    };
    push_text(text, b"[")?;
    push_symbols(text, first.symbols())?;
    push_led_rows(text, rest)?;
    push_text(text, b"]")?;
    Ok(())
}

// A set as an object.
fn push_claim(text: &mut Vec<u8>, claim: &SetClaim) -> Result<(), NoMemory>
    ensures { OnOk result (text.new.items ≡ text.old.items ++ compact_text (claim_json (claim_of claim.now))) }
{
    push_text(text, b"{\"basis\":")?;
    push_list(text, &claim.basis)?;
    push_text(text, b",\"fresh\":")?;
    push_list(text, &claim.fresh)?;
    push_text(text, b",\"level\":")?;
    push_number(text, claim.level)?;
    push_text(text, b"}")?;
    Ok(())
}

// Each set as an object with a comma before it.
fn push_led_claims(text: &mut Vec<u8>, claims: &[SetClaim]) -> Result<(), NoMemory>
    ensures { OnOk result (text.new.items
        ≡ text.old.items ++ flat_map (λ claim. 44 ∷ compact_text (claim_json (claim_of claim))) claims.now) }
{
    for claim in claims {
        text.push(b',')?;
        push_claim(text, claim)?;
    }
    Ok(())
}

// The sets as an array of objects.
fn push_claims(text: &mut Vec<u8>, claims: &[SetClaim]) -> Result<(), NoMemory>
    ensures { OnOk result (text.new.items ≡ text.old.items ++ claims_text (map claim_of claims.now)) }
{
    let [first, rest @ ..] = claims else {
        push_text(text, b"[]")?;
        return Ok(());
    };
    push_text(text, b"[")?;
    push_claim(text, first)?;
    push_led_claims(text, rest)?;
    push_text(text, b"]")?;
    Ok(())
}

// How the distance is proved, with which the object begins.
#[tactic(auto, unfolding(crate::specs::Pieces::front_text, crate::specs::Seen::proof_of))]
pub(crate) fn push_front(text: &mut Vec<u8>, proof: &Proof) -> Result<(), NoMemory>
    ensures { OnOk result (text.new.items ≡ text.old.items ++ front_text (proof_of proof.now)) }
{
    match proof {
        Proof::Scan => push_text(text, b"{\"by\":\"scan\"")?,
        Proof::Levels(_) => push_text(text, b"{\"by\":\"levels\"")?,
    }
    Ok(())
}

// The sets with their key; nothing for a scan.
#[tactic(auto, unfolding(crate::specs::Pieces::sets_text, crate::specs::Seen::proof_of))]
pub(crate) fn push_sets(text: &mut Vec<u8>, proof: &Proof) -> Result<(), NoMemory>
    ensures { OnOk result (text.new.items ≡ text.old.items ++ sets_text (proof_of proof.now)) }
{
    if let Proof::Levels(claims) = proof {
        push_text(text, b",\"sets\":")?;
        push_claims(text, claims)?;
    }
    Ok(())
}

// The object's text to the value at `field`.
#[tactic(auto, unfolding(crate::specs::Seen::certificate_of, crate::specs::Pieces::head_text))]
fn push_head(text: &mut Vec<u8>, cert: &Certificate) -> Result<(), NoMemory>
    ensures { OnOk result (text.new.items ≡ text.old.items ++ head_text (certificate_of cert.now)) }
{
    push_front(text, &cert.basis_of)?;
    push_text(text, b",\"distance\":")?;
    push_number(text, cert.distance)?;
    push_text(text, b",\"field\":")?;
    push_number(text, cert.field_size())?;
    Ok(())
}

// The object's text from the key `rows` on.
#[tactic(auto, unfolding(crate::specs::Seen::certificate_of, crate::specs::Pieces::tail_text))]
fn push_tail(text: &mut Vec<u8>, cert: &Certificate) -> Result<(), NoMemory>
    ensures { OnOk result (text.new.items ≡ text.old.items ++ tail_text (certificate_of cert.now)) }
{
    push_text(text, b",\"rows\":")?;
    push_rows(text, &cert.rows)?;
    push_sets(text, &cert.basis_of)?;
    push_text(text, b",\"version\":1,\"word\":")?;
    push_symbols(text, cert.word.symbols())?;
    push_text(text, b"}")?;
    Ok(())
}

/// The text of the certificate: compact JSON, its keys in rising order. The certificate has the shape, as one that was
/// parsed has.
#[tactic(auto, using(crate::proofs::TextLaws::certificate_halves))]
pub fn write(alloc: Global, cert: &Certificate) -> Result<Vec<u8>, NoMemory>
    requires shaped { IsShaped (certificate_of cert.now) }
    ensures is { IfOk result (λ text. text.items ≡ certificate_text (certificate_of cert.now)) }
{
    let mut text = Vec::new(alloc);
    push_head(&mut text, cert)?;
    push_tail(&mut text, cert)?;
    Ok(text)
}
