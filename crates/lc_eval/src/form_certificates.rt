//! Certificates by construction of the alternant forms of codes.
ghost use Rattle.std.specs.Prelude.{◌≡◌, ◌≤◌, ◌==◌, ◌&&◌, ◌∷◌, [], IfOk, IsTrue};
ghost use Rattle.lc_algebra.specs.Field.{is_symbol};
ghost use Rattle.lc_algebra.specs.Word.{IsWord, weight as weight_of};
ghost use Rattle.lc_constructions.specs.Alternant.{IsFormOf};
ghost use Rattle.lc_enumeration.specs.InformationSet.{in_span};
ghost use Rattle.lc_formats.specs.Claim.{form_certificate};
ghost use Rattle.lc_certificate.specs.Trees.{built_of};
ghost use Rattle.lc_language.specs.Calls as bound;
ghost use Rattle.lc_language.specs.Query.{form_line};
ghost use Rattle.lc_language.specs.Evaluation.{QueriesTo, refused, refuse_call};
ghost use Rattle.lc_language.specs.Refusal.{refuse};
ghost use Rattle.lc_eval.specs.Evaluated.{AffectsOrFails};
ghost use Rattle.lc_calls.specs.Value.{refused_of};

use crate::decoding::checked;
use crate::statement::Effect;
use lc_calls::{CodeValue, NO_FORM, NOT_ATTAINED, Refused, Stop, fault};
use lc_certificate::{Built, Claim, name_of, write_built};
use lc_code::{Alternant, Code};
use lc_field::{Field, NoMemory};
use lc_vec::{Word, weight};
use std::alloc::Global;

// Whether the word is in the code and has this weight.
#[tactic(auto, using(crate::proofs::FormCertificateLaws::word_weighed))]
fn is_attained(alloc: Global, code: &Code, word: &[u8], distance: u64) -> Result<bool, NoMemory>
    requires word { IsWord code.now.field code.now.columns word.now }
    ensures { IfOk result (λ b. b
        ≡ in_span code.now.field code.now.columns code.now.rows word.now && (weight_of word.now == distance)) }
{
    let mut rest = word.to_vec(alloc)?;
    if !code.contains(word, &mut rest) {
        return Ok(false);
    }
    Ok(weight(word) as u64 == distance)
}

// The refusal of a word that isn't one of the code of this weight, with its weight and this one.
#[tactic(auto, unfolding(lc_calls::proofs::Opened::refusals_of_calls))]
fn not_attained(
    alloc: Global,
    offset: usize,
    word: &[u8],
    distance: u64,
) -> Result<Refused, NoMemory>
    ensures { IfOk result (λ r. refused (refused_of r)
        ≡ refuse_call offset (refuse 19 (weight_of word.now ∷ distance ∷ []))) }
{
    let values = vec![in alloc; weight(word) as u64, distance]?;
    Ok(Refused {
        number: NOT_ATTAINED,
        offset,
        values,
    })
}

// The certificate by the form that the distance is r + 1, which is the weight of the word.
#[tactic(auto, unfolding(crate::proofs::Opened::certificates_of_forms))]
fn certificate_of(
    alloc: Global,
    field: &Field,
    form: &Alternant,
    word: Word,
) -> Result<Built, NoMemory>
    requires symbol { IsTrue (is_symbol field.now) }
    requires few { form.now.r ≤ 255 }
    ensures { IfOk result (λ b. built_of b ≡ form_certificate field.now form.now word) }
{
    let points = Word::from_slice(alloc, &form.points)?;
    let multipliers = Word::from_slice(alloc, &form.multipliers)?;
    let claim = Claim::Alternant {
        locator: u64::from(form.locator.size()),
        points,
        multipliers,
        r: form.r as u64,
    };
    Ok(Built {
        field: name_of(field),
        claim,
        word,
        distance: form.r as u64 + 1,
    })
}

// The line of that certificate.
#[tactic(auto, using(crate::proofs::FormCertificateLaws::form_line_told))]
fn form_line(alloc: Global, code: &Code, form: &Alternant, word: Word) -> Result<Vec<u8>, NoMemory>
    requires form { IsFormOf code.now form.now }
    requires few { form.now.r ≤ 255 }
    requires word { IsWord code.now.field code.now.columns word }
    ensures { IfOk result (λ l. l.items ≡ form_line code.now form.now word) }
{
    let built = certificate_of(alloc, code.field(), form, word)?;
    let mut line = write_built(alloc, &built)?;
    line.push(b'\n')?;
    Ok(line)
}

/// The certificate by construction of a code's alternant form, for a word of the code whose weight is r + 1, r being the number of
/// the form's checks.
///
/// Refused if the code has no form; then if the list is no word of the code's length over its field; then, with its weight and
/// r + 1, if it isn't in the code or has another weight.
pub(crate) fn alternant_certificate(
    alloc: Global,
    offset: usize,
    code: &CodeValue,
    list: &[u64],
) -> Result<Effect, Stop>
    ensures { AffectsOrFails result
        (QueriesTo offset (bound.alternant_certificate code.now.code code.now.form list.now)) }
{
    let Some(form) = &code.form else {
        return Err(Stop::Refused(fault(alloc, NO_FORM, offset)));
    };
    let word = checked(alloc, offset, &code.code, list)?;
    let distance = form.r as u64 + 1;
    if !is_attained(alloc, &code.code, word.symbols(), distance)? {
        let refused = not_attained(alloc, offset, word.symbols(), distance)?;
        return Err(Stop::Refused(refused));
    }
    Ok(Effect::Prints(form_line(alloc, &code.code, form, word)?))
}
