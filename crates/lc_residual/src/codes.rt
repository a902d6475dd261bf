//! Residual codes.
ghost use Rattle.std.specs.Prelude.{◌≡◌, ◌-◌, ◌<◌, IfOk};
ghost use Rattle.lc_algebra.specs.Word.{weight as weight_of};
ghost use Rattle.lc_constructions.specs.Code.{InCode, IsCode};
ghost use Rattle.lc_constructions.specs.Refusal.{first_refusal, IsChecked, IsRefusedAs, RefusesFirst};
ghost use Rattle.lc_language.specs.Residual.{support as support_of, InResidual, no_coordinate};

use lc_code::{Code, CodeRefusal};
use lc_combine::punctured;
use lc_field::NoMemory;
use lc_vec::weight;
use std::alloc::Global;

/// The residual code of a code at one of its words: the words of the code without their symbols at the coordinates at which `word`
/// is not 0 (MacWilliams and Sloane, chapter 17; GUAVA manual, `ResidueCode`). The other coordinates keep their order.
///
/// At the zero word it is the code itself. Refused: the word has no symbol 0, so that no coordinate is left, BadLength. Fails if
/// memory runs out.
#[tactic(auto, using(crate::proofs::SupportLaws::residual_laws))]
pub fn residual(alloc: Global, code: &Code, word: &[u8]) -> Result<Code, CodeRefusal>
    requires word { InCode code.now word.now }
    ensures code { IfOk result
        (λ r. IsCode code.now.field (code.now.columns - weight_of word.now) (InResidual code.now word.now) r) }
    ensures refused { IsRefusedAs result (first_refusal (no_coordinate code.now word.now)) }
    ensures first { RefusesFirst result (first_refusal (no_coordinate code.now word.now)) }
{
    check_left(code, word)?;
    let _matrix = code.matrix();
    let coordinates = support(alloc, word)?;
    punctured(alloc, code, &coordinates)
}

// Checks that a word of a code has a symbol 0.
#[tactic(auto, using(crate::proofs::SupportLaws::check_left_laws))]
fn check_left(code: &Code, word: &[u8]) -> Result<(), CodeRefusal>
    ensures is { IsChecked result (first_refusal (no_coordinate code.now word.now)) }
    ensures some { IfOk result (λ _. weight_of word.now < code.now.columns) }
{
    if code.length() <= weight(word) {
        return Err(CodeRefusal::BadLength);
    }
    Ok(())
}

// The coordinates at which a word is not 0.
#[tactic(auto, using(crate::proofs::SupportLaws::support_laws), unfolding(lc_language::specs::Residual::support))]
fn support(alloc: Global, word: &[u8]) -> Result<Vec<u64>, NoMemory>
    ensures are { IfOk result (λ coordinates. coordinates.items ≡ support_of word.now) }
{
    let mut coordinates = Vec::new(alloc);
    for i in 0..word.len() {
        if word[i] != 0 {
            coordinates.push(i as u64)?;
        }
    }
    Ok(coordinates)
}
