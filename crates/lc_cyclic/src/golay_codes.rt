//! The two Golay codes.
ghost use Rattle.std.specs.Prelude.{◌≡◌, IfOk, IsTrue};
ghost use Rattle.lc_algebra.specs.declared.FieldName.TheVariants.{Gf2, Gf3};
ghost use Rattle.lc_algebra.specs.Field.{is_symbol};
ghost use Rattle.lc_constructions.specs.Code.{IsCode};
ghost use Rattle.lc_constructions.specs.Cyclic.{IsMultipleOf, binary_golay_generator, ternary_golay_generator};

use crate::cyclic_codes::generated;
use crate::reed_solomon_codes::field_of;
use lc_code::Code;
use lc_field::{Field, NoMemory};
use std::alloc::Global;

/// The binary Golay code: the cyclic code of length 23 with the generator polynomial 1 + x^2 + x^4 + x^5 + x^6 + x^10 + x^11. Its
/// dimension is 12 (MacWilliams and Sloane, chapters 2 and 20; GUAVA manual, `BinaryGolayCode`).
#[tactic(auto, using(crate::proofs::GolayLaws::binary_golay_laws))]
pub fn binary_golay(alloc: Global) -> Result<Code, NoMemory>
    ensures code { IfOk result (λ c. IsCode Gf2 23 (IsMultipleOf Gf2 23 binary_golay_generator) c) }
{
    let field = binary_field(alloc)?;
    generated(alloc, &field, &[1, 0, 1, 0, 1, 1, 1, 0, 0, 0, 1, 1], 23)
}

/// The ternary Golay code: the cyclic code of length 11 over 3 elements with the generator polynomial 2 + x^2 + 2 x^3 + x^4 + x^5.
/// Its dimension is 6 (MacWilliams and Sloane, chapter 20; GUAVA manual, `TernaryGolayCode`).
#[tactic(auto, using(crate::proofs::GolayLaws::ternary_golay_laws))]
pub fn ternary_golay(alloc: Global) -> Result<Code, NoMemory>
    ensures code { IfOk result (λ c. IsCode Gf3 11 (IsMultipleOf Gf3 11 ternary_golay_generator) c) }
{
    let field = ternary_field(alloc)?;
    generated(alloc, &field, &[2, 0, 1, 2, 1, 1], 11)
}

// The field of two elements.
#[tactic(auto, using(crate::proofs::GolayLaws::binary_field_laws))]
fn binary_field(alloc: Global) -> Result<Field, NoMemory>
    ensures is { IfOk result (λ f. f ≡ Gf2) }
{
    field_of(alloc, 2)
}

// The field of three elements.
#[tactic(auto, using(crate::proofs::GolayLaws::ternary_field_laws))]
fn ternary_field(alloc: Global) -> Result<Field, NoMemory>
    ensures is { IfOk result (λ f. f ≡ Gf3) }
{
    field_of(alloc, 3)
}
