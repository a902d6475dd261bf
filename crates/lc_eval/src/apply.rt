//! What a call gives of its arguments.
ghost use Rattle.std.specs.Prelude.{IsTrue, IsOk};
ghost use Rattle.lc_language.specs.Evaluation.{AppliesTo};
ghost use Rattle.lc_calls.specs.Applied.{Answers};
ghost use Rattle.lc_eval.specs.Evaluated.{takes_none};

use crate::construction::{circulant_code, construction_x_code, quasi_cyclic_code, residue_code};
use crate::cyclic::{
    check_pol_code, extended_binary_golay_code, extended_ternary_golay_code, generator_pol_code,
    qr_code,
};
use crate::decoding::{decode, is_codeword};
use crate::forms::{AskedForm, alternant_code, formed, goppa_code};
use crate::made::{check_mat_code, code_value, generator_mat_code, gf, made, nonzero, rows_value};
use crate::relations::{
    add_words, augmented_code, distance_codeword, encode, information_word, is_same_code,
    is_subcode, scale_word, syndrome,
};
use crate::stock::Stock;
use lc_calls::{BoundCall, Means, Stop, Value};
use std::alloc::Global;

/// What a call gives of its arguments, or its refusal, at this offset.
#[tactic(auto, unfolding(crate::specs::Evaluated::takes_none))]
pub(crate) fn apply(
    alloc: Global,
    stock: &mut Stock,
    offset: usize,
    call: BoundCall<'_>,
) -> Result<Value, Stop>
    ensures is { Answers result (AppliesTo offset (⟦<BoundCall<'static> as Means>⟧.meaning call.entry)) }
    ensures none { IsTrue (takes_none (⟦<BoundCall<'static> as Means>⟧.meaning call.entry)) → IsOk result }
{
    match call {
        BoundCall::Gf(q) => gf(alloc, stock, offset, q),
        BoundCall::GeneratorMatCode(rows, field) => generator_mat_code(alloc, offset, rows, field),
        BoundCall::CheckMatCode(rows, field) => check_mat_code(alloc, offset, rows, field),
        BoundCall::RepetitionCode(n, field) => {
            made(alloc, offset, lc_basic::repetition(alloc, n, field))
        }
        BoundCall::WholeSpaceCode(n, field) => {
            made(alloc, offset, lc_basic::whole_space(alloc, n, field))
        }
        BoundCall::NullCode(n, field) => made(alloc, offset, lc_basic::null_code(alloc, n, field)),
        BoundCall::HammingCode(r, field) => made(alloc, offset, lc_basic::hamming(alloc, r, field)),
        BoundCall::ReedMullerCode(r, m) => made(alloc, offset, lc_basic::reed_muller(alloc, r, m)),
        BoundCall::GeneratorPolCode(list, n, field) => {
            generator_pol_code(alloc, offset, list, n, field)
        }
        BoundCall::CheckPolCode(list, n, field) => check_pol_code(alloc, offset, list, n, field),
        BoundCall::QrCode(n, field) => qr_code(alloc, offset, n, field),
        BoundCall::BinaryGolayCode => Ok(code_value(alloc, lc_cyclic::binary_golay(alloc)?)?),
        BoundCall::TernaryGolayCode => Ok(code_value(alloc, lc_cyclic::ternary_golay(alloc)?)?),
        BoundCall::ExtendedBinaryGolayCode => extended_binary_golay_code(alloc, offset),
        BoundCall::ExtendedTernaryGolayCode => extended_ternary_golay_code(alloc, offset),
        BoundCall::BchCode(n, b, d, field) => {
            formed(alloc, offset, lc_cyclic::bch(alloc, n, b, d, field))
        }
        BoundCall::ReedSolomonCode(n, d) => {
            formed(alloc, offset, lc_cyclic::reed_solomon(alloc, n, d))
        }
        BoundCall::GoppaCode(list, points, locator, field) => {
            goppa_code(alloc, offset, list, points, locator, field)
        }
        BoundCall::AlternantCode(r, points, multipliers, locator, field) => {
            let form = AskedForm {
                r,
                points,
                multipliers,
                locator,
            };
            alternant_code(alloc, offset, &form, field)
        }
        BoundCall::DualCode(code) => Ok(code_value(alloc, code.dual(alloc)?)?),
        BoundCall::ExtendedCode(code) => made(alloc, offset, lc_combine::extended(alloc, code)),
        BoundCall::PuncturedCode(code, coordinates) => {
            made(
                alloc,
                offset,
                lc_combine::punctured(alloc, code, coordinates),
            )
        }
        BoundCall::ShortenedCode(code, coordinates) => {
            made(
                alloc,
                offset,
                lc_combine::shortened(alloc, code, coordinates),
            )
        }
        BoundCall::EvenWeightSubcode(code) => {
            made(alloc, offset, lc_combine::even_weight(alloc, code))
        }
        BoundCall::DirectSumCode(a, b) => made(alloc, offset, lc_combine::direct_sum(alloc, a, b)),
        BoundCall::UuvCode(a, b) => made(alloc, offset, lc_combine::uuv(alloc, a, b)),
        BoundCall::DirectProductCode(a, b) => {
            made(alloc, offset, lc_combine::direct_product(alloc, a, b))
        }
        BoundCall::IntersectionCode(a, b) => {
            made(alloc, offset, lc_combine::intersection(alloc, a, b))
        }
        BoundCall::ConcatenatedCode(outer, inner) => {
            made(alloc, offset, lc_combine::concatenated(alloc, outer, inner))
        }
        BoundCall::Dimension(code) => Ok(Value::Number(code.dimension() as u64)),
        BoundCall::WordLength(code) => Ok(Value::Number(code.length() as u64)),
        BoundCall::GeneratorMat(code) => Ok(rows_value(alloc, code)?),
        BoundCall::CheckMat(code) => Ok(rows_value(alloc, &code.dual(alloc)?)?),
        BoundCall::Weight(list) => Ok(Value::Number(nonzero(list) as u64)),
        BoundCall::IsCodeword(code, list) => is_codeword(alloc, offset, code, list),
        BoundCall::Decode(code, list) => decode(alloc, stock, offset, code, list),
        BoundCall::Syndrome(code, list) => syndrome(alloc, offset, code, list),
        BoundCall::IsSubcode(a, b) => is_subcode(alloc, offset, a, b),
        BoundCall::IsSameCode(a, b) => is_same_code(alloc, offset, a, b),
        BoundCall::IsSelfOrthogonalCode(code) => {
            Ok(Value::Truth(lc_relations::is_self_orthogonal(code)))
        }
        BoundCall::IsSelfDualCode(code) => {
            Ok(Value::Truth(lc_relations::is_self_dual(alloc, code)?))
        }
        BoundCall::IsCyclicCode(code) => Ok(Value::Truth(lc_relations::is_cyclic(alloc, code)?)),
        BoundCall::AddWords(x, y, field) => add_words(alloc, offset, x, y, field),
        BoundCall::ScaleWord(c, x, field) => scale_word(alloc, offset, c, x, field),
        BoundCall::DistanceCodeword(x, y) => distance_codeword(alloc, offset, x, y),
        BoundCall::Encode(code, list) => encode(alloc, offset, code, list),
        BoundCall::InformationWord(code, list) => information_word(alloc, offset, code, list),
        BoundCall::UnionCode(a, b) => made(alloc, offset, lc_relations::union_of(alloc, a, b)),
        BoundCall::AugmentedCode(code, rows) => augmented_code(alloc, offset, code, rows),
        BoundCall::TraceCode(code, field) => {
            made(alloc, offset, lc_trace::trace_code(alloc, code, field))
        }
        BoundCall::SubfieldSubcode(code, field) => {
            made(
                alloc,
                offset,
                lc_trace::subfield_subcode(alloc, code, field),
            )
        }
        BoundCall::CirculantCode(x, n, field) => circulant_code(alloc, offset, x, n, field),
        BoundCall::QuasiCyclicCode(words, n, field) => {
            quasi_cyclic_code(alloc, offset, words, n, field)
        }
        BoundCall::ConstructionXCode(c, d, e) => construction_x_code(alloc, offset, c, d, e),
        BoundCall::ResidueCode(code, list) => residue_code(alloc, offset, code, list),
    }
}
