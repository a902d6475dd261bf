//! The calls that stand only as whole statements.
ghost use Rattle.std.specs.Prelude.{◌≡◌, ◌^◌, nat_lt, [], ◌∷◌, length, IfOk};
ghost use Rattle.lc_algebra.specs.Field.{size};
ghost use Rattle.lc_language.specs.Calls as bound;
ghost use Rattle.lc_language.specs.Query.{query_line};
ghost use Rattle.lc_language.specs.Evaluation.{QueriesTo, AsksOf, refused, refuse_call};
ghost use Rattle.lc_language.specs.Refusal.{refuse};
ghost use Rattle.lc_calls.specs.Value.{rows_of, refused_of};
ghost use Rattle.lc_eval.specs.Evaluated.{AffectsOrFails, kind_of};
ghost use Rattle.lc_eval.specs.Least.{IsLeastLine};

use crate::decoding::algebraic_decode;
use crate::erasures::fill_erasures;
use crate::form_certificates::alternant_certificate;
use crate::machine::{Query, QueryKind};
use crate::nearest::nearest_word;
use crate::rows::{rows_of, words_of};
use crate::statement::Effect;
use lc_basic::generator_mat;
use lc_calls::{
    Asks, BoundQuery, NO_DISTRIBUTION, Refused, Stop, TOO_MANY_WORDS, fault, refused_as,
};
use lc_code::Code;
use lc_field::{Field, NoMemory};
use lc_macwilliams::{DistributionRefusal, refusal};
use lc_print::{certificate_none_line, distance_none_line, least_line, least_none_line};
use lc_vec::weight;
use std::alloc::Global;

/// The most words that a query for a least word looks at.
const MOST_WORDS: u64 = 1 << 16;

// Whether k rows have more than the most words.
#[tactic(auto, using(crate::proofs::QueryLaws::words_next, crate::proofs::QueryLaws::words_few))]
fn has_too_many_words(field: &Field, k: usize) -> bool
    ensures { result ≡ nat_lt (2 ^ 16) (size field.now ^ k) }
{
    let q = u64::from(field.size());
    let mut words = 1;
    for _i in 0..k {
        words *= q;
        if words > MOST_WORDS {
            return true;
        }
    }
    false
}

// The line of the first nonzero word of a code.
#[tactic(auto, using(lc_code::proofs::GeneratedLaws::shaped))]
fn line_of(alloc: Global, code: &Code) -> Result<Vec<u8>, NoMemory>
    ensures { IfOk result (λ line. IsLeastLine code.now.field code.now.columns code.now.rows line.items) }
{
    let rows = rows_of(alloc, code)?;
    match lc_least::least_word(alloc, code.field(), code.length(), &rows)? {
        Some(word) => least_line(alloc, weight(word.symbols()) as u64, &word),
        None => least_none_line(alloc),
    }
}

/// What a query does of its arguments, or its refusal, at this offset.
#[tactic(auto, using(crate::proofs::QueryLaws::answer_laws))]
pub(crate) fn answer(alloc: Global, offset: usize, query: BoundQuery<'_>) -> Result<Effect, Stop>
    ensures { AffectsOrFails result (QueriesTo offset (⟦<BoundQuery<'static> as Asks>⟧.asked query.entry)) }
{
    match query {
        BoundQuery::LeastWord(rows, field) => least_word(alloc, offset, rows, field),
        BoundQuery::MinimumDistance(code) => asked(alloc, QueryKind::Distance, code),
        BoundQuery::Certificate(code) => asked(alloc, QueryKind::Levels, code),
        BoundQuery::ScanCertificate(code) => asked(alloc, QueryKind::Scan, code),
        BoundQuery::WeightDistribution(code) => weight_distribution(alloc, offset, code),
        BoundQuery::NearestWord(code, list) => nearest_word(alloc, offset, code, list),
        BoundQuery::FillErasures(code, list, erased) => {
            fill_erasures(alloc, offset, code, list, erased)
        }
        BoundQuery::AlgebraicDecode(code, list) => algebraic_decode(alloc, offset, code, list),
        BoundQuery::AlternantCertificate(code, list) => {
            alternant_certificate(alloc, offset, code, list)
        }
    }
}

// The line of a query on a code of dimension 0.
#[tactic(auto, using(crate::proofs::QueryLaws::nothing_line_laws))]
fn nothing_line(alloc: Global, kind: QueryKind, _code: &Code) -> Result<Vec<u8>, NoMemory>
    requires { length _code.now.rows ≡ 0 }
    ensures { IfOk result (λ l. l.items ≡ query_line (kind_of kind) _code.now 0) }
{
    match kind {
        QueryKind::Distance => Ok(distance_none_line(alloc)?),
        QueryKind::Levels => Ok(certificate_none_line(alloc)?),
        QueryKind::Scan => Ok(certificate_none_line(alloc)?),
    }
}

// A query that a search answers; of a code of dimension 0 its line is known at once.
fn asked(alloc: Global, kind: QueryKind, code: &Code) -> Result<Effect, Stop>
    ensures { AffectsOrFails result (AsksOf (kind_of kind) code.now) }
{
    if code.dimension() == 0 {
        return Ok(Effect::Prints(nothing_line(alloc, kind, code)?));
    }
    let code = code.copy(alloc)?;
    Ok(Effect::Needs(Query { kind, code }))
}

// The line of the first nonzero word, by weight and then lexicographically, among the sums of multiples of rows over a field.
//
// Refused as a generator matrix is; then if the rows have more than 2^16 words. The words are those of the code of the rows,
// whose own rows are at most as many, so these are scanned.
fn least_word(
    alloc: Global,
    offset: usize,
    rows: &[Vec<u64>],
    field: &Field,
) -> Result<Effect, Stop>
    ensures { AffectsOrFails result (QueriesTo offset (bound.least_word (rows_of rows.now) field.now)) }
{
    let words = words_of(alloc, rows)?;
    let code = match generator_mat(alloc, &words, field) {
        Ok(code) => code,
        Err(refusal) => return Err(refused_as(alloc, offset, refusal)),
    };
    if has_too_many_words(field, rows.len()) {
        return Err(Stop::Refused(fault(alloc, TOO_MANY_WORDS, offset)));
    }
    Ok(Effect::Prints(line_of(alloc, &code)?))
}

// The refusal of a weight distribution, with the dimension of the code and that of its dual.
#[tactic(auto, unfolding(lc_calls::proofs::Opened::refusals_of_calls))]
fn no_distribution(
    alloc: Global,
    offset: usize,
    sizes: DistributionRefusal,
) -> Result<Refused, NoMemory>
    ensures { IfOk result (λ r. refused (refused_of r)
        ≡ refuse_call offset (refuse 47 (sizes.dimension ∷ sizes.codimension ∷ []))) }
{
    let values = vec![in alloc; sizes.dimension as u64, sizes.codimension as u64]?;
    Ok(Refused {
        number: NO_DISTRIBUTION,
        offset,
        values,
    })
}

// The weight distribution of a code, whose words the caller counts.
//
// Refused if the code has too many words, and besides its dual has too many, or its space.
#[tactic(auto, using(crate::proofs::QueryLaws::distribution_refused, crate::proofs::QueryLaws::distribution_asked))]
fn weight_distribution(alloc: Global, offset: usize, code: &Code) -> Result<Effect, Stop>
    ensures { AffectsOrFails result (QueriesTo offset (bound.weight_distribution code.now)) }
{
    if let Some(sizes) = refusal(code) {
        return Err(Stop::Refused(no_distribution(alloc, offset, sizes)?));
    }
    Ok(Effect::Counts(code.copy(alloc)?))
}
