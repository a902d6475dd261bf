//! Trace codes.
ghost use Rattle.std.specs.Prelude.{◌≡◌, ◌<◌, ◌++◌, [], map, slice_index_or, length, IsTrue, IfOk};
ghost use Rattle.lc_algebra.specs.Field.{size, is_symbol};
ghost use Rattle.lc_algebra.specs.Embedding.{IsSubfield};
ghost use Rattle.lc_algebra.specs.Word.{Fits};
ghost use Rattle.lc_constructions.specs.Code.{IsCode};
ghost use Rattle.lc_constructions.specs.Refusal.{first_refusal, IsRefusedAs, RefusesFirst};
ghost use Rattle.lc_code.specs.Coordinates.{relative_degree};
ghost use Rattle.lc_language.specs.Trace.{extension_degree, trace_sum, IsTrace, InTrace, subfield_refusals};
ghost use Rattle.lc_trace.specs.Traces.{AreTraces, traced, traced_multiples, traced_rows};

use crate::refusal::check_subfield;
use lc_code::{Code, CodeRefusal};
use lc_field::{Field, NoMemory};
use lc_vec::{Word, scale};
use std::alloc::Global;

/// The trace code: for each word of the code the word of the traces of its symbols, from the code's field to `field`, a subfield of
/// it (MacWilliams and Sloane, chapter 7; Delsarte). The trace of an element a is a + a^q + a^(q^2) + .., with as many terms as the
/// degree of the code's field over `field`, which has q elements. The field may be the code's own: then each trace is the element.
///
/// Refused in this order: the field has more than 16 elements, FieldTooLarge; it isn't a subfield of the code's field, NotASubfield.
/// Fails if memory runs out.
#[tactic(auto, using(lc_constructions::proofs::RefusalLaws::refused_or_not))]
pub fn trace_code(alloc: Global, code: &Code, field: &Field) -> Result<Code, CodeRefusal>
    ensures code { IfOk result (λ c. IsCode field.now code.now.columns (InTrace code.now field.now) c) }
    ensures refused { IsRefusedAs result (first_refusal (subfield_refusals code.now field.now)) }
    ensures first { RefusesFirst result (first_refusal (subfield_refusals code.now field.now)) }
{
    check_subfield(code, field)?;
    Ok(traced(alloc, code, field)?)
}

// The code of the traces of the multiples of the rows by the powers of the primitive element.
pub(crate) fn traced(alloc: Global, code: &Code, field: &Field) -> Result<Code, NoMemory>
    requires symbol { IsTrue (is_symbol field.now) }
    requires subfield { IsSubfield field.now code.now.field }
    ensures code { IfOk result (λ c. IsCode field.now code.now.columns (InTrace code.now field.now) c) }
{
    let _matrix = code.matrix();
    let traces = traces(alloc, code.field(), field)?;
    let degree = degree_over(code.field(), field);
    let rows = traced_rows(alloc, code, degree, &traces)?;
    Ok(Code::from_rows(alloc, field, code.length(), &rows)?)
}

// The traces of the multiples of each row by the first powers of the primitive element.
#[tactic(auto, using(crate::proofs::RowLaws::rows_laws))]
fn traced_rows(alloc: Global, code: &Code, degree: u8, traces: &[u8]) -> Result<Vec<Word>, NoMemory>
    requires traces { length traces.now ≡ size code.now.field }
    ensures are { IfOk result (λ rows. rows.items ≡ traced_rows code.now.field degree traces.now code.now.rows) }
{
    let mut rows = Vec::new(alloc);
    for i in 0..code.dimension() {
        push_multiples(alloc, code, degree, traces, i, &mut rows)?;
    }
    Ok(rows)
}

// The same for one row.
#[tactic(auto, using(crate::proofs::RowLaws::multiples_laws))]
fn push_multiples(
    alloc: Global,
    code: &Code,
    degree: u8,
    traces: &[u8],
    i: usize,
    rows: &mut Vec<Word>,
) -> Result<(), NoMemory>
    requires traces { length traces.now ≡ size code.now.field }
    requires row { i < length code.now.rows }
    ensures pushed { IfOk result (λ _. rows.new.items ≡ rows.old.items
        ++ traced_multiples code.now.field degree traces.now (slice_index_or code.now.rows i [])) }
{
    let field = code.field();
    let mut word = Vec::from_slice(alloc, code.row(i))?;
    for _t in 0..degree {
        rows.push(traced_word(alloc, field, traces, &word)?)?;
        scale(field, &mut word, field.primitive());
    }
    Ok(())
}

// The traces of the symbols of a word, by a table.
fn traced_word(alloc: Global, _field: &Field, traces: &[u8], word: &[u8]) -> Result<Word, NoMemory>
    requires traces { length traces.now ≡ size _field.now }
    requires word { Fits _field.now word.now }
    ensures is { IfOk result (λ w. w ≡ traced traces.now word.now) }
{
    let mut symbols = Vec::with_capacity(alloc, word.len())?;
    for a in word {
        symbols.push(traces[*a as usize])?;
    }
    Ok(Word::from_vec(symbols))
}

// The traces of all elements of the larger field.
#[tactic(auto, using(crate::proofs::RowLaws::traces_laws))]
fn traces(alloc: Global, large: &Field, small: &Field) -> Result<Vec<u8>, NoMemory>
    requires symbol { IsTrue (is_symbol large.now) }
    requires subfield { IsSubfield small.now large.now }
    ensures are { IfOk result (λ ts. AreTraces small.now large.now ts.items) }
{
    let mut traces = Vec::new(alloc);
    for a in 0..large.size() {
        traces.push(trace(large, small, a as u8))?;
    }
    Ok(traces)
}

// The trace of an element of the larger field.
fn trace(large: &Field, small: &Field, a: u8) -> u8
    requires symbol { IsTrue (is_symbol large.now) }
    requires subfield { IsSubfield small.now large.now }
    requires element { a < size large.now }
    ensures is { IsTrace small.now large.now a result }
{
    match large.unembed(small, sum_of_powers(large, small, a)) {
        Some(b) => b,
        None => unreachable!(),
    }
}

// The sum that the trace stands for.
#[tactic(auto, using(crate::proofs::RowLaws::sum_laws))]
fn sum_of_powers(large: &Field, small: &Field, a: u8) -> u8
    requires element { a < size large.now }
    ensures is { result ≡ trace_sum large.now (size small.now) (extension_degree small.now large.now) a }
    ensures below { result < size large.now }
{
    let q = u64::from(small.size());
    let mut power = a;
    let mut sum = 0;
    for _i in 0..degree_over(large, small) {
        sum = large.add(power, sum);
        power = large.pow(power, q);
    }
    sum
}

// The degree of the larger field over the smaller one.
#[tactic(auto, using(lc_code::proofs::CoordinateSteps::relative_degree_laws))]
fn degree_over(large: &Field, small: &Field) -> u8
    ensures is { result ≡ relative_degree small.now large.now }
{
    large.degree() / small.degree()
}
