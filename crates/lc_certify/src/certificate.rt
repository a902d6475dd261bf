//! The certificate of a search.
ghost use Rattle.std.specs.Prelude.{◌≡◌, ◌^◌, ◌≤◌, IfOk, IsOk};
ghost use Rattle.lc_algebra.specs.Word.{IsWord};
ghost use Rattle.lc_formats.specs.Certificate.{cost, IsValid};
ghost use Rattle.lc_formats.specs.Shape.{IsShaped};
ghost use Rattle.lc_certificate.specs.Seen.{proof_of as seen_proof, certificate_of as seen_certificate};
ghost use Rattle.lc_language.specs.Query.{proof_of, certificate_of};
ghost use Rattle.lc_certify.specs.Claims.{kind_of};
ghost use Rattle.lc_certify.specs.Accepted.{IsExactAt};

use crate::claims::claims_of;
use crate::way::Way;
use lc_certificate::{Certificate, Proof, name_of};
use lc_field::NoMemory;
use lc_matrix::Matrix;
use lc_search::Search;
use lc_vec::Word;
use std::alloc::Global;

// The rows of a matrix, as words of their own.
fn rows_of(alloc: Global, matrix: &Matrix) -> Result<Vec<Word>, NoMemory>
    ensures are { IfOk result (λ rows. rows.items ≡ matrix.now.rows) }
{
    let mut rows = Vec::with_capacity(alloc, matrix.rows())?;
    for i in 0..matrix.rows() {
        rows.push(Word::from_slice(alloc, matrix.row(i))?)?;
    }
    Ok(rows)
}

// How the search proves its distance.
#[tactic(auto, using(crate::proofs::ClaimLaws::proof_by_laws))]
fn proof_by(alloc: Global, way: Way, search: &Search) -> Result<Proof, NoMemory>
    ensures is { IfOk result (λ p. seen_proof p ≡ proof_of (kind_of way) search.now.code search.now.progress.blocks) }
    ensures scan { way ≡ Way.Scan → IsOk result }
{
    match way {
        Way::Scan => Ok(Proof::Scan),
        Way::Levels => {
            let claims = claims_of(alloc, search)?;
            Ok(Proof::Levels(claims))
        }
    }
}

/// The certificate that the code of the search has this weight for its minimum distance: the code's rows, the word and its
/// weight, and for a proof by levels the information sets, each with the last level that the search has done of it.
///
/// `word` is a word of the code's length over its field, and `weight` is at least 1. In a search that has ended with an exact
/// answer they are its best word and that word's weight, which is the distance; that the search has ended isn't tried. The
/// certificate has the shape that a reader wants, and it is valid in such a search if its cost is at most 2^32.
#[tactic(auto, unfolding(crate::proofs::Opened::certificates))]
pub fn certificate_of(
    alloc: Global,
    way: Way,
    search: &Search,
    word: Word,
    weight: u64,
) -> Result<Certificate, NoMemory>
    requires word { IsWord search.now.code.field search.now.code.columns word }
    requires positive { 1 ≤ weight }
    ensures is { IfOk result (λ c. seen_certificate c
        ≡ certificate_of (kind_of way) search.now.code word weight search.now.progress.blocks) }
    ensures shaped { IfOk result (λ c. IsShaped (seen_certificate c)) }
    ensures valid { IfOk result (λ c. IsExactAt search.now.code word weight search.now.progress.blocks →
        cost (seen_certificate c) ≤ 2 ^ 32 → IsValid (seen_certificate c)) }
{
    let sets = search.sets();
    let _some = sets.dimension();
    let _least = sets.length();
    let _few = sets.count();
    let rows = rows_of(alloc, sets.code())?;
    let basis_of = proof_by(alloc, way, search)?;
    Ok(Certificate {
        field: name_of(sets.field()),
        rows,
        word,
        distance: weight,
        basis_of,
    })
}
