//! The lines of the certificates of a search that has done two blocks.
ghost use Rattle.lc_algebra.specs.Word.{IsWord};

use lc_certify::{Way, certificate_line, certificate_of};
use lc_code::Code;
use lc_field::NoMemory;
use lc_search::Search;
use lc_vec::Word;
use std::alloc::Global;
use std::test::Fail;
use test_rows::{Rows, generated, is_word};

// The rows of the Hamming code of length 7.
const ROWS: Rows = &[
    &[1, 0, 0, 0, 0, 1, 1],
    &[0, 1, 0, 0, 1, 0, 1],
    &[0, 0, 1, 0, 1, 1, 0],
    &[0, 0, 0, 1, 1, 1, 1],
];

// The first of them.
const FIRST: [u8; 7] = [1, 0, 0, 0, 0, 1, 1];

// How its distance is proved, and the line.
const LINES: [(Way, &[u8]); 2] = [
    (
        Way::Levels,
        b"{\"by\":\"levels\",\"distance\":3,\"field\":2,\"rows\":[[1,0,0,0,0,1,1],[0,1,0,0,1,0,1],[0,0,1,0,1,1,0],[0,0,0,1,1,1,1]],\"sets\":[{\"basis\":[0,1,2,3],\"fresh\":[0,1,2,3],\"level\":1},{\"basis\":[0,4,5,6],\"fresh\":[4,5,6],\"level\":1}],\"version\":1,\"word\":[1,0,0,0,0,1,1]}\n",
    ),
    (
        Way::Scan,
        b"{\"by\":\"scan\",\"distance\":3,\"field\":2,\"rows\":[[1,0,0,0,0,1,1],[0,1,0,0,1,0,1],[0,0,1,0,1,1,0],[0,0,0,1,1,1,1]],\"version\":1,\"word\":[1,0,0,0,0,1,1]}\n",
    ),
];

// The line of the certificate by this word after the blocks of the search.
fn line_by(alloc: Global, way: Way, search: &Search, word: Word) -> Result<Vec<u8>, NoMemory>
    requires word { IsWord search.now.code.field search.now.code.columns word }
{
    let certificate = certificate_of(alloc, way, search, word, 3)?;
    certificate_line(alloc, &certificate)
}

// Whether the first row is a word of the search, and this is the line of the certificate by it.
fn has_line(alloc: Global, way: Way, search: &Search, text: &[u8]) -> Result<bool, NoMemory> {
    let sets = search.sets();
    if !is_word(sets.field(), sets.length(), &FIRST) {
        return Ok(false);
    }
    let word = Word::from_slice(alloc, &FIRST)?;
    let line = line_by(alloc, way, search, word)?;
    Ok(line.as_slice() == text)
}

// Whether this is the line of the certificate after two blocks.
fn is_printed(alloc: Global, code: &Code, way: Way, text: &[u8]) -> Result<bool, NoMemory> {
    if code.dimension() < 1 {
        return Ok(false);
    }
    match Search::resume_at(alloc, code, 2, 2, 3, 0) {
        Ok(search) => has_line(alloc, way, &search, text),
        Err(_) => Ok(false),
    }
}

#[test]
fn certificates_of_the_hamming_code(rt: HostRuntime) -> Result<(), Fail> {
    let code = generated(rt.alloc(), 2, 7, ROWS)?;
    for row in &LINES {
        assert!(rt; is_printed(rt.alloc(), &code, row.0, row.1)?);
    }
    Ok(())
}
