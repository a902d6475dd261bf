//! Certificates that are read and written back, texts that are none, and the verdicts on certificates of both versions.
ghost use Rattle.lc_certificate.specs.Trees.{document_of};
ghost use Rattle.lc_documents.specs.Reading.{IsShapedDocument};

use lc_certificate::{CertRefusal, Document, parse, write};
use lc_checker::{Verdict, check};
use lc_documents::parse_document;
use lc_field::NoMemory;
use lc_trees::check_built;
use std::alloc::{AllocError, Global};
use std::test::Fail;

const HAMMING: &str =
    "{\"by\":\"levels\",\"distance\":3,\"field\":2,\"rows\":[[1,0,0,0,0,1,1],[0,1,0,0,1,0,1],[0,0,1,0,1,1,0],[0,0,0,1,1,1,1]],\"sets\":[{\"basis\":[0,1,2,3],\"fresh\":[0,1,2,3],\"level\":1},{\"basis\":[0,4,5,6],\"fresh\":[4,5,6],\"level\":1}],\"version\":1,\"word\":[1,0,0,0,0,1,1]}";

const REPETITION: &str =
    "{\"by\":\"scan\",\"distance\":2,\"field\":16,\"rows\":[[1,15]],\"version\":1,\"word\":[1,15]}";

// What parsing the text refuses it for: the number, and the rule that is broken, 0 if there is none. A certificate gives 0 and 0.
fn refusal_of(alloc: Global, text: &str) -> (u8, u32) {
    match parse(alloc, text.as_bytes()) {
        Ok(_) => (0, 0),
        Err(refusal) => match refusal {
            CertRefusal::Shape(rule) => (refusal.number(), rule),
            _ => (refusal.number(), 0),
        },
    }
}

// The text of the certificate that a text is.
fn rewritten(alloc: Global, text: &str) -> Result<Vec<u8>, AllocError> {
    let Ok(cert) = parse(alloc, text.as_bytes()) else {
        return Err(AllocError);
    };
    let Ok(again) = write(alloc, &cert) else {
        return Err(AllocError);
    };
    Ok(again)
}

#[test]
fn certificates_are_written_back(rt: HostRuntime) -> Result<(), Fail> {
    for text in &[HAMMING, REPETITION] {
        assert_eq!(rt; rewritten(rt.alloc(), *text)?.as_slice(), text.as_bytes());
    }
    Ok(())
}

#[test]
fn broken_certificates(rt: HostRuntime) {
    let cases: [(&str, u8, u32); 8] = [
        (HAMMING, 0, 0),
        ("", 30, 0),
        ("{\"by\":\"levels\",\"distance\":3,\"field\":2,\"ro", 30, 0),
        ("[]", 31, 1),
        ("{}", 31, 2),
        ("{\"version\":1}", 31, 3),
        ("{\"version\":1,\"field\":6}", 31, 3),
        ("{\"version\":1,\"field\":3,\"rows\":[[0,3]]}", 31, 4),
    ];
    for (text, number, rule) in &cases {
        assert!(rt; refusal_of(rt.alloc(), *text) == (*number, *rule));
    }
}

#[test]
fn certificates_of_broken_proofs(rt: HostRuntime) {
    let cases: [(&str, u8, u32); 6] = [
        (
            "{\"version\":1,\"field\":3,\"rows\":[[0,2]],\"word\":[0]}",
            31,
            5,
        ),
        (
            "{\"version\":1,\"field\":3,\"rows\":[[0,2]],\"word\":[0,1],\"distance\":0}",
            31,
            6,
        ),
        (
            "{\"version\":1,\"field\":3,\"rows\":[[0,2]],\"word\":[0,1],\"distance\":1,\"by\":\"x\"}",
            31,
            7,
        ),
        (
            "{\"version\":1,\"field\":3,\"rows\":[[0,2]],\"word\":[0,1],\"distance\":1,\"by\":\"scan\",\"sets\":[]}",
            31,
            8,
        ),
        (
            "{\"version\":1,\"field\":3,\"rows\":[[0,2]],\"word\":[0,1],\"distance\":1,\"by\":\"levels\",\"sets\":[{\"basis\":[1],\"fresh\":[0],\"level\":0}]}",
            31,
            10,
        ),
        (
            "{\"version\":1,\"field\":3,\"rows\":[[0,2]],\"word\":[0,1],\"distance\":1,\"by\":\"scan\",\"note\":0}",
            31,
            11,
        ),
    ];
    for (text, number, rule) in &cases {
        assert!(rt; refusal_of(rt.alloc(), *text) == (*number, *rule));
    }
}

// The number of the reason for which a certificate is rejected, 0 if it is accepted.
fn number_of(verdict: Result<Verdict, NoMemory>) -> Option<u8> {
    match verdict {
        Ok(Verdict::Accepted) => Some(0),
        Ok(Verdict::Rejected(reason)) => Some(reason.number()),
        Err(NoMemory) => None,
    }
}

// The same for the certificate that a text is.
fn verdict_on(alloc: Global, text: &str) -> Option<u8> {
    match parse(alloc, text.as_bytes()) {
        Ok(cert) => number_of(check(alloc, &cert)),
        Err(_) => None,
    }
}

// Certificates, and the reason for which each is rejected.
static VERDICTS: [(&str, u8); 4] = [
    (HAMMING, 0),
    (
        "{\"version\":1,\"field\":2,\"rows\":[[1,1]],\"word\":[1,0],\"distance\":1,\"by\":\"scan\"}",
        33,
    ),
    (
        "{\"version\":1,\"field\":2,\"rows\":[[1,1]],\"word\":[1,1],\"distance\":1,\"by\":\"scan\"}",
        34,
    ),
    (
        "{\"version\":1,\"field\":2,\"rows\":[[1,0],[0,1]],\"word\":[1,1],\"distance\":2,\"by\":\"scan\"}",
        37,
    ),
];

#[test]
fn certificates_are_checked(rt: HostRuntime) {
    for row in &VERDICTS {
        assert!(rt; verdict_on(rt.alloc(), row.0) == Some(row.1));
    }
}

// The same for a certificate by construction.
fn verdict_of_tree(alloc: Global, read: &Document) -> Option<u8>
    requires shaped { IsShapedDocument (document_of read.now) }
{
    match read {
        Document::Tree(built) => number_of(check_built(alloc, built)),
        Document::Plain(_) => None,
    }
}

// The same for the one that a text is.
fn verdict_on_tree(alloc: Global, text: &str) -> Option<u8> {
    match parse_document(alloc, text.as_bytes()) {
        Ok(read) => verdict_of_tree(alloc, &read),
        Err(_) => None,
    }
}

// The certificate of the Reed-Solomon code of length 4 and distance 3, and what it is after one change.
static TREES: [(&str, u8); 4] = [
    (
        "{\"claim\":{\"kind\":\"alternant\",\"locator\":5,\"multipliers\":[1,2,4,3],\"points\":[1,2,4,3],\"r\":2},\"distance\":3,\"field\":5,\"version\":2,\"word\":[1,0,3,4]}",
        0,
    ),
    (
        "{\"claim\":{\"kind\":\"alternant\",\"locator\":5,\"multipliers\":[1,1,1,1],\"points\":[1,2,4,3],\"r\":2},\"distance\":3,\"field\":5,\"version\":2,\"word\":[1,0,3,4]}",
        33,
    ),
    (
        "{\"claim\":{\"kind\":\"alternant\",\"locator\":5,\"multipliers\":[1,2,4,3],\"points\":[1,2,4,4],\"r\":2},\"distance\":3,\"field\":5,\"version\":2,\"word\":[1,0,3,4]}",
        48,
    ),
    (
        "{\"claim\":{\"kind\":\"alternant\",\"locator\":5,\"multipliers\":[1,2,4,3],\"points\":[1,2,4,3],\"r\":2},\"distance\":4,\"field\":5,\"version\":2,\"word\":[1,1,1,1]}",
        49,
    ),
];

#[test]
fn certificates_by_construction_are_checked(rt: HostRuntime) {
    for row in &TREES {
        assert!(rt; verdict_on_tree(rt.alloc(), row.0) == Some(row.1));
    }
}
