//! Certificates of either version that are read, and texts that are none.
use lc_certificate::{CertRefusal, Document, write_built};
use lc_documents::parse_document;
use std::alloc::{AllocError, Global};
use std::test::Fail;

// An alternant form of one column over two elements.
const LEAF: &str =
    "{\"kind\":\"alternant\",\"locator\":2,\"multipliers\":[1],\"points\":[1],\"r\":0}";

// The start of a certificate by construction over two elements, up to its claim, and the rest of it.
const HEAD: &str = "{\"version\":2,\"field\":2,\"word\":[1],\"distance\":1,\"claim\":";

const REST: &str = "}";

// What reading the bytes refuses them for: the number, and the rule that is broken, 0 if there is none. A certificate gives 0 and 0.
fn refusal_in(alloc: Global, bytes: &[u8]) -> (u8, u32) {
    match parse_document(alloc, bytes) {
        Ok(_) => (0, 0),
        Err(refusal) => match refusal {
            CertRefusal::Shape(rule) => (refusal.number(), rule),
            _ => (refusal.number(), 0),
        },
    }
}

// Whether the text reads as a certificate by construction.
fn is_tree(alloc: Global, text: &str) -> bool {
    match parse_document(alloc, text.as_bytes()) {
        Ok(Document::Tree(_)) => true,
        _ => false,
    }
}

// Whether the text reads as a certificate of version 1.
fn is_plain(alloc: Global, text: &str) -> bool {
    match parse_document(alloc, text.as_bytes()) {
        Ok(Document::Plain(_)) => true,
        _ => false,
    }
}

// The text with a piece put after it, `count` times.
fn put(text: &mut Vec<u8>, piece: &str, count: usize) -> Result<(), AllocError> {
    for _ in 0..count {
        text.extend_from_slice(piece.as_bytes())?;
    }
    Ok(())
}

// What a certificate by construction with this claim is refused for.
fn claim_refusal(alloc: Global, claim: &[u8]) -> Result<(u8, u32), AllocError> {
    let mut text = Vec::new(alloc);
    put(&mut text, HEAD, 1)?;
    text.extend_from_slice(claim)?;
    put(&mut text, REST, 1)?;
    Ok(refusal_in(alloc, &text))
}

// A claim that is extended `times` times.
fn extended(alloc: Global, claim: &[u8], times: usize) -> Result<Vec<u8>, AllocError> {
    let mut text = Vec::new(alloc);
    put(&mut text, "{\"kind\":\"extend\",\"of\":", times)?;
    text.extend_from_slice(claim)?;
    put(&mut text, "}", times)?;
    Ok(text)
}

// The direct sum of a claim with itself.
fn doubled(alloc: Global, claim: &[u8]) -> Result<Vec<u8>, AllocError> {
    let mut text = Vec::new(alloc);
    put(&mut text, "{\"kind\":\"sum\",\"left\":", 1)?;
    text.extend_from_slice(claim)?;
    put(&mut text, ",\"right\":", 1)?;
    text.extend_from_slice(claim)?;
    put(&mut text, "}", 1)?;
    Ok(text)
}

// 1,023 claims, 10 deep.
fn many_claims(alloc: Global) -> Result<Vec<u8>, AllocError> {
    let mut text = Vec::new(alloc);
    put(&mut text, LEAF, 1)?;
    for _ in 0..9 {
        text = doubled(alloc, &text)?;
    }
    Ok(text)
}

// An alternant form of n points.
fn form_of(alloc: Global, n: usize) -> Result<Vec<u8>, AllocError> {
    let mut text = Vec::new(alloc);
    put(
        &mut text,
        "{\"kind\":\"alternant\",\"locator\":2,\"multipliers\":[],\"points\":[1",
        1,
    )?;
    put(&mut text, ",1", n)?;
    put(&mut text, "],\"r\":0}", 1)?;
    Ok(text)
}

#[test]
fn certificates_of_either_version(rt: HostRuntime) {
    let alloc = rt.alloc();
    assert!(rt;
        is_tree(
            alloc,
            "{\"claim\":{\"kind\":\"alternant\",\"locator\":5,\"multipliers\":[1,2,4,3],\"points\":[1,2,4,3],\"r\":2},\"distance\":3,\"field\":5,\"version\":2,\"word\":[1,0,3,4]}"
        )
    );
    assert!(rt;
        is_plain(
            alloc,
            "{\"by\":\"scan\",\"distance\":2,\"field\":16,\"rows\":[[1,15]],\"version\":1,\"word\":[1,15]}"
        )
    );
    assert!(rt;
        !is_tree(
            alloc,
            "{\"by\":\"scan\",\"distance\":2,\"field\":16,\"rows\":[[1,15]],\"version\":2,\"word\":[1,15]}"
        )
    );
}

// The text of the certificate by construction that a text is.
fn rewritten(alloc: Global, text: &str) -> Result<Vec<u8>, AllocError> {
    let Ok(Document::Tree(built)) = parse_document(alloc, text.as_bytes()) else {
        return Err(AllocError);
    };
    let Ok(again) = write_built(alloc, &built) else {
        return Err(AllocError);
    };
    Ok(again)
}

// A certificate by construction with a claim of each kind.
const EACH_KIND: &str =
    "{\"claim\":{\"inner\":{\"kind\":\"extend\",\"of\":{\"by\":\"levels\",\"distance\":1,\"kind\":\"search\",\"rows\":[[1]],\"sets\":[{\"basis\":[0],\"fresh\":[0],\"level\":1}],\"word\":[1]}},\"kind\":\"concat\",\"large\":4,\"outer\":{\"kind\":\"uuv\",\"left\":{\"kind\":\"sum\",\"left\":{\"by\":\"scan\",\"distance\":1,\"kind\":\"search\",\"rows\":[[3]],\"word\":[3]},\"right\":{\"kind\":\"alternant\",\"locator\":16,\"multipliers\":[1],\"points\":[12],\"r\":0}},\"right\":{\"kind\":\"product\",\"left\":{\"kind\":\"puncture\",\"of\":{\"kind\":\"alternant\",\"locator\":4,\"multipliers\":[1],\"points\":[1],\"r\":0},\"places\":[0]},\"right\":{\"kind\":\"shorten\",\"of\":{\"kind\":\"subcode\",\"of\":{\"kind\":\"alternant\",\"locator\":4,\"multipliers\":[1],\"points\":[1],\"r\":0},\"rows\":[[1,2],[]]},\"places\":[]}}}},\"distance\":3,\"field\":2,\"version\":2,\"word\":[1,0,1]}";

#[test]
fn certificates_by_construction_are_written_back(rt: HostRuntime) -> Result<(), Fail> {
    assert_eq!(rt;
        rewritten(rt.alloc(), EACH_KIND)?.as_slice(),
        EACH_KIND.as_bytes()
    );
    Ok(())
}

#[test]
fn refused_documents(rt: HostRuntime) {
    let cases: [(&str, u8, u32); 16] = [
        ("", 30, 0),
        ("[2]", 31, 1),
        ("{}", 31, 2),
        ("{\"version\":3}", 31, 2),
        ("{\"version\":\"2\"}", 31, 2),
        ("{\"version\":1}", 31, 3),
        ("{\"version\":2}", 31, 3),
        ("{\"version\":2,\"field\":6,\"claim\":[]}", 31, 3),
        ("{\"version\":2,\"field\":25,\"claim\":[]}", 31, 3),
        ("{\"version\":2,\"field\":2}", 31, 12),
        (
            "{\"version\":2,\"field\":2,\"claim\":[],\"word\":[]}",
            31,
            12,
        ),
        (
            "{\"version\":2,\"field\":2,\"claim\":{\"kind\":\"alternant\",\"locator\":2,\"multipliers\":[],\"points\":[],\"r\":0},\"word\":[],\"distance\":0}",
            31,
            5,
        ),
        (
            "{\"version\":2,\"field\":2,\"claim\":{\"kind\":\"alternant\",\"locator\":2,\"multipliers\":[],\"points\":[],\"r\":0},\"word\":[0,2],\"distance\":0}",
            31,
            5,
        ),
        (
            "{\"version\":2,\"field\":2,\"claim\":{\"kind\":\"alternant\",\"locator\":2,\"multipliers\":[],\"points\":[],\"r\":0},\"word\":[0,1],\"distance\":0,\"note\":0}",
            31,
            6,
        ),
        (
            "{\"version\":2,\"field\":2,\"claim\":{\"kind\":\"alternant\",\"locator\":2,\"multipliers\":[],\"points\":[],\"r\":0},\"word\":[0,1],\"distance\":1,\"note\":0}",
            31,
            11,
        ),
        (
            "{\"version\":2,\"field\":2,\"claim\":{\"kind\":\"alternant\",\"locator\":2,\"multipliers\":[],\"points\":[],\"r\":0},\"word\":[0,1],\"distance\":1}",
            0,
            0,
        ),
    ];
    for (text, number, rule) in &cases {
        assert!(rt; refusal_in(rt.alloc(), (*text).as_bytes()) == (*number, *rule));
    }
}

#[test]
fn refused_claims(rt: HostRuntime) -> Result<(), Fail> {
    let cases: [(&str, u8, u32); 14] = [
        (
            "{\"kind\":\"alternants\",\"locator\":2,\"multipliers\":[1],\"points\":[1],\"r\":0}",
            31,
            12,
        ),
        (
            "{\"kind\":\"alternant\",\"locator\":2,\"multipliers\":[1],\"points\":[1]}",
            31,
            12,
        ),
        (
            "{\"kind\":\"alternant\",\"locator\":2,\"multipliers\":[1],\"points\":[1],\"r\":0,\"sets\":[]}",
            31,
            12,
        ),
        (
            "{\"kind\":\"alternant\",\"locator\":2,\"multipliers\":[1],\"points\":[256],\"r\":0}",
            31,
            12,
        ),
        (
            "{\"kind\":\"alternant\",\"locator\":2,\"multipliers\":[255],\"points\":[255],\"r\":0}",
            0,
            0,
        ),
        (
            "{\"kind\":\"alternant\",\"locator\":2,\"multipliers\":[1],\"points\":[1],\"r\":0.5}",
            31,
            12,
        ),
        ("{\"kind\":\"extend\",\"of\":[]}", 31, 12),
        (
            "{\"kind\":\"subcode\",\"of\":{\"kind\":\"search\",\"rows\":[[1]],\"word\":[1],\"distance\":1,\"by\":\"scan\"},\"rows\":[]}",
            0,
            0,
        ),
        (
            "{\"kind\":\"subcode\",\"of\":{\"kind\":\"search\",\"rows\":[[1]],\"word\":[1],\"distance\":1,\"by\":\"scan\"},\"rows\":[[0,1],[2]]}",
            31,
            12,
        ),
        (
            "{\"kind\":\"puncture\",\"of\":{\"kind\":\"search\",\"rows\":[[1]],\"word\":[1],\"distance\":1,\"by\":\"scan\"},\"places\":[]}",
            0,
            0,
        ),
        (
            "{\"kind\":\"shorten\",\"of\":{\"kind\":\"search\",\"rows\":[],\"word\":[1],\"distance\":1,\"by\":\"scan\"},\"places\":[]}",
            31,
            12,
        ),
        (
            "{\"kind\":\"search\",\"rows\":[[1]],\"word\":[1],\"distance\":1,\"by\":\"levels\",\"sets\":[{\"basis\":[0],\"fresh\":[0],\"level\":1,\"note\":0}]}",
            31,
            11,
        ),
        (
            "{\"kind\":\"concat\",\"large\":25,\"outer\":{\"kind\":\"search\",\"rows\":[[1]],\"word\":[1],\"distance\":1,\"by\":\"scan\"},\"inner\":{\"kind\":\"search\",\"rows\":[[1]],\"word\":[1],\"distance\":1,\"by\":\"scan\"}}",
            31,
            12,
        ),
        (
            "{\"kind\":\"concat\",\"large\":4,\"outer\":{\"kind\":\"search\",\"rows\":[[3]],\"word\":[3],\"distance\":1,\"by\":\"scan\"},\"inner\":{\"kind\":\"search\",\"rows\":[[1]],\"word\":[1],\"distance\":1,\"by\":\"scan\"}}",
            0,
            0,
        ),
    ];
    for (claim, number, rule) in &cases {
        assert!(rt; claim_refusal(rt.alloc(), (*claim).as_bytes())? == (*number, *rule));
    }
    Ok(())
}

#[test]
fn claims_32_deep_and_deeper(rt: HostRuntime) -> Result<(), Fail> {
    let alloc = rt.alloc();
    let cases: [(usize, u8, u32); 4] = [(0, 0, 0), (31, 0, 0), (32, 32, 0), (124, 32, 0)];
    for (times, number, rule) in &cases {
        let claim = extended(alloc, LEAF.as_bytes(), *times)?;
        assert!(rt; claim_refusal(alloc, &claim)? == (*number, *rule));
    }
    Ok(())
}

#[test]
fn claims_nested_deeper_than_json_may(rt: HostRuntime) -> Result<(), Fail> {
    let claim = extended(rt.alloc(), LEAF.as_bytes(), 126)?;
    assert!(rt; claim_refusal(rt.alloc(), &claim)? == (30, 0));
    Ok(())
}

#[test]
fn claims_up_to_1024_and_more(rt: HostRuntime) -> Result<(), Fail> {
    let alloc = rt.alloc();
    let many = many_claims(alloc)?;
    let cases: [(usize, u8, u32); 3] = [(0, 0, 0), (1, 0, 0), (2, 32, 0)];
    for (times, number, rule) in &cases {
        let claim = extended(alloc, &many, *times)?;
        assert!(rt; claim_refusal(alloc, &claim)? == (*number, *rule));
    }
    Ok(())
}

#[test]
fn lists_up_to_255_and_longer(rt: HostRuntime) -> Result<(), Fail> {
    let alloc = rt.alloc();
    let cases: [(usize, u8, u32); 2] = [(254, 0, 0), (255, 32, 0)];
    for (more, number, rule) in &cases {
        let claim = form_of(alloc, *more)?;
        assert!(rt; claim_refusal(alloc, &claim)? == (*number, *rule));
    }
    Ok(())
}
