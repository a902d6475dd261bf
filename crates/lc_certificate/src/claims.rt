//! Certificates by construction: trees of claims.
ghost use Rattle.std.specs.Prelude.{◌≡◌};
ghost use Rattle.lc_algebra.specs.Field.{size};

use crate::certificate::{Certificate, size_of};
use lc_algebra::FieldName;
use lc_vec::Word;

/// What is made of two codes.
#[derive(Clone, Copy, Debug, PartialEq, Eq)]
pub enum PairKind {
    /// The words u followed by u + v, with u in the first code and v in the second one.
    Uuv,
    /// The direct sum.
    Sum,
    /// The direct product.
    Product,
}

/// What is made of a code at some of its coordinates.
#[derive(Clone, Copy, Debug, PartialEq, Eq)]
pub enum PlaceKind {
    /// The punctured code.
    Puncture,
    /// The shortened code.
    Shorten,
}

/// A claim, which defines a code and a bound of the weights of its nonzero words, from those of its parts.
///
/// Contracts see it as `claim_of` it, a `Claim` of `lc_formats`, which says what code and bound it defines. Any values may stand in
/// it; `parse_document` gives one whose parts have the shape.
#[derive(Drop)]
pub enum Claim {
    /// The span of the rows of a certificate, and its distance.
    Search(Certificate),
    /// The words of an alternant form, and r + 1.
    Alternant {
        /// The size of the locator field.
        locator: u64,
        /// The points of the form.
        points: Word,
        /// As many multipliers.
        multipliers: Word,
        /// How many checks the form has.
        r: u64,
    },
    /// Two codes combined.
    Pair(PairKind, Box<Claim>, Box<Claim>),
    /// The concatenated code of an outer and an inner one, and the product of their bounds.
    Concat {
        /// The size of the field of the outer code.
        large: u64,
        /// The outer code.
        outer: Box<Claim>,
        /// The inner code.
        inner: Box<Claim>,
    },
    /// The span of some words of a code, and the bound of that code.
    Subcode {
        /// The code.
        of: Box<Claim>,
        /// Some of its words.
        rows: Vec<Word>,
    },
    /// A code punctured or shortened at these coordinates.
    Places(PlaceKind, Box<Claim>, Vec<u64>),
    /// The extended code.
    Extend(Box<Claim>),
}

/// A certificate by construction: the claim defines a code, and the word, which is in it, has the weight that is stated as its
/// minimum distance.
///
/// Contracts see it as `built_of` it, a `Built` of `lc_formats`. It keeps the field by its name, as a `Certificate` does.
#[derive(Drop)]
pub struct Built {
    /// The field of the symbols.
    pub field: FieldName,
    /// The claim that defines the code, over this field.
    pub claim: Claim,
    /// A word of the code.
    pub word: Word,
    /// The minimum distance that is stated.
    pub distance: u64,
}

impl Built {
    /// The number of elements of its field.
    pub fn field_size(&self) -> u64
        ensures is { result ≡ size self.now.field }
    {
        size_of(self.field)
    }
}

/// A certificate of either version. Contracts see it as `document_of` it, a `Document` of `lc_formats`.
#[derive(Drop)]
pub enum Document {
    /// A certificate of version 1.
    Plain(Certificate),
    /// A certificate by construction, of version 2.
    Tree(Built),
}
