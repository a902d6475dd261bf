//! What a certificate holds.
ghost use Rattle.std.specs.Prelude.{◌≡◌, ◌≤◌, IsTrue};
ghost use Rattle.lc_algebra.specs.Field.{size, is_symbol};

use lc_algebra::FieldName;
use lc_field::Field;
use lc_vec::Word;

/// A set of a certificate by levels: an information set, its fresh columns, and how far its messages were seen.
///
/// Contracts see it as `claim_of` it, a `SetClaim` of `lc_formats`.
#[derive(Drop)]
pub struct SetClaim {
    /// The coordinates of the set, rising.
    pub basis: Vec<u64>,
    /// Those of its coordinates that the certificate counts as fresh, rising. In a valid certificate none is fresh in two sets.
    pub fresh: Vec<u64>,
    /// The level up to which all messages of the set were seen.
    pub level: u64,
}

/// How the distance is proved.
#[derive(Drop)]
pub enum Proof {
    /// By all words of the code.
    Scan,
    /// By the levels of information sets.
    Levels(Vec<SetClaim>),
}

/// A certificate of a minimum distance: rows that span a code, a word of it, its weight, and how it is proved that no nonzero
/// word of the code is lighter.
///
/// Contracts see it as `certificate_of` it, a `Certificate` of `lc_formats`. It keeps the field by its name: `Field::of` makes
/// the field from its size. Any values may stand in it; `parse` gives one whose parts have the shape, and `write` asks for it.
#[derive(Drop)]
pub struct Certificate {
    /// The field of the symbols.
    pub field: FieldName,
    /// The rows that span the code.
    pub rows: Vec<Word>,
    /// A word of the code.
    pub word: Word,
    /// The minimum distance that is claimed.
    pub distance: u64,
    /// How it is proved.
    pub basis_of: Proof,
}

impl Certificate {
    /// The number of elements of its field.
    pub fn field_size(&self) -> u64
        ensures is { result ≡ size self.now.field }
    {
        size_of(self.field)
    }
}

/// The number of elements of the field.
#[tactic(auto, unfolding(crate::proofs::Opened::sizes))]
pub fn size_of(field: FieldName) -> u64
    ensures is { result ≡ size field }
    ensures most { result ≤ 256 }
{
    match field {
        FieldName::Gf2 => 2,
        FieldName::Gf3 => 3,
        FieldName::Gf4 => 4,
        FieldName::Gf5 => 5,
        FieldName::Gf7 => 7,
        FieldName::Gf8 => 8,
        FieldName::Gf9 => 9,
        FieldName::Gf11 => 11,
        FieldName::Gf13 => 13,
        FieldName::Gf16 => 16,
        FieldName::Gf25 => 25,
        FieldName::Gf27 => 27,
        FieldName::Gf32 => 32,
        FieldName::Gf64 => 64,
        FieldName::Gf81 => 81,
        FieldName::Gf128 => 128,
        FieldName::Gf243 => 243,
        FieldName::Gf256 => 256,
    }
}

/// The name of a field of at most 16 elements, by which a certificate keeps it.
#[tactic(auto, using(crate::proofs::NameLaws::name_laws), unfolding(crate::proofs::Opened::sizes))]
pub fn name_of(field: &Field) -> FieldName
    requires symbol { IsTrue (is_symbol field.now) }
    ensures is { result ≡ field.now }
{
    match field.size() {
        2 => FieldName::Gf2,
        3 => FieldName::Gf3,
        4 => FieldName::Gf4,
        5 => FieldName::Gf5,
        7 => FieldName::Gf7,
        8 => FieldName::Gf8,
        9 => FieldName::Gf9,
        11 => FieldName::Gf11,
        13 => FieldName::Gf13,
        _ => FieldName::Gf16,
    }
}
