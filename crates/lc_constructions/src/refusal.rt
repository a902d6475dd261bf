//! Why a constructor or a combinator of codes gives no code.
ghost use Rattle.std.specs.Prelude.{◌≡◌, [], IfOk, IsOk};
ghost use Rattle.lc_constructions.specs.Refusal.{refusal_number, refusal_values};
ghost use Rattle.lc_constructions.specs.declared.refusal.CodeRefusal.TheVariants as refusal;

use lc_field::NoMemory as FieldMemory;
use std::alloc::Global;

/// Why a constructor or a combinator of codes gives no code.
///
/// `specs/Refusals.antt` lists the refusals of each constructor in order.
#[derive(Clone, Copy, Debug, PartialEq, Eq)]
pub enum CodeRefusal {
    /// The length of the code would be 0 or above 255, or a matrix has no rows.
    BadLength,
    /// The argument with this number, counted from 1, isn't what the constructor asks for.
    BadArgument(u64),
    /// The polynomial doesn't divide x^n - 1.
    NotADivisor,
    /// No locator field that contains the field has an element of order n.
    NoRoot,
    /// The design distance is above the length, or too small.
    BadDelta,
    /// No symbol field has one element more than the length.
    NoFieldOfLength,
    /// Two points coincide: the index of the first occurrence, then the least index that repeats an earlier point.
    RepeatedPoint(usize, usize),
    /// The Goppa polynomial is 0 at the point with this index, the least one.
    RootAt(usize),
    /// The symbol field isn't a subfield of the locator field.
    NotASubfield,
    /// The fields of two codes differ; of codes that are concatenated, the size of one field is no power of the size of the other.
    FieldsDiffer,
    /// Rows of a matrix, two lists, two words or two codes have different lengths, or a word or a message hasn't that of its code.
    LengthsDiffer,
    /// The coordinates aren't strictly rising, one of them isn't a coordinate of the code, or they are all its coordinates.
    BadPositions,
    /// Two numbers that differ: the dimension of the inner code and the degree of the outer field over the inner one, or, of
    /// construction X, the dimension of the tail and what it should be.
    InnerDimension(usize, usize),
    /// The field has more than 16 elements.
    FieldTooLarge,
    /// No memory is left.
    NoMemory,
}

impl CodeRefusal {
    /// The number of the refusal: 2 for `BadLength` to 14 for `InnerDimension`, in the order of the variants, and 17 for
    /// `FieldTooLarge`; `NoMemory` has none, and gives 0.
    #[tactic(auto, unfolding(crate::specs::Refusal::refusal_number))]
    pub fn number(&self) -> u8
        ensures is { result ≡ refusal_number self.now }
    {
        match self {
            CodeRefusal::BadLength => 2,
            CodeRefusal::BadArgument(_) => 3,
            CodeRefusal::NotADivisor => 4,
            CodeRefusal::NoRoot => 5,
            CodeRefusal::BadDelta => 6,
            CodeRefusal::NoFieldOfLength => 7,
            CodeRefusal::RepeatedPoint(_, _) => 8,
            CodeRefusal::RootAt(_) => 9,
            CodeRefusal::NotASubfield => 10,
            CodeRefusal::FieldsDiffer => 11,
            CodeRefusal::LengthsDiffer => 12,
            CodeRefusal::BadPositions => 13,
            CodeRefusal::InnerDimension(_, _) => 14,
            CodeRefusal::FieldTooLarge => 17,
            CodeRefusal::NoMemory => 0,
        }
    }

    /// The numbers that the refusal carries, in the order in which they are printed. If it carries none, no memory is taken.
    #[tactic(auto, unfolding(crate::specs::Refusal::refusal_values))]
    pub fn values(&self, alloc: Global) -> Result<Vec<u64>, FieldMemory>
        ensures are { IfOk result (λ values. values.items ≡ refusal_values self.now) }
        ensures none { refusal_values self.now ≡ [] → IsOk result }
    {
        match *self {
            CodeRefusal::BadArgument(argument) => Ok(vec![in alloc; argument]?),
            CodeRefusal::RepeatedPoint(first, second) => {
                Ok(vec![in alloc; first as u64, second as u64]?)
            }
            CodeRefusal::RootAt(place) => Ok(vec![in alloc; place as u64]?),
            CodeRefusal::InnerDimension(dimension, degree) => {
                Ok(vec![in alloc; dimension as u64, degree as u64]?)
            }
            _ => Ok(Vec::new(alloc)),
        }
    }
}

impl From<FieldMemory> for CodeRefusal {
    ghost from_gives = { λ _ e. e ≡ refusal.NoMemory };

    fn from(_e: FieldMemory) -> CodeRefusal {
        CodeRefusal::NoMemory
    }
}
