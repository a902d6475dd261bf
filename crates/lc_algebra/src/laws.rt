//! The laws of the eighteen fields, as the contracts of functions that do nothing: what a reader of
//! the definitions may expect of a field, and what every crate above rests on.

ghost use Rattle.std.specs.Prelude.{◌≡◌, ℕ, ◌-◌, ◌%◌, ◌<◌};
ghost use Rattle.lc_algebra.specs.Field.{shape_of, size, add, neg, mul, pow};
ghost use Rattle.lc_algebra.specs.Embedding.{IsSubfield, embed};
ghost use Rattle.lc_algebra.specs.FieldLaws.{IsField, IsReducedProduct, IsPrimitive, IsEmbedding};

use crate::FieldName;

/// The elements of each field, with its sum, product and negative, satisfy the axioms of a field.
/// (MacWilliams and Sloane, The Theory of Error-Correcting Codes, chapter 3.)
#[tactic(auto, using(crate::proofs::FieldRecords::is_field))]
pub fn field_axioms(field: FieldName)
    ensures axioms { IsField (size field) (add field) (mul field) (neg field) }
{}

/// A product of elements is the remainder of the plain product of their polynomials on division by
/// the field's monic polynomial, and no other element is. (MacWilliams and Sloane, chapter 3.)
#[tactic(auto, using(crate::proofs::FieldRecords::only_product))]
pub fn product_is_remainder(field: FieldName)
    ensures remainder { (a b : ℕ) → IsReducedProduct field a b (mul field a b) }
    ensures only { (a b c : ℕ) → c < size field → IsReducedProduct field a b c → c ≡ mul field a b }
{}

/// The powers of the chosen primitive element are the nonzero elements, each once, and their
/// exponents count modulo the size less one. Each element to the power of the size is itself, and the
/// power by the characteristic keeps sums. (MacWilliams and Sloane, chapter 4.)
#[tactic(auto, using(crate::proofs::FieldRecords::powers_of_primitive_laws))]
pub fn powers_of_primitive(field: FieldName)
    ensures primitive { IsPrimitive field (shape_of field).primitive }
    ensures exponents { (n : ℕ) → pow field (shape_of field).primitive (n % (size field - 1))
        ≡ pow field (shape_of field).primitive n }
    ensures size_power { (a : ℕ) → a < size field → pow field a (size field) ≡ a }
    ensures characteristic_power { (a b : ℕ) → a < size field → b < size field →
        pow field (add field a b) (shape_of field).characteristic
        ≡ add field (pow field a (shape_of field).characteristic) (pow field b (shape_of field).characteristic) }
{}

/// If a field lies in a larger one, the embedding takes its elements to distinct elements of the
/// larger one and keeps sums and products. (MacWilliams and Sloane, chapter 4.)
#[tactic(auto, using(crate::proofs::EmbeddingLaws::embedding_keeps_arithmetic_laws))]
pub fn embedding_keeps_arithmetic(small: FieldName, large: FieldName)
    ensures embedding { IsSubfield small large → IsEmbedding small large (embed small large) }
    ensures itself { (a : ℕ) → a < size small → embed small small a ≡ a }
    ensures residues { IsSubfield small large → (a : ℕ) → a < (shape_of small).characteristic →
        embed small large a ≡ a }
{}
