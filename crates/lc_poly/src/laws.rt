//! The laws of polynomials, as the contracts of functions that do nothing: for every field and all polynomials over it.

ghost use Rattle.std.specs.Prelude.{◌≡◌, ◌≢◌, ◌↔◌, ℕ, ◌-◌, ◌/◌, ◌%◌, ◌^◌, ◌<◌, ◌≤◌, List, [], ◌∷◌, length, map, slice_index, AllPairs, Contains};
ghost use Rattle.lc_algebra.specs.Field.{shape_of, size, add, subtract, mul, pow, HasOrder};
ghost use Rattle.lc_algebra.specs.Word.{Fits};
ghost use Rattle.lc_algebra.specs.Polynomial.{value_at, poly_sum, poly_product, x_power_minus_one, SamePolynomial, IsPolynomial, IsDivision, Divides};
ghost use Rattle.lc_algebra.specs.Embedding.{IsSubfield, embed, IsMinimal, IsCyclotomicSet};
ghost use Rattle.lc_poly.specs.Factors.{Factor, IsFactor, AreFactors, StandsIn, product_of};

use lc_algebra::FieldName;

/// A polynomial has one quotient and one remainder on division by a polynomial without last zeros.
/// (MacWilliams and Sloane, The Theory of Error-Correcting Codes, chapter 4.)
pub fn division_is_unique(field: FieldName)
    ensures unique { (a b q r p s : List ℕ) → IsPolynomial field b → IsDivision field a b q r →
        IsDivision field a b p s → (q ≡ p) × (r ≡ s) }
{}

/// Products of polynomials commute, associate and distribute over sums, coefficient by coefficient.
/// (MacWilliams and Sloane, chapter 4.)
#[tactic(auto, using(crate::proofs::ListLaws::products_of_polynomials_laws))]
pub fn products_of_polynomials(field: FieldName)
    ensures commutes { (u v : List ℕ) (i : ℕ) →
        slice_index (poly_product field u v) i ≡ slice_index (poly_product field v u) i }
    ensures associates { (u v w : List ℕ) (i : ℕ) → slice_index (poly_product field (poly_product field u v) w) i
        ≡ slice_index (poly_product field u (poly_product field v w)) i }
    ensures distributes { (u v w : List ℕ) (i : ℕ) → slice_index (poly_product field u (poly_sum field v w)) i
        ≡ add field (slice_index (poly_product field u v) i) (slice_index (poly_product field u w) i) }
{}

/// The value of a sum is the sum of the values, and that of a product their product.
/// (MacWilliams and Sloane, chapter 4.)
#[tactic(auto, using(crate::proofs::ListLaws::values_of_polynomials_laws))]
pub fn values_of_polynomials(field: FieldName)
    ensures sums { (u v : List ℕ) (x : ℕ) →
        value_at field (poly_sum field u v) x ≡ add field (value_at field u x) (value_at field v x) }
    ensures products { (u v : List ℕ) (x : ℕ) →
        value_at field (poly_product field u v) x ≡ mul field (value_at field u x) (value_at field v x) }
{}

/// A polynomial of degree d that isn't zero has at most d zeros: distinct ones are fewer than its coefficients.
/// (MacWilliams and Sloane, chapter 4.)
pub fn zeros_at_most_degree(field: FieldName)
    ensures at_most { (u xs : List ℕ) → IsPolynomial field u → u ≢ [] → AllPairs (λ x y. x ≢ y) xs →
        ((x : ℕ) → Contains xs x → (x < size field) × (value_at field u x ≡ 0)) → length xs < length u }
{}

/// A minimal polynomial divides each polynomial over the small field that has its zero in the large one.
/// (MacWilliams and Sloane, chapter 4.)
pub fn minimal_polynomial_divides(small: FieldName, large: FieldName)
    ensures divides { IsSubfield small large → (a : ℕ) (u v : List ℕ) → IsMinimal small large a u →
        IsPolynomial small v →
        value_at large (map (embed small large) v) a ≡ 0 → Divides small u v }
{}

/// The zeros in a large field of x^n - 1 over a small one are the elements whose n-th power is 1.
/// (MacWilliams and Sloane, chapter 7.)
pub fn zeros_of_x_power_minus_one(small: FieldName, large: FieldName)
    ensures value { IsSubfield small large → (n a : ℕ) → 1 ≤ n →
        value_at large (map (embed small large) (x_power_minus_one small n)) a ≡ subtract large (pow large a n) 1 }
{}

/// The zeros of the minimal polynomial of an element are its powers by powers of the small field's size, and no others. Of a
/// power of an element whose n-th power is 1 they are the powers by the numbers of a cyclotomic set modulo n.
/// (MacWilliams and Sloane, chapters 4 and 7.)
pub fn zeros_of_minimal_polynomials(small: FieldName, large: FieldName)
    ensures conjugates { IsSubfield small large → (a : ℕ) (u : List ℕ) (b : ℕ) → a < size large →
        IsMinimal small large a u → b < size large →
        (value_at large (map (embed small large) u) b ≡ 0) ↔ ((j : ℕ) × (b ≡ pow large a (size small ^ j))) }
    ensures cyclotomic { IsSubfield small large → (a n i : ℕ) (xs u : List ℕ) (b : ℕ) → pow large a n ≡ 1 →
        IsCyclotomicSet n (size small) i xs →
        IsMinimal small large (pow large a i) u → b < size large →
        (value_at large (map (embed small large) u) b ≡ 0) ↔ ((k : ℕ) × Contains xs k × (b ≡ pow large a k)) }
{}

/// A divisor of a polynomial with a zero that the divisor lacks may be multiplied by the minimal polynomial of the zero: so
/// products of minimal polynomials over different cyclotomic sets divide x^n - 1. (MacWilliams and Sloane, chapter 7.)
pub fn divisors_multiply(small: FieldName, large: FieldName)
    ensures divides { IsSubfield small large → (a : ℕ) (g u v : List ℕ) → IsMinimal small large a u →
        IsPolynomial small g →
        value_at large (map (embed small large) g) a ≢ 0 → Divides small g v →
        value_at large (map (embed small large) v) a ≡ 0 →
        Divides small (poly_product small g u) v }
    ensures values { IsSubfield small large → (g u : List ℕ) (x : ℕ) → Fits small g → Fits small u →
        value_at large (map (embed small large) (poly_product small g u)) x
        ≡ mul large (value_at large (map (embed small large) g) x) (value_at large (map (embed small large) u) x) }
{}

/// Let b be an element of order n of the large field. A product of minimal polynomials over the small field of powers of b, whose
/// cyclotomic sets modulo n have no number in common, has exactly these zeros: the powers of b by the numbers of the sets. Its
/// multiples are the polynomials over the small field with all these zeros, and x^n - 1 is one. (MacWilliams and Sloane, chapter 7.)
pub fn products_of_minimal_polynomials(small: FieldName, large: FieldName)
    ensures zeros { IsSubfield small large → (b n : ℕ) (ts : List Factor) (g : List ℕ) → HasOrder large b n →
        AreFactors small large b n ts → SamePolynomial (product_of small ts) g →
        (x : ℕ) → x < size large → (value_at large (map (embed small large) g) x ≡ 0)
        ↔ ((k : ℕ) × StandsIn ts k × (x ≡ pow large b k)) }
    ensures multiples { IsSubfield small large → (b n : ℕ) (ts : List Factor) (g : List ℕ) → HasOrder large b n →
        AreFactors small large b n ts → SamePolynomial (product_of small ts) g →
        (v : List ℕ) → IsPolynomial small v →
        Divides small g v ↔ ((k : ℕ) → StandsIn ts k → value_at large (map (embed small large) v) (pow large b k) ≡ 0) }
    ensures divides { IsSubfield small large → (b n : ℕ) (ts : List Factor) (g : List ℕ) → HasOrder large b n →
        AreFactors small large b n ts → SamePolynomial (product_of small ts) g →
        Divides small g (x_power_minus_one small n) }
{}

/// How such a product is made, one number after another. A polynomial that has one power of b as a zero has all those of its
/// cyclotomic set; a number that is in no set yet has a set that is apart from all of them, since two sets with a common
/// number are equal. (MacWilliams and Sloane, chapter 7.)
pub fn factors_of_x_power_minus_one(small: FieldName, large: FieldName)
    ensures spread { IsSubfield small large → (u : List ℕ) (b n i : ℕ) (xs : List ℕ) → Fits small u →
        HasOrder large b n → IsCyclotomicSet n (size small) i xs →
        value_at large (map (embed small large) u) (pow large b i) ≡ 0 → (k : ℕ) → Contains xs k →
        value_at large (map (embed small large) u) (pow large b k) ≡ 0 }
    ensures equal { IsSubfield small large → (b n : ℕ) → HasOrder large b n → (i j x : ℕ) (xs ys : List ℕ) →
        IsCyclotomicSet n (size small) i xs → IsCyclotomicSet n (size small) j ys →
        Contains xs x → Contains ys x → (k : ℕ) → Contains xs k ↔ Contains ys k }
    ensures one_more { IsSubfield small large → (b n : ℕ) → HasOrder large b n → (t : Factor) (ts : List Factor) →
        AreFactors small large b n ts → IsFactor small large b n t →
        (StandsIn ts (t.number % n) → ⊥) → AreFactors small large b n (t ∷ ts) }
{}

/// The power of the primitive element by (size - 1) / n has order n, if n divides size - 1; and the order of each element
/// divides size - 1. So a field has an element of order n exactly if n divides its size less 1. (MacWilliams and Sloane,
/// chapter 4.)
pub fn powers_of_order(field: FieldName)
    ensures order { (n : ℕ) → 1 ≤ n → (size field - 1) % n ≡ 0 →
        HasOrder field (pow field (shape_of field).primitive ((size field - 1) / n)) n }
    ensures divides { (b n : ℕ) → HasOrder field b n → (size field - 1) % n ≡ 0 }
{}
