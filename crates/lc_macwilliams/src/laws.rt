//! The laws of weight distributions.
//!
//! Each function proves what its clauses say, for every code, and does nothing when it is run. A code is given by its rows,
//! and its dual by the reduced generator matrix of the words that have dot 0 with each row, as `kernel` of a matrix and
//! `dual` of a code give it. The rows may depend on each other, where no clause says otherwise: then each word counts as
//! often as they give it.

ghost use Rattle.std.specs.Prelude.{◌≡◌, ◌≢◌, ℕ, suc, ◌+◌, ◌-◌, ◌*◌, ◌^◌, ◌<◌, ◌≤◌, ◌==◌, cond, List, length, All, AllPairs, sum_by, count_by};
ghost use Rattle.lc_algebra.specs.Field.{size};
ghost use Rattle.lc_algebra.specs.Word.{weight};
ghost use Rattle.lc_algebra.specs.Span.{below, AreIndependent};
ghost use Rattle.lc_algebra.specs.Matrix.{Matrix, AreRows, IsReduced, IsReducedGenerator, IsOrthogonal};
ghost use Rattle.lc_enumeration.specs.Message.{choose, numbers_from};
ghost use Rattle.lc_enumeration.specs.Plan.{total};
ghost use Rattle.lc_enumeration.specs.Search.{block_words};
ghost use Rattle.lc_enumeration.specs.Distribution.{count_of_weight, zero_on, zero_outside};
ghost use Rattle.lc_macwilliams.specs.Orthogonal.{orthogonal_words};
ghost use Rattle.lc_macwilliams.specs.Krawtchouk.{krawtchouk_even, krawtchouk_odd};

use lc_algebra::FieldName;

/// The number of words of a code that are orthogonal to a second code, times the size of the second, is the number of words
/// of the second that are orthogonal to the first, times the size of the first (MacWilliams and Sloane, The Theory of
/// Error-Correcting Codes, chapter 5: the sums of characters that their identities rest on).
pub fn words_orthogonal_to_another_code(field: FieldName)
    ensures law { (n : ℕ) (rows others : List (List ℕ)) →
        AreRows field n rows →
        AreRows field n others →
        size field ^ length others * length (orthogonal_words field n rows others)
        ≡ size field ^ length rows * length (orthogonal_words field n others rows) }
{}

/// The number of words of a code that are 0 on a set of coordinates determines how many words of its dual are 0 outside the
/// set: over q elements, q to the size of the set times the first number is the size of the code times the second
/// (MacWilliams and Sloane, chapter 5).
///
/// The coordinates of the set are different, and below the length n.
pub fn words_that_vanish_on_a_set(field: FieldName)
    ensures law { (n : ℕ) (rows checks : List (List ℕ)) (set : List ℕ) →
        AreRows field n rows →
        IsReducedGenerator field n (IsOrthogonal field rows) checks →
        AllPairs (λ p r. p ≢ r) set →
        All (λ p. p < n) set →
        size field ^ length set * length (zero_on field n rows set)
        ≡ size field ^ length rows * length (zero_outside field n checks set) }
{}

/// The binomial moments of the weight distribution A of a code determine those of its dual's, B (MacWilliams and Sloane,
/// chapter 5; they are equivalent to the power moments of Pless): for each t up to n, q^(n - t) times the sum of
/// (n - j choose n - t) A_j over the j up to t is the size of the code times the sum of (n - j choose t) B_j over the j up
/// to n - t.
pub fn moments_of_a_code(field: FieldName)
    ensures law { (n t : ℕ) (rows checks : List (List ℕ)) →
        AreRows field n rows →
        IsReducedGenerator field n (IsOrthogonal field rows) checks →
        t ≤ n →
        size field ^ (n - t) * sum_by (λ j. choose (n - j) (n - t) * count_of_weight field n rows j) (below (suc t))
        ≡ size field ^ length rows
        * sum_by (λ j. choose (n - j) t * count_of_weight field n checks j) (below (suc (n - t))) }
{}

/// The MacWilliams identity: the size of a code times the number B_k of words of weight k of its dual is the sum of
/// A_j K_k(j) over all weights j, where A_j is the number of words of weight j of the code, and K_k the Krawtchouk
/// polynomial (MacWilliams and Sloane, chapter 5).
///
/// It stands here without subtraction: K_k(j) is its even part less its odd part, and the sum with the odd parts is on the
/// left side. If the rows are reduced, it holds with the code and its dual exchanged.
pub fn macwilliams_identity(field: FieldName)
    ensures law { (n k : ℕ) (rows checks : List (List ℕ)) →
        AreRows field n rows →
        IsReducedGenerator field n (IsOrthogonal field rows) checks →
        size field ^ length rows * count_of_weight field n checks k
        + sum_by (λ j. count_of_weight field n rows j * krawtchouk_odd (size field) n k j) (below (suc n))
        ≡ sum_by (λ j. count_of_weight field n rows j * krawtchouk_even (size field) n k j) (below (suc n)) }
    ensures back { (n k : ℕ) (rows checks : List (List ℕ)) →
        AreRows field n rows →
        IsReduced n rows →
        IsReducedGenerator field n (IsOrthogonal field rows) checks →
        size field ^ length checks * count_of_weight field n rows k
        + sum_by (λ j. count_of_weight field n checks j * krawtchouk_odd (size field) n k j) (below (suc n))
        ≡ sum_by (λ j. count_of_weight field n checks j * krawtchouk_even (size field) n k j) (below (suc n)) }
{}

/// How many words of weight j a code has, by the blocks of the plan of its first information set: each word that they have
/// counts q - 1 times, once for each of its nonzero multiples, and the zero word once.
///
/// The rows are independent, and give at most 2^24 words, so that the plan isn't cut.
pub fn blocks_give_all_words()
    ensures law { (C : Matrix) (j : ℕ) →
        AreRows C.field C.columns C.rows →
        AreIndependent C.field C.columns C.rows →
        size C.field ^ length C.rows ≤ 2 ^ 24 →
        count_of_weight C.field C.columns C.rows j
        ≡ cond (0 == j) 1 0
        + (size C.field - 1) * sum_by (λ b. count_by (λ w. weight w == j) (block_words C 1 b))
        (numbers_from 0 (total (length C.rows) (size C.field) 1)) }
{}
