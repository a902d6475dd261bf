//! The laws of words, of the words of some rows, and of reduced matrices.
//!
//! Each function proves what its clauses say, for every field, every length and every list of rows,
//! and does nothing when it is run. (MacWilliams and Sloane, The Theory of Error-Correcting Codes,
//! chapter 1.)

ghost use Rattle.std.specs.Prelude.{◌≡◌, ◌≢◌, ℕ, ◌+◌, ◌^◌, ◌<◌, ◌≤◌, ◌⊎◌, ◌↔◌, List, [], ◌∷◌, length, set, slice_index, slice_index_or, All, Contains, swap, remove, IsPermutation, AllPairs, Bool, IsTrue};
ghost use Rattle.lc_algebra.specs.Field.{size, add, neg, mul};
ghost use Rattle.lc_algebra.specs.Word.{Fits, IsWord, zero_word, word_sum, scale, difference, weight, word_dot, distance, AtMost, ComesNoLater};
ghost use Rattle.lc_algebra.specs.Span.{combine, InSpan, words, SameSpan, AreIndependent, IsWeightBound, IsDistance, IsLeast};
ghost use Rattle.lc_algebra.specs.Matrix.{AreRows, IsOrthogonal, HasPivots, IsReduced, IsEchelon, IsReducedGenerator, IsSystematic, AreIndependentColumns};
ghost use Rattle.lc_algebra.specs.SpanLaws.{AddsMultiples, ScalesRows, restrict};

use crate::FieldName;

/// The words of n symbols are a vector space over the field: they are closed under sum and multiple,
/// the sum is that of a commutative group, and multiples distribute over both sums.
pub fn words_are_a_vector_space(field: FieldName)
    ensures sum_inside { (n : ℕ) (u v : List ℕ) → IsWord field n u → IsWord field n v →
        IsWord field n (word_sum field u v) }
    ensures multiple_inside { (n c : ℕ) (u : List ℕ) → IsWord field n u → IsWord field n (scale field c u) }
    ensures commutes { (u v : List ℕ) → word_sum field u v ≡ word_sum field v u }
    ensures associates { (u v w : List ℕ) →
        word_sum field (word_sum field u v) w ≡ word_sum field u (word_sum field v w) }
    ensures zero_added { (n : ℕ) (w : List ℕ) → IsWord field n w → word_sum field (zero_word n) w ≡ w }
    ensures negative_added { (n : ℕ) (w : List ℕ) → length w ≡ n →
        word_sum field w (scale field (neg field 1) w) ≡ zero_word n }
    ensures multiple_of_sum { (c : ℕ) (u v : List ℕ) →
        scale field c (word_sum field u v) ≡ word_sum field (scale field c u) (scale field c v) }
    ensures sum_of_multiples { (c d : ℕ) (u : List ℕ) →
        scale field (add field c d) u ≡ word_sum field (scale field c u) (scale field d u) }
    ensures multiple_twice { (c d : ℕ) (u : List ℕ) → scale field c (scale field d u) ≡ scale field (mul field c d) u }
    ensures multiple_by_one { (u : List ℕ) → Fits field u → scale field 1 u ≡ u }
    ensures multiple_by_zero { (n : ℕ) (u : List ℕ) → length u ≡ n → scale field 0 u ≡ zero_word n }
{}

/// The weight is 0 for the zero word alone, a nonzero multiple keeps it, and the weight of a sum is at
/// most the sum of the weights; so the distance of words of one length is a metric.
pub fn distance_is_a_metric(field: FieldName)
    ensures no_weight { (n : ℕ) (w : List ℕ) → length w ≡ n → (weight w ≡ 0) ↔ (w ≡ zero_word n) }
    ensures weight_of_multiple { (c : ℕ) (w : List ℕ) → c < size field → 0 < c → Fits field w →
        weight (scale field c w) ≡ weight w }
    ensures weight_of_sum { (u v : List ℕ) → weight (word_sum field u v) ≤ weight u + weight v }
    ensures apart { (n : ℕ) (u v : List ℕ) → IsWord field n u → IsWord field n v → (distance field u v ≡ 0) ↔ (u ≡ v) }
    ensures symmetric { (n : ℕ) (u v : List ℕ) → IsWord field n u → IsWord field n v →
        distance field u v ≡ distance field v u }
    ensures triangle { (n : ℕ) (u v w : List ℕ) → IsWord field n u → IsWord field n v → IsWord field n w →
        distance field u w ≤ distance field u v + distance field v w }
{}

/// The dot of two words is an element of the field, symmetric, and linear in each word.
pub fn dot_is_bilinear(field: FieldName)
    ensures inside { (u v : List ℕ) → word_dot field u v < size field }
    ensures symmetric { (u v : List ℕ) → word_dot field u v ≡ word_dot field v u }
    ensures sums { (u v w : List ℕ) → length v ≡ length w →
        word_dot field u (word_sum field v w) ≡ add field (word_dot field u v) (word_dot field u w) }
    ensures multiples { (c : ℕ) (u v : List ℕ) → word_dot field u (scale field c v) ≡ mul field c (word_dot field u v) }
    ensures zeros { (n : ℕ) (u : List ℕ) → word_dot field u (zero_word n) ≡ 0 }
{}

/// Words of one length are totally ordered lexicographically, and also by weight and then
/// lexicographically.
pub fn words_are_ordered()
    ensures lexicographic_reflexive { (u : List ℕ) → AtMost u u }
    ensures lexicographic_transitive { (u v w : List ℕ) → AtMost u v → AtMost v w → AtMost u w }
    ensures lexicographic_total { (u v : List ℕ) → length u ≡ length v → AtMost u v ⊎ AtMost v u }
    ensures lexicographic_antisymmetric { (u v : List ℕ) → length u ≡ length v → AtMost u v → AtMost v u → u ≡ v }
    ensures reflexive { (u : List ℕ) → ComesNoLater u u }
    ensures transitive { (u v w : List ℕ) → ComesNoLater u v → ComesNoLater v w → ComesNoLater u w }
    ensures total { (u v : List ℕ) → length u ≡ length v → ComesNoLater u v ⊎ ComesNoLater v u }
    ensures antisymmetric { (u v : List ℕ) → length u ≡ length v → ComesNoLater u v → ComesNoLater v u → u ≡ v }
{}

/// The words of some rows are a linear code: words of the rows' length, closed under sum and multiple,
/// with the zero word and every row among them; and it is the least one with these rows.
pub fn span_is_closed(field: FieldName)
    ensures are_words { (n : ℕ) (rows : List (List ℕ)) (w : List ℕ) → AreRows field n rows → InSpan field n rows w →
        IsWord field n w }
    ensures has_zero { (n : ℕ) (rows : List (List ℕ)) → AreRows field n rows → InSpan field n rows (zero_word n) }
    ensures has_sums { (n : ℕ) (rows : List (List ℕ)) (u v : List ℕ) → InSpan field n rows u → InSpan field n rows v →
        InSpan field n rows (word_sum field u v) }
    ensures has_multiples { (n : ℕ) (rows : List (List ℕ)) (c : ℕ) (u : List ℕ) → InSpan field n rows u →
        InSpan field n rows (scale field c u) }
    ensures has_rows { (n : ℕ) (rows : List (List ℕ)) → AreRows field n rows → All (InSpan field n rows) rows }
    ensures is_least { (n : ℕ) (rows others : List (List ℕ)) (w : List ℕ) → AreRows field n others →
        All (InSpan field n others) rows → InSpan field n rows w → InSpan field n others w }
{}

/// The list of words of some rows has exactly their words, q^k entries for k rows over a field of q
/// elements; and the words are the combinations by the lists of k elements, each by one list exactly
/// if the rows are independent.
pub fn words_are_the_span(field: FieldName)
    ensures members { (n : ℕ) (rows : List (List ℕ)) (w : List ℕ) →
        Contains (words field n rows) w ↔ InSpan field n rows w }
    ensures count { (n : ℕ) (rows : List (List ℕ)) → length (words field n rows) ≡ size field ^ length rows }
    ensures combinations { (n : ℕ) (rows : List (List ℕ)) (w : List ℕ) →
        InSpan field n rows w ↔ ((cs : List ℕ) × IsWord field (length rows) cs × (w ≡ combine field n cs rows)) }
    ensures decided { (n : ℕ) (rows : List (List ℕ)) (w : List ℕ) →
        InSpan field n rows w ⊎ (InSpan field n rows w → ⊥) }
    ensures one_combination { (n : ℕ) (rows : List (List ℕ)) → AreRows field n rows →
        AreIndependent field n rows
        ↔ ((cs ds : List ℕ) → IsWord field (length rows) cs → IsWord field (length rows) ds →
        combine field n cs rows ≡ combine field n ds rows → cs ≡ ds) }
{}

/// Adding multiples of one row to the others, multiplying rows by nonzero elements, putting the rows
/// into another order and leaving out a zero row keep the words of the rows.
pub fn row_operations_keep_the_span(field: FieldName)
    ensures multiples_added { (n r : ℕ) (rows others : List (List ℕ)) → r < length rows → AreRows field n rows →
        AddsMultiples field r rows others → SameSpan field n rows others }
    ensures multiple_added { (n i r c : ℕ) (rows : List (List ℕ)) → i < length rows → r < length rows → i ≢ r →
        AreRows field n rows →
        SameSpan field n rows
        (set rows i (word_sum field (slice_index_or rows i []) (scale field c (slice_index_or rows r [])))) }
    ensures rows_multiplied { (n : ℕ) (rows others : List (List ℕ)) → AreRows field n rows →
        ScalesRows field rows others → SameSpan field n rows others }
    ensures row_multiplied { (n i c : ℕ) (rows : List (List ℕ)) → i < length rows → c < size field → 0 < c →
        AreRows field n rows → SameSpan field n rows (set rows i (scale field c (slice_index_or rows i []))) }
    ensures rows_swapped { (n i j : ℕ) (rows : List (List ℕ)) → i < length rows → j < length rows →
        AreRows field n rows → SameSpan field n rows (swap rows i j) }
    ensures rows_permuted { (n : ℕ) (rows others : List (List ℕ)) → AreRows field n rows → IsPermutation rows others →
        SameSpan field n rows others }
    ensures zero_row_removed { (n i : ℕ) (rows : List (List ℕ)) → i < length rows →
        slice_index_or rows i [] ≡ zero_word n → AreRows field n rows → SameSpan field n rows (remove rows i) }
{}

/// What has dot 0 with each row has dot 0 with each word of the rows, and the words that have are closed
/// under sum and multiple.
pub fn orthogonal_words_are_a_code(field: FieldName)
    ensures to_words { (n : ℕ) (rows : List (List ℕ)) (v w : List ℕ) → AreRows field n rows →
        IsOrthogonal field rows v → InSpan field n rows w → word_dot field w v ≡ 0 }
    ensures has_zero { (n : ℕ) (rows : List (List ℕ)) → IsOrthogonal field rows (zero_word n) }
    ensures has_sums { (rows : List (List ℕ)) (u v : List ℕ) → length u ≡ length v → IsOrthogonal field rows u →
        IsOrthogonal field rows v → IsOrthogonal field rows (word_sum field u v) }
    ensures has_multiples { (rows : List (List ℕ)) (c : ℕ) (u : List ℕ) → IsOrthogonal field rows u →
        IsOrthogonal field rows (scale field c u) }
    ensures told_by_words { (n : ℕ) (rows others : List (List ℕ)) (v : List ℕ) → AreRows field n rows →
        AreRows field n others → SameSpan field n rows others → IsOrthogonal field rows v →
        IsOrthogonal field others v }
{}

/// A set of words has at most one reduced matrix: reduced matrices with the same words are equal, and
/// so are two reduced matrices of the same rows or of the same set of words. They have at most as many
/// rows as columns, and the rows are independent.
pub fn reduced_matrix_is_unique(field: FieldName)
    ensures same_words { (n : ℕ) (d e : List (List ℕ)) → AreRows field n d → AreRows field n e → IsReduced n d →
        IsReduced n e → SameSpan field n d e → d ≡ e }
    ensures same_rows { (n : ℕ) (rows d e : List (List ℕ)) → IsEchelon field n rows d → IsEchelon field n rows e →
        d ≡ e }
    ensures same_set { (n : ℕ) (member : List ℕ → Bool) (d e : List (List ℕ)) →
        IsReducedGenerator field n (λ w. IsTrue (member w)) d → IsReducedGenerator field n (λ w. IsTrue (member w)) e →
        d ≡ e }
    ensures same_places { (n : ℕ) (ps qs : List ℕ) (d e : List (List ℕ)) → AreRows field n d → AreRows field n e →
        HasPivots n ps d → HasPivots n qs e → SameSpan field n d e → ps ≡ qs }
    ensures count { (n : ℕ) (e : List (List ℕ)) → IsReduced n e → length e ≤ n }
    ensures independent { (n : ℕ) (e : List (List ℕ)) → AreRows field n e → IsReduced n e → AreIndependent field n e }
    ensures told_by_places { (n : ℕ) (ps : List ℕ) (e : List (List ℕ)) (u v : List ℕ) → AreRows field n e →
        HasPivots n ps e → InSpan field n e u → InSpan field n e v →
        ((i : ℕ) → i < length ps → slice_index u (slice_index ps i) ≡ slice_index v (slice_index ps i)) → u ≡ v }
{}

/// Some rows have at most one systematic matrix on a set of columns; its rows are independent, and a
/// word of the rows is determined by its symbols on the set.
pub fn systematic_matrix_is_unique(field: FieldName)
    ensures one { (n : ℕ) (rows : List (List ℕ)) (set : List ℕ) (d e : List (List ℕ)) →
        IsSystematic field n rows set d → IsSystematic field n rows set e → d ≡ e }
    ensures independent { (n : ℕ) (rows : List (List ℕ)) (set : List ℕ) (e : List (List ℕ)) →
        IsSystematic field n rows set e → AreIndependent field n e }
    ensures told_by_places { (n : ℕ) (rows : List (List ℕ)) (set : List ℕ) (e : List (List ℕ)) (u v : List ℕ) →
        IsSystematic field n rows set e → InSpan field n rows u → InSpan field n rows v →
        ((i : ℕ) → i < length set → slice_index u (slice_index set i) ≡ slice_index v (slice_index set i)) → u ≡ v }
{}

/// Rows with a nonzero word have exactly one minimum distance and exactly one first nonzero word, whose
/// weight is that distance. Two different words of the rows are at least that far apart, and some are
/// exactly that far apart. A bound of the weights of nonzero words is at most the distance, is the
/// distance if some nonzero word attains it, and two different words are at least that far apart.
pub fn least_word_has_the_distance(field: FieldName)
    ensures some_word { (n : ℕ) (rows : List (List ℕ)) → AreRows field n rows →
        ((w : List ℕ) × IsLeast field n rows w) ⊎ ((w : List ℕ) → InSpan field n rows w → w ≡ zero_word n) }
    ensures distance { (n : ℕ) (rows : List (List ℕ)) (w : List ℕ) → IsLeast field n rows w →
        IsDistance field n rows (weight w) }
    ensures one_distance { (n : ℕ) (rows : List (List ℕ)) (d e : ℕ) → IsDistance field n rows d →
        IsDistance field n rows e → d ≡ e }
    ensures one_word { (n : ℕ) (rows : List (List ℕ)) (u v : List ℕ) → IsLeast field n rows u → IsLeast field n rows v →
        u ≡ v }
    ensures apart { (n : ℕ) (rows : List (List ℕ)) (d : ℕ) (u v : List ℕ) → AreRows field n rows →
        IsDistance field n rows d → InSpan field n rows u → InSpan field n rows v → u ≢ v → d ≤ distance field u v }
    ensures attained { (n : ℕ) (rows : List (List ℕ)) (d : ℕ) → AreRows field n rows → IsDistance field n rows d →
        (u : List ℕ) × InSpan field n rows u × (u ≢ zero_word n) × (distance field u (zero_word n) ≡ d) }
    ensures distance_told_by_words { (n : ℕ) (rows others : List (List ℕ)) (d : ℕ) → SameSpan field n rows others →
        IsDistance field n rows d → IsDistance field n others d }
    ensures bound { (n : ℕ) (rows : List (List ℕ)) (d : ℕ) → IsDistance field n rows d → IsWeightBound field n rows d }
    ensures bound_attained { (n : ℕ) (rows : List (List ℕ)) (d : ℕ) (w : List ℕ) → IsWeightBound field n rows d →
        InSpan field n rows w → 0 < weight w → weight w ≡ d → IsDistance field n rows d }
    ensures bound_at_most { (n : ℕ) (rows : List (List ℕ)) (d e : ℕ) → IsWeightBound field n rows d →
        IsDistance field n rows e → d ≤ e }
    ensures bound_apart { (n : ℕ) (rows : List (List ℕ)) (d : ℕ) (u v : List ℕ) → AreRows field n rows →
        IsWeightBound field n rows d → InSpan field n rows u → InSpan field n rows v → u ≢ v → d ≤ distance field u v }
    ensures word_told_by_words { (n : ℕ) (rows others : List (List ℕ)) (w : List ℕ) → SameSpan field n rows others →
        IsLeast field n rows w → IsLeast field n others w }
{}

/// Independent rows have each of their q^k words once in the list of words; they are at most as many as
/// any rows with the same words, so independent rows with the same words are equally many: the
/// dimension of a code.
pub fn dimension_is_unique(field: FieldName)
    ensures each_word_once { (n : ℕ) (rows : List (List ℕ)) → AreRows field n rows → AreIndependent field n rows →
        AllPairs (λ u v. u ≢ v) (words field n rows) }
    ensures at_most { (n : ℕ) (rows others : List (List ℕ)) → AreRows field n rows → AreIndependent field n rows →
        SameSpan field n rows others → length rows ≤ length others }
    ensures equally_many { (n : ℕ) (rows others : List (List ℕ)) → AreRows field n rows → AreRows field n others →
        AreIndependent field n rows → AreIndependent field n others → SameSpan field n rows others →
        length rows ≡ length others }
{}

/// The columns of a set are independent exactly if only zero coefficients make every row's symbols
/// on the set sum to 0. Whether they are depends on the words of the rows alone, and they are if the
/// rows have a systematic matrix on the set.
pub fn columns_are_told_by_words(field: FieldName)
    ensures independent { (n : ℕ) (rows : List (List ℕ)) (set : List ℕ) → AreRows field n rows →
        AreIndependentColumns field rows set
        ↔ ((xs : List ℕ) → IsWord field (length set) xs → All (λ row. word_dot field xs (restrict set row) ≡ 0) rows →
        xs ≡ zero_word (length set)) }
    ensures told_by_words { (n : ℕ) (rows others : List (List ℕ)) (set : List ℕ) → AreRows field n rows →
        AreRows field n others → SameSpan field n rows others → AreIndependentColumns field rows set →
        AreIndependentColumns field others set }
    ensures systematic { (n : ℕ) (rows : List (List ℕ)) (set : List ℕ) (e : List (List ℕ)) → AreRows field n rows →
        IsSystematic field n rows set e → AreIndependentColumns field rows set }
{}
