//! Calls and queries with their arguments, and what each stands for in the definitions of the language.
ghost use Rattle.lc_language.specs.Calls as language;
ghost use Rattle.lc_calls.specs.Value.{rows_of};

use crate::code_value::CodeValue;
use lc_code::Code;
use lc_field::Field;

/// What a call that gives a value stands for in the definitions of the language.
pub trait Means {
    /// The call of the definitions, with its arguments.
    ghost meaning: { Self → language.BoundCall };
}

/// What a query stands for in the definitions of the language.
pub trait Asks {
    /// The query of the definitions, with its arguments.
    ghost asked: { Self → language.BoundQuery };
}

/// A call that gives a value, with its arguments in the order in which a script has them.
///
/// They are of the kinds of the call, and otherwise any: a call that is refused for its arguments is bound to them all the same.
pub enum BoundCall<'a> {
    Gf(u64),
    GeneratorMatCode(&'a [Vec<u64>], &'a Field),
    CheckMatCode(&'a [Vec<u64>], &'a Field),
    RepetitionCode(u64, &'a Field),
    WholeSpaceCode(u64, &'a Field),
    NullCode(u64, &'a Field),
    HammingCode(u64, &'a Field),
    /// r and m
    ReedMullerCode(u64, u64),
    /// the coefficients from that of 1 on, the length, the field
    GeneratorPolCode(&'a [u64], u64, &'a Field),
    /// the coefficients from that of 1 on, the length, the field
    CheckPolCode(&'a [u64], u64, &'a Field),
    QrCode(u64, &'a Field),
    BinaryGolayCode,
    TernaryGolayCode,
    ExtendedBinaryGolayCode,
    ExtendedTernaryGolayCode,
    /// the length, the first exponent, which is 1 in the form without it, the design distance, the field
    BchCode(u64, u64, u64, &'a Field),
    /// the length and the design distance
    ReedSolomonCode(u64, u64),
    /// the coefficients, the points, the locator field of both, the field of the code
    GoppaCode(&'a [u64], &'a [u64], &'a Field, &'a Field),
    /// the number of checks, the points, the multipliers, the locator field of both, the field of the code
    AlternantCode(u64, &'a [u64], &'a [u64], &'a Field, &'a Field),
    DualCode(&'a Code),
    ExtendedCode(&'a Code),
    PuncturedCode(&'a Code, &'a [u64]),
    ShortenedCode(&'a Code, &'a [u64]),
    EvenWeightSubcode(&'a Code),
    DirectSumCode(&'a Code, &'a Code),
    UuvCode(&'a Code, &'a Code),
    DirectProductCode(&'a Code, &'a Code),
    IntersectionCode(&'a Code, &'a Code),
    /// the outer code and the inner code
    ConcatenatedCode(&'a Code, &'a Code),
    Dimension(&'a Code),
    WordLength(&'a Code),
    GeneratorMat(&'a Code),
    CheckMat(&'a Code),
    Weight(&'a [u64]),
    IsCodeword(&'a Code, &'a [u64]),
    Decode(&'a Code, &'a [u64]),
    Syndrome(&'a Code, &'a [u64]),
    IsSubcode(&'a Code, &'a Code),
    IsSameCode(&'a Code, &'a Code),
    IsSelfOrthogonalCode(&'a Code),
    IsSelfDualCode(&'a Code),
    IsCyclicCode(&'a Code),
    AddWords(&'a [u64], &'a [u64], &'a Field),
    ScaleWord(u64, &'a [u64], &'a Field),
    DistanceCodeword(&'a [u64], &'a [u64]),
    Encode(&'a Code, &'a [u64]),
    InformationWord(&'a Code, &'a [u64]),
    UnionCode(&'a Code, &'a Code),
    AugmentedCode(&'a Code, &'a [Vec<u64>]),
    /// the code and the smaller field
    TraceCode(&'a Code, &'a Field),
    /// the code and the smaller field
    SubfieldSubcode(&'a Code, &'a Field),
    CirculantCode(&'a [u64], u64, &'a Field),
    QuasiCyclicCode(&'a [Vec<u64>], u64, &'a Field),
    /// the code, its subcode, the code of the tails
    ConstructionXCode(&'a Code, &'a Code, &'a Code),
    ResidueCode(&'a Code, &'a [u64]),
}

impl Means for BoundCall<'_> {
    ghost use Rattle.lc_calls.specs.declared.bound.BoundCall.TheVariants as BoundCall;

    ghost meaning = { elim [
      | BoundCall.Gf q ↦ language.gf q
      | BoundCall.GeneratorMatCode rows f ↦ language.generator_mat_code (rows_of rows.now) f.now
      | BoundCall.CheckMatCode rows f ↦ language.check_mat_code (rows_of rows.now) f.now
      | BoundCall.RepetitionCode n f ↦ language.repetition_code n f.now
      | BoundCall.WholeSpaceCode n f ↦ language.whole_space_code n f.now
      | BoundCall.NullCode n f ↦ language.null_code n f.now
      | BoundCall.HammingCode r f ↦ language.hamming_code r f.now
      | BoundCall.ReedMullerCode r m ↦ language.reed_muller_code r m
      | BoundCall.GeneratorPolCode x n f ↦ language.generator_pol_code x.now n f.now
      | BoundCall.CheckPolCode x n f ↦ language.check_pol_code x.now n f.now
      | BoundCall.QrCode n f ↦ language.qr_code n f.now
      | BoundCall.BinaryGolayCode ↦ language.binary_golay_code
      | BoundCall.TernaryGolayCode ↦ language.ternary_golay_code
      | BoundCall.ExtendedBinaryGolayCode ↦ language.extended_binary_golay_code
      | BoundCall.ExtendedTernaryGolayCode ↦ language.extended_ternary_golay_code
      | BoundCall.BchCode n c d f ↦ language.bch_code n c d f.now
      | BoundCall.ReedSolomonCode n d ↦ language.reed_solomon_code n d
      | BoundCall.GoppaCode g x K f ↦ language.goppa_code g.now x.now K.now f.now
      | BoundCall.AlternantCode r x y K f ↦ language.alternant_code r x.now y.now K.now f.now
      | BoundCall.DualCode C ↦ language.dual_code C.now
      | BoundCall.ExtendedCode C ↦ language.extended_code C.now
      | BoundCall.PuncturedCode C x ↦ language.punctured_code C.now x.now
      | BoundCall.ShortenedCode C x ↦ language.shortened_code C.now x.now
      | BoundCall.EvenWeightSubcode C ↦ language.even_weight_subcode C.now
      | BoundCall.DirectSumCode C D ↦ language.direct_sum_code C.now D.now
      | BoundCall.UuvCode C D ↦ language.uuv_code C.now D.now
      | BoundCall.DirectProductCode C D ↦ language.direct_product_code C.now D.now
      | BoundCall.IntersectionCode C D ↦ language.intersection_code C.now D.now
      | BoundCall.ConcatenatedCode C D ↦ language.concatenated_code C.now D.now
      | BoundCall.Dimension C ↦ language.dimension C.now
      | BoundCall.WordLength C ↦ language.word_length C.now
      | BoundCall.GeneratorMat C ↦ language.generator_mat C.now
      | BoundCall.CheckMat C ↦ language.check_mat C.now
      | BoundCall.Weight x ↦ language.weight_of x.now
      | BoundCall.IsCodeword C x ↦ language.is_codeword C.now x.now
      | BoundCall.Decode C x ↦ language.decode C.now x.now
      | BoundCall.Syndrome C x ↦ language.syndrome_of C.now x.now
      | BoundCall.IsSubcode C D ↦ language.is_subcode C.now D.now
      | BoundCall.IsSameCode C D ↦ language.is_same_code C.now D.now
      | BoundCall.IsSelfOrthogonalCode C ↦ language.is_self_orthogonal_code C.now
      | BoundCall.IsSelfDualCode C ↦ language.is_self_dual_code C.now
      | BoundCall.IsCyclicCode C ↦ language.is_cyclic_code C.now
      | BoundCall.AddWords x y f ↦ language.add_words x.now y.now f.now
      | BoundCall.ScaleWord c x f ↦ language.scale_word c x.now f.now
      | BoundCall.DistanceCodeword x y ↦ language.distance_codeword x.now y.now
      | BoundCall.Encode C u ↦ language.encode C.now u.now
      | BoundCall.InformationWord C x ↦ language.information_word C.now x.now
      | BoundCall.UnionCode C D ↦ language.union_code C.now D.now
      | BoundCall.AugmentedCode C rows ↦ language.augmented_code C.now (rows_of rows.now)
      | BoundCall.TraceCode C f ↦ language.trace_code C.now f.now
      | BoundCall.SubfieldSubcode C f ↦ language.subfield_subcode C.now f.now
      | BoundCall.CirculantCode x n f ↦ language.circulant_code x.now n f.now
      | BoundCall.QuasiCyclicCode xs n f ↦ language.quasi_cyclic_code (rows_of xs.now) n f.now
      | BoundCall.ConstructionXCode C D E ↦ language.construction_x_code C.now D.now E.now
      | BoundCall.ResidueCode C x ↦ language.residue_code C.now x.now
    ] };
}

/// A query with its arguments in the order in which a script has them. A query about a code's alternant form has the code with its form.
pub enum BoundQuery<'a> {
    AlgebraicDecode(&'a CodeValue, &'a [u64]),
    LeastWord(&'a [Vec<u64>], &'a Field),
    MinimumDistance(&'a Code),
    Certificate(&'a Code),
    ScanCertificate(&'a Code),
    WeightDistribution(&'a Code),
    AlternantCertificate(&'a CodeValue, &'a [u64]),
    NearestWord(&'a Code, &'a [u64]),
    /// the code, the list of symbols, the erased coordinates
    FillErasures(&'a Code, &'a [u64], &'a [u64]),
}

impl Asks for BoundQuery<'_> {
    ghost use Rattle.lc_calls.specs.declared.bound.BoundQuery.TheVariants as BoundQuery;

    ghost asked = { elim [
      | BoundQuery.AlgebraicDecode C x ↦ language.algebraic_decode C.now.code C.now.form x.now
      | BoundQuery.LeastWord rows f ↦ language.least_word (rows_of rows.now) f.now
      | BoundQuery.MinimumDistance C ↦ language.minimum_distance C.now
      | BoundQuery.Certificate C ↦ language.certificate C.now
      | BoundQuery.ScanCertificate C ↦ language.scan_certificate C.now
      | BoundQuery.WeightDistribution C ↦ language.weight_distribution C.now
      | BoundQuery.AlternantCertificate C x ↦ language.alternant_certificate C.now.code C.now.form x.now
      | BoundQuery.NearestWord C x ↦ language.nearest_word C.now x.now
      | BoundQuery.FillErasures C x erased ↦ language.fill_erasures C.now x.now erased.now
    ] };
}
