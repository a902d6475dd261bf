//! What `codes` means by a call of the script language, by the value of an expression, and by the text
//! that a script prints. The definitions are in `specs/`.
#![tactic(auto)]

/// What an argument of a call must be.
#[derive(Clone, Copy, Debug, PartialEq, Eq)]
pub enum Kind {
    /// a number
    Number,
    /// a field
    Field,
    /// a list of numbers
    Numbers,
    /// a list of lists of numbers
    Lists,
    /// a code
    Code,
}

/// The calls that give a value, by the names of the GUAVA manual if it has one.
#[derive(Clone, Copy, Debug, PartialEq, Eq)]
pub enum ValueCall {
    Gf,
    GeneratorMatCode,
    CheckMatCode,
    RepetitionCode,
    WholeSpaceCode,
    NullCode,
    HammingCode,
    ReedMullerCode,
    GeneratorPolCode,
    CheckPolCode,
    QrCode,
    BinaryGolayCode,
    TernaryGolayCode,
    ExtendedBinaryGolayCode,
    ExtendedTernaryGolayCode,
    BchCode,
    ReedSolomonCode,
    GoppaCode,
    AlternantCode,
    DualCode,
    ExtendedCode,
    PuncturedCode,
    ShortenedCode,
    EvenWeightSubcode,
    DirectSumCode,
    UuvCode,
    DirectProductCode,
    IntersectionCode,
    ConcatenatedCode,
    Dimension,
    WordLength,
    GeneratorMat,
    CheckMat,
    Weight,
    IsCodeword,
    Decode,
    Syndrome,
    IsSubcode,
    IsSameCode,
    IsSelfOrthogonalCode,
    IsSelfDualCode,
    IsCyclicCode,
    AddWords,
    ScaleWord,
    DistanceCodeword,
    Encode,
    InformationWord,
    UnionCode,
    AugmentedCode,
    TraceCode,
    SubfieldSubcode,
    CirculantCode,
    QuasiCyclicCode,
    ConstructionXCode,
    ResidueCode,
}

/// The calls that are statements of their own: each prints a line of its own.
#[derive(Clone, Copy, Debug, PartialEq, Eq)]
pub enum QueryCall {
    AlgebraicDecode,
    LeastWord,
    MinimumDistance,
    Certificate,
    ScanCertificate,
    WeightDistribution,
    AlternantCertificate,
    NearestWord,
    FillErasures,
}

/// The calls of the script language.
#[derive(Clone, Copy, Debug, PartialEq, Eq)]
pub enum Call {
    /// It gives a value.
    Value(ValueCall),
    /// It is a statement of its own.
    Query(QueryCall),
}
