//! The table of calls: the calls that are built, their names, and the kinds of their arguments.
ghost use Rattle.std.specs.Prelude.{◌≡◌, ◌==◌, map, find, nat_eq, option_map, length, MatchOption};
ghost use Rattle.std.specs.Cmp.Lexicographic.{pointwise};
ghost use Rattle.lc_language.specs.Calls.{name_of, signatures, call_named};
ghost use Rattle.lc_calls.specs.Built.{call_of, built_calls, forms_of, IsRowOf};

use lc_language::{Kind, ValueCall};

/// The built calls that are statements of their own: each prints a line of its own.
#[derive(Clone, Copy)]
pub enum QueryCall {
    AlgebraicDecode,
    LeastWord,
    MinimumDistance,
    Certificate,
    ScanCertificate,
    WeightDistribution,
    AlternantCertificate,
    NearestWord,
    FillErasures,
}

/// The built calls.
#[derive(Clone, Copy)]
pub enum Call {
    /// It gives a value.
    Value(ValueCall),
    /// It is a statement of its own.
    Query(QueryCall),
}

/// A row of the table: a call, its name, and the kinds of its arguments in each of its forms.
#[derive(Clone, Copy)]
pub struct Row {
    /// the call
    pub call: Call,
    /// its name in a script
    pub name: &'static str,
    /// its forms, one for each number of arguments that it takes: the kinds of these
    pub forms: &'static [&'static [Kind]],
}

// Rows, each of a call, its name and the kinds of its arguments in each of its forms.
macro_rules! rows {
    ($($call:expr => $name:literal $([$($kind:ident),*])+;)*) => {
        [$(Row { call: $call, name: $name, forms: &[$(&[$(Kind::$kind),*]),+] }),*]
    };
}

// The built calls, in the order of the table of all calls.
static TABLE: &[Row] = &rows! {
    Call::Value(ValueCall::Gf) => "GF" [Number];
    Call::Value(ValueCall::GeneratorMatCode) => "GeneratorMatCode" [Lists, Field];
    Call::Value(ValueCall::CheckMatCode) => "CheckMatCode" [Lists, Field];
    Call::Value(ValueCall::RepetitionCode) => "RepetitionCode" [Number, Field];
    Call::Value(ValueCall::WholeSpaceCode) => "WholeSpaceCode" [Number, Field];
    Call::Value(ValueCall::NullCode) => "NullCode" [Number, Field];
    Call::Value(ValueCall::HammingCode) => "HammingCode" [Number, Field];
    Call::Value(ValueCall::ReedMullerCode) => "ReedMullerCode" [Number, Number];
    Call::Value(ValueCall::GeneratorPolCode) => "GeneratorPolCode" [Numbers, Number, Field];
    Call::Value(ValueCall::CheckPolCode) => "CheckPolCode" [Numbers, Number, Field];
    Call::Value(ValueCall::QrCode) => "QRCode" [Number, Field];
    Call::Value(ValueCall::BinaryGolayCode) => "BinaryGolayCode" [];
    Call::Value(ValueCall::TernaryGolayCode) => "TernaryGolayCode" [];
    Call::Value(ValueCall::ExtendedBinaryGolayCode) => "ExtendedBinaryGolayCode" [];
    Call::Value(ValueCall::ExtendedTernaryGolayCode) => "ExtendedTernaryGolayCode" [];
    Call::Value(ValueCall::BchCode) => "BCHCode"
        [Number, Number, Field] [Number, Number, Number, Field];
    Call::Value(ValueCall::ReedSolomonCode) => "ReedSolomonCode" [Number, Number];
    Call::Value(ValueCall::GoppaCode) => "GoppaCode" [Numbers, Numbers, Field, Field];
    Call::Value(ValueCall::AlternantCode) => "AlternantCode"
        [Number, Numbers, Numbers, Field, Field];
    Call::Value(ValueCall::DualCode) => "DualCode" [Code];
    Call::Value(ValueCall::ExtendedCode) => "ExtendedCode" [Code];
    Call::Value(ValueCall::PuncturedCode) => "PuncturedCode" [Code, Numbers];
    Call::Value(ValueCall::ShortenedCode) => "ShortenedCode" [Code, Numbers];
    Call::Value(ValueCall::EvenWeightSubcode) => "EvenWeightSubcode" [Code];
    Call::Value(ValueCall::DirectSumCode) => "DirectSumCode" [Code, Code];
    Call::Value(ValueCall::UuvCode) => "UUVCode" [Code, Code];
    Call::Value(ValueCall::DirectProductCode) => "DirectProductCode" [Code, Code];
    Call::Value(ValueCall::IntersectionCode) => "IntersectionCode" [Code, Code];
    Call::Value(ValueCall::ConcatenatedCode) => "ConcatenatedCode" [Code, Code];
    Call::Value(ValueCall::Dimension) => "Dimension" [Code];
    Call::Value(ValueCall::WordLength) => "WordLength" [Code];
    Call::Value(ValueCall::GeneratorMat) => "GeneratorMat" [Code];
    Call::Value(ValueCall::CheckMat) => "CheckMat" [Code];
    Call::Value(ValueCall::Weight) => "Weight" [Numbers];
    Call::Value(ValueCall::IsCodeword) => "IsCodeword" [Code, Numbers];
    Call::Value(ValueCall::Decode) => "Decode" [Code, Numbers];
    Call::Value(ValueCall::Syndrome) => "Syndrome" [Code, Numbers];
    Call::Value(ValueCall::IsSubcode) => "IsSubcode" [Code, Code];
    Call::Value(ValueCall::IsSameCode) => "IsSameCode" [Code, Code];
    Call::Value(ValueCall::IsSelfOrthogonalCode) => "IsSelfOrthogonalCode" [Code];
    Call::Value(ValueCall::IsSelfDualCode) => "IsSelfDualCode" [Code];
    Call::Value(ValueCall::IsCyclicCode) => "IsCyclicCode" [Code];
    Call::Value(ValueCall::AddWords) => "AddWords" [Numbers, Numbers, Field];
    Call::Value(ValueCall::ScaleWord) => "ScaleWord" [Number, Numbers, Field];
    Call::Value(ValueCall::DistanceCodeword) => "DistanceCodeword" [Numbers, Numbers];
    Call::Value(ValueCall::Encode) => "Encode" [Code, Numbers];
    Call::Value(ValueCall::InformationWord) => "InformationWord" [Code, Numbers];
    Call::Value(ValueCall::UnionCode) => "UnionCode" [Code, Code];
    Call::Value(ValueCall::AugmentedCode) => "AugmentedCode" [Code, Lists];
    Call::Value(ValueCall::TraceCode) => "TraceCode" [Code, Field];
    Call::Value(ValueCall::SubfieldSubcode) => "SubfieldSubcode" [Code, Field];
    Call::Value(ValueCall::CirculantCode) => "CirculantCode" [Numbers, Number, Field];
    Call::Value(ValueCall::QuasiCyclicCode) => "QuasiCyclicCode" [Lists, Number, Field];
    Call::Value(ValueCall::ConstructionXCode) => "ConstructionXCode" [Code, Code, Code];
    Call::Value(ValueCall::ResidueCode) => "ResidueCode" [Code, Numbers];
    Call::Query(QueryCall::AlgebraicDecode) => "AlgebraicDecode" [Code, Numbers];
    Call::Query(QueryCall::LeastWord) => "LeastWord" [Lists, Field];
    Call::Query(QueryCall::MinimumDistance) => "MinimumDistance" [Code];
    Call::Query(QueryCall::Certificate) => "Certificate" [Code];
    Call::Query(QueryCall::ScanCertificate) => "ScanCertificate" [Code];
    Call::Query(QueryCall::WeightDistribution) => "WeightDistribution" [Code];
    Call::Query(QueryCall::AlternantCertificate) => "AlternantCertificate" [Code, Numbers];
    Call::Query(QueryCall::NearestWord) => "NearestWord" [Code, Numbers];
    Call::Query(QueryCall::FillErasures) => "FillErasures" [Code, Numbers, Numbers];
};

// The rows of all built calls.
fn table() -> &'static [Row]
    ensures calls { map (λ row. call_of row.call) result.now ≡ built_calls }
    ensures names { map (λ row. row.name.now) result.now ≡ map name_of built_calls }
    ensures forms { map forms_of result.now ≡ map signatures built_calls }
{
    TABLE
}

// The row with this name.
fn row_with<'a>(rows: &'a [Row], name: &str) -> Option<&'a Row>
    ensures { option_map (λ row. row.now) result ≡ find (λ row. pointwise nat_eq row.name.now name.now) rows.now }
{
    rows.iter().find(|row| row.name == name)
}

// The form with this many arguments.
fn form_with<'a>(forms: &'a [&'static [Kind]], count: usize) -> Option<&'a &'static [Kind]>
    ensures { option_map (λ kinds. kinds.now) result ≡ find (λ kinds. length kinds.now == count) forms.now }
{
    forms.iter().find(|kinds| kinds.len() == count)
}

/// The row of the call with this name; None exactly if no built call has it.
pub fn row_named(name: &str) -> Option<&'static Row>
    ensures { MatchOption result (call_named built_calls name.now ≡ None) (λ row. IsRowOf name.now row.now) }
{
    row_with(table(), name)
}

impl Row {
    /// The kinds of the arguments, if there are `count`; None exactly if the call has no form with this many.
    pub fn kinds(&self, count: usize) -> Option<&'static [Kind]>
        ensures { option_map (λ kinds. kinds.now) result ≡ find (λ kinds. length kinds == count) (forms_of self.now) }
    {
        match form_with(self.forms, count) {
            Some(kinds) => Some(*kinds),
            None => None,
        }
    }
}
