//! The table of the eighteen fields.
ghost use Rattle.std.specs.Prelude.{◌≡◌, ◌≢◌, ℕ, ◌<◌, IfSome, IsNone, ◌↔◌};
ghost use Rattle.lc_algebra.specs.declared.FieldName.{FieldName};
ghost use Rattle.lc_algebra.specs.Field.{size, mul, shape_of};
ghost use Rattle.lc_field.specs.Rows.{IsRow};

use lc_algebra::FieldName;

// What the tables of a field are made from: its columns in the table of fields, and the product of its primitive element
// with the greatest power of the characteristic that is an element.
#[derive(Clone, Copy)]
pub(crate) struct Row {
    pub(crate) name: FieldName,
    pub(crate) size: u16,
    pub(crate) characteristic: u8,
    pub(crate) degree: u8,
    pub(crate) primitive: u8,
    pub(crate) carry: u8,
}

fn make_row(
    name: FieldName,
    characteristic: u8,
    degree: u8,
    primitive: u8,
    carry: u8,
    size: u16,
) -> Row
    ensures name { result.name ≡ name }
    ensures characteristic { result.characteristic ≡ characteristic }
    ensures degree { result.degree ≡ degree }
    ensures primitive { result.primitive ≡ primitive }
    ensures carry { result.carry ≡ carry }
    ensures size { result.size ≡ size }
{
    Row {
        name,
        size,
        characteristic,
        degree,
        primitive,
        carry,
    }
}

// The row of the field of q elements, if there is such a field.
#[tactic(auto, unfolding(crate::proofs::Opened::table_of_fields))]
pub(crate) fn row_of(q: u64) -> Option<Row>
    ensures row { IfSome result (λ r. IsRow r × (r.size ≡ q)) }
    ensures none { IsNone result → (f : FieldName) → size f ≢ q }
{
    match q {
        2 => Some(make_row(FieldName::Gf2, 2, 1, 1, 1, 2)),
        3 => Some(make_row(FieldName::Gf3, 3, 1, 2, 2, 3)),
        4 => Some(make_row(FieldName::Gf4, 2, 2, 2, 3, 4)),
        5 => Some(make_row(FieldName::Gf5, 5, 1, 2, 2, 5)),
        7 => Some(make_row(FieldName::Gf7, 7, 1, 3, 3, 7)),
        8 => Some(make_row(FieldName::Gf8, 2, 3, 2, 3, 8)),
        9 => Some(make_row(FieldName::Gf9, 3, 2, 3, 4, 9)),
        11 => Some(make_row(FieldName::Gf11, 11, 1, 2, 2, 11)),
        13 => Some(make_row(FieldName::Gf13, 13, 1, 2, 2, 13)),
        16 => Some(make_row(FieldName::Gf16, 2, 4, 2, 3, 16)),
        25 => Some(make_row(FieldName::Gf25, 5, 2, 5, 8, 25)),
        27 => Some(make_row(FieldName::Gf27, 3, 3, 3, 5, 27)),
        32 => Some(make_row(FieldName::Gf32, 2, 5, 2, 5, 32)),
        64 => Some(make_row(FieldName::Gf64, 2, 6, 2, 3, 64)),
        81 => Some(make_row(FieldName::Gf81, 3, 4, 3, 7, 81)),
        128 => Some(make_row(FieldName::Gf128, 2, 7, 2, 3, 128)),
        243 => Some(make_row(FieldName::Gf243, 3, 5, 3, 5, 243)),
        256 => Some(make_row(FieldName::Gf256, 2, 8, 2, 29, 256)),
        _ => None,
    }
}
