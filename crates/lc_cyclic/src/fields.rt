//! Which fields there are, without their tables.
ghost use Rattle.std.specs.Prelude.{◌≡◌, ◌<◌, ◌≤◌, option_map};
ghost use Rattle.lc_algebra.specs.Field.{shape_of, size};
ghost use Rattle.lc_constructions.specs.Cyclic.{locator_field};
ghost use Rattle.lc_constructions.specs.Refusals.{is_size_of_symbol_field};
ghost use Rattle.lc_cyclic.specs.Fields.{field_number, holds_root};

use lc_field::Field;

// What is known of a field.
#[derive(Clone, Copy)]
struct Shape {
    characteristic: u8,
    degree: u8,
    size: u64,
}

fn make_shape(characteristic: u8, degree: u8, size: u64) -> Shape
    ensures characteristic { result.characteristic ≡ characteristic }
    ensures degree { result.degree ≡ degree }
    ensures size { result.size ≡ size }
{
    Shape {
        characteristic,
        degree,
        size,
    }
}

// The field with this index in the list of all eighteen, by rising size.
#[tactic(auto, unfolding(crate::proofs::Opened::shapes_of_fields))]
fn shape_at(i: usize) -> Shape
    requires index { i < 18 }
    ensures characteristic { result.characteristic ≡ (shape_of (field_number i)).characteristic }
    ensures degree { result.degree ≡ (shape_of (field_number i)).degree }
    ensures size { result.size ≡ size (field_number i) }
{
    match i {
        0 => make_shape(2, 1, 2),
        1 => make_shape(3, 1, 3),
        2 => make_shape(2, 2, 4),
        3 => make_shape(5, 1, 5),
        4 => make_shape(7, 1, 7),
        5 => make_shape(2, 3, 8),
        6 => make_shape(3, 2, 9),
        7 => make_shape(11, 1, 11),
        8 => make_shape(13, 1, 13),
        9 => make_shape(2, 4, 16),
        10 => make_shape(5, 2, 25),
        11 => make_shape(3, 3, 27),
        12 => make_shape(2, 5, 32),
        13 => make_shape(2, 6, 64),
        14 => make_shape(3, 4, 81),
        15 => make_shape(2, 7, 128),
        16 => make_shape(3, 5, 243),
        _ => make_shape(2, 8, 256),
    }
}

// The size of the locator field of a BCH code of length n, if there is one.
#[tactic(auto, using(crate::proofs::FieldLaws::locator_size_laws))]
pub(crate) fn locator_size(field: &Field, n: u64) -> Option<u64>
    requires least { 1 ≤ n }
    ensures is { result ≡ option_map size (locator_field field.now n) }
{
    for i in 0..18 {
        let shape = shape_at(i);
        if is_locator(field, n, &shape) {
            return Some(shape.size);
        }
    }
    None
}

// Whether the field of this shape contains the field and has an element of order n.
#[tactic(auto, using(crate::proofs::FieldLaws::is_locator_laws))]
fn is_locator(field: &Field, n: u64, shape: &Shape) -> bool
    requires least { 1 ≤ n }
    requires size { 1 ≤ shape.now.size }
    ensures is { result ≡ holds_root (shape_of field.now).characteristic
        (shape_of field.now).degree n shape.now.characteristic shape.now.degree shape.now.size }
{
    if shape.characteristic != field.characteristic() {
        return false;
    }
    if shape.degree % field.degree() != 0 {
        return false;
    }
    (shape.size - 1) % n == 0
}

// Whether a symbol field has q elements.
#[tactic(auto, using(crate::proofs::FieldLaws::size_found, crate::proofs::FieldLaws::size_missing))]
pub(crate) fn is_symbol_size(q: u64) -> bool
    ensures is { result ≡ is_size_of_symbol_field q }
{
    for i in 0..18 {
        let size = shape_at(i).size;
        if size == q && size <= 16 {
            return true;
        }
    }
    false
}
