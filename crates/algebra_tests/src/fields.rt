//! The eighteen fields: every entry of their tables, products by hand, and embeddings.
ghost use Rattle.lc_algebra.specs.Embedding.{IsSubfield};

use lc_field::{Field, FieldRefusal, NoMemory};
use std::alloc::Global;

// Of each field the size, and a number that every entry of its tables of sums, of products and of inverses moves, as
// tools/field_tables.py prints them.
static TABLES: [(u64, u32, u32, u32); 18] = [
    (2, 5, 4, 2),
    (3, 45, 42, 8),
    (4, 204, 198, 19),
    (5, 650, 640, 39),
    (7, 3675, 3654, 104),
    (8, 7280, 7252, 141),
    (9, 13284, 13248, 219),
    (11, 36905, 36850, 406),
    (13, 86190, 86112, 597),
    (16, 246720, 246600, 1019),
    (25, 2347500, 2347200, 4821),
    (27, 3459105, 3458754, 4928),
    (32, 8134400, 8133904, 8853),
    (64, 264305664, 264303648, 62599),
    (81, 861065640, 861062400, 133919),
    (128, 4228378624, 4228370496, 519341),
    (243, 500631221, 500601818, 3624390),
    (256, 3225403392, 3225370752, 4448193),
];

// The sum of all entries of the table of sums, each times its place.
fn all_sums(field: &Field) -> u32 {
    let size = field.size() as u32;
    let mut total = 0u32;
    for a in 0..size {
        for b in 0..size {
            let place = a.wrapping_mul(size).wrapping_add(b + 1);
            total = total.wrapping_add(place.wrapping_mul(field.add(a as u8, b as u8) as u32));
        }
    }
    total
}

// The sum of all entries of the table of products, each times its place.
fn all_products(field: &Field) -> u32 {
    let size = field.size() as u32;
    let mut total = 0u32;
    for a in 0..size {
        for b in 0..size {
            let place = a.wrapping_mul(size).wrapping_add(b + 1);
            total = total.wrapping_add(place.wrapping_mul(field.mul(a as u8, b as u8) as u32));
        }
    }
    total
}

// The sum of all inverses, each times the place of its element.
fn all_inverses(field: &Field) -> u32 {
    let size = field.size() as u32;
    let mut total = 0u32;
    for a in 1..size {
        total = total.wrapping_add((a + 1).wrapping_mul(field.inv(a as u8) as u32));
    }
    total
}

// Whether every entry of the field's tables is as these numbers say.
fn has_tables(field: &Field, sums: u32, products: u32, inverses: u32) -> bool {
    all_sums(field) == sums && all_products(field) == products && all_inverses(field) == inverses
}

// Whether this is so of a copy of the field.
fn copy_has_tables(alloc: Global, field: &Field, sums: u32, products: u32, inverses: u32) -> bool {
    match field.copy(alloc) {
        Ok(copy) => has_tables(&copy, sums, products, inverses),
        Err(NoMemory) => false,
    }
}

// Whether this is so of a copy of the field of the row.
fn is_tabled(alloc: Global, row: &(u64, u32, u32, u32)) -> bool {
    match Field::of(alloc, row.0) {
        Ok(field) => copy_has_tables(alloc, &field, row.1, row.2, row.3),
        Err(_refusal) => false,
    }
}

#[test]
fn every_entry_of_every_table(rt: HostRuntime) {
    for row in &TABLES {
        assert!(rt; is_tabled(rt.alloc(), row), "in the field of {}", row.0);
    }
}

// Sizes of fields, two elements of each, and their product, by hand.
static PRODUCTS: [(u64, u8, u8, u8); 13] = [
    (4, 2, 2, 3),
    (8, 4, 2, 3),
    (8, 2, 5, 1),
    (9, 3, 3, 4),
    (16, 8, 2, 3),
    (25, 5, 5, 8),
    (27, 9, 3, 5),
    (32, 16, 2, 5),
    (64, 32, 2, 3),
    (81, 27, 3, 7),
    (128, 64, 2, 3),
    (243, 81, 3, 5),
    (256, 128, 2, 29),
];

// Whether a and b are elements, and this is their product.
fn has_product(field: &Field, a: u8, b: u8, product: u8) -> bool {
    (a as u16) < field.size() && (b as u16) < field.size() && field.mul(a, b) == product
}

// Whether this is so in the field of the row.
fn is_product(alloc: Global, row: &(u64, u8, u8, u8)) -> bool {
    match Field::of(alloc, row.0) {
        Ok(field) => has_product(&field, row.1, row.2, row.3),
        Err(_refusal) => false,
    }
}

#[test]
fn products_of_the_table(rt: HostRuntime) {
    for row in &PRODUCTS {
        let is_right = is_product(rt.alloc(), row);
        assert!(rt;
            is_right,
            "{} times {} in the field of {}",
            row.1, row.2, row.0
        );
    }
}

// Whether the table has a field of this size.
fn is_size(q: u64) -> bool {
    for row in &TABLES {
        if row.0 == q {
            return true;
        }
    }
    false
}

// Whether there is a field of q elements exactly if the table has one, and no field is refused as such.
fn is_field_or_refused(alloc: Global, q: u64) -> bool {
    match Field::of(alloc, q) {
        Ok(field) => is_size(q) && field.size() as u64 == q,
        Err(refusal) => !is_size(q) && refusal == FieldRefusal::NotAField && refusal.number() == 1,
    }
}

#[test]
fn eighteen_sizes(rt: HostRuntime) {
    for q in 0..301 {
        assert!(rt; is_field_or_refused(rt.alloc(), q), "{q}");
    }
}

// Whether a of the small field is b in the large one, and b comes from a.
fn is_embedded(large: &Field, small: &Field, a: u8, b: u8) -> bool
    requires subfield { IsSubfield small.now large.now }
{
    if small.size() <= a as u16 || large.size() <= b as u16 {
        return false;
    }
    large.embed(small, a) == b && large.unembed(small, b) == Some(a)
}

// Whether b of the large field comes from no element of the small one.
fn is_outside(large: &Field, small: &Field, b: u8) -> bool
    requires subfield { IsSubfield small.now large.now }
{
    (b as u16) < large.size() && large.unembed(small, b).is_none()
}

// Whether the large field holds the small one, which has these elements in that of 16.
fn holds_the_field_of_4(large: &Field, small: &Field) -> bool {
    large.holds(small)
        && is_embedded(large, small, 2, 6)
        && is_embedded(large, small, 3, 7)
        && is_outside(large, small, 2)
}

// Whether the field holds that of r elements, which is then that of 4, or doesn't hold it.
fn holds_or_not(alloc: Global, large: &Field, r: u64) -> bool {
    match Field::of(alloc, r) {
        Ok(small) => {
            if r == 4 {
                return holds_the_field_of_4(large, &small);
            }
            !large.holds(&small)
        }
        Err(_refusal) => false,
    }
}

// The same of the field of q elements.
fn size_holds_or_not(alloc: Global, q: u64, r: u64) -> bool {
    match Field::of(alloc, q) {
        Ok(large) => holds_or_not(alloc, &large, r),
        Err(_refusal) => false,
    }
}

#[test]
fn the_field_of_4_in_that_of_16(rt: HostRuntime) {
    for row in [(16, 4), (16, 8), (4, 16)] {
        assert!(rt;
            size_holds_or_not(rt.alloc(), row.0, row.1),
            "{} {}",
            row.0,
            row.1
        );
    }
}

// Whether the field has these numbers.
fn has_numbers(field: &Field, size: u16, characteristic: u8, degree: u8, primitive: u8) -> bool {
    field.size() == size
        && field.characteristic() == characteristic
        && field.degree() == degree
        && field.primitive() == primitive
}

// Whether a is an element, and this is its negative.
fn has_negative(field: &Field, a: u8, negative: u8) -> bool {
    (a as u16) < field.size() && field.neg(a) == negative
}

// Whether a is an element, and this is its power with exponent e.
fn has_power(field: &Field, a: u8, e: u64, power: u8) -> bool {
    (a as u16) < field.size() && field.pow(a, e) == power
}

// Whether a is an element, and its powers with these exponents are one.
fn has_equal_powers(field: &Field, a: u8, e: u64, other: u64) -> bool {
    (a as u16) < field.size() && field.pow(a, e) == field.pow(a, other)
}

// Whether a is a symbol, and these are its products with all elements.
fn has_products(field: &Field, a: u8, products: &[u8]) -> bool {
    field.is_symbol() && (a as u16) < field.size() && field.products_of(a) == products
}

// Whether the field of 9 elements has these numbers, negatives, powers and products.
fn is_nine(field: &Field) -> bool {
    has_numbers(field, 9, 3, 2, 3)
        && has_negative(field, 5, 7)
        && has_power(field, 3, 4, 2)
        && has_power(field, 0, 0, 1)
        && has_equal_powers(field, 3, u64::MAX, 7)
        && has_products(field, 3, &[0, 3, 6, 4, 7, 1, 8, 2, 5])
}

// Whether this is so of the field that is made.
fn has_nine(alloc: Global) -> bool {
    match Field::of(alloc, 9) {
        Ok(field) => is_nine(&field),
        Err(_refusal) => false,
    }
}

#[test]
fn the_field_of_9(rt: HostRuntime) {
    assert!(rt; has_nine(rt.alloc()));
}
