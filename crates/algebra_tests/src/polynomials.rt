//! Minimal polynomials, as `tools/minimal_polynomials.py` makes them, published generators, cyclotomic sets, products and
//! quotients.
ghost use Rattle.std.specs.Prelude.{◌≡◌};

use lc_field::{Field, NoMemory};
use lc_poly::{Poly, cyclotomic_set, minimal, x_power_minus_one};
use lc_vec::fits;
use std::alloc::Global;

// An element of the large field, and the coefficients of its minimal polynomial.
type Row = (u8, &'static [u8]);

// The field of 16 elements over that of 2.
static OVER_2: [Row; 16] = [
    (0, &[0, 1]),
    (1, &[1, 1]),
    (2, &[1, 1, 0, 0, 1]),
    (3, &[1, 1, 0, 0, 1]),
    (4, &[1, 1, 0, 0, 1]),
    (5, &[1, 1, 0, 0, 1]),
    (6, &[1, 1, 1]),
    (7, &[1, 1, 1]),
    (8, &[1, 1, 1, 1, 1]),
    (9, &[1, 0, 0, 1, 1]),
    (10, &[1, 1, 1, 1, 1]),
    (11, &[1, 0, 0, 1, 1]),
    (12, &[1, 1, 1, 1, 1]),
    (13, &[1, 0, 0, 1, 1]),
    (14, &[1, 0, 0, 1, 1]),
    (15, &[1, 1, 1, 1, 1]),
];

// The field of 16 elements over that of 4.
static OVER_4: [Row; 16] = [
    (0, &[0, 1]),
    (1, &[1, 1]),
    (2, &[2, 1, 1]),
    (3, &[2, 1, 1]),
    (4, &[3, 1, 1]),
    (5, &[3, 1, 1]),
    (6, &[2, 1]),
    (7, &[3, 1]),
    (8, &[1, 3, 1]),
    (9, &[3, 3, 1]),
    (10, &[1, 2, 1]),
    (11, &[2, 2, 1]),
    (12, &[1, 2, 1]),
    (13, &[2, 2, 1]),
    (14, &[3, 3, 1]),
    (15, &[1, 3, 1]),
];

// The field of 27 elements over that of 3.
static OVER_3: [Row; 27] = [
    (0, &[0, 1]),
    (1, &[2, 1]),
    (2, &[1, 1]),
    (3, &[1, 2, 0, 1]),
    (4, &[1, 2, 0, 1]),
    (5, &[1, 2, 0, 1]),
    (6, &[2, 2, 0, 1]),
    (7, &[2, 2, 0, 1]),
    (8, &[2, 2, 0, 1]),
    (9, &[2, 1, 1, 1]),
    (10, &[1, 2, 1, 1]),
    (11, &[2, 0, 1, 1]),
    (12, &[2, 0, 1, 1]),
    (13, &[2, 1, 1, 1]),
    (14, &[1, 2, 1, 1]),
    (15, &[2, 0, 1, 1]),
    (16, &[2, 1, 1, 1]),
    (17, &[1, 2, 1, 1]),
    (18, &[1, 1, 2, 1]),
    (19, &[1, 0, 2, 1]),
    (20, &[2, 2, 2, 1]),
    (21, &[1, 0, 2, 1]),
    (22, &[2, 2, 2, 1]),
    (23, &[1, 1, 2, 1]),
    (24, &[1, 0, 2, 1]),
    (25, &[2, 2, 2, 1]),
    (26, &[1, 1, 2, 1]),
];

// Whether the minimal polynomial of the element has these coefficients.
fn is_minimal(alloc: Global, large: &Field, small: &Field, row: &Row) -> bool {
    if !large.holds(small) || large.size() <= u16::from(row.0) {
        return false;
    }
    match minimal(alloc, large, small, row.0) {
        Ok(u) => u.coefficients() == row.1,
        Err(NoMemory) => false,
    }
}

// Whether this is so of all rows.
fn all_minimal(alloc: Global, large: &Field, small: &Field, rows: &[Row]) -> bool {
    for row in rows {
        if !is_minimal(alloc, large, small, row) {
            return false;
        }
    }
    true
}

// Whether the minimal polynomials over the field of r elements, in a field, are those of the rows.
fn are_minimal_over(alloc: Global, large: &Field, r: u64, rows: &[Row]) -> bool {
    match Field::of(alloc, r) {
        Ok(small) => all_minimal(alloc, large, &small, rows),
        Err(_refusal) => false,
    }
}

// The same in the field of q elements.
fn are_minimal(alloc: Global, q: u64, r: u64, rows: &[Row]) -> bool {
    match Field::of(alloc, q) {
        Ok(large) => are_minimal_over(alloc, &large, r, rows),
        Err(_refusal) => false,
    }
}

#[test]
fn minimal_polynomials(rt: HostRuntime) {
    assert!(rt; are_minimal(rt.alloc(), 16, 2, &OVER_2));
    assert!(rt; are_minimal(rt.alloc(), 16, 4, &OVER_4));
    assert!(rt; are_minimal(rt.alloc(), 27, 3, &OVER_3));
}

// n, q, i, and the cyclotomic set of i modulo n for q.
static SETS: [(u64, u64, u64, &[u64]); 6] = [
    (15, 2, 1, &[1, 2, 4, 8]),
    (15, 2, 5, &[5, 10]),
    (23, 2, 1, &[1, 2, 3, 4, 6, 8, 9, 12, 13, 16, 18]),
    (255, 2, 7, &[7, 14, 28, 56, 112, 131, 193, 224]),
    (13, 3, 2, &[2, 5, 6]),
    (13, 3, 0, &[0]),
];

// Whether this is the cyclotomic set.
fn is_set(alloc: Global, n: u64, q: u64, i: u64, expected: &[u64]) -> bool {
    if n < 1 || n > 255 || q < 2 || q > 16 || i >= n {
        return false;
    }
    match cyclotomic_set(alloc, n, q, i) {
        Ok(set) => set.as_slice() == expected,
        Err(NoMemory) => false,
    }
}

#[test]
fn cyclotomic_sets(rt: HostRuntime) {
    for row in &SETS {
        let is_right = is_set(rt.alloc(), row.0, row.1, row.2, row.3);
        assert!(rt; is_right, "{} modulo {}", row.2, row.0);
    }
}

// The size of the field, n, a polynomial, and whether it divides x^n - 1.
static GENERATORS: [(u64, usize, &[u8], bool); 3] = [
    (2, 23, &[1, 1, 0, 0, 0, 1, 1, 1, 0, 1, 0, 1], true),
    (3, 11, &[2, 0, 1, 2, 1, 1], true),
    (2, 4, &[1, 1, 1], false),
];

// Whether the polynomial isn't zero, and divides x^n - 1 as is said.
fn divides_or_not(alloc: Global, g: &Poly, field: &Field, n: usize, expected: bool) -> bool
    requires { g.now.field ≡ field.now }
{
    if n < 1 || n > 255 || g.is_zero() {
        return false;
    }
    match x_power_minus_one(alloc, field, n) {
        Ok(whole) => g.divides(alloc, &whole) == Ok(expected),
        Err(NoMemory) => false,
    }
}

// The same for the polynomial of a list.
fn list_divides_or_not(
    alloc: Global,
    field: &Field,
    n: usize,
    list: &[u8],
    expected: bool,
) -> bool {
    if !fits(field, list) {
        return false;
    }
    match Poly::from_list(alloc, field, list) {
        Ok(g) => divides_or_not(alloc, &g, field, n, expected),
        Err(NoMemory) => false,
    }
}

// The same over q elements.
fn is_generator_or_not(alloc: Global, q: u64, n: usize, list: &[u8], expected: bool) -> bool {
    match Field::of(alloc, q) {
        Ok(field) => list_divides_or_not(alloc, &field, n, list, expected),
        Err(_refusal) => false,
    }
}

#[test]
fn generators_divide(rt: HostRuntime) {
    for row in &GENERATORS {
        let is_right = is_generator_or_not(rt.alloc(), row.0, row.1, row.2, row.3);
        assert!(rt; is_right, "at {}", row.1);
    }
}

// Whether the polynomial over a field of more than one element has the coefficients 4, 0 and 2, and the value 1 at 1.
fn is_one_at_one(a: &Poly, field: &Field) -> bool
    requires { a.now.field ≡ field.now }
{
    1 < field.size() && a.coefficients() == [4, 0, 2].as_slice() && a.eval(1) == 1
}

// Whether the product of both has these coefficients.
fn has_product(alloc: Global, a: &Poly, b: &Poly, product: &[u8]) -> bool
    requires { a.now.field ≡ b.now.field }
{
    match a.mul(alloc, b) {
        Ok(found) => found.coefficients() == product,
        Err(NoMemory) => false,
    }
}

// Whether b isn't zero, and the quotient and the remainder of a have these coefficients.
fn has_quotient(alloc: Global, a: &Poly, b: &Poly, quotient: &[u8], remainder: &[u8]) -> bool
    requires { a.now.field ≡ b.now.field }
{
    if b.is_zero() {
        return false;
    }
    match a.divide(alloc, b) {
        Ok((q, r)) => q.coefficients() == quotient && r.coefficients() == remainder,
        Err(NoMemory) => false,
    }
}

// Whether the product, the quotient and the remainder of the polynomial and 1 + 4 x have these coefficients.
fn is_multiplied_and_divided(alloc: Global, field: &Field, a: &Poly) -> bool
    requires { a.now.field ≡ field.now }
{
    let list = [1, 4];
    if !fits(field, &list) {
        return false;
    }
    match Poly::from_list(alloc, field, &list) {
        Ok(b) => {
            has_product(alloc, a, &b, &[4, 1, 2, 3]) && has_quotient(alloc, a, &b, &[3, 3], &[1])
        }
        Err(NoMemory) => false,
    }
}

// Whether the polynomial of this list has these coefficients, the value 1 at 1, and is multiplied and divided so.
fn is_computed_with(alloc: Global, field: &Field) -> bool {
    let list = [4, 0, 2, 0, 0];
    if !fits(field, &list) {
        return false;
    }
    match Poly::from_list(alloc, field, &list) {
        Ok(a) => is_one_at_one(&a, field) && is_multiplied_and_divided(alloc, field, &a),
        Err(NoMemory) => false,
    }
}

// The same over 5 elements.
fn is_computed(alloc: Global) -> bool {
    match Field::of(alloc, 5) {
        Ok(field) => is_computed_with(alloc, &field),
        Err(_refusal) => false,
    }
}

#[test]
fn products_and_quotients(rt: HostRuntime) {
    assert!(rt; is_computed(rt.alloc()));
}
