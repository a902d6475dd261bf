//! The planes of the sum of two words, from those of the words: many symbols at once, by the bits of their numbers.

ghost use Rattle.std.specs.Prelude.{◌≡◌, ℕ, ◌<◌, ◌≤◌, slice_index, bit_and, bit_or, bit_xor};
ghost use Rattle.lc_algebra.specs.declared.FieldName.{FieldName};
ghost use Rattle.lc_algebra.specs.Field.{size};
ghost use Rattle.lc_distances.specs.Planes.{IsPlaneSum, sum_bit, sum_carry, trit_sum, digit_planes};

use lc_field::Field;

/// The planes of the sum of two words, from the planes of these, for 64 symbols over a field of at most 16 elements. If the
/// first n planes of both are given, n at most 4 and the field of at most 2^n elements, then the result has the first n planes
/// of their sum; what the others hold doesn't matter.
#[inline]
pub fn sum_planes(field: &Field, u: &[u64; 4], v: &[u64; 4]) -> [u64; 4]
    requires symbol { size field.now ≤ 16 }
    ensures is { IsPlaneSum field.now u.now v.now result }
{
    if field.characteristic() == 2 {
        return sum_even(u, v);
    }
    let size = field.size();
    if size == 3 {
        return sum_three(u, v);
    }
    if size == 5 {
        return sum_five(u, v);
    }
    if size == 7 {
        return sum_seven(u, v);
    }
    if size == 9 {
        return sum_nine(u, v);
    }
    if size == 11 {
        return sum_eleven(u, v);
    }
    sum_thirteen(u, v)
}

// The same in characteristic 2.
#[inline]
fn sum_even(u: &[u64; 4], v: &[u64; 4]) -> [u64; 4]
    ensures is { (j : ℕ) → j < 4 → slice_index result j ≡ bit_xor (slice_index u.now j) (slice_index v.now j) }
{
    [u[0] ^ v[0], u[1] ^ v[1], u[2] ^ v[2], u[3] ^ v[3]]
}

// Plane 0 or 1 of a sum over 3 elements: a and c are the same plane of the two words, b and d the other one.
fn trits(a: u64, b: u64, c: u64, d: u64) -> u64
    ensures is { result ≡ trit_sum a b c d }
{
    (b | d) ^ ((a | d) ^ (b | c))
}

// The same over 3 elements.
#[inline]
fn sum_three(u: &[u64; 4], v: &[u64; 4]) -> [u64; 4]
    ensures is { (f : FieldName) → size f ≡ 3 → IsPlaneSum f u.now v.now result }
{
    let low = trits(u[0], u[1], v[0], v[1]);
    let high = trits(u[1], u[0], v[1], v[0]);
    [low, high, 0, 0]
}

// The sum of three bits at each place: its low bit, and what it carries.
#[inline]
fn sum_bits(a: u64, b: u64, c: u64) -> (u64, u64)
    ensures low { result.0 ≡ bit_xor (bit_xor a b) c }
    ensures carried { result.1 ≡ bit_or (bit_and a b) (bit_and (bit_xor a b) c) }
{
    ((a ^ b) ^ c, (a & b) | ((a ^ b) & c))
}

// The lowest three bits of the sum of two numbers at each place, and what they carry.
#[inline]
fn sum_low(u: &[u64; 4], v: &[u64; 4]) -> (u64, u64, u64, u64)
    ensures one { result.0 ≡ sum_bit 0 u.now v.now }
    ensures two { result.1 ≡ sum_bit 1 u.now v.now }
    ensures four { result.2 ≡ sum_bit 2 u.now v.now }
    ensures carried { result.3 ≡ sum_carry 3 u.now v.now }
{
    let (one, first) = sum_bits(u[0], v[0], 0);
    let (two, second) = sum_bits(u[1], v[1], first);
    let (four, third) = sum_bits(u[2], v[2], second);
    (one, two, four, third)
}

// The same over 5 elements: the sum of the numbers, and if that is at least 5, then 3 more without the eights.
fn sum_five(u: &[u64; 4], v: &[u64; 4]) -> [u64; 4]
    ensures is { (f : FieldName) → size f ≡ 5 → IsPlaneSum f u.now v.now result }
{
    let (one, two, four, third) = sum_low(u, v);
    let over = third | (four & (two | one));
    let carry = over & (two | one);
    [one ^ over, (two ^ over) ^ (one & over), four ^ carry, 0]
}

// The same over 7 elements: the sum of the numbers, and if that is at least 8, then 1 more without the eights; 7 is 0.
fn sum_seven(u: &[u64; 4], v: &[u64; 4]) -> [u64; 4]
    ensures is { (f : FieldName) → size f ≡ 7 → IsPlaneSum f u.now v.now result }
{
    let (one, two, four, over) = sum_low(u, v);
    let low = one ^ over;
    let middle = two ^ (one & over);
    let high = four ^ (two & (one & over));
    let seven = low & (middle & high);
    [low ^ seven, middle ^ seven, high ^ seven, 0]
}

// The same over 11 elements: the sum of the numbers, and if that is at least 11, then 5 more without the sixteens.
fn sum_eleven(u: &[u64; 4], v: &[u64; 4]) -> [u64; 4]
    ensures is { (f : FieldName) → size f ≡ 11 → IsPlaneSum f u.now v.now result }
{
    let (one, two, four, third) = sum_low(u, v);
    let (eight, fourth) = sum_bits(u[3], v[3], third);
    let over = fourth | (eight & (four | (two & one)));
    let carry = two & (one & over);
    let last = (four & over) | carry;
    [
        one ^ over,
        two ^ (one & over),
        (four ^ over) ^ carry,
        eight ^ last,
    ]
}

// The same over 13 elements: the sum of the numbers, and if that is at least 13, then 3 more without the sixteens.
fn sum_thirteen(u: &[u64; 4], v: &[u64; 4]) -> [u64; 4]
    ensures is { (f : FieldName) → size f ≡ 13 → IsPlaneSum f u.now v.now result }
{
    let (one, two, four, third) = sum_low(u, v);
    let (eight, fourth) = sum_bits(u[3], v[3], third);
    let over = fourth | ((eight & four) & (two | one));
    let carry = over & (two | one);
    [
        one ^ over,
        (two ^ over) ^ (one & over),
        four ^ carry,
        eight ^ (four & carry),
    ]
}

// Where the digits to the base 3 of the symbols over 9 elements are 1 and 2: the low ones, and then the high ones.
fn digits(x: &[u64; 4]) -> [u64; 4]
    ensures is { result ≡ digit_planes (slice_index x.now 0) (slice_index x.now 1) (slice_index x.now 2)
        (slice_index x.now 3) }
{
    let six = x[1] & x[2];
    let three = (x[2] | (x[0] & x[1])) ^ six;
    let odd = x[1] & (x[0] | x[2]);
    let two = x[3] | ((x[1] ^ odd) | ((x[0] & x[2]) ^ (x[0] & six)));
    [(x[0] ^ x[2]) ^ odd, two, three, x[3] | six]
}

// The same over 9 elements: the sums of the digits to the base 3.
fn sum_nine(u: &[u64; 4], v: &[u64; 4]) -> [u64; 4]
    ensures is { (f : FieldName) → size f ≡ 9 → IsPlaneSum f u.now v.now result }
{
    let x = digits(u);
    let y = digits(v);
    let one = trits(x[0], x[1], y[0], y[1]);
    let two = trits(x[1], x[0], y[1], y[0]);
    let three = trits(x[2], x[3], y[2], y[3]);
    let six = trits(x[3], x[2], y[3], y[2]);
    let low = one ^ three;
    let middle = (two ^ six) ^ (three ^ (three & one));
    let high = (three & (one | two)) | (six ^ (two & six));
    [low, middle, high, two & six]
}
