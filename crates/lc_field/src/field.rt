//! A field and its arithmetic.
ghost use Rattle.std.specs.Prelude.{◌≡◌, ◌≢◌, ◌↔◌, ℕ, ◌-◌, ◌<◌, ◌≤◌, IfOk, IfSome, IsNone, IsTrue, length, slice_index};
ghost use Rattle.std.specs.Result.{IsErrOf};
ghost use Rattle.lc_algebra.specs.declared.FieldName.{FieldName};
ghost use Rattle.lc_algebra.specs.Field.{shape_of, size, add, neg, mul, pow, IsInverse};
ghost use Rattle.lc_algebra.specs.Field.{is_symbol};
ghost use Rattle.lc_field.specs.Rows.{IsRow};
ghost use Rattle.lc_algebra.specs.Residue.{digits};
ghost use Rattle.lc_algebra.specs.Polynomial.{value_at};
ghost use Rattle.lc_algebra.specs.Embedding.{IsSubfield, root, embed};
ghost use Rattle.lc_field.specs.declared.refusal.FieldRefusal.TheVariants as refusal;

use crate::logarithms::{Logarithms, copied};
use crate::pairs::{products_of, sums_of};
use crate::refusal::{FieldRefusal, NoMemory};
use crate::roots::root_by_size;
use crate::row::{Row, row_of};
use std::alloc::Global;
use std::marker::Model;

/// One of the eighteen fields of at most 256 elements, with the tables of its arithmetic.
///
/// Contracts see it as its name, a `FieldName` of `lc_algebra`. An element is a number below the size: the digits of the
/// number, in the base of the characteristic and the lowest first, are the coefficients of a polynomial, and sums and products are
/// those of polynomials modulo the field's polynomial (MacWilliams and Sloane, The Theory of Error-Correcting Codes, chapter 4).
#[derive(Drop)]
pub struct Field {
    row: Row,
    logarithms: Logarithms,
    sums: Vec<u8>,
    products: Vec<u8>,
}

impl Model for Field {
    ghost use Rattle.lc_algebra.specs.declared.FieldName.{FieldName};
    ghost use Rattle.lc_field.specs.Rows.{IsKept};

    ghost Value = { FieldName };

    ghost view = { λ f. f.row.name };

    ghost invariant = { λ f. IsKept f.row f.logarithms f.sums.items f.products.items };
}

impl Field {
    /// The field of `q` elements, with its tables. Refused with `NotAField` exactly if `q` is none of
    /// 2, 3, 4, 5, 7, 8, 9, 11, 13, 16, 25, 27, 32, 64, 81, 128, 243 and 256.
    pub fn of(alloc: Global, q: u64) -> Result<Field, FieldRefusal>
        ensures size { IfOk result (λ f. size f ≡ q) }
        ensures refused { IsErrOf result refusal.NotAField ↔ ((f : FieldName) → size f ≢ q) }
    {
        match row_of(q) {
            Some(row) => Ok(Field::from_row(alloc, row)?),
            None => Err(FieldRefusal::NotAField),
        }
    }

    fn from_row(alloc: Global, row: Row) -> Result<Field, NoMemory>
        requires row { IsRow row }
        ensures { IfOk result (λ f. f ≡ row.name) }
    {
        let logarithms = Logarithms::make(alloc, &row)?;
        let sums = if row.characteristic == 2 {
            Vec::new(alloc)
        } else {
            sums_of(alloc, &row)?
        };
        let products = if row.size <= 16 {
            products_of(alloc, &row, &logarithms)?
        } else {
            Vec::new(alloc)
        };
        Ok(Field {
            row,
            logarithms,
            sums,
            products,
        })
    }

    /// The same field, with tables of its own.
    pub fn copy(&self, alloc: Global) -> Result<Field, NoMemory>
        ensures same { IfOk result (λ f. f ≡ self.now) }
    {
        Ok(Field {
            row: self.row,
            logarithms: self.logarithms.copy(alloc)?,
            sums: copied(alloc, &self.sums)?,
            products: copied(alloc, &self.products)?,
        })
    }

    /// The number of elements, 2 to 256.
    pub fn size(&self) -> u16
        ensures is { result ≡ size self.now }
        ensures least { 1 < result }
        ensures most { result ≤ 256 }
    {
        self.row.size
    }

    /// The characteristic: the prime number of ones whose sum is 0.
    pub fn characteristic(&self) -> u8
        ensures is { result ≡ (shape_of self.now).characteristic }
        ensures least { 1 < result }
        ensures most { result ≤ size self.now }
    {
        self.row.characteristic
    }

    /// The number of coefficients of an element: the size is the characteristic to this power.
    pub fn degree(&self) -> u8
        ensures is { result ≡ (shape_of self.now).degree }
    {
        self.row.degree
    }

    /// Whether words may be written over the field: at most 16 elements.
    #[tactic(auto, unfolding(lc_algebra::specs::Field::is_symbol))]
    pub fn is_symbol(&self) -> bool
        ensures is { result ≡ is_symbol self.now }
    {
        self.row.size <= 16
    }

    /// The chosen primitive element: its powers are all nonzero elements.
    pub fn primitive(&self) -> u8
        ensures is { result ≡ (shape_of self.now).primitive }
        ensures below { result < size self.now }
        ensures nonzero { 0 < result }
    {
        self.row.primitive
    }

    /// The sum of two elements, each below the size.
    #[inline]
    #[tactic(auto, using(crate::proofs::SumLaws::add_laws))]
    pub fn add(&self, a: u8, b: u8) -> u8
        requires first { a < size self.now }
        requires second { b < size self.now }
        ensures is { result ≡ add self.now a b }
        ensures below { result < size self.now }
    {
        if self.row.characteristic == 2 {
            return a ^ b;
        }
        self.sums[a as usize * self.row.size as usize + b as usize]
    }

    /// The product of two elements, each below the size.
    #[inline]
    #[tactic(auto, using(lc_algebra::proofs::FieldLaws::mul_inside))]
    pub fn mul(&self, a: u8, b: u8) -> u8
        requires first { a < size self.now }
        requires second { b < size self.now }
        ensures is { result ≡ mul self.now a b }
        ensures below { result < size self.now }
    {
        if self.row.size <= 16 {
            return self.products[a as usize * self.row.size as usize + b as usize];
        }
        self.logarithms.mul(a, b)
    }

    /// The products of an element `c` of a symbol field with all elements, in their order: entry a is c times a. It scales a
    /// word by one look-up a symbol.
    #[inline]
    #[tactic(auto, unfolding(lc_algebra::specs::Field::is_symbol))]
    pub fn products_of(&self, c: u8) -> &[u8]
        requires symbol { IsTrue (is_symbol self.now) }
        requires element { c < size self.now }
        ensures length { length result.now ≡ size self.now }
        ensures entries { (a : ℕ) → a < size self.now → slice_index result.now a ≡ mul self.now c a }
        ensures below { (a : ℕ) → a < size self.now → slice_index result.now a < size self.now }
    {
        let elements = self.row.size as usize;
        let start = c as usize * elements;
        &self.products[start..start + elements]
    }

    /// The negative of an element below the size.
    #[inline]
    #[tactic(auto, using(crate::proofs::SumLaws::neg_laws))]
    pub fn neg(&self, a: u8) -> u8
        requires element { a < size self.now }
        ensures is { result ≡ neg self.now a }
        ensures below { result < size self.now }
    {
        if self.row.characteristic == 2 {
            return a;
        }
        self.mul(self.row.characteristic - 1, a)
    }

    /// An element below the size, to a power; the zeroth power is 1, also that of 0.
    pub fn pow(&self, a: u8, e: u64) -> u8
        requires element { a < size self.now }
        ensures is { result ≡ pow self.now a e }
        ensures below { result < size self.now }
    {
        self.logarithms.pow(a, e)
    }

    /// The inverse of a nonzero element below the size: the element whose product with `a` is 1.
    #[inline]
    #[tactic(auto, using(lc_algebra::proofs::FieldLaws::inverse_nonzero))]
    pub fn inv(&self, a: u8) -> u8
        requires element { a < size self.now }
        requires nonzero { 0 < a }
        ensures is { IsInverse self.now a result }
        ensures below { result < size self.now }
        ensures nonzero { 0 < result }
    {
        self.logarithms.inv(a)
    }

    /// Whether `small` lies in this field: the characteristics are equal, and this degree is a multiple of that one.
    pub fn holds(&self, small: &Field) -> bool
        ensures is { IsTrue result ↔ IsSubfield small.now self.now }
    {
        self.row.characteristic == small.row.characteristic
            && self.row.degree % small.row.degree == 0
    }

    /// The element of this field that is the element `a` of the subfield `small`: the value of the polynomial of `a` at the
    /// least-numbered zero that the polynomial of `small` has here.
    #[tactic(auto, using(crate::proofs::RootLaws::embed_is))]
    pub fn embed(&self, small: &Field, a: u8) -> u8
        requires subfield { IsSubfield small.now self.now }
        requires element { a < size small.now }
        ensures is { result ≡ embed small.now self.now a }
        ensures below { result < size self.now }
    {
        self.value_at(small.row.degree, a, self.root_of(small))
    }

    /// The element of the subfield `small` that is embedded as the element `b`; None exactly if there is none.
    pub fn unembed(&self, small: &Field, b: u8) -> Option<u8>
        requires subfield { IsSubfield small.now self.now }
        requires element { b < size self.now }
        ensures some { IfSome result (λ a. (a < size small.now) × (embed small.now self.now a ≡ b)) }
        ensures none { IsNone result ↔ ((a : ℕ) → a < size small.now → embed small.now self.now a ≢ b) }
    {
        for a in 0..small.row.size {
            if self.embed(small, a as u8) == b {
                return Some(a as u8);
            }
        }
        None
    }

    // The least-numbered zero in this field of the polynomial of the field `small`.
    #[tactic(auto, using(crate::proofs::RootLaws::root_is, crate::proofs::RootLaws::root_below))]
    fn root_of(&self, small: &Field) -> u8
        requires subfield { IsSubfield small.now self.now }
        ensures is { result ≡ root small.now self.now }
        ensures below { result < size self.now }
    {
        root_by_size(
            small.row.degree,
            self.row.degree,
            small.row.size,
            self.row.characteristic,
        )
    }

    // The value at x of the polynomial of a, of degree below s.
    #[tactic(auto, using(crate::proofs::RootLaws::value_none, crate::proofs::RootLaws::value_step))]
    fn value_at(&self, s: u8, a: u8, x: u8) -> u8
        requires element { x < size self.now }
        ensures is { result ≡ value_at self.now (digits (shape_of self.now).characteristic s a) x }
        ensures below { result < size self.now }
    {
        if s == 0 {
            return 0;
        }
        let p = self.row.characteristic;
        self.add(a % p, self.mul(x, self.value_at(s - 1, a / p, x)))
    }
}

// Proved only where its argument may go to another thread and be shared with it.
fn crosses_threads<T: Send + Sync>(_value: &T) {}

// A field is `Send` and `Sync`.
fn field_crosses_threads(field: &Field) {
    crosses_threads(field);
}
