//! Codes over each field whose rows a rule makes.
use lc_code::{Code, CodeRefusal};
use lc_field::{Field, NoMemory};
use lc_vec::Word;
use std::alloc::Global;
use test_rows::code_of;

// What the columns after an identity matrix are: numbers of a sequence; such numbers in columns 0, 1, 31 and 63 of each
// 64 and in the last one, and else zero; or nonzero multiples of the columns of the identity matrix.
#[derive(Clone, Copy, PartialEq)]
pub(crate) enum Columns {
    Dense,
    Sparse,
    Repeated,
}

// Rows of this length that begin with the identity matrix of this dimension, or of the length if that is less.
#[derive(Clone, Copy)]
pub(crate) struct Shape {
    pub(crate) length: usize,
    pub(crate) dimension: usize,
    pub(crate) columns: Columns,
}

// The next number of the sequence: 1,664,525 times this one, and 1,013,904,223, modulo 2^32.
fn next(number: u32) -> u32 {
    number.wrapping_mul(1_664_525).wrapping_add(1_013_904_223)
}

// Whether sparse columns have numbers at the column `at` of so many after the identity matrix.
fn is_filled(at: usize, many: usize) -> bool {
    at.saturating_add(1) == many || matches!(at % 64, 0 | 1 | 31 | 63)
}

// The symbol of row i at a column, by the upper half of a number of the sequence.
fn symbol(field: &Field, shape: &Shape, i: usize, column: usize, number: u32) -> u8 {
    let k = shape.dimension.max(1);
    if column < k {
        return u8::from(column == i);
    }
    let filled = match shape.columns {
        Columns::Dense => true,
        Columns::Sparse => is_filled(column - k, shape.length.saturating_sub(k)),
        Columns::Repeated => column % k == i,
    };
    if !filled {
        return 0;
    }
    if shape.columns == Columns::Repeated {
        return (1 + column / k % (field.size() as usize - 1)) as u8;
    }
    ((number >> 16) % u32::from(field.size())) as u8
}

// Row i of a code, from a number of the sequence, which goes on with it.
fn row(
    alloc: Global,
    field: &Field,
    shape: &Shape,
    i: usize,
    number: &mut u32,
) -> Result<Word, NoMemory> {
    let mut symbols = Vec::with_capacity(alloc, shape.length)?;
    for column in 0..shape.length {
        *number = next(*number);
        symbols.push(symbol(field, shape, i, column, *number))?;
    }
    Ok(Word::from_vec(symbols))
}

// The rows of a code. The sequence begins with the length.
pub(crate) fn rows(alloc: Global, field: &Field, shape: &Shape) -> Result<Vec<Word>, NoMemory> {
    let mut words = Vec::new(alloc);
    let mut number = (shape.length % 256) as u32;
    for i in 0..shape.dimension.min(shape.length) {
        words.push(row(alloc, field, shape, i, &mut number)?)?;
    }
    Ok(words)
}

// The rows of a shape over q elements.
fn rows_over(alloc: Global, q: u64, shape: &Shape) -> Result<Vec<Word>, NoMemory> {
    match Field::of(alloc, q) {
        Ok(field) => rows(alloc, &field, shape),
        Err(_refusal) => Err(NoMemory),
    }
}

// The code of this shape over q elements.
pub(crate) fn shaped(alloc: Global, q: u64, shape: &Shape) -> Result<Code, CodeRefusal> {
    match rows_over(alloc, q, shape) {
        Ok(words) => code_of(alloc, q, shape.length, &words),
        Err(NoMemory) => Err(CodeRefusal::NoMemory),
    }
}

// A field, a dimension at which all messages are few, one at which a level has several blocks, the first such level, and what the
// columns are then.
pub(crate) struct Over {
    pub(crate) q: u64,
    pub(crate) small: usize,
    pub(crate) dimension: usize,
    pub(crate) level: usize,
    pub(crate) columns: Columns,
}

// In characteristic 2, in characteristic 3, and over other primes.
pub(crate) static FIELDS: [Over; 10] = [
    Over {
        q: 2,
        small: 8,
        dimension: 16,
        level: 5,
        columns: Columns::Dense,
    },
    Over {
        q: 4,
        small: 4,
        dimension: 8,
        level: 5,
        columns: Columns::Dense,
    },
    Over {
        q: 8,
        small: 4,
        dimension: 6,
        level: 4,
        columns: Columns::Sparse,
    },
    Over {
        q: 16,
        small: 4,
        dimension: 5,
        level: 4,
        columns: Columns::Sparse,
    },
    Over {
        q: 3,
        small: 5,
        dimension: 11,
        level: 5,
        columns: Columns::Dense,
    },
    Over {
        q: 9,
        small: 4,
        dimension: 6,
        level: 4,
        columns: Columns::Sparse,
    },
    Over {
        q: 5,
        small: 4,
        dimension: 7,
        level: 5,
        columns: Columns::Dense,
    },
    Over {
        q: 7,
        small: 4,
        dimension: 6,
        level: 5,
        columns: Columns::Sparse,
    },
    Over {
        q: 11,
        small: 4,
        dimension: 5,
        level: 4,
        columns: Columns::Sparse,
    },
    Over {
        q: 13,
        small: 4,
        dimension: 5,
        level: 4,
        columns: Columns::Sparse,
    },
];
