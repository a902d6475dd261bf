//! The benches, by their names.

/// What is measured.
#[derive(Clone, Copy, Drop)]
pub enum Bench {
    /// adding multiples of a word of 255 symbols over the field of this size
    AddScaled(u64),
    /// reduced echelon forms of a matrix of 128 rows of 255 symbols over the field of this size
    Echelon(u64),
    /// the information sets of a code of length 255 and dimension 128 over the field of this size
    Infosets(u64),
    /// the BCH code of length 255 over the field of this size, with this design distance
    Bch(u64, u64),
    /// the direct product of a code of length 15 with itself
    Product,
    /// a concatenated code of length 255
    Concatenated,
    /// the messages of weight 5 and length 45 over 2 elements
    StepBinary,
    /// the messages of weight 4 and length 20 over 4 elements
    StepQuaternary,
    /// the least words of the blocks of a level: the size of the field, the length and the dimension of a code, and the
    /// level
    Least(u64, usize, usize, usize),
    /// going from message to message of level 4 with a stack: the size of the field, and the length of a code of
    /// dimension 32
    Stack(u64, usize),
    /// nearest words by error patterns: the size of the field, the length and the dimension of a code
    Near(u64, usize, usize),
    /// counting the words of a code of length 64 by their weights: the size of the field, and the dimension
    Count(u64, usize),
    /// the innermost loop of the kernel alone, over long runs, for symbols of this many bits
    Limit(u32),
    /// a decoder
    Decoder(Decoder),
    /// a search
    Search(Searches),
    /// a script of 95,325 statements, 1,048,575 bytes
    ParseWeights,
    /// a script of one statement, a list of 255 lists of 255 numbers
    ParseMatrix,
}

/// What is measured of decoders.
#[derive(Clone, Copy, Drop)]
pub enum Decoder {
    /// the coset leaders of a binary code of length 255 with 2^20 cosets
    Leaders,
    /// nearest words by these leaders
    Nearest,
    /// the algebraic decoder of a BCH code: the size of the field, the length and the design distance
    Algebraic(u64, u64, u64),
}

/// What is measured of searches.
#[derive(Clone, Copy, Drop)]
pub enum Searches {
    /// rounds of searches: the length and the dimension of a binary code, and the workers, each of which has a block
    Rounds(usize, usize, u32),
    /// the search of the BCH code of length 63 and dimension 36 with this many workers
    Whole(u32),
}

/// The benches with their names.
pub static BENCHES: [(&str, Bench); 73] = [
    ("add_scaled_2", Bench::AddScaled(2)),
    ("add_scaled_3", Bench::AddScaled(3)),
    ("add_scaled_4", Bench::AddScaled(4)),
    ("add_scaled_16", Bench::AddScaled(16)),
    ("echelon_2", Bench::Echelon(2)),
    ("echelon_3", Bench::Echelon(3)),
    ("echelon_4", Bench::Echelon(4)),
    ("echelon_16", Bench::Echelon(16)),
    ("infosets_2", Bench::Infosets(2)),
    ("infosets_16", Bench::Infosets(16)),
    ("bch_2_31", Bench::Bch(2, 31)),
    ("bch_2_127", Bench::Bch(2, 127)),
    ("bch_16_127", Bench::Bch(16, 127)),
    ("product_15", Bench::Product),
    ("concatenated_255", Bench::Concatenated),
    ("step_2", Bench::StepBinary),
    ("step_4", Bench::StepQuaternary),
    ("kernel_2", Bench::Least(2, 80, 40, 5)),
    ("kernel_2_63", Bench::Least(2, 63, 45, 6)),
    ("kernel_2_79", Bench::Least(2, 79, 40, 6)),
    ("kernel_2_127", Bench::Least(2, 127, 36, 7)),
    ("kernel_2_192", Bench::Least(2, 192, 36, 6)),
    ("kernel_2_255", Bench::Least(2, 255, 36, 6)),
    ("kernel_3", Bench::Least(3, 40, 20, 6)),
    ("kernel_4", Bench::Least(4, 30, 15, 5)),
    ("kernel_5", Bench::Least(5, 24, 8, 5)),
    ("kernel_7", Bench::Least(7, 24, 8, 5)),
    ("kernel_8", Bench::Least(8, 24, 8, 5)),
    ("kernel_9", Bench::Least(9, 24, 8, 5)),
    ("kernel_11", Bench::Least(11, 24, 8, 5)),
    ("kernel_13", Bench::Least(13, 24, 8, 5)),
    ("kernel_16", Bench::Least(16, 30, 15, 4)),
    ("stack_2", Bench::Stack(2, 64)),
    ("stack_2_255", Bench::Stack(2, 255)),
    ("stack_3", Bench::Stack(3, 64)),
    ("stack_3_255", Bench::Stack(3, 255)),
    ("stack_4", Bench::Stack(4, 64)),
    ("stack_4_255", Bench::Stack(4, 255)),
    ("stack_8", Bench::Stack(8, 64)),
    ("stack_8_255", Bench::Stack(8, 255)),
    ("stack_16", Bench::Stack(16, 64)),
    ("stack_16_255", Bench::Stack(16, 255)),
    ("kernel_3_81", Bench::Least(3, 81, 27, 6)),
    ("kernel_4_60", Bench::Least(4, 60, 20, 6)),
    ("kernel_4_90", Bench::Least(4, 90, 30, 6)),
    ("kernel_16_60", Bench::Least(16, 60, 30, 4)),
    ("kernel_3_120", Bench::Least(3, 120, 20, 5)),
    ("kernel_4_115", Bench::Least(4, 115, 15, 4)),
    ("kernel_5_98", Bench::Least(5, 98, 8, 5)),
    ("near_2", Bench::Near(2, 127, 36)),
    ("near_3", Bench::Near(3, 81, 27)),
    ("near_4", Bench::Near(4, 90, 30)),
    ("near_16", Bench::Near(16, 60, 30)),
    ("count_2", Bench::Count(2, 24)),
    ("count_3", Bench::Count(3, 15)),
    ("count_4", Bench::Count(4, 12)),
    ("count_9", Bench::Count(9, 7)),
    ("count_16", Bench::Count(16, 6)),
    ("limit_1", Bench::Limit(1)),
    ("limit_2", Bench::Limit(2)),
    ("limit_3", Bench::Limit(3)),
    ("limit_4", Bench::Limit(4)),
    ("leaders_2", Bench::Decoder(Decoder::Leaders)),
    ("nearest_2", Bench::Decoder(Decoder::Nearest)),
    ("decode_16", Bench::Decoder(Decoder::Algebraic(16, 15, 7))),
    ("decode_256", Bench::Decoder(Decoder::Algebraic(2, 255, 31))),
    ("rounds_1", Bench::Search(Searches::Rounds(255, 8, 1))),
    ("rounds_4", Bench::Search(Searches::Rounds(80, 40, 4))),
    ("workers_1", Bench::Search(Searches::Whole(1))),
    ("workers_2", Bench::Search(Searches::Whole(2))),
    ("workers_4", Bench::Search(Searches::Whole(4))),
    ("parse_weights", Bench::ParseWeights),
    ("parse_matrix", Bench::ParseMatrix),
];

/// The bench with a name, if there is one.
pub fn bench_named(word: &str) -> Option<Bench> {
    for row in &BENCHES {
        if word == row.0 {
            return Some(row.1);
        }
    }
    None
}
