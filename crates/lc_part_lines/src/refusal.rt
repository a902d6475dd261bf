//! Why bytes are no line of a part.
ghost use Rattle.std.specs.Prelude.{◌≡◌};
ghost use Rattle.lc_formats.specs.Checkpoint.{checkpoint_refusal_number};
ghost use Rattle.lc_part_lines.specs.Seen.{refusal_of};

/// Why bytes are no line of a part.
#[derive(Clone, Copy, Debug, PartialEq, Eq, Drop)]
pub enum LineRefusal {
    /// There are fewer than 65 bytes, or they don't begin with the seal of the rest and a blank.
    Damaged,
    /// The version of the body, which isn't 1.
    Version(u64),
    /// The body is no JSON object with a version, a key is missing or foreign, or a value is out of range.
    Shape,
}

impl LineRefusal {
    /// The number of the refusal, which is that of a checkpoint: 20 for `Damaged`, 21 for `Version`, 22 for `Shape`.
    #[tactic(auto, unfolding(crate::proofs::Opened::numbers_of_refusals))]
    pub fn number(&self) -> u8
        ensures is { result ≡ checkpoint_refusal_number (refusal_of self.now) }
    {
        match self {
            LineRefusal::Damaged => 20,
            LineRefusal::Version(_) => 21,
            LineRefusal::Shape => 22,
        }
    }
}
