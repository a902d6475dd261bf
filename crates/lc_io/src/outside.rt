// What a source and a sink promise, and the two ways in which a call of this crate is refused.
ghost use Rattle.std.specs.Prelude.{◌≡◌, ◌<◌, ◌≤◌, ℕ, List, length, take, Option, IfOk, OnErr, MatchResult};
ghost use Rattle.std.specs.Io.KnownBytes.{Consumes, Appends, Keeps, IsAtEnd};
ghost use Rattle.lc_io.specs.Outside.{HasRisen};

use std::alloc::{AllocError, AllocFailed};

/// The answer of a call of a source or a sink that failed. The count of faults says that it did.
#[derive(Clone, Copy, Debug, PartialEq, Eq, Drop)]
pub struct Failed;

/// The answer if memory was refused.
#[derive(Clone, Copy, Debug, PartialEq, Eq, Drop)]
pub struct NoMemory;

impl From<AllocError> for NoMemory {
    fn from(_: AllocError) -> Self {
        NoMemory
    }
}

impl<T: Drop> From<AllocFailed<T>> for NoMemory {
    fn from(_: AllocFailed<T>) -> Self {
        NoMemory
    }
}

/// Where bytes come from.
pub trait Source {
    /// The bytes still to come, if the source discloses them. One that does always does.
    ghost rest: { Self → Option (List ℕ) };

    /// How often the source has failed. It never falls.
    ghost faults: { Self → ℕ };

    /// Writes the next bytes to the front of `buf`, and answers how many: at most its length, and
    /// for a nonempty `buf` 0 only at the end of the input. What is after them in `buf` may
    /// be anything. A call that fails takes no byte and leaves `buf` as it was.
    fn read(&mut self, buf: &mut [u8]) -> Result<usize, Failed>
        ensures bound { IfOk result (λ n. n ≤ length buf.old) }
        ensures gave { IfOk result
            (λ n. Consumes (rest self.old) (rest self.new) (take n buf.new)) }
        ensures end { IfOk result (λ n. n ≡ 0 → 0 < length buf.old → IsAtEnd (rest self.new)) }
        ensures failed { OnErr result (Keeps (rest self.old) (rest self.new)) }
        ensures untouched { OnErr result (buf.new ≡ buf.old) }
        ensures count { MatchResult result (λ _. faults self.new ≡ faults self.old)
            (λ _. HasRisen (faults self.old) (faults self.new)) };
}

/// Where bytes go.
pub trait Sink {
    /// The bytes taken, if the sink discloses them. One that does always does.
    ghost written: { Self → Option (List ℕ) };

    /// How often the sink has failed. It never falls.
    ghost faults: { Self → ℕ };

    /// Takes a front of `buf`, and answers how many bytes that was: at least one, unless `buf` is
    /// empty. A call that fails takes no byte.
    fn write(&mut self, buf: &[u8]) -> Result<usize, Failed>
        ensures bound { IfOk result (λ n. n ≤ length buf.now) }
        ensures some { IfOk result (λ n. 0 < length buf.now → 0 < n) }
        ensures took { IfOk result
            (λ n. Appends (written self.old) (written self.new) (take n buf.now)) }
        ensures failed { OnErr result (Keeps (written self.old) (written self.new)) }
        ensures count { MatchResult result (λ _. faults self.new ≡ faults self.old)
            (λ _. HasRisen (faults self.old) (faults self.new)) };
}
