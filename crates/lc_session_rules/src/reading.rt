//! What a session reads: a script, a certificate, or the lines of parts.
ghost use Rattle.std.specs.Prelude.{◌≡◌, ◌+◌, ◌≤◌, length, IfOk, OnOk};
ghost use Rattle.std.specs.Result.{IsErrOf};
ghost use Rattle.std.specs.Io.KnownBytes.{Consumes, IsAtEnd};
ghost use Rattle.lc_io.specs.Outside.{HasRisen, GaveFront, GaveLess, GaveSome};
ghost use Rattle.lc_session_rules.specs.Session.{most_bytes, GaveTooMuch};

use lc_io::{ReadRefusal, Source, read_to_limit};
use std::alloc::Global;

/// Why nothing was read.
#[derive(Drop)]
pub enum InputRefusal {
    /// A read failed.
    Failed,
    /// The source gave more than 1,048,576 bytes.
    TooLong,
    /// Memory was refused.
    NoMemory,
}

// The most bytes that are read.
const MOST_BYTES: usize = 1_048_576;

/// All that the source gives, unless that is more than 1,048,576 bytes, which is as much as a script may have. Fails if a read
/// fails or memory runs out.
pub fn input<S: Source>(alloc: Global, source: &mut S) -> Result<Vec<u8>, InputRefusal>
    ensures given { IfOk result (λ bytes. Consumes (S.rest source.old) (S.rest source.new) bytes.items) }
    ensures within { IfOk result (λ bytes. length bytes.items ≤ most_bytes) }
    ensures ended { OnOk result (IsAtEnd (S.rest source.new)) }
    ensures too_long { IsErrOf result InputRefusal.TooLong → GaveTooMuch (S.rest source.old) (S.rest source.new) }
    ensures failed { IsErrOf result InputRefusal.Failed → HasRisen (S.faults source.old) (S.faults source.new) }
    ensures before { IsErrOf result InputRefusal.Failed →
        GaveLess (S.rest source.old) (S.rest source.new) (most_bytes + 1) }
    ensures front { IsErrOf result InputRefusal.NoMemory →
        GaveFront (S.rest source.old) (S.rest source.new) (most_bytes + 1) }
    ensures kept { IsErrOf result InputRefusal.NoMemory →
        GaveSome (S.rest source.old) (S.rest source.new) (most_bytes + 1) }
    ensures count { (IsErrOf result InputRefusal.Failed → ⊥) → S.faults source.new ≡ S.faults source.old }
{
    let bytes = match read_to_limit(alloc, source, MOST_BYTES + 1) {
        Ok(bytes) => bytes,
        Err(ReadRefusal::Failed) => return Err(InputRefusal::Failed),
        Err(ReadRefusal::NoMemory) => return Err(InputRefusal::NoMemory),
    };
    if bytes.len() > MOST_BYTES {
        return Err(InputRefusal::TooLong);
    }
    Ok(bytes)
}
