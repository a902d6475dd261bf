// The two loops over a source and a sink.
ghost use Rattle.std.specs.Prelude.{◌≡◌, ◌<◌, ◌≤◌, length, IfOk, OnOk, OnErr, IsErrOf, MatchResult};
ghost use Rattle.std.specs.Io.KnownBytes.{Consumes, Appends, IsAtEnd};
ghost use Rattle.lc_io.specs.Outside.{HasRisen, GaveFront, GaveLess, GaveSome, AppendsPart};

use crate::{Failed, Sink, Source};
use std::alloc::{AllocError, Global};

/// Why the bytes of a source weren't read.
#[derive(Clone, Copy, Debug, PartialEq, Eq, Drop)]
pub enum ReadRefusal {
    /// A read failed.
    Failed,
    /// Memory was refused.
    NoMemory,
}

/// How many bytes are asked for at once, at most.
pub(crate) const CHUNK: usize = 4096;

/// Reads a source until it ends or has given `limit` bytes, and answers what it gave. Each turn
/// takes at least one byte or ends. Refused if a read fails, and for want of memory, which only the
/// bytes that were read take: then some bytes may have been taken from the source.
pub fn read_to_limit<S: Source>(
    alloc: Global,
    source: &mut S,
    limit: usize,
) -> Result<Vec<u8>, ReadRefusal>
    ensures gave { IfOk result
        (λ bytes. Consumes (S.rest source.old) (S.rest source.new) bytes.items) }
    ensures within { IfOk result (λ bytes. length bytes.items ≤ limit) }
    ensures whole { IfOk result (λ bytes. length bytes.items < limit → IsAtEnd (S.rest source.new)) }
    ensures front { OnErr result (GaveFront (S.rest source.old) (S.rest source.new) limit) }
    ensures failed { IsErrOf result ReadRefusal.Failed
        → HasRisen (S.faults source.old) (S.faults source.new) }
    ensures before { IsErrOf result ReadRefusal.Failed
        → GaveLess (S.rest source.old) (S.rest source.new) limit }
    ensures no_memory { IsErrOf result ReadRefusal.NoMemory
        → S.faults source.new ≡ S.faults source.old }
    ensures kept { IsErrOf result ReadRefusal.NoMemory
        → GaveSome (S.rest source.old) (S.rest source.new) limit }
    ensures count { OnOk result (S.faults source.new ≡ S.faults source.old) }
{
    let mut bytes = Vec::new(alloc);
    let mut chunk = [0; CHUNK];
    while bytes.len() < limit {
        let room = CHUNK.min(limit - bytes.len());
        match source.read(&mut chunk[..room]) {
            Ok(0) => return Ok(bytes),
            Ok(count) => {
                if bytes.extend_from_slice(&chunk[..count]).is_err() {
                    return Err(ReadRefusal::NoMemory);
                }
            }
            Err(Failed) => return Err(ReadRefusal::Failed),
        }
    }
    Ok(bytes)
}

/// Writes all of `bytes` to a sink. Each turn writes at least one byte or fails. If a write
/// fails, a front of the bytes was taken. Takes no memory.
pub fn write_whole<K: Sink>(sink: &mut K, bytes: &[u8]) -> Result<(), Failed>
    ensures whole { OnOk result (Appends (K.written sink.old) (K.written sink.new) bytes.now) }
    ensures front { OnErr result (AppendsPart (K.written sink.old) (K.written sink.new) bytes.now) }
    ensures count { MatchResult result (λ _. K.faults sink.new ≡ K.faults sink.old)
        (λ _. HasRisen (K.faults sink.old) (K.faults sink.new)) }
{
    let mut done = 0;
    while done < bytes.len() {
        done += sink.write(&bytes[done..])?;
    }
    Ok(())
}
