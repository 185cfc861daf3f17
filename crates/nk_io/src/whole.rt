//! All that a source has left, and all of a piece.
ghost use Rattle.std.specs.Prelude.{◌≡◌, ◌≤◌, length, IfOk, OnOk, OnErr, MatchResult};
ghost use Rattle.std.specs.Io.KnownBytes.{Appends, Consumes, IsAtEnd};
ghost use Rattle.nk_io.specs.Faults.{AppendsProperPrefix, HasCause};
ghost use Rattle.nk_io.specs.Reading.{IsAllOf, IsCause, IsLonger};

use crate::{Sink, Source};
use std::alloc::Global;
use thiserror::Error;

/// Why a source wasn't read to its end.
#[derive(Clone, Copy, Debug, PartialEq, Eq, Error)]
pub enum ReadError {
    /// There is not enough memory for the bytes.
    #[error("no memory")]
    NoMemory,
    /// A call of the source failed.
    #[error("read fault")]
    ReadFault,
    /// The source gave more bytes than the limit.
    #[error("too long")]
    TooLong,
}

/// A call of the sink failed before all of the bytes were taken.
#[derive(Clone, Copy, Debug, PartialEq, Eq, Error)]
#[error("write fault")]
pub struct WriteFault;

/// How many bytes are asked for in one call.
const PIECE: usize = 4096;

/// All that the source has left, at most `limit` bytes. A call that fails is never taken for the end:
/// it is a `ReadFault`. `TooLong` comes where the source gave more than `limit` bytes.
pub fn read_all<S: Source>(alloc: Global, source: &mut S, limit: u64) -> Result<Vec<u8>, ReadError>
    ensures bytes { IfOk result (λ bytes.
        Consumes (S.left source.old) (S.left source.new) bytes.items) }
    ensures end { OnOk result (IsAtEnd (S.left source.new)) }
    ensures all { IfOk result (λ bytes. IsAllOf (S.left source.old) bytes.items) }
    ensures fits { IfOk result (λ bytes. length bytes.items ≤ limit) }
    ensures longer { OnOk result (IsLonger limit (S.left source.old) → ⊥) }
    ensures cause { MatchResult result
        (λ _. S.faults source.new ≡ S.faults source.old)
        (IsCause limit (S.left source.old) (S.left source.new)
        (S.faults source.old) (S.faults source.new)) }
{
    let mut bytes = Vec::new(alloc);
    let mut piece = [0u8; PIECE];
    'pieces: loop {
        let count = source.read(&mut piece).map_err(|_| ReadError::ReadFault)?;
        if count == 0 {
            return Ok(bytes);
        }
        if count as u64 > limit - bytes.len() as u64 {
            return Err(ReadError::TooLong);
        }
        if bytes.extend_from_slice(&piece[..count]).is_err() {
            return Err(ReadError::NoMemory);
        }
    }
}

/// Writes all of the bytes, in as many calls as the sink wants. After the first call that fails
/// nothing more is written. It takes no memory.
pub fn write_all<K: Sink>(sink: &mut K, bytes: &[u8]) -> Result<(), WriteFault>
    ensures all { OnOk result (Appends (K.taken sink.old) (K.taken sink.new) bytes.now) }
    ensures part { OnErr result
        (AppendsProperPrefix (K.taken sink.old) (K.taken sink.new) bytes.now) }
    ensures cause { HasCause (K.faults sink.old) (K.faults sink.new) result }
{
    let mut at = 0;
    'rest: while at < bytes.len() {
        match sink.write(&bytes[at..]) {
            Ok(count) => at += count,
            Err(_) => return Err(WriteFault),
        }
    }
    Ok(())
}
