//! Everything from a source, and everything into a sink, in as many calls as the ends need.
ghost use Rattle.cd_base.specs.Ends.{ReadAll, WriteAll};

use crate::{Bytes, Failed, Sink, Source, WriteStop};
use std::alloc::Global;

/// Why reading to the end stopped before it.
#[derive(Debug, Clone, Copy, PartialEq, Eq)]
pub enum ReadStop {
    /// A read failed.
    Failed,
    /// There are more bytes than the limit allows.
    TooLong,
    /// There was not enough memory.
    NoMemory,
}

impl From<Failed> for ReadStop {
    ghost use Rattle.std.specs.Prelude.{◌≡◌};
    ghost use Rattle.cd_base.specs.declared.transfer.ReadStop.{ReadStop};

    ghost from_gives = { λ _ stop. stop ≡ ReadStop.Failed };

    fn from(_failed: Failed) -> Self {
        ReadStop::Failed
    }
}

// The bytes that one read asks for at most.
const PIECE: usize = 4096;

/// Reads to the end, in pieces. It never asks for more than one byte past the limit, so what follows stays unread.
pub fn read_all<S: Source>(alloc: Global, source: &mut S, limit: u32) -> Result<Bytes, ReadStop>
    ensures { ReadAll (S.model source.old) (S.model source.new) limit result }
{
    let mut bytes = Vec::new(alloc);
    let mut buffer = [0; PIECE];
    let mut room = limit as usize + 1;
    loop {
        let most = room.min(PIECE);
        let count = source.read(&mut buffer[..most])?;
        if count == 0 {
            return Ok(Bytes::of(bytes));
        }
        if count == room {
            return Err(ReadStop::TooLong);
        }
        if bytes.extend_from_slice(&buffer[..count]).is_err() {
            return Err(ReadStop::NoMemory);
        }
        room -= count;
    }
}

/// Writes all of `bytes`, in as many writes as the sink needs.
pub fn write_all<K: Sink>(sink: &mut K, bytes: &[u8]) -> Result<(), WriteStop>
    ensures { WriteAll (K.model sink.old) (K.model sink.new) bytes.now result }
{
    let mut written = 0;
    while written < bytes.len() {
        written += sink.write(&bytes[written..])?;
    }
    Ok(())
}
