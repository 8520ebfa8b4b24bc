//! A source over bytes in memory.
ghost use Rattle.std.specs.Prelude.{◌≡◌, ◌↔◌, ◌-◌, ◌<◌, ◌≤◌, length, drop, min, Some, IfOk, IsErr, IsTrue, OnErr};
ghost use Rattle.std.specs.Io.{ReadsAtMost};
ghost use Rattle.std.specs.Io.KnownBytes.{ReadConsumes};
ghost use Rattle.cd_base.specs.Ends.{Rose};
ghost use Rattle.cd_base.specs.MemoryEnds.{fails_next, with_call};

use crate::calls::Calls;
use crate::{Failed, Source};

/// A source of bytes in memory, which gives a few bytes a call and fails at chosen calls. Contracts know what it has left.
#[derive(Drop)]
pub struct MemorySource {
    bytes: Vec<u8>,
    taken: usize,
    step: usize,
    calls: Calls,
    ghost gives: { 0 < step },
    ghost within: { taken ≤ length bytes.items },
}

impl MemorySource {
    /// A source of `bytes` that gives at most `step` of them a call, and fails at the calls whose numbers, from 1, are in
    /// `fails`.
    pub fn new(bytes: Vec<u8>, step: usize, fails: Vec<u64>) -> MemorySource
        requires { 0 < step }
        ensures model { ⟦<MemorySource as Source>⟧.model result ≡ record { left = Some bytes.items; faults = 0 } }
        ensures step { result.step ≡ step }
        ensures calls { result.calls ≡ record { fails = fails; count = 0; faults = 0 } }
    {
        MemorySource {
            bytes,
            taken: 0,
            step,
            calls: Calls::new(fails),
        }
    }

    // How many bytes a call gives into a buffer with this room.
    fn given(&self, room: usize) -> usize
        ensures { result ≡ min (min (length self.now.bytes.items - self.now.taken) self.now.step) room }
    {
        (self.bytes.len() - self.taken).min(self.step).min(room)
    }
}

impl Source for MemorySource {
    ghost model = { λ it. record { left = Some (drop it.taken it.bytes.items); faults = it.calls.faults } };

    // What is said beyond the trait's own clauses serves those who call at this type: the call is counted, fails exactly
    // where it was chosen to, and else gives as much as the step, the rest and the buffer allow.
    fn read(&mut self, buf: &mut [u8]) -> Result<usize, Failed>
        requires { 0 < length buf.old }
        ensures bound { ReadsAtMost result buf.new }
        ensures bytes { ReadConsumes (⟦<MemorySource as Source>⟧.model self.old).left (⟦<MemorySource as Source>⟧.model self.new).left result buf.new }
        ensures failed { OnErr result (Rose self.old.calls.faults self.new.calls.faults) }
        ensures count { self.old.calls.faults ≤ self.new.calls.faults }
        ensures counted { self.new.calls ≡ with_call self.old.calls }
        ensures fails { IsErr result ↔ IsTrue (fails_next self.old.calls) }
        ensures gives { IfOk result (λ n. n ≡ min (min (length self.old.bytes.items - self.old.taken) self.old.step) (length buf.old)) }
        ensures step { self.new.step ≡ self.old.step }
    {
        if self.calls.next() {
            return Err(Failed);
        }
        let count = self.given(buf.len());
        let rest = &self.bytes[self.taken..];
        buf[..count].copy_from_slice(&rest[..count]);
        self.taken += count;
        Ok(count)
    }
}
