//! A sink that keeps its bytes in memory.
ghost use Rattle.std.specs.Prelude.{◌≡◌, ◌↔◌, ◌<◌, ◌≤◌, [], length, min, Some, IfOk, IsTrue};
ghost use Rattle.std.specs.Io.KnownBytes.{WriteAppends};
ghost use Rattle.cd_base.specs.Ends.{Rose, OnFailed};
ghost use Rattle.cd_base.specs.MemoryEnds.{fails_next, with_call};

use crate::calls::Calls;
use crate::{Sink, WriteStop};
use std::alloc::Global;

/// A sink that keeps its bytes in memory, takes a few bytes a call and fails at chosen calls. Contracts know what it holds.
#[derive(Drop)]
pub struct MemorySink {
    bytes: Vec<u8>,
    step: usize,
    calls: Calls,
    ghost takes: { 0 < step },
}

impl MemorySink {
    /// An empty sink that takes at most `step` bytes a call, and fails at the calls whose numbers, from 1, are in `fails`.
    /// Each write takes memory.
    pub fn new(alloc: Global, step: usize, fails: Vec<u64>) -> MemorySink
        requires { 0 < step }
        ensures model { ⟦<MemorySink as Sink>⟧.model result ≡ record { holds = Some []; faults = 0 } }
        ensures step { result.step ≡ step }
        ensures calls { result.calls ≡ record { fails = fails; count = 0; faults = 0 } }
    {
        MemorySink {
            bytes: Vec::new(alloc),
            step,
            calls: Calls::new(fails),
        }
    }

    /// What was written so far. It takes no memory.
    pub fn bytes(&self) -> &[u8]
        ensures { (⟦<MemorySink as Sink>⟧.model self.now).holds ≡ Some result.now }
    {
        self.bytes.as_slice()
    }
}

impl Sink for MemorySink {
    ghost model = { λ it. record { holds = Some it.bytes.items; faults = it.calls.faults } };

    // What is said beyond the trait's own clauses serves those who call at this type: the call is counted, fails exactly
    // where it was chosen to, and else takes as much as the step allows, if there is memory.
    fn write(&mut self, piece: &[u8]) -> Result<usize, WriteStop>
        requires { 0 < length piece.now }
        ensures some { IfOk result (λ n. 0 < n) }
        ensures bound { IfOk result (λ n. n ≤ length piece.now) }
        ensures bytes { WriteAppends (⟦<MemorySink as Sink>⟧.model self.old).holds (⟦<MemorySink as Sink>⟧.model self.new).holds result piece.now }
        ensures failed { OnFailed result (Rose self.old.calls.faults self.new.calls.faults) }
        ensures count { self.old.calls.faults ≤ self.new.calls.faults }
        ensures counted { self.new.calls ≡ with_call self.old.calls }
        ensures fails { (result ≡ Err WriteStop.Failed) ↔ IsTrue (fails_next self.old.calls) }
        ensures takes { IfOk result (λ n. n ≡ min (length piece.now) self.old.step) }
        ensures step { self.new.step ≡ self.old.step }
    {
        if self.calls.next() {
            return Err(WriteStop::Failed);
        }
        let count = piece.len().min(self.step);
        match self.bytes.extend_from_slice(&piece[..count]) {
            Ok(()) => Ok(count),
            Err(_) => Err(WriteStop::NoMemory),
        }
    }
}
