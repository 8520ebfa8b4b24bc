//! The trait of what bytes are written to.
ghost use Rattle.std.specs.Prelude.{◌<◌, ◌≤◌, length, IfOk};
ghost use Rattle.std.specs.Io.KnownBytes.{WriteAppends};
ghost use Rattle.cd_base.specs.Ends.{SinkModel, Rose, OnFailed};

/// Why a write did not take place.
#[derive(Debug, Clone, Copy, PartialEq, Eq)]
pub enum WriteStop {
    /// The sink has a fault. Which one is not told.
    Failed,
    /// There was not enough memory.
    NoMemory,
}

/// Where bytes go. Contracts see it as a model: the bytes that it holds, where they are known, and a count of its faults,
/// which never falls.
pub trait Sink {
    ghost model: { Self → SinkModel };

    /// Appends bytes from the front of `piece` and says how many, at least one. After an error nothing was appended, and
    /// the write may be tried again.
    fn write(&mut self, piece: &[u8]) -> Result<usize, WriteStop>
        requires { 0 < length piece.now }
        ensures some { IfOk result (λ n. 0 < n) }
        ensures bound { IfOk result (λ n. n ≤ length piece.now) }
        ensures bytes { WriteAppends (model self.old).holds (model self.new).holds result piece.now }
        ensures failed { OnFailed result (Rose (model self.old).faults (model self.new).faults) }
        ensures count { (model self.old).faults ≤ (model self.new).faults };
}
