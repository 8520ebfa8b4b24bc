//! The trait of what bytes are read from.
ghost use Rattle.std.specs.Prelude.{◌<◌, ◌≤◌, length, OnErr};
ghost use Rattle.std.specs.Io.{ReadsAtMost};
ghost use Rattle.std.specs.Io.KnownBytes.{ReadConsumes};
ghost use Rattle.cd_base.specs.Ends.{SourceModel, Rose};

/// A read failed. Which fault it was is not told.
#[derive(Debug, Clone, Copy, PartialEq, Eq)]
pub struct Failed;

/// Where bytes come from. Contracts see it as a model: the bytes that it has left, where they are known, and a count of its
/// faults, which never falls.
pub trait Source {
    ghost model: { Self → SourceModel };

    /// Moves the next bytes into the front of `buf` and says how many: none only at the end. A read that fails takes
    /// nothing, and may be tried again.
    fn read(&mut self, buf: &mut [u8]) -> Result<usize, Failed>
        requires { 0 < length buf.old }
        ensures bound { ReadsAtMost result buf.new }
        ensures bytes { ReadConsumes (model self.old).left (model self.new).left result buf.new }
        ensures failed { OnErr result (Rose (model self.old).faults (model self.new).faults) }
        ensures count { (model self.old).faults ≤ (model self.new).faults };
}
