//! How a call ends.

ghost use Rattle.std.specs.Prelude.{◌≡◌};
ghost use Rattle.cd_app.specs.Codes.{code_of};
ghost use Rattle.cd_app.specs.Outcomes.{status_by};
ghost use Rattle.cd_app.specs.Parts.{behind_fault, settled};

use cd_base::WriteStop;
use cd_tree::{Cause, Refusal};

/// How a call of the program ends.
#[derive(Drop)]
pub enum Status {
    /// The run committed, or the action's text was made; and the text was written.
    Done,
    /// The root used up its tries for this cause, and the report was written.
    Exhausted(Cause),
    /// The words give no command.
    Usage,
    /// The document is not accepted.
    Refused(Refusal),
    /// The source could not be read.
    ReadFault,
    /// The text could not be written whole.
    WriteFault,
    /// There was not enough memory.
    NoMemory,
}

impl Status {
    /// The number by which the program ends.
    pub fn code(&self) -> u8
        ensures { result ≡ code_of self.now }
    {
        match self {
            Status::Done => 0,
            Status::Exhausted(_) => 1,
            Status::Usage => 2,
            Status::Refused(_) => 3,
            Status::ReadFault => 4,
            Status::WriteFault => 5,
            Status::NoMemory => 6,
        }
    }

    // What becomes of the status where the sink failed: it yields if its text is the call's answer, and it stays if its
    // line only says why there is none.
    fn behind_fault(self) -> Status
        ensures { result ≡ behind_fault self }
    {
        match self {
            Status::Done | Status::Exhausted(_) | Status::WriteFault => Status::WriteFault,
            Status::Usage => Status::Usage,
            Status::Refused(refusal) => Status::Refused(refusal),
            Status::ReadFault => Status::ReadFault,
            Status::NoMemory => Status::NoMemory,
        }
    }
}

// The status of a run with this cause, or none.
pub(crate) fn status_by(cause: Option<Cause>) -> Status
    ensures { result ≡ status_by cause }
{
    match cause {
        Some(cause) => Status::Exhausted(cause),
        None => Status::Done,
    }
}

// The status of a call that wrote the text of this one.
pub(crate) fn settled(wrote: Result<(), WriteStop>, status: Status) -> Status
    ensures { result ≡ settled wrote status }
{
    match wrote {
        Ok(()) => status,
        Err(WriteStop::Failed) => status.behind_fault(),
        Err(WriteStop::NoMemory) => Status::NoMemory,
    }
}
