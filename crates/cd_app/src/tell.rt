//! The lines that say why there is no text: refusals and faults.

ghost use Rattle.std.specs.Prelude.{◌≡◌, Some, Err};
ghost use Rattle.cd_check.specs.Checking.{Checks};
ghost use Rattle.cd_app.specs.Deeds.{one_document, intake_in};
ghost use Rattle.cd_app.specs.Calls.{Call, Meets, NothingRan};
ghost use Rattle.cd_app.specs.Parts.{IsNone, IsRead};

use crate::Status;
use crate::receive::Stop;
use crate::status::settled;
use cd_base::Sink;
use cd_report::{write_read_fault, write_refusal};
use cd_tree::{Document, Refuse};
use std::alloc::Global;

// Writes why there is no document.
pub(crate) fn tell<K: Sink>(alloc: Global, stop: Stop, sink: &mut K) -> Status
    ensures { (call : Call) → intake_in call.words ≡ Some one_document → NothingRan call → IsNone one_document call.source_was call.source_now stop → Meets call (K.model sink.old) (K.model sink.new) result }
{
    match stop {
        Stop::Refused(refusal) => {
            let wrote = write_refusal(alloc, None, &refusal, sink);
            settled(wrote, Status::Refused(refusal))
        }
        Stop::ReadFault => settled(write_read_fault(sink), Status::ReadFault),
        Stop::NoMemory => Status::NoMemory,
    }
}

// Writes why a document is not accepted.
pub(crate) fn tell_of<K: Sink>(
    alloc: Global,
    document: &Document,
    refuse: Refuse,
    sink: &mut K,
) -> Status
    ensures { (call : Call) → intake_in call.words ≡ Some one_document → NothingRan call → IsRead one_document call.source_was call.source_now document.now → Checks document.now (Err refuse) → Meets call (K.model sink.old) (K.model sink.new) result }
{
    match refuse {
        Refuse::Refused(refusal) => {
            let wrote = write_refusal(alloc, Some(document), &refusal, sink);
            settled(wrote, Status::Refused(refusal))
        }
        Refuse::NoMemory => Status::NoMemory,
    }
}
