//! The document that a source gives, or why there is none.

ghost use Rattle.std.specs.Prelude.{◌≤◌, length};
ghost use Rattle.cd_app.specs.Deeds.{one_document};
ghost use Rattle.cd_app.specs.Parts.{ReadsBytes, Receives};

use cd_base::{ReadStop, Source, read_all};
use cd_parse::read_document;
use cd_tree::limits::MOST_TEXT;
use cd_tree::{Document, Refusal, Refuse};
use std::alloc::Global;

// Why there is no document.
#[derive(Drop)]
pub(crate) enum Stop {
    Refused(Refusal),
    ReadFault,
    NoMemory,
}

// The document that a source gives.
pub(crate) fn receive<S: Source>(alloc: Global, source: &mut S) -> Result<Document, Stop>
    ensures { Receives one_document (S.model source.old) (S.model source.new) result }
{
    match read_all(alloc, source, MOST_TEXT) {
        Ok(bytes) => read_bytes(alloc, bytes.as_slice()),
        Err(ReadStop::TooLong) => Err(Stop::Refused(Refusal::TooLong)),
        Err(ReadStop::Failed) => Err(Stop::ReadFault),
        Err(ReadStop::NoMemory) => Err(Stop::NoMemory),
    }
}

// The document that bytes are.
fn read_bytes(alloc: Global, bytes: &[u8]) -> Result<Document, Stop>
    requires { length bytes.now ≤ one_document.limit }
    ensures { ReadsBytes bytes.now result }
{
    match read_document(alloc, bytes) {
        Ok(document) => Ok(document),
        Err(Refuse::Refused(refusal)) => Err(Stop::Refused(refusal)),
        Err(Refuse::NoMemory) => Err(Stop::NoMemory),
    }
}
