//! The actions that say something of a document: `check`, `read` and `lift`.

ghost use Rattle.std.specs.Prelude.{◌≡◌, ◌≤◌, ℕ, List, Some, Err, length, MatchResult};
ghost use Rattle.cd_base.specs.Ends.{WriteAll};
ghost use Rattle.cd_tree.specs.Limits.{faults_limit};
ghost use Rattle.cd_field.specs.FieldModel.{FieldModel};
ghost use Rattle.cd_check.specs.Checking.{Checks};
ghost use Rattle.cd_app.specs.Running.{need_of, check_text, read_text, lift_text};
ghost use Rattle.cd_app.specs.Deeds.{deed_in};
ghost use Rattle.cd_app.specs.Calls.{Meets, call_of};
ghost use Rattle.cd_app.specs.Parts.{IsSound, deed_for, text_for};

use crate::Status;
use crate::need::whole_need;
use crate::receive::receive;
use crate::status::settled;
use crate::tell::{tell, tell_of};
use cd_base::{NoMemory, Sink, Source, WriteStop};
use cd_check::check;
use cd_foot::Footprints;
use cd_parse::laws::a_document_is_well_read;
use cd_print::{lifted, print_document};
use cd_reading::read_through;
use cd_report::{write_accepted, write_reading};
use cd_tree::{Document, Refuse, Script};
use std::alloc::Global;

// What is said of a document that the checks pass.
#[derive(Clone, Copy, Drop)]
pub(crate) enum Action {
    Check,
    Read,
    Lift,
}

// Says it of the document that the source gives.
pub(crate) fn act<S: Source, K: Sink>(
    alloc: Global,
    action: Action,
    source: &mut S,
    sink: &mut K,
) -> Status
    ensures { (words : List (List ℕ)) (m : FieldModel) (count : ℕ) → deed_in words ≡ Some (deed_for action) → Meets (call_of words (S.model source.old) (S.model source.new) m m count count) (K.model sink.old) (K.model sink.new) result }
{
    a_document_is_well_read();
    match receive(alloc, source) {
        Ok(document) => match passes(alloc, &document) {
            Ok((need, script)) => {
                let wrote = write_text(alloc, action, document, need, &script, sink);
                settled(wrote, Status::Done)
            }
            Err(refuse) => tell_of(alloc, &document, refuse, sink),
        },
        Err(stop) => tell(alloc, stop, sink),
    }
}

// The need and the script of a document that the checks pass.
fn passes(alloc: Global, document: &Document) -> Result<(u32, Script), Refuse>
    ensures { MatchResult result (λ found. IsSound document.now found.0 found.1) (λ refuse. Checks document.now (Err refuse)) }
{
    match Footprints::of(alloc, &document.tree) {
        Ok(feet) => match check(alloc, document, &feet) {
            Ok((plan, script)) => Ok((whole_need(&plan), script)),
            Err(refuse) => Err(refuse),
        },
        Err(NoMemory) => Err(Refuse::NoMemory),
    }
}

// Writes the text of an action. The document is taken apart for `lift`, so nothing may stand on it.
fn write_text<K: Sink>(
    alloc: Global,
    action: Action,
    document: Document,
    need: u32,
    script: &Script,
    sink: &mut K,
) -> Result<(), WriteStop>
    requires sound { IsSound document need script.now }
    requires few { length script.now ≤ faults_limit }
    ensures { WriteAll (K.model sink.old) (K.model sink.new) (text_for action document script.now) result }
{
    match action {
        Action::Check => write_check(alloc, &document, need, sink),
        Action::Read => write_read(alloc, &document, script, sink),
        Action::Lift => write_lift(alloc, document, sink),
    }
}

// Writes the canonical text of a document in version 2.
#[tactic(auto, unfolding(crate::specs::Running::lift_text))]
fn write_lift<K: Sink>(alloc: Global, document: Document, sink: &mut K) -> Result<(), WriteStop>
    ensures { WriteAll (K.model sink.old) (K.model sink.new) (lift_text document) result }
{
    print_document(alloc, &lifted(document), sink)
}

// Writes that a document is accepted, and its canonical text.
fn write_check<K: Sink>(
    alloc: Global,
    document: &Document,
    need: u32,
    sink: &mut K,
) -> Result<(), WriteStop>
    requires { need ≡ need_of document.now.tree }
    ensures { WriteAll (K.model sink.old) (K.model sink.new) (check_text document.now) result }
{
    match write_accepted(alloc, document, need, sink) {
        Ok(()) => print_document(alloc, document, sink),
        Err(stop) => Err(stop),
    }
}

// Writes the one-thread reading of a document's program under its script.
#[tactic(auto, unfolding(crate::specs::Running::read_text))]
fn write_read<K: Sink>(
    alloc: Global,
    document: &Document,
    script: &Script,
    sink: &mut K,
) -> Result<(), WriteStop>
    requires { length script.now ≤ faults_limit }
    ensures { WriteAll (K.model sink.old) (K.model sink.new) (read_text document.now script.now) result }
{
    let tree = &document.tree;
    prove!(0 < tree.count());
    match read_through(alloc, tree, script) {
        Ok(reading) => { write_reading(alloc, tree, &reading.begins, reading.cause.as_ref(), sink) }
        Err(NoMemory) => Err(WriteStop::NoMemory),
    }
}
