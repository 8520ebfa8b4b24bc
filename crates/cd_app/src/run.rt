//! The action `run`: a document's program on a machine, and its report.

ghost use Rattle.std.specs.Prelude.{◌≡◌, ℕ, ◌<◌, ◌≤◌, List, Some};
ghost use Rattle.std.specs.Option.{option_copied};
ghost use Rattle.cd_base.specs.Ends.{WriteAll};
ghost use Rattle.cd_tree.specs.declared.document.Fault.{Fault};
ghost use Rattle.cd_tree.specs.Scripts.{IsAccepted};
ghost use Rattle.cd_parse.specs.WellRead.{WellRead};
ghost use Rattle.cd_app.specs.Running.{HasRun, ran_text};
ghost use Rattle.cd_app.specs.Deeds.{one_document, runs, deed_in, intake_in};
ghost use Rattle.cd_app.specs.Calls.{Call, Meets, call_of};
ghost use Rattle.cd_app.specs.Parts.{IsRead, IsPassed};

use crate::Status;
use crate::program::run_machine;
use crate::receive::receive;
use crate::status::{settled, status_by};
use crate::tell::{tell, tell_of};
use cd_base::{NoMemory, Sink, Source, WriteStop};
use cd_check::check;
use cd_cover::Plan;
use cd_field::Field;
use cd_foot::Footprints;
use cd_parse::laws::a_document_is_well_read;
use cd_pool::Engine;
use cd_report::write_run;
use cd_tree::{Begins, Cause, Document, Script, laws};
use std::alloc::Global;
use std::sync::Wait;
use std::thread::Threads;

/// A run that words ask for: by how many workers, and whether its record is written.
#[derive(Clone, Copy, Drop)]
pub struct AskedRun {
    pub workers: u32,
    pub with_record: bool,
}

// Runs the document that the source gives, if the checks pass it.
pub(crate) fn run_source<R: Threads + Wait + Sync, S: Source, K: Sink, F: Field, E: Engine>(
    rt: &R,
    alloc: Global,
    asked: AskedRun,
    source: &mut S,
    sink: &mut K,
    machine: &mut F,
    engine: &mut E,
) -> Status
    requires some { 0 < asked.workers }
    requires most { asked.workers ≤ 64 }
    ensures { (words : List (List ℕ)) → deed_in words ≡ Some (runs one_document asked.with_record) → Meets (call_of words (S.model source.old) (S.model source.new) (F.model machine.old) (F.model machine.new) (E.begins engine.old) (E.begins engine.new)) (K.model sink.old) (K.model sink.new) result }
{
    a_document_is_well_read();
    match receive(alloc, source) {
        Ok(document) => judge(rt, alloc, asked, &document, sink, machine, engine),
        Err(stop) => tell(alloc, stop, sink),
    }
}

// Runs a document, if the checks pass it.
fn judge<R: Threads + Wait + Sync, K: Sink, F: Field, E: Engine>(
    rt: &R,
    alloc: Global,
    asked: AskedRun,
    document: &Document,
    sink: &mut K,
    machine: &mut F,
    engine: &mut E,
) -> Status
    requires well { WellRead document.now }
    requires some { 0 < asked.workers }
    requires most { asked.workers ≤ 64 }
    ensures { (call : Call) → deed_in call.words ≡ Some (runs one_document asked.with_record) → intake_in call.words ≡ Some one_document → IsRead one_document call.source_was call.source_now document.now → call.machine_was ≡ F.model machine.old → call.machine_now ≡ F.model machine.new → call.engine_was ≡ E.begins engine.old → call.engine_now ≡ E.begins engine.new → Meets call (K.model sink.old) (K.model sink.new) result }
{
    match Footprints::of(alloc, &document.tree) {
        Ok(feet) => match check(alloc, document, &feet) {
            Ok((plan, script)) => {
                run_document(
                    rt, alloc, asked, document, &plan, &script, sink, machine, engine,
                )
            }
            Err(refuse) => tell_of(alloc, document, refuse, sink),
        },
        Err(NoMemory) => Status::NoMemory,
    }
}

// Runs a document that the checks pass.
fn run_document<R: Threads + Wait + Sync, K: Sink, F: Field, E: Engine>(
    rt: &R,
    alloc: Global,
    asked: AskedRun,
    document: &Document,
    plan: &Plan,
    script: &Script,
    sink: &mut K,
    machine: &mut F,
    engine: &mut E,
) -> Status
    requires passed { IsPassed document.now plan.now script.now }
    requires some { 0 < asked.workers }
    requires most { asked.workers ≤ 64 }
    ensures { (call : Call) → deed_in call.words ≡ Some (runs one_document asked.with_record) → IsRead one_document call.source_was call.source_now document.now → call.machine_was ≡ F.model machine.old → call.machine_now ≡ F.model machine.new → call.engine_was ≡ E.begins engine.old → call.engine_now ≡ E.begins engine.new → Meets call (K.model sink.old) (K.model sink.new) result }
{
    match run_machine(
        rt,
        alloc,
        asked.workers,
        document,
        plan,
        script,
        machine,
        engine,
    ) {
        Ok((begins, cause)) => {
            let told = cause.as_ref();
            let wrote = report(
                alloc,
                document,
                machine,
                &begins,
                told,
                asked.with_record,
                sink,
            );
            settled(wrote, status_by(cause))
        }
        Err(NoMemory) => Status::NoMemory,
    }
}

// Writes the report of a run, from the machine's own events.
#[tactic(auto, unfolding(cd_report::specs::Reports::report_of))]
fn report<K: Sink, F: Field>(
    alloc: Global,
    document: &Document,
    machine: &F,
    begins: &Begins,
    cause: Option<&Cause>,
    record_wanted: bool,
    sink: &mut K,
) -> Result<(), WriteStop>
    requires { (script : List Fault) × HasRun document.now script (F.model machine.now) begins.now (option_copied cause) × IsAccepted document.now.tree script }
    ensures { (script : List Fault) → HasRun document.now script (F.model machine.now) begins.now (option_copied cause.entry) → WriteAll (K.model sink.old) (K.model sink.new) (ran_text record_wanted document.now script (F.model machine.now).events) result }
{
    laws::words_stay();
    laws::records_are_short();
    prove!(0 < document.tree.count());
    write_run(
        alloc,
        &document.tree,
        &document.regions,
        machine,
        begins,
        cause,
        record_wanted,
        sink,
    )
}
