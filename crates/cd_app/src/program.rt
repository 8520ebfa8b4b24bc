//! A document's program on a machine: the root's part is carved out, the engine runs on it, and it is taken back.

ghost use Rattle.std.specs.Prelude.{◌≡◌, ◌⊎◌, ◌<◌, ◌≤◌, IfOk, OnOk, OnErr};
ghost use Rattle.cd_core.specs.Running.{FewBegins, RanTo};
ghost use Rattle.cd_pool.specs.Counts.{begins_of, counted};
ghost use Rattle.cd_app.specs.Parts.{IsPassed};
ghost use Rattle.cd_app.specs.Parting.{CanRun, CanTakeBack, IsCarved, TookBack};
ghost use Rattle.cd_app.specs.Running.{HasRun, IsCounted};

use crate::need::whole_need;
use cd_base::NoMemory;
use cd_core::Outcome;
use cd_cover::Plan;
use cd_field::Field;
use cd_lease::LeasePass;
use cd_pool::Engine;
use cd_tree::{Begins, Cause, Document, NodeId, Script, laws};
use std::alloc::Global;
use std::sync::Wait;
use std::thread::Threads;

// Loads a machine and has a document's program run on it: how often each domain began, and why the root escalated, where it did. Where
// memory ran out, the engine has counted the run or has not.
pub(crate) fn run_machine<R: Threads + Wait + Sync, F: Field, E: Engine>(
    rt: &R,
    alloc: Global,
    workers: u32,
    document: &Document,
    plan: &Plan,
    script: &Script,
    machine: &mut F,
    engine: &mut E,
) -> Result<(Begins, Option<Cause>), NoMemory>
    requires passed { IsPassed document.now plan.now script.now }
    requires some { 0 < workers }
    requires most { workers ≤ 64 }
    ensures ran { IfOk result (λ ran. HasRun document.now script.now (F.model machine.new) ran.0 ran.1) }
    ensures counted { OnOk result (IsCounted document.now script.now (E.begins engine.old) (E.begins engine.new)) }
    ensures stopped { OnErr result ((E.begins engine.new ≡ E.begins engine.old) ⊎ IsCounted document.now script.now (E.begins engine.old) (E.begins engine.new)) }
{
    cd_cover::laws::outer_references_lead_out();
    cd_cover::laws::subtrees_are_seen_on_paths();
    laws::a_domain_sees_what_it_reads_alone();
    laws::each_domain_is_as_its_program();
    laws::declared_kinds_are_found_at_the_root();
    let part = root_part(document, plan, script, machine)?;
    let outcome = run_part(rt, alloc, workers, plan, part, engine)?;
    let ran = take_back(machine, outcome)?;
    Ok(ran)
}

// Loads a machine, and carves out the part that the root reaches.
fn root_part<F: Field>(
    document: &Document,
    plan: &Plan,
    script: &Script,
    machine: &mut F,
) -> Result<F, NoMemory>
    requires { IsPassed document.now plan.now script.now }
    ensures carved { IfOk result (λ part. IsCarved plan.now document.now.regions script.now (F.model part) (F.model machine.new)) }
    ensures can { IfOk result (λ part. CanRun plan.now (F.model part)) }
{
    laws::a_covered_domain_reaches_its_entries_alone();
    prove!(0 < plan.tree().count());
    machine.load(&document.regions, script)?;
    let feet = plan.feet();
    let part = machine.carve(feet.reads(NodeId(0)), feet.writes(NodeId(0)))?;
    Ok(part)
}

// Has the engine run the program on the part of a machine that its root reaches, with as many blocks, and as much room for copies,
// as the root needs.
fn run_part<R: Threads + Wait + Sync, F: Field, E: Engine>(
    rt: &R,
    alloc: Global,
    workers: u32,
    plan: &Plan,
    part: F,
    engine: &mut E,
) -> Result<Outcome<F>, NoMemory>
    requires can { CanRun plan.now (F.model part) }
    requires some { 0 < workers }
    requires most { workers ≤ 64 }
    ensures ran { IfOk result (RanTo F.model plan.now (F.model part)) }
    ensures few { IfOk result (FewBegins (F.model part)) }
    ensures counted { IfOk result (λ outcome. E.begins engine.new ≡ counted (E.begins engine.old) (begins_of outcome)) }
    ensures stays { OnErr result (E.begins engine.new ≡ E.begins engine.old) }
{
    let need = whole_need(plan);
    let pass = LeasePass::open(alloc, need.max(1), need)?;
    engine.run_root(rt, alloc, plan, part, pass, workers)
}

// Takes the root's part back: after a run that committed with the program's words, after one that was exhausted with those that
// the root restored.
fn take_back<F: Field>(
    machine: &mut F,
    outcome: Outcome<F>,
) -> Result<(Begins, Option<Cause>), NoMemory>
    requires { CanTakeBack F.model (F.model machine.old) outcome }
    ensures { IfOk result (λ ran. TookBack F.model (F.model machine.old) (F.model machine.new) outcome ran.0 ran.1) }
{
    match outcome {
        Outcome::Committed(part, begins) => {
            machine.absorb(part, true)?;
            Ok((begins, None))
        }
        Outcome::Exhausted(restored, begins, cause) => {
            machine.absorb(restored, true)?;
            Ok((begins, Some(cause)))
        }
    }
}
