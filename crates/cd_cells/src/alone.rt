//! One worker alone: it works off what is ready until nothing is, and the root has arrived.
ghost use Rattle.std.specs.Prelude.{◌≡◌, [], IfOk, OnOk};
ghost use Rattle.cd_core.specs.Running.{FewBegins, RanTo};
ghost use Rattle.cd_core.specs.StateLaws.{CanStart};
ghost use Rattle.cd_cells.specs.Working.{Works, plan_of};
ghost use Rattle.cd_cells.specs.Passes.{SameTable};

use crate::cell_pass::CellPass;
use crate::start::Start;
use crate::whole::{end_run, start_run};
use crate::work::work_on;
use cd_base::NoMemory;
use cd_core::{NodeState, Outcome};
use cd_cover::Plan;
use cd_field::Field;
use cd_keep::Pass;
use cd_tree::NodeId;
use std::alloc::Global;
use std::sync::Wait;

// Takes up a domain that is ready, and works on it; where it is not ready it is tried again later.
fn take_up<'a, R: Wait, F: Field, P: Pass>(
    rt: &R,
    alloc: Global,
    plan: &Plan<'a>,
    cells: &mut CellPass<Start<'a, F>, NodeState<F, P>>,
    ready: &mut Vec<NodeId>,
    node: NodeId,
) -> Result<(), NoMemory>
    requires plan { plan_of cells.old ≡ plan.now }
    requires works { Works F.model P.model cells.old [] [] }
    ensures done { OnOk result (Works F.model P.model cells.new [] []) }
    ensures same { SameTable cells.old cells.new }
{
    if node.0 >= plan.tree().count() {
        return Ok(());
    }
    match cells.claim(node) {
        Some(state) => {
            work_on(rt, alloc, plan, cells, ready, state)?;
            Ok(())
        }
        None => {
            ready.push(node)?;
            Ok(())
        }
    }
}

// Takes up what is ready until nothing is. Only one worker is there, so the root has arrived then.
fn work_off<'a, R: Wait, F: Field, P: Pass>(
    rt: &R,
    alloc: Global,
    plan: &Plan<'a>,
    cells: &mut CellPass<Start<'a, F>, NodeState<F, P>>,
    ready: &mut Vec<NodeId>,
) -> Result<(), NoMemory>
    requires plan { plan_of cells.old ≡ plan.now }
    requires works { Works F.model P.model cells.old [] [] }
    ensures done { OnOk result (Works F.model P.model cells.new [] []) }
    ensures same { SameTable cells.old cells.new }
{
    for _ in rt.forever() {
        match ready.pop() {
            Some(node) => take_up(rt, alloc, plan, cells, ready, node)?,
            None => return Ok(()),
        }
    }
    unreachable!()
}

/// Runs the program of a plan on a machine that was carved for its root, with a pass that has the room which the root needs: by
/// one worker, through the cells. After want of memory the machine and the pass are dropped.
pub fn run_alone<R: Wait, F: Field, P: Pass>(
    rt: &R,
    alloc: Global,
    plan: &Plan,
    field: F,
    pass: P,
) -> Result<Outcome<F>, NoMemory>
    requires { CanStart plan.now (F.model field) (P.model pass) }
    ensures ran { IfOk result (RanTo F.model plan.now (F.model field)) }
    ensures few { IfOk result (FewBegins (F.model field)) }
{
    let mut cells = start_run(alloc, plan, field, pass)?;
    let mut ready = Vec::new(alloc);
    ready.push(NodeId(0))?;
    work_off(rt, alloc, plan, &mut cells, &mut ready)?;
    Ok(end_run(rt, plan, &mut cells))
}
