//! One worker: it takes up what is ready, wherever it finds it, until a worker stops.
ghost use Rattle.std.specs.Prelude.{◌≡◌, ◌<◌, [], length, IfOk, OnOk, OnErr};
ghost use Rattle.cd_cells.specs.Passes.{SameTable};
ghost use Rattle.cd_cells.specs.Working.{StillWorks, Works, plan_of};
ghost use Rattle.cd_pool.specs.Working.{HandsBack, IsFree};

use crate::gate::Gate;
use crate::hints::WorkerHints;
use cd_base::NoMemory;
use cd_cells::{CellPass, Hints, Start, work_on};
use cd_core::NodeState;
use cd_cover::Plan;
use cd_field::Field;
use cd_keep::Pass;
use cd_tree::NodeId;
use crossbeam_utils::Backoff;
use std::alloc::Global;
use std::sync::Wait;

pub(crate) type Cells<'a, F, P> = CellPass<Start<'a, F>, NodeState<F, P>>;

/// What a worker begins with: a pass of its own, and its hints.
#[derive(Drop)]
pub(crate) struct Job<'a, 's, F: Field, P: Pass> {
    pub cells: Cells<'a, F, P>,
    pub hints: WorkerHints<'s>,
}

/// Works until a worker has stopped, and hands the pass back with nothing in hand. Where the worker meets want of memory it stops all
/// others; its pass, which may have a domain in hand, is dropped.
pub(crate) fn work<'a, R: Wait, F: Field, P: Pass, G: Gate>(
    rt: &R,
    alloc: Global,
    plan: &Plan<'a>,
    gate: &G,
    job: Job<'a, '_, F, P>,
) -> Result<Cells<'a, F, P>, NoMemory>
    requires plan { plan_of job.cells ≡ plan.now }
    requires works { Works F.model P.model job.cells [] [] }
    ensures { HandsBack F.model P.model job.entry.cells result }
{
    let Job {
        mut cells,
        mut hints,
    } = job;
    let idle = Backoff::new();
    for _ in rt.forever() {
        match hints.next() {
            Some(node) => {
                take_up(rt, alloc, plan, gate, &mut cells, &mut hints, node)?;
                idle.reset();
            }
            None => {
                if cells.stopped() {
                    return Ok(cells);
                }
                idle.snooze();
            }
        }
    }
    unreachable!()
}

// Takes up a domain that may be ready. Where the root has arrived then, or memory was wanting, all workers are stopped.
fn take_up<'a, R: Wait, F: Field, P: Pass, G: Gate>(
    rt: &R,
    alloc: Global,
    plan: &Plan<'a>,
    gate: &G,
    cells: &mut Cells<'a, F, P>,
    hints: &mut WorkerHints<'_>,
    node: NodeId,
) -> Result<(), NoMemory>
    requires plan { plan_of cells.old ≡ plan.now }
    requires works { Works F.model P.model cells.old [] [] }
    ensures done { OnOk result (IsFree F.model P.model cells.old cells.new) }
{
    match work_at(rt, alloc, plan, gate, cells, hints, node) {
        Ok(false) => Ok(()),
        Ok(true) => {
            cells.stop();
            Ok(())
        }
        Err(NoMemory) => {
            cells.stop();
            Err(NoMemory)
        }
    }
}

// Claims a domain and works on it, and on those whose groups it is the last of: whether the root has arrived. A hint of a domain that
// is not ready is kept.
fn work_at<'a, R: Wait, F: Field, P: Pass, G: Gate>(
    rt: &R,
    alloc: Global,
    plan: &Plan<'a>,
    gate: &G,
    cells: &mut Cells<'a, F, P>,
    hints: &mut WorkerHints<'_>,
    node: NodeId,
) -> Result<bool, NoMemory>
    requires plan { plan_of cells.old ≡ plan.now }
    requires works { Works F.model P.model cells.old [] [] }
    ensures done { OnOk result (IsFree F.model P.model cells.old cells.new) }
    ensures still { OnErr result (StillWorks F.model P.model cells.new) }
{
    if node.0 >= plan.tree().count() {
        return Ok(false);
    }
    match cells.claim(node) {
        Some(state) => {
            gate.pass(rt, node);
            work_on(rt, alloc, plan, cells, hints, state)
        }
        None => {
            hints.note(node)?;
            Ok(false)
        }
    }
}
