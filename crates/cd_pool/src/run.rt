//! A run by stealing workers.
ghost use Rattle.std.specs.Prelude.{◌≡◌, ◌<◌, ◌≤◌, [], IfOk, OnOk, MatchResult};
ghost use Rattle.cd_core.specs.Running.{FewBegins, RanTo};
ghost use Rattle.cd_core.specs.StateLaws.{CanStart};
ghost use Rattle.cd_cells.specs.Passes.{SameTable};
ghost use Rattle.cd_cells.specs.Working.{Works, plan_of};
ghost use Rattle.cd_pool.specs.Working.{AreFree, HandsBack, HandBack, IsFree, MetWant};

use crate::crew::crew_for;
use crate::deques::{deques_for, stealers_of};
use crate::gate::Gate;
use crate::hints::WorkerHints;
use crate::worker::{Cells, Job, work};
use cd_base::NoMemory;
use cd_cells::{Hints, end_run, start_run};
use cd_core::Outcome;
use cd_cover::Plan;
use cd_field::Field;
use cd_keep::Pass;
use cd_tree::NodeId;
use crossbeam_deque::{Stealer, Worker};
use std::alloc::Global;
use std::sync::Wait;
use std::thread::{self, Threads};

/// Runs the program of a plan on a machine that was carved for its root, with a pass that has the room which the root needs: by at
/// most so many workers, and by no more than can have something to do at the same time. Each goes through the gate with each domain
/// that it has claimed, before that begins. Where a thread cannot be started there are fewer. No worker outlives the call. After want of
/// memory the machine and the pass are dropped.
pub fn run_root<R: Threads + Wait + Sync, F: Field, P: Pass, G: Gate>(
    rt: &R,
    alloc: Global,
    plan: &Plan,
    field: F,
    pass: P,
    workers: u32,
    gate: &G,
) -> Result<Outcome<F>, NoMemory>
    requires can { CanStart plan.now (F.model field) (P.model pass) }
    requires some { 0 < workers }
    requires most { workers ≤ 64 }
    ensures ran { IfOk result (RanTo F.model plan.now (F.model field)) }
    ensures few { IfOk result (FewBegins (F.model field)) }
{
    let crew = crew_for(alloc, plan.tree(), workers)?;
    let deques = deques_for(alloc, crew as usize)?;
    let stealers = stealers_of(alloc, deques.as_slice())?;
    let mut cells = start_run(alloc, plan, field, pass)?;
    run_cells(
        rt,
        alloc,
        plan,
        gate,
        &mut cells,
        deques,
        stealers.as_slice(),
    )?;
    Ok(end_run(rt, plan, &mut cells))
}

// Runs the workers, each with a pass of its own and one of the deques, and takes their passes back.
fn run_cells<'a, R: Threads + Wait + Sync, F: Field, P: Pass, G: Gate>(
    rt: &R,
    alloc: Global,
    plan: &Plan<'a>,
    gate: &G,
    cells: &mut Cells<'a, F, P>,
    deques: Vec<Worker<NodeId>>,
    stealers: &[Stealer<NodeId>],
) -> Result<(), NoMemory>
    requires plan { plan_of cells.old ≡ plan.now }
    requires works { Works F.model P.model cells.old [] [] }
    ensures { OnOk result (IsFree F.model P.model cells.old cells.new) }
{
    let domains = plan.tree().count() as usize;
    let jobs = jobs_for(alloc, cells, deques, stealers, domains)?;
    let backs = thread::map_vec(
        rt,
        jobs,
        &|job|
            requires { (plan_of job.cells ≡ plan.now) × Works F.model P.model job.cells [] [] }
            ensures { HandsBack F.model P.model job.entry.cells result }
        { work(rt, alloc, plan, gate, job) },
    )?;
    gather(cells, backs)
}

// A job for each deque, each with a pass of its own; the first has the hint that the root is ready.
fn jobs_for<'a, 's, F: Field, P: Pass>(
    alloc: Global,
    cells: &mut Cells<'a, F, P>,
    deques: Vec<Worker<NodeId>>,
    stealers: &'s [Stealer<NodeId>],
    domains: usize,
) -> Result<Vec<Job<'a, 's, F, P>>, NoMemory>
    requires works { Works F.model P.model cells.old [] [] }
    ensures jobs { IfOk result (λ jobs. AreFree F.model P.model cells.old jobs.items) }
    ensures here { OnOk result (IsFree F.model P.model cells.old cells.new) }
{
    let mut jobs = Vec::with_capacity(alloc, deques.len())?;
    for deque in deques {
        let first = jobs.len() + 1;
        let mut hints = WorkerHints::new(alloc, deque, stealers, first, domains)?;
        if first == 1 {
            hints.note(NodeId(0))?;
        }
        let cells = cells.split()?;
        jobs.push(Job { cells, hints })?;
    }
    Ok(jobs)
}

// Takes the workers' passes back. Memory was wanting exactly where one of them met want of memory.
fn gather<'a, F: Field, P: Pass>(
    cells: &mut Cells<'a, F, P>,
    backs: Vec<Result<Cells<'a, F, P>, NoMemory>>,
) -> Result<(), NoMemory>
    requires works { Works F.model P.model cells.old [] [] }
    requires backs { HandBack F.model P.model cells.old backs.items }
    ensures here { OnOk result (IsFree F.model P.model cells.old cells.new) }
    ensures want { MatchResult result (λ _. MetWant backs.entry.items → ⊥) (λ _. MetWant backs.entry.items) }
{
    for back in backs {
        cells.join(back?);
    }
    Ok(())
}
