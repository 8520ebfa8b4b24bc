// The members of a group, each run to its end: at the same time as far as there are workers, else one after another.
ghost use Rattle.std.specs.Prelude.{IfOk, map};
ghost use Rattle.std.specs.Thread.{IsSend, IsSync};
ghost use Rattle.cd_core.specs.StateModel.{state_model};
ghost use Rattle.cd_core.specs.Returning.{EachCameBack};
ghost use Rattle.cd_fork.specs.Onward.{EachCanRun};

use crate::turns::run_domain;
use cd_base::NoMemory;
use cd_core::NodeState;
use cd_cover::Plan;
use cd_field::Field;
use cd_keep::Pass;
use std::alloc::Global;
use std::sync::Wait;
use std::thread::{Threads, join};

/// Runs each of these domains to its end, in halves, with at most so many threads at once.
#[cycle(run)]
pub(crate) fn run_members<R: Threads + Wait + Sync, F: Field, P: Pass>(
    rt: &R,
    alloc: Global,
    plan: &Plan,
    mut low: Vec<NodeState<F, P>>,
    workers: u32,
) -> Result<Vec<NodeState<F, P>>, NoMemory>
    requires { EachCanRun plan.now (map (state_model F.model P.model) low.items) }
    ensures { IfOk result (λ ended. EachCameBack plan.now (map (state_model F.model P.model) low.items) (map (state_model F.model P.model) ended.items)) }
{
    if workers < 2 || low.len() < 2 {
        return run_in_turn(rt, alloc, plan, low, workers);
    }
    let high = low.split_off(low.len() / 2)?;
    let few = workers / 2;
    let rest = workers - few;
    let front = move || -> Result<Vec<NodeState<F, P>>, NoMemory>
        requires { IsSync R.row × IsSend F.row × IsSend P.row × EachCanRun plan.now (map (state_model F.model P.model) low.items) }
        ensures { IfOk result (λ ended. EachCameBack plan.entry.now (map (state_model F.model P.model) low.items) (map (state_model F.model P.model) ended.items)) }
    { run_members(rt, alloc, plan, low, few) };
    let back = move || -> Result<Vec<NodeState<F, P>>, NoMemory>
        requires { IsSync R.row × IsSend F.row × IsSend P.row × EachCanRun plan.now (map (state_model F.model P.model) high.items) }
        ensures { IfOk result (λ ended. EachCameBack plan.entry.now (map (state_model F.model P.model) high.items) (map (state_model F.model P.model) ended.items)) }
    { run_members(rt, alloc, plan, high, rest) };
    let (first, second) = join(rt, front, back);
    let mut all = first?;
    let mut more = second?;
    all.append(&mut more)?;
    Ok(all)
}

// Runs each of these domains to its end, one after another.
#[cycle(run)]
fn run_in_turn<R: Threads + Wait + Sync, F: Field, P: Pass>(
    rt: &R,
    alloc: Global,
    plan: &Plan,
    states: Vec<NodeState<F, P>>,
    workers: u32,
) -> Result<Vec<NodeState<F, P>>, NoMemory>
    requires { EachCanRun plan.now (map (state_model F.model P.model) states.items) }
    ensures { IfOk result (λ ended. EachCameBack plan.now (map (state_model F.model P.model) states.items) (map (state_model F.model P.model) ended.items)) }
{
    let mut done = Vec::new(alloc);
    for state in states {
        let back = run_domain(rt, alloc, plan, state, workers)?;
        done.push(back)?;
    }
    Ok(done)
}
