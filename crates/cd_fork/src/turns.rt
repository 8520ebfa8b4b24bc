// One domain, taken to its end: turn by turn it moves on to its next group, has the members run, and takes them back.
ghost use Rattle.std.specs.Prelude.{IfOk};
ghost use Rattle.cd_cover.specs.Plans.{IsPlan};
ghost use Rattle.cd_core.specs.StateModel.{state_model};
ghost use Rattle.cd_core.specs.Returning.{CameBack};
ghost use Rattle.cd_fork.specs.Onward.{CanRun, Turned};

use crate::siblings::run_members;
use cd_base::NoMemory;
use cd_core::{NodeState, Step, returning_laws};
use cd_cover::Plan;
use cd_field::Field;
use cd_keep::Pass;
use std::alloc::Global;
use std::sync::Wait;
use std::thread::Threads;

/// Runs a domain from where it is to its end, with at most so many threads at once.
#[cycle(run)]
pub(crate) fn run_domain<R: Threads + Wait + Sync, F: Field, P: Pass>(
    rt: &R,
    alloc: Global,
    plan: &Plan,
    mut state: NodeState<F, P>,
    workers: u32,
) -> Result<NodeState<F, P>, NoMemory>
    requires { CanRun plan.now (state_model F.model P.model state) }
    ensures { IfOk result (λ ended. CameBack plan.now (state_model F.model P.model state) (state_model F.model P.model ended)) }
{
    while !take_turn(rt, alloc, plan, &mut state, workers)? {}
    Ok(state)
}

// Moves a domain on behind its next group, or to its end; whether it has ended. All members are run, even where one escalates.
#[cycle(run)]
fn take_turn<R: Threads + Wait + Sync, F: Field, P: Pass>(
    rt: &R,
    alloc: Global,
    plan: &Plan,
    state: &mut NodeState<F, P>,
    workers: u32,
) -> Result<bool, NoMemory>
    requires { CanRun plan.now (state_model F.model P.model state.old) }
    ensures { IfOk result (λ over. Turned plan.now (state_model F.model P.model state.old) (state_model F.model P.model state.new) over) }
{
    returning_laws::members_come_back();
    is_settled(plan);
    match state.advance(rt, alloc, plan) {
        Step::Group(children) => {
            let back = run_members(rt, alloc, plan, children, workers)?;
            state.resume(plan, back)?;
            Ok(false)
        }
        Step::Done => Ok(true),
        Step::Escalated => Ok(true),
        Step::NoMemory => Err(NoMemory),
    }
}

/// A plan is sound.
pub(crate) fn is_settled(plan: &Plan)
    ensures { IsPlan plan.now }
{
    prove!(0 < plan.tree().count());
}
