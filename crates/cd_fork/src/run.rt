//! A program, run from its root to its end.
ghost use Rattle.std.specs.Prelude.{◌≡◌, IfOk};
ghost use Rattle.cd_core.specs.StateLaws.{CanStart};
ghost use Rattle.cd_core.specs.Steps.{IsEnded, IsOutcome};
ghost use Rattle.cd_core.specs.Running.{FewBegins, RanTo};

use crate::turns::{is_settled, run_domain};
use cd_base::NoMemory;
use cd_core::{NodeState, Outcome, start_root};
use cd_cover::Plan;
use cd_field::Field;
use cd_keep::Pass;
use cd_tree::laws;
use std::alloc::Global;
use std::sync::Wait;
use std::thread::Threads;

/// Runs the program of a plan on a machine that was carved for its root, with a pass that has the room which the root needs.
///
/// `workers` is the most threads at once, this one among them; 0 is as 1. It changes nothing that is said of the outcome.
/// After want of memory the machine and the pass are dropped.
pub fn run_root<R: Threads + Wait + Sync, F: Field, P: Pass>(
    rt: &R,
    alloc: Global,
    plan: &Plan,
    field: F,
    pass: P,
    workers: u32,
) -> Result<Outcome<F>, NoMemory>
    requires { CanStart plan.now (F.model field) (P.model pass) }
    ensures ran { IfOk result (RanTo F.model plan.now (F.model field)) }
    ensures few { IfOk result (FewBegins (F.model field)) }
{
    laws::counts_are_at_most_one_more_than_entries();
    is_settled(plan);
    let root = start_root(alloc, plan, field, pass)?;
    let ended = run_domain(rt, alloc, plan, root, workers)?;
    Ok(outcome_of(ended))
}

// What a root came to that has ended.
fn outcome_of<F, P: Drop>(root: NodeState<F, P>) -> Outcome<F>
    requires root { root.node.0 ≡ 0 }
    requires ended { IsEnded root.stage }
    ensures { IsOutcome root result root.stage }
{
    root.finish()
}
