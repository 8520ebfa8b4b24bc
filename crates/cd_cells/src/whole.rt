//! A run as a whole: how it begins, and what it comes to once the root has arrived.
ghost use Rattle.std.specs.Prelude.{◌≡◌, ◌≤◌, [], ◌∷◌, IfOk, OnOk};
ghost use Rattle.cd_core.specs.Asks.{root_ask};
ghost use Rattle.cd_core.specs.Running.{FewBegins, RanTo};
ghost use Rattle.cd_core.specs.StateLaws.{CanStart};
ghost use Rattle.cd_core.specs.Steps.{IsEnded, IsOutcome};
ghost use Rattle.cd_cells.specs.Working.{HasStarted, RootEnded, Works, plan_of, was_of};
ghost use Rattle.cd_cells.specs.Passes.{SameTable, key_of};

use crate::cell_pass::CellPass;
use crate::groups::is_settled;
use crate::start::{Start, open_cells};
use cd_base::NoMemory;
use cd_core::{NodeState, Outcome, returning_laws, start_root};
use cd_cover::Plan;
use cd_field::Field;
use cd_keep::Pass;
use cd_tree::{NodeId, laws};
use std::alloc::Global;
use std::sync::Wait;

/// A pass at a new table of cells, on which the root of a program is started and posted: with a machine that was carved for it, and
/// a pass of copies that has the room which it needs. After want of memory both are dropped.
pub fn start_run<'a, F: Field, P: Pass>(
    alloc: Global,
    plan: &Plan<'a>,
    field: F,
    pass: P,
) -> Result<CellPass<Start<'a, F>, NodeState<F, P>>, NoMemory>
    requires { CanStart plan.now (F.model field) (P.model pass) }
    ensures works { IfOk result (λ cells. Works F.model P.model cells [] []) }
    ensures started { IfOk result (λ cells. HasStarted F.model plan.now (key_of cells)) }
    ensures machine { IfOk result (λ cells. was_of F.model cells ≡ F.model field) }
{
    let mut cells = open_cells(alloc, plan, &field)?;
    post_root(alloc, plan, field, pass, &mut cells)?;
    Ok(cells)
}

// Starts the root on the machine for which a table was opened, and posts it.
pub(crate) fn post_root<'a, F: Field, P: Pass>(
    alloc: Global,
    plan: &Plan<'a>,
    field: F,
    pass: P,
    cells: &mut CellPass<Start<'a, F>, NodeState<F, P>>,
) -> Result<(), NoMemory>
    requires can { CanStart plan.now (F.model field) (P.model pass) }
    requires plan { plan_of cells.old ≡ plan.now }
    requires field { (key_of cells.old).field.value ≡ field }
    requires may { Works F.model P.model cells.old [] (root_ask plan.now (F.model field).words ∷ []) }
    ensures works { OnOk result (Works F.model P.model cells.new [] []) }
    ensures same { SameTable cells.old cells.new }
{
    returning_laws::roots_answer_and_have_run();
    is_settled(plan);
    room_is_within(&pass);
    let root = start_root(alloc, plan, field, pass)?;
    cells.post(NodeId(0), root);
    Ok(())
}

/// Waits until the root has arrived, and takes it: what the run came to.
pub fn end_run<'a, R: Wait, F: Field, P: Pass>(
    rt: &R,
    plan: &Plan<'a>,
    cells: &mut CellPass<Start<'a, F>, NodeState<F, P>>,
) -> Outcome<F>
    requires works { Works F.model P.model cells.old [] [] }
    requires started { HasStarted F.model plan.now (key_of cells.old) }
    ensures ran { RanTo F.model plan.now (was_of F.model cells.old) result }
    ensures few { FewBegins (was_of F.model cells.old) result }
{
    laws::counts_are_at_most_one_more_than_entries();
    returning_laws::roots_answer_and_have_run();
    is_settled(plan);
    let root = take_root(rt, cells);
    outcome_of(root)
}

// Takes the root when it has arrived. A close that comes too early is tried again.
fn take_root<'a, R: Wait, F: Field, P: Pass>(
    rt: &R,
    cells: &mut CellPass<Start<'a, F>, NodeState<F, P>>,
) -> NodeState<F, P>
    requires works { Works F.model P.model cells.old [] [] }
    ensures { RootEnded F.model P.model cells.old result }
{
    for _ in rt.forever() {
        if let Some(root) = cells.close() {
            return root;
        }
    }
    unreachable!()
}

// A pass has no more room than the first was opened with.
fn room_is_within<P: Pass>(pass: &P)
    ensures { (P.model pass.now).room ≤ (P.model pass.now).most }
{}

// What a root came to that has ended.
fn outcome_of<F, P: Drop>(root: NodeState<F, P>) -> Outcome<F>
    requires root { root.node.0 ≡ 0 }
    requires ended { IsEnded root.stage }
    ensures { IsOutcome root result root.stage }
{
    root.finish()
}
