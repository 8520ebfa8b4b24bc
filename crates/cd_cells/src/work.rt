//! The turns of a worker: it advances the domain in hand, which rests and has its members posted, or arrives and gives way to its
//! parent.
ghost use Rattle.std.specs.Prelude.{◌≡◌, [], IfOk, OnOk, OnErr, IsTrue, IsFalse};
ghost use Rattle.cd_cells.specs.Working.{CanGoOn, Ends, HasResumed, RootIsHome, Sends, StillWorks, TurnsTo, WaitsFor, Works, plan_of};
ghost use Rattle.cd_cells.specs.Passes.{SameTable};

use crate::cell_pass::CellPass;
use crate::groups::{is_settled, siblings_of};
use crate::homing::Arrived;
use crate::start::Start;
use cd_base::NoMemory;
use cd_core::{NodeState, Step, returning_laws};
use cd_cover::Plan;
use cd_field::Field;
use cd_keep::Pass;
use cd_tree::{NodeId, laws};
use std::alloc::Global;
use std::sync::Wait;

type Cells<'a, F, P> = CellPass<Start<'a, F>, NodeState<F, P>>;

/// Where a worker notes each domain that it has posted, for itself or for others. What is noted is a hint: a claim decides.
pub trait Hints {
    /// Notes a domain that is ready.
    fn note(&mut self, node: NodeId) -> Result<(), NoMemory>;
}

impl Hints for Vec<NodeId> {
    fn note(&mut self, node: NodeId) -> Result<(), NoMemory> {
        self.push(node)?;
        Ok(())
    }
}

/// What a turn comes to: a domain is in hand that can go on; nothing is in hand; or nothing is, and the root has arrived.
#[derive(Drop)]
pub enum Turn<F, P> {
    GoesOn(NodeState<F, P>),
    Free,
    Over,
}

/// Works on a domain in hand, and then on each whose group it is the last of, until nothing is in hand: whether the root has arrived
/// then. After want of memory the pass can still stop.
pub fn work_on<'a, R: Wait, F: Field, P: Pass, H: Hints>(
    rt: &R,
    alloc: Global,
    plan: &Plan<'a>,
    cells: &mut Cells<'a, F, P>,
    hints: &mut H,
    mut state: NodeState<F, P>,
) -> Result<bool, NoMemory>
    requires plan { plan_of cells.old ≡ plan.now }
    requires goes { CanGoOn F.model P.model cells.old state }
    ensures free { OnOk result (Works F.model P.model cells.new [] []) }
    ensures over { IfOk result (λ over. IsTrue over → RootIsHome cells.new) }
    ensures still { OnErr result (StillWorks F.model P.model cells.new) }
    ensures same { SameTable cells.old cells.new }
{
    for _ in rt.forever() {
        match take_turn(rt, alloc, plan, cells, hints, state)? {
            Turn::GoesOn(next) => state = next,
            Turn::Free => return Ok(false),
            Turn::Over => return Ok(true),
        }
    }
    unreachable!()
}

// Moves the domain in hand on to its next group, whose members are sent, or to its end. Where its arrival is the last of its group,
// its parent is in hand then.
fn take_turn<'a, R: Wait, F: Field, P: Pass, H: Hints>(
    rt: &R,
    alloc: Global,
    plan: &Plan<'a>,
    cells: &mut Cells<'a, F, P>,
    hints: &mut H,
    mut state: NodeState<F, P>,
) -> Result<Turn<F, P>, NoMemory>
    requires plan { plan_of cells.old ≡ plan.now }
    requires goes { CanGoOn F.model P.model cells.old state }
    ensures next { IfOk result (TurnsTo F.model P.model cells.new) }
    ensures still { OnErr result (StillWorks F.model P.model cells.new) }
    ensures same { SameTable cells.old cells.new }
{
    match state.advance(rt, alloc, plan) {
        Step::Group(children) => {
            send_members(alloc, cells, hints, state, children)?;
            Ok(Turn::Free)
        }
        Step::Done => come_back(plan, cells, state),
        Step::Escalated => come_back(plan, cells, state),
        Step::NoMemory => Err(NoMemory),
    }
}

// Brings home the domain in hand, which has ended. Where it is the last of its group its parent takes the members back, and is in
// hand then.
fn come_back<'a, F: Field, P: Pass>(
    plan: &Plan<'a>,
    cells: &mut Cells<'a, F, P>,
    state: NodeState<F, P>,
) -> Result<Turn<F, P>, NoMemory>
    requires plan { plan_of cells.old ≡ plan.now }
    requires ends { Ends F.model P.model cells.old state }
    ensures next { IfOk result (TurnsTo F.model P.model cells.new) }
    ensures still { OnErr result (StillWorks F.model P.model cells.new) }
    ensures same { SameTable cells.old cells.new }
{
    laws::children_stand_once();
    is_settled(plan);
    let node = state.node;
    let parent = plan.tree().node(node).parent;
    let siblings = siblings_of(plan, node);
    match cells.arrive(node, parent, siblings, state) {
        Arrived::Last(mut above, members) => {
            take_members(plan, &mut above, members)?;
            Ok(Turn::GoesOn(above))
        }
        Arrived::NotLast => Ok(Turn::Free),
        Arrived::Root => Ok(Turn::Over),
    }
}

// Takes the members of a group back into their domain.
fn take_members<F: Field, P: Pass>(
    plan: &Plan,
    above: &mut NodeState<F, P>,
    members: Vec<NodeState<F, P>>,
) -> Result<(), NoMemory>
    requires { (faults : _) × (loaded : _) × (ask : _) × WaitsFor F.model P.model plan.now faults loaded ask above.old members.items }
    ensures { (faults : _) (loaded : _) (ask : _) → WaitsFor F.model P.model plan.now faults loaded ask above.old members.items → OnOk result (HasResumed F.model P.model plan.now faults loaded ask above.new) }
{
    returning_laws::arrived_members_can_be_taken();
    laws::the_nested_view_follows_the_list();
    is_settled(plan);
    above.resume(plan, members)?;
    Ok(())
}

// Puts the domain in hand to rest, and sends the members of its group; each is noted when it is ready. The list that they come back
// in is made before.
fn send_members<'a, F: Field, P: Pass, H: Hints>(
    alloc: Global,
    cells: &mut Cells<'a, F, P>,
    hints: &mut H,
    state: NodeState<F, P>,
    children: Vec<NodeState<F, P>>,
) -> Result<(), NoMemory>
    requires sends { Sends F.model P.model cells.old state children.items }
    ensures done { OnOk result (Works F.model P.model cells.new [] []) }
    ensures still { OnErr result (StillWorks F.model P.model cells.new) }
    ensures same { SameTable cells.old cells.new }
{
    let members = children.len() as u64;
    let list = Vec::with_capacity(alloc, children.len())?;
    cells.rest(state.node, state, members, list);
    for child in children {
        let node = child.node;
        cells.post(node, child);
        hints.note(node)?;
    }
    Ok(())
}
