// What a table of cells is opened for, and the states of domains as its rule has them.
ghost use Rattle.std.specs.Prelude.{◌≡◌, [], ◌∷◌, IfOk};
ghost use Rattle.cd_core.specs.Asks.{root_ask};
ghost use Rattle.cd_cells.specs.Working.{Works, plan_of};
ghost use Rattle.cd_cells.specs.Passes.{key_of};

use crate::cell_pass::CellPass;
use crate::rule::Shape;
use cd_base::NoMemory;
use cd_core::NodeState;
use cd_cover::Plan;
use cd_field::Field;
use cd_keep::Pass;
use cd_tree::{laws, limits};
use std::alloc::Global;
use std::snapshot::Snapshot;

/// The plan of a program, and the machine on which its root is started: its script, and the words that it was loaded with.
#[derive(Drop)]
pub struct Start<'a, F> {
    pub plan: Snapshot<Plan<'a>>,
    pub field: Snapshot<F>,
}

impl<'a, F: Field, P: Pass> Shape<Start<'a, F>> for NodeState<F, P> {
    ghost use Rattle.cd_core.specs.StateModel.{state_model};
    ghost use Rattle.cd_cells.specs.States.{states_of};

    ghost kind = { λ start. states_of (state_model F.model P.model) start.plan.value (F.model start.field.value).script (F.model start.field.value).words };
}

/// A pass at a new table of cells for a plan and the machine on which its root is to be started. No domain is sent, and the pass may
/// post the root.
pub fn open_cells<'a, F: Field, P: Pass>(
    alloc: Global,
    plan: &Plan<'a>,
    field: &F,
) -> Result<CellPass<Start<'a, F>, NodeState<F, P>>, NoMemory>
    ensures plan { IfOk result (λ pass. plan_of pass ≡ plan.now) }
    ensures field { IfOk result (λ pass. (key_of pass).field.value ≡ field.now) }
    ensures may { IfOk result (λ pass. Works F.model P.model pass [] (root_ask plan.now (F.model field.now).words ∷ [])) }
{
    laws::children_stand_once();
    laws::the_nested_view_follows_the_list();
    let start = Start {
        plan: Snapshot::of(plan),
        field: Snapshot::of(field),
    };
    let count = plan.tree().count();
    let cells = CellPass::open(alloc, &start, count, limits::MOST_MEMBERS as usize)?;
    Ok(cells)
}
