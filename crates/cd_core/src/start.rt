// The state with which the root is started.
ghost use Rattle.std.specs.Prelude.{◌≡◌, ◌≤◌, IfOk};
ghost use Rattle.cd_core.specs.Fits.{Fits};
ghost use Rattle.cd_core.specs.StateLaws.{CanStart};
ghost use Rattle.cd_core.specs.Stands.{Stands};
ghost use Rattle.cd_core.specs.StateModel.{state_model};
ghost use Rattle.cd_core.specs.Steps.{root_state, root_task};

use crate::{NodeState, Stage, asking_laws, trying_laws};
use cd_base::NoMemory;
use cd_cover::Plan;
use cd_field::Field;
use cd_keep::Pass;
use cd_reading::no_begins;
use cd_tree::NodeId;
use cd_tries::Shelf;
use std::alloc::Global;

/// The state of the root, before it has begun. After want of memory the machine and the pass are dropped.
pub fn start_root<F: Field, P: Pass>(
    alloc: Global,
    plan: &Plan,
    field: F,
    pass: P,
) -> Result<NodeState<F, P>, NoMemory>
    requires { CanStart plan.now (F.model field) (P.model pass) }
    ensures exact { IfOk result (λ state. state_model F.model P.model state ≡ root_state plan.now (F.model field) (P.model pass)) }
    ensures fits { IfOk result (λ state. Fits plan.now (state_model F.model P.model state)) }
    ensures stands { IfOk result (λ state. Stands plan.now (root_task plan.now (F.model field)) (state_model F.model P.model state)) }
{
    trying_laws::starting_fits();
    asking_laws::starting_stands();
    room_is_within(&pass);
    let counts = no_begins(alloc, plan.tree().count())?;
    Ok(NodeState {
        node: NodeId(0),
        counts,
        stage: Stage::Ready,
        keeps: Shelf::empty(),
        above: Vec::new(alloc),
        field,
        pass,
    })
}

// A pass has no more room than the first was opened with.
fn room_is_within<P: Pass>(pass: &P)
    ensures { (P.model pass.now).room ≤ (P.model pass.now).most }
{}
