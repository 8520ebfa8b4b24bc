//! How many blocks the run of a whole program needs.

ghost use Rattle.std.specs.Prelude.{◌≡◌, ◌≤◌};
ghost use Rattle.cd_tree.specs.Limits.{need_limit};
ghost use Rattle.cd_app.specs.Running.{need_of};

use cd_cover::Plan;
use cd_tree::NodeId;

// The blocks that a run of the whole program needs.
pub(crate) fn whole_need(plan: &Plan) -> u32
    ensures value { result ≡ need_of plan.now.tree }
    ensures within { result ≤ need_limit }
{
    prove!(0 < plan.tree().count());
    plan.need(NodeId(0))
}
