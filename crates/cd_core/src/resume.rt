// Members that come back: the domain that waited for them goes on, or its try is over.
ghost use Rattle.std.specs.Prelude.{◌≡◌, ◌≤◌, ◌++◌, Some, OnOk, map, slice_get, IsSomeAnd};
ghost use Rattle.cd_core.specs.Asks.{EachAnswers};
ghost use Rattle.cd_core.specs.Advancing.{members_at};
ghost use Rattle.cd_core.specs.Fits.{Fits};
ghost use Rattle.cd_core.specs.Resuming.{CanTakeEach, all_done, first_escalation, nodes_of, resumed};
ghost use Rattle.cd_core.specs.Returning.{Stays, left_in};
ghost use Rattle.cd_core.specs.Stands.{Stands};
ghost use Rattle.cd_core.specs.StateModel.{state_model};
ghost use Rattle.cd_core.specs.Steps.{CanMove, IsWaiting, waits_at};
ghost use Rattle.cd_core.specs.Tasks.{Task};

use crate::{NodeState, returning_laws, taking_laws};
use cd_base::NoMemory;
use cd_cover::Plan;
use cd_field::Field;
use cd_keep::Pass;

impl<F: Field, P: Pass> NodeState<F, P> {
    /// Takes the members of the group back, in order: all are committed, or, where one escalated, none. After want of memory
    /// the state may only be dropped.
    pub fn resume(&mut self, plan: &Plan, children: Vec<NodeState<F, P>>) -> Result<(), NoMemory>
        requires fits { Fits plan.now (state_model F.model P.model self.old) }
        requires waits { IsWaiting self.old.stage }
        requires members { IsSomeAnd (slice_get plan.now.tree.domains self.old.node.0) (λ domain. nodes_of (map (state_model F.model P.model) children.items) ≡ members_at domain (waits_at self.old.stage)) }
        requires takes { CanTakeEach plan.now (state_model F.model P.model self.old) (all_done (first_escalation (map (state_model F.model P.model) children.items))) (map (state_model F.model P.model) children.items) }
        ensures exact { OnOk result (IsSomeAnd (slice_get plan.now.tree.domains self.old.node.0) (λ domain. state_model F.model P.model self.new ≡ resumed (state_model F.model P.model self.old) domain (map (state_model F.model P.model) children.items))) }
        ensures fits { OnOk result (Fits plan.now (state_model F.model P.model self.new)) }
        ensures stands { OnOk result ((t : Task) → Stands plan.now t (state_model F.model P.model self.old) → EachAnswers plan.now t.faults t.loaded (state_model F.model P.model self.old) (map (state_model F.model P.model) children.items) → Stands plan.now t (state_model F.model P.model self.new)) }
        ensures stays { OnOk result (Stays (state_model F.model P.model self.old) (state_model F.model P.model self.new)) }
        ensures onward { OnOk result (left_in plan.now (state_model F.model P.model self.new) ≤ left_in plan.now (state_model F.model P.model self.old)) }
        ensures moves { OnOk result (CanMove self.new.stage) }
    {
        taking_laws::members_can_be_taken();
        taking_laws::resuming_fits();
        returning_laws::resuming_stands();
        self.take_group(plan.tree().node(self.node), children)?;
        Ok(())
    }
}
