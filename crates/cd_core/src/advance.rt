// A domain goes on: its tries are made up to the next group, whose members are sent, or to its end.
ghost use Rattle.std.specs.Prelude.{◌≡◌, Some, slice_get, IfOk, OnOk};
ghost use Rattle.cd_tree.specs.Domains.{node, body_by, node_of};
ghost use Rattle.cd_cover.specs.Plans.{IsPlan};
ghost use Rattle.cd_core.specs.Bounds.{LapsesAnswered, StaysOutside};
ghost use Rattle.cd_core.specs.Fits.{Fits};
ghost use Rattle.cd_core.specs.Returning.{GoesOn, StaysBehind};
ghost use Rattle.cd_core.specs.StateLaws.{Concludes};
ghost use Rattle.cd_core.specs.StateModel.{state_model};
ghost use Rattle.cd_core.specs.Stands.{Stands};
ghost use Rattle.cd_core.specs.Steps.{CanMove, step_model, Advances, AdvancesBy, FitsBehind, StandsBehind};
ghost use Rattle.cd_core.specs.Tasks.{Task};
ghost use Rattle.cd_core.specs.Trying.{FitsTried};

use crate::advancing_laws::{
    advancing_answers_lapses, advancing_fits, advancing_goes_on, advancing_stands, advancing_stays,
    advancing_stays_inside,
};
use crate::laws_below::laws_below;
use crate::sending::members_at;
use crate::sending_laws::groups_can_be_sent;
use crate::trying_laws::{tries_can_be_made, tries_fit};
use crate::verdict::Verdict;
use crate::{NodeState, Stage, Step};
use cd_base::NoMemory;
use cd_cover::Plan;
use cd_field::Field;
use cd_keep::Pass;
use cd_tree::Domain;
use std::alloc::Global;
use std::sync::Wait;

impl<F: Field, P: Pass> NodeState<F, P> {
    /// Runs the domain up to its next group, or to its end. After want of memory the state may only be dropped.
    ///
    /// It costs what the words that are preserved, put back and computed cost, and the points and entries; a group costs what
    /// its members' footprints cost. It waits only where the pass does.
    pub fn advance<R: Wait>(&mut self, rt: &R, alloc: Global, plan: &Plan) -> Step<F, P>
        requires fits { Fits plan.now (state_model F.model P.model self.old) }
        requires moves { CanMove self.old.stage }
        ensures exact { Advances plan.now (state_model F.model P.model self.old) (state_model F.model P.model self.new) (step_model F.model P.model result) }
        ensures fits { FitsBehind plan.now (state_model F.model P.model self.new) (step_model F.model P.model result) }
        ensures stands { (t : Task) → Stands plan.now t (state_model F.model P.model self.old) → StandsBehind plan.now t (state_model F.model P.model self.new) (step_model F.model P.model result) }
        ensures stays { StaysBehind (state_model F.model P.model self.old) (state_model F.model P.model self.new) (step_model F.model P.model result) }
        ensures onward { GoesOn plan.now (state_model F.model P.model self.old) (state_model F.model P.model self.new) (step_model F.model P.model result) }
        ensures outside { StaysOutside plan.now (state_model F.model P.model self.old) (state_model F.model P.model self.new) (step_model F.model P.model result) }
        ensures lapses { LapsesAnswered plan.now (state_model F.model P.model self.old) (state_model F.model P.model self.new) (step_model F.model P.model result) }
    {
        advancing_fits();
        advancing_stands();
        advancing_stays();
        advancing_goes_on();
        advancing_stays_inside();
        advancing_answers_lapses();
        match self.move_on(rt, alloc, plan) {
            Ok(step) => step,
            Err(NoMemory) => Step::NoMemory,
        }
    }

    // Makes the tries that are due, and takes the step that they come to.
    fn move_on<R: Wait>(
        &mut self,
        rt: &R,
        alloc: Global,
        plan: &Plan,
    ) -> Result<Step<F, P>, NoMemory>
        requires fits { Fits plan.now (state_model F.model P.model self.old) }
        requires moves { CanMove self.old.stage }
        ensures exact { IfOk result (λ step. AdvancesBy plan.now (state_model F.model P.model self.old) (state_model F.model P.model self.new) (step_model F.model P.model step)) }
        ensures plan { OnOk result (IsPlan plan.now) }
    {
        laws_below();
        tries_can_be_made();
        tries_fit();
        let tree = plan.tree();
        let domain = tree.node(self.node);
        let verdict = self.make_tries(rt, alloc, plan, domain)?;
        let step = self.conclude(alloc, plan, domain, verdict)?;
        Ok(step)
    }

    // Takes the step of a verdict.
    fn conclude(
        &mut self,
        alloc: Global,
        plan: &Plan,
        domain: &Domain,
        verdict: Verdict,
    ) -> Result<Step<F, P>, NoMemory>
        requires plan { IsPlan plan.now }
        requires domain { slice_get plan.now.tree.domains self.old.node.0 ≡ Some domain.now }
        requires fits { FitsTried plan.now (node self.old.node domain.now (body_by (node_of plan.now.tree.domains) domain.now.items)) domain.now (state_model F.model P.model self.old) verdict }
        ensures { IfOk result (λ step. Concludes plan.now domain.now (state_model F.model P.model self.old) verdict (state_model F.model P.model self.new) (step_model F.model P.model step)) }
    {
        laws_below();
        groups_can_be_sent();
        match verdict {
            Verdict::Waits { spare, point } => {
                let children = self.send(alloc, plan, members_at(domain, point))?;
                self.stage = Stage::Waiting { spare, point };
                Ok(Step::Group(children))
            }
            Verdict::Completes(leak) => {
                self.complete(leak)?;
                Ok(Step::Done)
            }
            Verdict::Escalates { cause, over } => {
                self.escalate(domain, cause, over)?;
                Ok(Step::Escalated)
            }
        }
    }
}
