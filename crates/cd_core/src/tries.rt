// The tries of a domain: the first, which begins by preserving its entries, or those that are left.
ghost use Rattle.std.specs.Prelude.{◌≡◌, ◌<◌, suc, length, slice_get, slice_set, Some, IfOk, OnOk};
ghost use Rattle.cd_tree.specs.KindSets.{halting};
ghost use Rattle.cd_tree.specs.Reading.{blame};
ghost use Rattle.cd_tries.specs.Fitting.{ArePresentIn};
ghost use Rattle.cd_tries.specs.Running.{next_begin, tried_again, tried_from, tries_from};
ghost use Rattle.cd_core.specs.Advancing.{BeginsSo, judged_course, means_of, own_count, verdict_of};
ghost use Rattle.cd_core.specs.Stands.{named};
ghost use Rattle.cd_core.specs.StateModel.{state_model};
ghost use Rattle.cd_core.specs.Trying.{CanBegin, CanGoOn, CanMakeTries, TriedFrom};
ghost use Rattle.cd_core.specs.declared.state.Stage.TheVariants.{Ready, Resumed, Lost};
ghost use Rattle.cd_core.specs.declared.verdict.Verdict.TheVariants.{Escalates};

use crate::verdict::Verdict;
use crate::{NodeState, Stage};
use cd_base::NoMemory;
use cd_cover::Plan;
use cd_field::Field;
use cd_keep::Pass;
use cd_reading::path_of;
use cd_tree::{Cause, Domain, Kinds, NodeId, halting};
use cd_tries::{Attempt, Course, Stop, go_on, keep_laws, preserve, try_again};
use std::alloc::Global;
use std::mem::replace;
use std::sync::Wait;

impl<F: Field, P: Pass> NodeState<F, P> {
    // Makes the tries that are due, up to a group or to the end of the last. The stage is taken.
    pub(crate) fn make_tries<R: Wait>(
        &mut self,
        rt: &R,
        alloc: Global,
        plan: &Plan,
        domain: &Domain,
    ) -> Result<Verdict, NoMemory>
        requires domain { slice_get plan.now.tree.domains self.old.node.0 ≡ Some domain.now }
        requires can { CanMakeTries plan.now domain.now (state_model F.model P.model self.old) self.old.stage }
        ensures { IfOk result (λ verdict. TriedFrom self.old.stage plan.now domain.now (state_model F.model P.model self.old) (state_model F.model P.model self.new) verdict) }
    {
        match replace(&mut self.stage, Stage::Ready) {
            Stage::Ready => self.first_tries(rt, alloc, plan, domain),
            Stage::Resumed { spare, point } => self.tries_after_group(
                alloc, plan, domain, spare, point,
            ),
            Stage::Lost { spare, cause, over } => self.tries_after_loss(
                alloc, plan, domain, spare, cause, over,
            ),
            Stage::Waiting { .. } => unreachable!(),
            Stage::Ended(_) => unreachable!(),
        }
    }

    // The first try, and those that follow.
    fn first_tries<R: Wait>(
        &mut self,
        rt: &R,
        alloc: Global,
        plan: &Plan,
        domain: &Domain,
    ) -> Result<Verdict, NoMemory>
        requires domain { slice_get plan.now.tree.domains self.old.node.0 ≡ Some domain.now }
        requires can { CanBegin plan.now domain.now (state_model F.model P.model self.old) }
        ensures { IfOk result (λ verdict. TriedFrom Ready plan.now domain.now (state_model F.model P.model self.old) (state_model F.model P.model self.new) verdict) }
    {
        let course = self.begin_tries(rt, alloc, plan, domain)?;
        self.rule(alloc, plan, course)
    }

    // The rest of a try after the group at a point, and the tries that follow.
    fn tries_after_group(
        &mut self,
        alloc: Global,
        plan: &Plan,
        domain: &Domain,
        spare: u32,
        point: u32,
    ) -> Result<Verdict, NoMemory>
        requires domain { slice_get plan.now.tree.domains self.old.node.0 ≡ Some domain.now }
        requires can { CanGoOn plan.now domain.now (state_model F.model P.model self.old) }
        requires present { ArePresentIn domain.now.entries (F.model self.old.field) }
        requires point { point < length domain.now.items }
        ensures { IfOk result (λ verdict. TriedFrom (Resumed spare point) plan.now domain.now (state_model F.model P.model self.old) (state_model F.model P.model self.new) verdict) }
    {
        let course = self.go_on_after(plan, domain, spare, point)?;
        self.rule(alloc, plan, course)
    }

    // After a try that a member's escalation ended: another, where nothing is left to declare and one is to spare.
    fn tries_after_loss(
        &mut self,
        alloc: Global,
        plan: &Plan,
        domain: &Domain,
        spare: u32,
        cause: Cause,
        over: Kinds,
    ) -> Result<Verdict, NoMemory>
        requires domain { slice_get plan.now.tree.domains self.old.node.0 ≡ Some domain.now }
        requires can { CanGoOn plan.now domain.now (state_model F.model P.model self.old) }
        ensures { IfOk result (λ verdict. TriedFrom (Lost spare cause over) plan.now domain.now (state_model F.model P.model self.old) (state_model F.model P.model self.new) verdict) }
    {
        if spare == 0 {
            return Ok(Verdict::Escalates { cause, over });
        }
        if !over.is_none() {
            return Ok(Verdict::Escalates { cause, over });
        }
        let course = self.try_once_more(plan, domain, spare - 1)?;
        self.rule(alloc, plan, course)
    }

    // The first begin: the entries are preserved, and the first try runs, and those that follow.
    fn begin_tries<R: Wait>(
        &mut self,
        rt: &R,
        alloc: Global,
        plan: &Plan,
        domain: &Domain,
    ) -> Result<Course, NoMemory>
        requires domain { slice_get plan.now.tree.domains self.old.node.0 ≡ Some domain.now }
        requires can { CanBegin plan.now domain.now (state_model F.model P.model self.old) }
        ensures so { IfOk result (λ course. BeginsSo plan.now domain.now (state_model F.model P.model self.old) self.new.keeps (P.model self.new.pass) (judged_course plan.now self.old.node (record { field = F.model self.new.field; course = course }))) }
        ensures stays { OnOk result (state_model F.model P.model self.new ≡ record (state_model F.model P.model self.old) { keeps = self.new.keeps; field = F.model self.new.field; pass = P.model self.new.pass }) }
    {
        keep_laws::what_is_preserved_is_held();
        let number = self.counts[0].saturating_add(1);
        self.field.begin(self.node, number)?;
        self.keeps = preserve(
            rt,
            alloc,
            plan,
            self.node,
            domain,
            self.above.as_slice(),
            &mut self.field,
            &mut self.pass,
        )?;
        let attempt = Attempt {
            node: self.node,
            domain,
            halts: halting(plan.tree().kinds()),
            keeps: self.keeps.keeps(),
        };
        go_on(
            &attempt,
            domain.retry - 1,
            number,
            0,
            &mut self.field,
            &mut self.pass,
        )
    }

    // Goes on with a try after the group at a point, and with those that follow.
    fn go_on_after(
        &mut self,
        plan: &Plan,
        domain: &Domain,
        spare: u32,
        point: u32,
    ) -> Result<Course, NoMemory>
        requires can { CanGoOn plan.now domain.now (state_model F.model P.model self.old) }
        requires present { ArePresentIn domain.now.entries (F.model self.old.field) }
        requires point { point < length domain.now.items }
        ensures so { IfOk result (λ course. record { field = F.model self.new.field; course = course } ≡ tries_from (means_of plan.now domain.now self.old.node (P.model self.old.pass).known self.old.keeps) spare (own_count (state_model F.model P.model self.old)) (tried_from (halting plan.now.tree.kinds) domain.now (F.model self.old.field) (suc point))) }
        ensures stays { OnOk result (state_model F.model P.model self.new ≡ record (state_model F.model P.model self.old) { field = F.model self.new.field }) }
    {
        let number = self.counts[0];
        let attempt = Attempt {
            node: self.node,
            domain,
            halts: halting(plan.tree().kinds()),
            keeps: self.keeps.keeps(),
        };
        go_on(
            &attempt,
            spare,
            number,
            point + 1,
            &mut self.field,
            &mut self.pass,
        )
    }

    // Makes a later try after one that a member's escalation ended, and those that follow.
    fn try_once_more(
        &mut self,
        plan: &Plan,
        domain: &Domain,
        spare: u32,
    ) -> Result<Course, NoMemory>
        requires can { CanGoOn plan.now domain.now (state_model F.model P.model self.old) }
        ensures so { IfOk result (λ course. record { field = F.model self.new.field; course = course } ≡ tries_from (means_of plan.now domain.now self.old.node (P.model self.old.pass).known self.old.keeps) spare (next_begin (own_count (state_model F.model P.model self.old))) (tried_again (means_of plan.now domain.now self.old.node (P.model self.old.pass).known self.old.keeps) (next_begin (own_count (state_model F.model P.model self.old))) (F.model self.old.field))) }
        ensures stays { OnOk result (state_model F.model P.model self.new ≡ record (state_model F.model P.model self.old) { field = F.model self.new.field }) }
    {
        let number = self.counts[0];
        let attempt = Attempt {
            node: self.node,
            domain,
            halts: halting(plan.tree().kinds()),
            keeps: self.keeps.keeps(),
        };
        try_again(&attempt, spare, number, &mut self.field, &mut self.pass)
    }

    // Takes the number of the last begin for the domain's count, and says what comes of its tries.
    fn rule(&mut self, alloc: Global, plan: &Plan, course: Course) -> Result<Verdict, NoMemory>
        requires node { self.old.node.0 < length plan.now.tree.domains }
        requires counts { 0 < length self.old.counts.items }
        ensures verdict { IfOk result (λ verdict. verdict ≡ verdict_of plan.now self.old.node course.spare course.stop) }
        ensures stays { state_model F.model P.model self.new ≡ record (state_model F.model P.model self.old) { counts = slice_set self.old.counts.items 0 course.begin } }
    {
        self.counts[0] = course.begin;
        verdict_of(alloc, plan, self.node, course.spare, course.stop)
    }
}

// What comes of tries, by what stops the domain.
fn verdict_of(
    alloc: Global,
    plan: &Plan,
    node: NodeId,
    spare: u32,
    stop: Stop,
) -> Result<Verdict, NoMemory>
    requires node { node.0 < length plan.now.tree.domains }
    ensures { IfOk result (λ verdict. verdict ≡ verdict_of plan.now node spare stop) }
{
    match stop {
        Stop::Group(point) => Ok(Verdict::Waits { spare, point }),
        Stop::Passed(leak) => Ok(Verdict::Completes(leak)),
        Stop::Failed(kinds) => escalation(alloc, plan, node, kinds, Kinds::none()),
        Stop::Broken(kinds, over) => escalation(alloc, plan, node, kinds, over),
    }
}

// The escalation of a domain.
fn escalation(
    alloc: Global,
    plan: &Plan,
    node: NodeId,
    kinds: Kinds,
    over: Kinds,
) -> Result<Verdict, NoMemory>
    requires node { node.0 < length plan.now.tree.domains }
    ensures { IfOk result (λ verdict. verdict ≡ Escalates (named plan.now (blame node kinds)) over) }
{
    let path = path_of(alloc, plan.tree(), node)?;
    Ok(Verdict::Escalates {
        cause: Cause { path, kinds },
        over,
    })
}
