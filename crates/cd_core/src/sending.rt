// The members of a group, sent: to each its part of the machine and of the pass, its counts, and what is kept above it.
ghost use Rattle.std.specs.Prelude.{◌≡◌, ◌≤◌, ◌<◌, [], length, IfOk, OnOk, map};
ghost use Rattle.cd_field.specs.FieldModel.{ArePresent, without};
ghost use Rattle.cd_keep.specs.PassModel as passes;
ghost use Rattle.cd_cover.specs.PlanLaws.{need_of};
ghost use Rattle.cd_core.specs.Advancing.{all_sent, field_behind, members_at, pass_behind, sent, size_of};
ghost use Rattle.cd_core.specs.Asks.{counts_of, foot_of, levels_below};
ghost use Rattle.cd_core.specs.StateModel.{state_model};
ghost use Rattle.cd_core.specs.Trying.{AreBelow, CanSendAll, IsBelow};

use crate::{NodeState, Stage};
use cd_base::NoMemory;
use cd_cover::Plan;
use cd_field::Field;
use cd_keep::Pass;
use cd_tree::{Domain, Item, NodeId};
use cd_tries::{Level, Shelf};
use std::alloc::Global;

impl<F: Field, P: Pass> NodeState<F, P> {
    // Sends the members of a group, in order.
    pub(crate) fn send(
        &mut self,
        alloc: Global,
        plan: &Plan,
        ids: &[NodeId],
    ) -> Result<Vec<NodeState<F, P>>, NoMemory>
        requires below { AreBelow plan.now (state_model F.model P.model self.old) ids.now }
        requires can { CanSendAll plan.now ids.now (F.model self.old.field) (P.model self.old.pass) }
        ensures children { IfOk result (λ children. map (state_model F.model P.model) children.items ≡ all_sent plan.now (state_model F.model P.model self.old) ids.now (F.model self.old.field) (P.model self.old.pass)) }
        ensures stays { OnOk result (state_model F.model P.model self.new ≡ record (state_model F.model P.model self.old) { field = field_behind plan.now ids.now (F.model self.old.field); pass = pass_behind plan.now ids.now (P.model self.old.pass) }) }
    {
        let mut children = Vec::new(alloc);
        for id in ids {
            let child = self.send_one(alloc, plan, *id)?;
            children.push(child)?;
        }
        Ok(children)
    }

    // Sends one member.
    fn send_one(
        &mut self,
        alloc: Global,
        plan: &Plan,
        id: NodeId,
    ) -> Result<NodeState<F, P>, NoMemory>
        requires below { IsBelow plan.now (state_model F.model P.model self.old) id }
        requires reads { ArePresent (F.model self.old.field) (foot_of plan.now id).reads }
        requires writes { ArePresent (F.model self.old.field) (foot_of plan.now id).writes }
        requires room { need_of plan.now.tree.domains id ≤ (P.model self.old.pass).room }
        ensures child { IfOk result (λ child. state_model F.model P.model child ≡ sent plan.now (state_model F.model P.model self.old) id (F.model self.old.field) (P.model self.old.pass)) }
        ensures stays { OnOk result (state_model F.model P.model self.new ≡ record (state_model F.model P.model self.old) { field = without (F.model self.old.field) (foot_of plan.now id).writes; pass = passes.without (P.model self.old.pass) (need_of plan.now.tree.domains id) }) }
    {
        let counts = self.counts_for(alloc, plan, id)?;
        let above = self.levels_for_members(alloc)?;
        let feet = plan.feet();
        let field = self.field.carve(feet.reads(id), feet.writes(id))?;
        let pass = self.pass.split(plan.need(id))?;
        Ok(NodeState {
            node: id,
            counts,
            stage: Stage::Ready,
            keeps: Shelf::empty(),
            above,
            field,
            pass,
        })
    }

    // The counts of a domain below and of those below it.
    fn counts_for(&self, alloc: Global, plan: &Plan, id: NodeId) -> Result<Vec<u64>, NoMemory>
        requires below { IsBelow plan.now (state_model F.model P.model self.now) id }
        ensures { IfOk result (λ counts. counts.items ≡ counts_of self.now.node self.now.counts.items id (size_of plan.now id)) }
    {
        let low = (id.0 - self.node.0) as usize;
        let high = (plan.tree().end_of(id) - self.node.0) as usize;
        let counts = Vec::from_slice(alloc, &self.counts[low..high])?;
        Ok(counts)
    }

    // What is kept for the members: by this domain, then by the domains above.
    fn levels_for_members(&self, alloc: Global) -> Result<Vec<Level>, NoMemory>
        ensures { IfOk result (λ levels. levels.items ≡ levels_below (state_model F.model P.model self.now)) }
    {
        let mut levels = Vec::new(alloc);
        levels.push(Level {
            node: self.node,
            keeps: self.keeps.share()?,
        })?;
        for level in &self.above {
            levels.push(Level {
                node: level.node,
                keeps: level.keeps.share()?,
            })?;
        }
        Ok(levels)
    }
}

// The members of the group at a point.
pub(crate) fn members_at(domain: &Domain, point: u32) -> &[NodeId]
    requires { point < length domain.now.items }
    ensures { result.now ≡ members_at domain.now point }
{
    match &domain.items.items()[point as usize] {
        Item::Run(_) => &[],
        Item::Group(ids) => ids.items(),
    }
}
