// The members of a group, taken back: of each its record, its room and its counts, and what its escalation leaves over.
ghost use Rattle.std.specs.Prelude.{◌≡◌, ◌+◌, ◌-◌, ◌≤◌, Some, length, map, IfOk, OnOk};
ghost use Rattle.cd_core.specs.Resuming.{all_done, escalation, first_escalation, put_at, resumed, with_more};
ghost use Rattle.cd_core.specs.StateModel.{state_model};
ghost use Rattle.cd_core.specs.Steps.{IsWaiting};
ghost use Rattle.cd_core.specs.TakingBack.{CanTakeAll, CanTakeNext, stage_after, took, took_all};

use crate::{Ending, NodeState, Stage};
use cd_base::NoMemory;
use cd_field::Field;
use cd_keep::Pass;
use cd_tree::{Cause, Domain, Kinds, NodeId};

impl<F: Field, P: Pass> NodeState<F, P> {
    // Takes the members of the group back: all are committed, or, where one escalated, none.
    pub(crate) fn take_group(
        &mut self,
        domain: &Domain,
        children: Vec<NodeState<F, P>>,
    ) -> Result<(), NoMemory>
        requires waits { IsWaiting self.old.stage }
        requires can { CanTakeAll (all_done (first_escalation (map (state_model F.model P.model) children.items))) (state_model F.model P.model self.old) (map (state_model F.model P.model) children.items) }
        ensures { OnOk result (state_model F.model P.model self.new ≡ resumed (state_model F.model P.model self.old) domain.now (map (state_model F.model P.model) children.items)) }
    {
        let commit = none_escalated(children.as_slice());
        let lost = self.take_all(children, commit)?;
        self.settle(domain.detects, lost);
        Ok(())
    }

    // Takes the members back, in order; answers the first one's escalation, with what all of them leave over.
    fn take_all(
        &mut self,
        children: Vec<NodeState<F, P>>,
        commit: bool,
    ) -> Result<Option<(Cause, Kinds)>, NoMemory>
        requires can { CanTakeAll commit (state_model F.model P.model self.old) (map (state_model F.model P.model) children.items) }
        ensures lost { IfOk result (λ lost. lost ≡ first_escalation (map (state_model F.model P.model) children.items)) }
        ensures taken { OnOk result (state_model F.model P.model self.new ≡ took_all commit (state_model F.model P.model self.old) (map (state_model F.model P.model) children.items)) }
    {
        let mut lost = None;
        for child in children {
            let more = self.take_one(child, commit)?;
            lost = joined_losses(lost, more);
        }
        Ok(lost)
    }

    // Takes one member back, and answers its escalation.
    fn take_one(
        &mut self,
        child: NodeState<F, P>,
        commit: bool,
    ) -> Result<Option<(Cause, Kinds)>, NoMemory>
        requires can { CanTakeNext (state_model F.model P.model self.old) commit (state_model F.model P.model child) }
        ensures lost { IfOk result (λ lost. lost ≡ escalation child.stage) }
        ensures taken { OnOk result (state_model F.model P.model self.new ≡ took commit (state_model F.model P.model self.old) (state_model F.model P.model child)) }
    {
        let NodeState {
            node,
            counts,
            stage,
            field,
            pass,
            ..
        } = child;
        self.take_counts(node, counts.as_slice());
        self.field.absorb(field, commit)?;
        self.pass.join(pass);
        Ok(loss_of(stage))
    }

    // Takes the counts of a domain below and of those below it.
    fn take_counts(&mut self, node: NodeId, counts: &[u64])
        requires below { self.old.node.0 ≤ node.0 }
        requires within { node.0 - self.old.node.0 + length counts.now ≤ length self.old.counts.items }
        ensures { state_model F.model P.model self.new ≡ record (state_model F.model P.model self.old) { counts = put_at self.old.counts.items (node.0 - self.old.node.0) counts.now } }
    {
        let low = (node.0 - self.node.0) as usize;
        let high = low + counts.len();
        self.counts[low..high].copy_from_slice(counts);
    }

    // Goes on after the group, or leaves the try to its end, with the kinds that the domain does not declare.
    fn settle(&mut self, detects: Kinds, lost: Option<(Cause, Kinds)>)
        requires waits { IsWaiting self.old.stage }
        ensures { state_model F.model P.model self.new ≡ record (state_model F.model P.model self.old) { stage = stage_after detects lost self.old.stage } }
    {
        let Stage::Waiting { spare, point } = self.stage else {
            unreachable!()
        };
        self.stage = match lost {
            None => Stage::Resumed { spare, point },
            Some((cause, over)) => Stage::Lost {
                spare,
                cause,
                over: over.without(detects),
            },
        };
    }

    // Whether the domain did not escalate.
    fn is_done(&self) -> bool
        ensures { result ≡ all_done (escalation self.now.stage) }
    {
        !matches!(&self.stage, Stage::Ended(Ending::Escalated { .. }))
    }
}

// Whether none of these states escalated.
fn none_escalated<F: Field, P: Pass>(children: &[NodeState<F, P>]) -> bool
    ensures { result ≡ all_done (first_escalation (map (state_model F.model P.model) children.now)) }
{
    for child in children {
        if !child.is_done() {
            return false;
        }
    }
    true
}

// The escalation in which a domain ended, if it did.
fn loss_of(stage: Stage) -> Option<(Cause, Kinds)>
    ensures { result ≡ escalation stage }
{
    match stage {
        Stage::Ended(Ending::Escalated { cause, over }) => Some((cause, over)),
        Stage::Ended(Ending::Done(_)) => None,
        Stage::Ready => None,
        Stage::Waiting { .. } => None,
        Stage::Resumed { .. } => None,
        Stage::Lost { .. } => None,
    }
}

// The first of two escalations, with what both leave over.
fn joined_losses(
    first: Option<(Cause, Kinds)>,
    rest: Option<(Cause, Kinds)>,
) -> Option<(Cause, Kinds)>
    ensures { result ≡ with_more first rest }
{
    match first {
        None => rest,
        Some((cause, over)) => Some(with_rest(cause, over, &rest)),
    }
}

// An escalation, with what a later one leaves over as well.
fn with_rest(cause: Cause, over: Kinds, rest: &Option<(Cause, Kinds)>) -> (Cause, Kinds)
    ensures { Some result ≡ with_more (Some (cause, over)) rest.now }
{
    match rest {
        None => (cause, over),
        Some((_, more)) => (cause, over.union(*more)),
    }
}
