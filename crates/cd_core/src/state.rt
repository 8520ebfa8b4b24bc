// A domain at rest: its stage, what it keeps, its machine and its pass.
ghost use Rattle.std.specs.Prelude.{◌≡◌, MatchOption};
ghost use Rattle.cd_core.specs.declared.state.Stage.TheVariants.{Ended};
ghost use Rattle.cd_core.specs.Steps.{IsEnded, IsOutcome};

use cd_tree::{Begins, Cause, Kinds, NodeId};
use cd_tries::{Level, Shelf};

/// How a domain ended.
#[derive(Drop)]
pub enum Ending {
    /// It completed, with the kinds that it leaks.
    Done(Kinds),
    /// It escalated: why, and the halting kinds that are still to be declared.
    Escalated { cause: Cause, over: Kinds },
}

/// Where a domain is.
#[derive(Drop)]
pub enum Stage {
    /// Nothing is done.
    Ready,
    /// It waits for the members of the group at a point, and may make so many more tries.
    Waiting {
        spare: u32,
        point: u32,
    },
    /// All members of the group at a point are done.
    Resumed {
        spare: u32,
        point: u32,
    },
    /// A member has escalated.
    Lost {
        spare: u32,
        cause: Cause,
        over: Kinds,
    },
    /// It has ended.
    Ended(Ending),
}

/// A domain at rest: all that whoever takes it up needs to go on.
#[derive(Drop)]
pub struct NodeState<F, P> {
    pub node: NodeId,
    /// The begin counts of the domain and of those below it, in preorder.
    pub counts: Vec<u64>,
    pub stage: Stage,
    /// What it keeps of its entries, in order; nothing before it has begun and when it has ended.
    pub keeps: Shelf,
    /// What the domains above keep of theirs, the parent's first.
    pub above: Vec<Level>,
    pub field: F,
    pub pass: P,
}

/// What `advance` came to.
#[derive(Drop)]
pub enum Step<F, P> {
    /// A group: a state for each member, in order.
    Group(Vec<NodeState<F, P>>),
    /// The domain completed.
    Done,
    /// The domain escalated.
    Escalated,
    /// There was no memory; the state may only be dropped.
    NoMemory,
}

/// What a run came to: the machine, how often each domain began, and, where the root escalated, why.
#[derive(Drop)]
pub enum Outcome<F> {
    Committed(F, Begins),
    Exhausted(F, Begins, Cause),
}

impl<F, P> NodeState<F, P> {
    /// The domain. It takes no memory.
    pub fn node(&self) -> NodeId
        ensures { result ≡ self.now.node }
    {
        self.node
    }

    /// How the domain ended; none where it has not. It takes no memory.
    pub fn ending(&self) -> Option<&Ending>
        ensures { MatchOption result (IsEnded self.now.stage → ⊥) (λ ending. self.now.stage ≡ Ended ending.now) }
    {
        match &self.stage {
            Stage::Ended(ending) => Some(ending),
            Stage::Ready => None,
            Stage::Waiting { .. } => None,
            Stage::Resumed { .. } => None,
            Stage::Lost { .. } => None,
        }
    }
}

impl<F, P: Drop> NodeState<F, P> {
    /// The outcome of the root, which has ended. Its pass, which holds nothing, is dropped. It takes no memory.
    pub fn finish(self) -> Outcome<F>
        requires root { self.node.0 ≡ 0 }
        requires ended { IsEnded self.stage }
        ensures { IsOutcome self result self.stage }
    {
        let NodeState {
            stage,
            counts,
            field,
            ..
        } = self;
        match stage {
            Stage::Ended(Ending::Done(_)) => Outcome::Committed(field, Begins::of(counts)),
            Stage::Ended(Ending::Escalated { cause, .. }) => {
                Outcome::Exhausted(field, Begins::of(counts), cause)
            }
            Stage::Ready => unreachable!(),
            Stage::Waiting { .. } => unreachable!(),
            Stage::Resumed { .. } => unreachable!(),
            Stage::Lost { .. } => unreachable!(),
        }
    }
}
