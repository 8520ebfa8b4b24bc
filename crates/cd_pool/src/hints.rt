//! What a worker knows of domains that are ready: its own deque, a list of what that refused, and the deques of the others.
ghost use Rattle.std.specs.Prelude.{◌≡◌, ◌⊎◌, ◌+◌, [], ◌∷◌, ◌++◌, MatchResult, OnOk};
ghost use Rattle.crossbeam_deque.specs.Handles.{worker_index};
ghost use Rattle.cd_pool.specs.Hinting.{refused_of};

use cd_base::NoMemory;
use cd_cells::Hints;
use cd_tree::NodeId;
use crossbeam_deque::protocol::Free;
use crossbeam_deque::{Steal, Stealer, Worker};
use std::alloc::Global;

/// One worker's hints. It takes its own latest first; others take its oldest.
#[derive(Drop)]
pub(crate) struct WorkerHints<'s> {
    own: Worker<NodeId>,
    // What the deque refused. It has room for every domain of the program.
    spare: Vec<NodeId>,
    // The deques of all workers, and where among them the search begins.
    all: &'s [Stealer<NodeId>],
    first: usize,
}

impl<'s> WorkerHints<'s> {
    /// The hints of a worker with this deque, for a program of so many domains. `first` is where among the deques of all the worker
    /// looks first, when it has no hint of its own.
    pub(crate) fn new(
        alloc: Global,
        own: Worker<NodeId>,
        all: &'s [Stealer<NodeId>],
        first: usize,
        domains: usize,
    ) -> Result<WorkerHints<'s>, NoMemory> {
        let spare = Vec::with_capacity(alloc, domains)?;
        Ok(WorkerHints {
            own,
            spare,
            all,
            first,
        })
    }

    /// A domain that may be ready: the latest of its own, else the oldest of another's. It takes no memory.
    pub(crate) fn next(&mut self) -> Option<NodeId> {
        if let Some(node) = self.own.pop() {
            return Some(node);
        }
        match self.spare.pop() {
            Some(node) => Some(node),
            None => steal(self.all, self.first),
        }
    }
}

impl<'s> Hints for WorkerHints<'s> {
    // The deque has one hint more behind; or it refused this one, and that stays in the spare list.
    fn note(&mut self, node: NodeId) -> Result<(), NoMemory>
        ensures { OnOk result ((worker_index self.new.own ≡ worker_index self.old.own + 1) ⊎ (self.new.spare.items ≡ self.old.spare.items ++ node ∷ [])) }
    {
        let pushed = push(&mut self.own, node);
        set_aside(&mut self.spare, pushed)
    }
}

// Puts a hint behind a deque, which gives it back where it cannot grow.
fn push(own: &mut Worker<NodeId>, node: NodeId) -> Result<(), NodeId>
    ensures { MatchResult result (λ _. worker_index own.new ≡ worker_index own.old + 1) (λ refused. refused ≡ node) }
{
    own.push_as::<Free>(node)
}

// Keeps a hint that a deque refused.
fn set_aside(spare: &mut Vec<NodeId>, pushed: Result<(), NodeId>) -> Result<(), NoMemory>
    ensures { OnOk result (spare.new.items ≡ spare.old.items ++ refused_of pushed) }
{
    match pushed {
        Ok(()) => Ok(()),
        Err(refused) => {
            spare.push(refused)?;
            Ok(())
        }
    }
}

// The oldest hint of another worker, from the first on and round.
fn steal(all: &[Stealer<NodeId>], first: usize) -> Option<NodeId> {
    let (before, behind) = all.split_at(first.min(all.len()));
    match steal_from(behind) {
        Some(node) => Some(node),
        None => steal_from(before),
    }
}

fn steal_from(deques: &[Stealer<NodeId>]) -> Option<NodeId> {
    for deque in deques {
        if let Steal::Success(node) = deque.steal() {
            return Some(node);
        }
    }
    None
}
