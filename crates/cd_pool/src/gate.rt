//! Gates: what a worker goes through with a domain that it has claimed, before the first step of the domain's turn.

use cd_tree::NodeId;
use crossbeam_utils::Backoff;
use std::sync::Wait;
use std::sync::atomic::{AtomicBool, Ordering};

/// What workers go through with each domain that they have claimed. All workers of a run share one.
pub trait Gate: Sync {
    /// Lets a domain through, at once or after a while. It takes no memory.
    fn pass<R: Wait>(&self, rt: &R, node: NodeId);
}

/// The gate that lets each domain through at once.
#[derive(Drop)]
pub struct OpenGate;

impl Gate for OpenGate {
    fn pass<R: Wait>(&self, _rt: &R, _node: NodeId) {}
}

/// A gate that keeps each of two domains until the other has come too, so that two workers have them at the same time; all others it
/// lets through at once. It gives up after some turns of waiting, and tells that it did.
#[derive(Drop)]
pub struct HoldingGate {
    one: NodeId,
    other: NodeId,
    turns: u64,
    one_came: AtomicBool,
    other_came: AtomicBool,
    ran_out: AtomicBool,
}

impl HoldingGate {
    /// A gate that keeps these two domains, each for at most so many turns. It takes no memory.
    pub fn new(one: NodeId, other: NodeId, turns: u64) -> HoldingGate {
        HoldingGate {
            one,
            other,
            turns,
            one_came: AtomicBool::new(false),
            other_came: AtomicBool::new(false),
            ran_out: AtomicBool::new(false),
        }
    }

    /// Whether one of the two went on because its turns were used up. It takes no memory.
    pub fn ran_out(&self) -> bool {
        self.ran_out.load(Ordering::SeqCst)
    }

    fn both_came(&self) -> bool {
        self.one_came.load(Ordering::SeqCst) && self.other_came.load(Ordering::SeqCst)
    }

    // Waits until both have come, or the turns are used up.
    fn wait_for_both(&self) {
        let backoff = Backoff::new();
        for _ in 0..self.turns {
            if self.both_came() {
                return;
            }
            backoff.snooze();
        }
        if !self.both_came() {
            self.ran_out.store(true, Ordering::SeqCst);
        }
    }
}

impl Gate for HoldingGate {
    fn pass<R: Wait>(&self, _rt: &R, node: NodeId) {
        let is_one = node == self.one;
        let is_other = node == self.other;
        if is_one {
            self.one_came.store(true, Ordering::SeqCst);
        }
        if is_other {
            self.other_came.store(true, Ordering::SeqCst);
        }
        if is_one || is_other {
            self.wait_for_both();
        }
    }
}
