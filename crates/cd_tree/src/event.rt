//! What the record of a run tells, why it ended badly, and how often each domain began.

ghost use Rattle.std.specs.Prelude.{◌≡◌, ◌<◌, length, slice_get, Some};

use crate::{Kinds, NodeId};
use cd_base::{Items, Place};
use std::marker::Model;

/// How an entry was preserved.
#[derive(Debug, Clone, Copy, PartialEq, Eq)]
pub enum Kept {
    Copy,
    Refer,
    Regen,
}

/// What a machine's record tells, in order.
#[derive(Debug, Clone, Copy, PartialEq, Eq)]
pub enum Event {
    /// A domain begins for the `number`-th time in the run.
    Begin {
        node: NodeId,
        number: u64,
    },
    /// An entry was preserved.
    Saved {
        node: NodeId,
        entry: u32,
        how: Kept,
    },
    /// An entry's pattern does not give its words: the least place that differs, its word by the pattern, its own.
    Fell {
        node: NodeId,
        entry: u32,
        place: Place,
        wanted: u64,
        found: u64,
    },
    /// A shared copy was gone: the serial under which it was seen, and the one found.
    Lapsed {
        node: NodeId,
        entry: u32,
        seen: u64,
        found: u64,
    },
    /// An entry's words were put back.
    Refilled {
        node: NodeId,
        entry: u32,
    },
    /// The domain comes to a point of its body.
    Reached {
        node: NodeId,
        point: u32,
    },
    /// Halting kinds among the notes end the try.
    Halted {
        node: NodeId,
        kinds: Kinds,
    },
    /// The declared kinds among the notes.
    Found {
        node: NodeId,
        kinds: Kinds,
    },
    /// The domain completes.
    Complete {
        node: NodeId,
    },
    /// The domain hands its failure to its parent.
    Escalate {
        node: NodeId,
    },
}

/// Why a domain escalated: the path from the root to the domain whose detection failed, or which broke off, and the
/// kinds found there.
#[derive(Drop)]
pub struct Cause {
    pub path: Items<NodeId>,
    pub kinds: Kinds,
}

/// The begin counts of a subtree in preorder. Contracts see the list.
#[derive(Drop)]
pub struct Begins {
    counts: Vec<u64>,
}

impl Model for Begins {
    ghost use Rattle.std.specs.Prelude.{List, ℕ};

    ghost Value = { List ℕ };

    ghost view = { λ begins. begins.counts.items };
}

impl Begins {
    /// The counts of a list. It takes no memory.
    pub fn of(counts: Vec<u64>) -> Begins
        ensures { result ≡ counts.items }
    {
        Begins { counts }
    }

    /// The `k`-th domain's count. It takes no memory.
    pub fn at(&self, k: u32) -> u64
        requires { k < length self.now }
        ensures { slice_get self.now k ≡ Some result }
    {
        self.counts[k as usize]
    }
}
