//! Domains: what one preserves, what its body has, how often it may try.

use crate::{Kinds, Op};
use cd_base::{Items, Pattern, Range, Text};

/// A domain's number in preorder; the root is 0.
#[derive(Debug, Clone, Copy, PartialEq, Eq)]
pub struct NodeId(pub u32);

/// One step of a domain's body.
#[derive(Drop)]
pub enum Item {
    /// An operation.
    Run(Op),
    /// Member domains that may run side by side; never empty in a tree.
    Group(Items<NodeId>),
}

/// How an entry's words are preserved.
#[derive(Debug, Clone, Copy, PartialEq, Eq)]
pub enum How {
    /// By a copy of the words.
    Copy,
    /// By sharing what the nearest ancestor that preserves the range keeps of it.
    Refer,
    /// By the pattern that gives the words anew.
    Regen(Pattern),
}

/// A range that a domain preserves, and how.
#[derive(Debug, Clone, Copy, PartialEq, Eq)]
pub struct Entry {
    pub range: Range,
    pub how: How,
}

/// A containment domain: its name among its siblings, its parent, how many tries it has, the kinds of faults that it
/// finds, what it preserves, and its body.
#[derive(Drop)]
pub struct Domain {
    pub name: Text,
    pub parent: Option<NodeId>,
    pub retry: u32,
    pub detects: Kinds,
    pub entries: Items<Entry>,
    pub items: Items<Item>,
}
