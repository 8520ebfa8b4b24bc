//! A document: its regions, its program and its fault script, as read and as accepted.

use crate::{Kind, NodeId, Tree};
use cd_base::{Items, Pattern, Place, Text};

/// A named region of words, which begin as its pattern gives them.
#[derive(Drop)]
pub struct Region {
    pub name: Text,
    pub length: u32,
    pub pattern: Pattern,
}

/// The regions of a document, numbered from 0.
pub type Regions = Items<Region>;

/// A scripted fault as read: its domain is a path of names joined by `/`.
#[derive(Drop)]
pub struct RawFault {
    pub path: Text,
    pub begin: u64,
    pub item: u64,
    pub kind: Kind,
    pub place: Place,
    pub mask: u64,
}

/// The strikes of a document in order.
pub type RawScript = Items<RawFault>;

/// A scripted fault: at this begin of the domain, before item `item` (after the last item, at their number), the word
/// of `place` is changed by exclusive or with `mask` and a note of `kind` is posted.
#[derive(Debug, Clone, Copy, PartialEq, Eq)]
pub struct Fault {
    pub node: NodeId,
    pub begin: u64,
    pub item: u32,
    pub kind: Kind,
    pub place: Place,
    pub mask: u64,
}

/// The accepted faults in order.
pub type Script = Items<Fault>;

/// A document: the version of the language it is written in, its regions, its program and its fault script.
#[derive(Drop)]
pub struct Document {
    pub version: u32,
    pub regions: Regions,
    pub tree: Tree,
    pub faults: RawScript,
}
