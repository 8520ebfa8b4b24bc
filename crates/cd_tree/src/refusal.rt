//! Why a document is refused.

use crate::NodeId;
use cd_base::Place;

/// Which limit a document passes.
#[derive(Debug, Clone, Copy, PartialEq, Eq)]
pub enum Which {
    Lines,
    Nesting,
    Name,
    Kinds,
    Regions,
    Words,
    Domains,
    Depth,
    Items,
    Entries,
    Preserves,
    Members,
    Retry,
    Faults,
    Need,
}

/// Why a document is not accepted. Lines, and the faults of a script, count from 1.
#[derive(Debug, Clone, Copy, PartialEq, Eq)]
pub enum Refusal {
    /// E1: the text is longer than the limit.
    TooLong,
    /// E2: the line has no statement's form, or cannot stand there.
    Line(u32),
    /// E3: a range or place names no region declared so far.
    UnknownRegion(u32),
    /// E4: a range is empty or not within its region, or a place is not.
    OutsideRegion(u32),
    /// E5: the name is taken.
    NameTaken(u32),
    /// E6: a region has no word, or an operation's lengths or ranges do not fit.
    Shape(u32),
    /// E7: an expression leaves the range of numbers.
    Arithmetic(u32),
    /// E8: a limit is passed by this count.
    Limit(Which, u64),
    /// E9: two members of one group interfere at this place.
    Overlap(NodeId, NodeId, Place),
    /// E10: a place that the domain's body touches is in none of its entries.
    Uncovered(NodeId, Place),
    /// E11: a reference, by its entry's number, has no link.
    NoTarget(NodeId, u32),
    /// E12: a reference is stale at this place.
    Stale(NodeId, u32, Place),
    /// E13: a fault's path is no domain's.
    UnknownPath(u32),
    /// E14: a fault's point is behind the last.
    NoSuchItem(u32),
    /// E15: a fault's place is outside its domain's reach.
    OutsideReach(u32),
    /// E16: a fault's kind is declared neither by its domain nor by an ancestor.
    Undetected(u32),
}

/// What a call that may refuse a document answers in place of a result.
#[derive(Debug, Clone, Copy, PartialEq, Eq)]
pub enum Refuse {
    Refused(Refusal),
    NoMemory,
}
