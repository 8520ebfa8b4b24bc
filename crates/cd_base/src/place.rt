//! Places of words, and ranges of places of one region.
/// One word of a region: the region's number, and the word's index in it.
#[derive(Debug, Clone, Copy, PartialEq, Eq, PartialOrd, Ord)]
pub struct Place {
    pub region: u32,
    pub index: u32,
}

/// The places of a region from index `low` to below `high`. A range with `high` not above `low` has no place.
#[derive(Debug, Clone, Copy, PartialEq, Eq)]
pub struct Range {
    pub region: u32,
    pub low: u32,
    pub high: u32,
}
