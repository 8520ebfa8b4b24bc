//! What each domain of a program touches, and whether siblings interfere.
//!
//! ```
//! let feet = Footprints::of(alloc, &tree)?;
//! disjoint(&tree, &feet)?;
//! if feet.writes(node).has(place) { .. }
//! ```
//!
//! The footprints are exact: a place is in a set where the definitions of `cd_tree` say so, and nowhere else. The refusal is
//! that of the first two siblings that interfere, with the least place at which they do.
#![tactic(auto)]

mod clear;
mod footprints;
mod gathered;
pub mod laws;
mod one_foot;
mod overlaps;

pub use footprints::{Foot, Footprints};
pub use overlaps::disjoint;
