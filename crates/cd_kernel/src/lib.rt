//! The twelve operations, each run on a machine: exactly its meaning, and nothing but words changes.
//!
//! ```
//! apply(&Op::Add(sum, one, other), &mut machine);
//! ```
//!
//! Words are computed in blocks from the first on: runs of the sources are read, a block is computed, and one run is
//! written. A source is the destination itself or apart from it, so each source word is read before it is written; `scan`,
//! which needs earlier words, keeps its sum. Each call's work is linear in the words that it reads and writes; a sparse
//! product reads each row's own positions alone, from lists where the machine lends them.
#![tactic(auto)]

mod blocks;
mod lists;
mod operations;
mod sparse;
mod totals;
mod words;

pub use operations::apply;
