//! The plan of a program: whether each domain preserves what its body touches, where references lead, whether what they
//! refer to is still the words that they want, and how many blocks a run needs.
//!
//! ```
//! let feet = Footprints::of(alloc, &tree)?;
//! disjoint(&tree, &feet)?;
//! let plan = plan(alloc, &tree, &feet)?;
//! if let Some((domain, entry)) = plan.link(node, 0) { .. }
//! ```
//!
//! A program that has a plan has none of the flaws of `specs/Checks.antt`; else the first of them is the refusal. The laws on
//! plans, as that no reference is stale between its link and its domain, are contracts of `laws`.
#![tactic(auto)]

mod flaws;
pub mod laws;
mod least;
mod links;
mod needs;
mod outer;
mod planning;
mod program;
mod settled;
mod written;

pub use outer::OuterReferences;
pub use planning::plan;
pub use settled::Plan;
