//! Which fault scripts are accepted.
//!
//! ```
//! let script = accept(alloc, &tree, &feet, &document.faults)?;
//! ```
//!
//! A fault is accepted where a domain has its path and the point, reaches the place, and can find the kind or has one above it
//! that can. The script is the list of the faults as they were read, each with its domain; else the first fault that is not
//! accepted is refused by its number.
#![tactic(auto)]

mod fault;
pub mod laws;
mod script;

pub use script::accept;
