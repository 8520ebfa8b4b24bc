//! The static checks of a document in one call: whether siblings interfere, whether its program can be planned, and whether
//! its script is accepted.
//!
//! ```
//! let feet = Footprints::of(alloc, &document.tree)?;
//! let (plan, script) = check(alloc, &document, &feet)?;
//! ```
//!
//! The first refusal of a document is the first of these questions that refuses anything; where none does, the document
//! passes. Each document does one or the other, and never both.
#![tactic(auto)]

mod checks;
pub mod laws;

pub use checks::check;
