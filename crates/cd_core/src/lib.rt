//! The states of domains: a domain that can be put down between two groups and taken up by anybody. A state runs up to its
//! next group, hands out a state for each member, and takes them back when they have ended. Of a program without groups
//! these are all calls:
//!
//! ```
//! let mut state = start_root(alloc, &plan, field, pass)?;
//! let step = state.advance(rt, alloc, &plan);
//! let outcome = state.finish();
//! ```
//!
//! Each call says exactly what it does (`exact`), that the state still fits (`fits`), and that a domain which stood where its
//! reading had come to stands so again (`stands`). `advance` and `resume` also say what stays of a state (`stays`) and that it
//! goes on (`onward`), and `advance` that it keeps to the domain's reach (`outside`) and that each lapse which it tells was
//! answered (`lapses`). The functions of the modules of laws say why, with no code in them.
#![tactic(auto)]

mod advance;
pub mod advancing_laws;
mod ask;
pub mod asking_laws;
mod ending;
mod laws_below;
mod resume;
pub mod returning_laws;
mod sending;
pub mod sending_laws;
mod start;
mod state;
mod taking;
pub mod taking_laws;
mod tries;
pub mod trying_laws;
mod verdict;

pub use ask::Ask;
pub use start::start_root;
pub use state::{Ending, NodeState, Outcome, Stage, Step};
