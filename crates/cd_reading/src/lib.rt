//! The one-thread reading of a program under a script, computed: how often each domain begins and why the root escalates.
//!
//! ```
//! let reading = read_through(alloc, &tree, &script)?;
//! if let Some(cause) = &reading.cause { .. }
//! ```
//!
//! No machine is asked and no word is computed. The counts and the cause are those of the definitions in `cd_tree`, which
//! tell the events of the whole run.
#![tactic(auto)]

mod case;
mod ends;
mod plain;
mod steps;
mod strikes;
mod through;
mod walk;

pub use through::{Reading, no_begins, path_of, read_through};
