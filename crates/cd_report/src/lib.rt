//! The texts that the program writes: the report of a run, what the reading gives, the size of a document, the line of a
//! refusal, and lines of their own.
//!
//! ```
//! write_refusal(alloc, Some(&document), &refusal, &mut sink)?;
//! ```
//!
//! Each call writes its whole text to a sink, by as many writes as it takes. `specs/Texts.antt` and `specs/Records.antt`
//! define each text as a list of bytes, and the call's clause says that the sink grew by exactly these bytes, or by a front of them where a
//! write failed or memory was wanting.
#![tactic(auto)]

mod accepted;
mod begins;
mod events;
mod lines;
mod outcome;
mod record;
mod refusal;
mod regions;
mod run;

pub use accepted::write_accepted;
pub use lines::{write_read_fault, write_usage};
pub use refusal::write_refusal;
pub use run::{write_reading, write_run};
