//! Preserved words in one table of blocks that all passes share, over all interleavings of single steps.
//!
//! ```
//! let mut pass = LeasePass::open(alloc, 2, 3)?;
//! let id = pass.keep(rt, &words)?;
//! let mut child = pass.split(1)?;
//! pass.give_up(id);
//! match child.share(id) {
//!     Ok(()) => child.fetch(id, &mut restored),
//!     Err(note) => lapsed(note.seen(), note.found()),
//! }
//! ```
//!
//! What is held stays, whatever the others do; what was seen may be gone. The rule of the table is `Leased`, in `specs/Rule.antt`; it
//! holds between any two steps. Each kind of step is a function of its own, in `steps` and `passing`, and the pass is proved from
//! their contracts alone.
#![tactic(auto)]

mod hints;
pub mod laws;
mod lease_pass;
mod passing;
mod rule;
mod steps;
mod trying;
mod view;

pub use lease_pass::{LeasePass, Try};
pub use rule::{Leases, Size};
pub use view::{Look, Miss, Piece, View};
