//! The cells in which domains rest, in one table that all passes share, over all interleavings of single steps.
//!
//! ```
//! let mut cells = open_cells(alloc, &plan, &field)?;
//! cells.post(NodeId(0), root);
//! if let Some(mut state) = cells.claim(node) {
//!     // the domain is in hand: its state goes on, and rests at a group or arrives
//!     let step = state.advance(rt, alloc, &plan);
//! }
//! let ended = cells.close();
//! ```
//!
//! The rule is `Ordered`, in `specs/Rule.antt`; it holds between any two steps, and leaves open what a state is: `Shape` says what it has
//! to know of it. Each kind of step is a function of its own, in `steps`, `arrivals` and `passing`; the calls of a worker are those of
//! `CellPass`; `laws` has what follows. `start` puts in the states of domains, `work` has the turns of a worker, `whole` the begin and the end of a
//! run, and `run_alone` is a run by one worker.
#![tactic(auto)]

mod alone;
mod arrivals;
mod cell_pass;
mod groups;
mod hands;
mod homing;
pub mod laws;
mod opening;
mod passing;
mod plays;
mod rule;
mod start;
mod steps;
mod view;
mod whole;
mod work;

pub use alone::run_alone;
pub use cell_pass::CellPass;
pub use homing::Arrived;
pub use rule::{Order, Shape};
pub use start::{Start, open_cells};
pub use view::{Cell, Meeting, Met, View};
pub use whole::{end_run, start_run};
pub use work::{Hints, work_on};
