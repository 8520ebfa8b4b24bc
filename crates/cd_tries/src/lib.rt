//! The tries of one domain on a machine and a pass: what it preserves and how, what a later try puts back, its points up to
//! a group, and how a try is judged. Of a domain without groups these are all calls:
//!
//! ```
//! field.begin(node, 1)?;
//! let shelf = preserve(rt, alloc, &plan, node, domain, above, &mut field, &mut pass)?;
//! let attempt = Attempt { node, domain, halts, keeps: shelf.keeps() };
//! let course = go_on(&attempt, domain.retry - 1, 1, 0, &mut field, &mut pass)?;
//! give_up_all(shelf.keeps(), &mut pass);
//! ```
//!
//! Each call's clause says exactly what becomes of the machine and of the pass, by a definition over what contracts see of
//! them; what that means for the reading of a program is no matter of this crate.
#![tactic(auto)]

mod copying;
mod giving_up;
mod keep;
pub mod keep_laws;
mod patterns;
mod points;
mod preserving;
mod refilling;
mod sharing;
mod shelf;
mod tries;
pub mod try_laws;

pub use copying::copy_range;
pub use giving_up::{give_up_all, give_up_ids};
pub use keep::{Keep, Pieces};
pub use patterns::first_other;
pub use points::Arrival;
pub use preserving::{preserve, preserve_entry};
pub use refilling::refill_all;
pub use shelf::{Level, Shelf};
pub use tries::{Attempt, Course, Stop, go_on, try_again};
