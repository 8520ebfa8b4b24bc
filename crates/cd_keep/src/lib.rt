//! Preserved words behind passes: the trait that says what each call does to a pass, and the first pass, which keeps
//! copies behind shared pointers.
//!
//! ```
//! let id = pass.keep(rt, &words)?;
//! pass.fetch(id, &mut restored);
//! pass.give_up(id);
//! ```
//!
//! Contracts see a pass as one record, and each call's clause is one equation between the record after the call and the
//! record before it, so what an equation does not name stays.
#![tactic(auto)]

mod arc_pass;
mod gone_note;
mod holds;
mod keep_id;
mod kept;
mod layer;
mod layers;
mod pass;

pub use arc_pass::ArcPass;
pub use gone_note::GoneNote;
pub use keep_id::KeepId;
pub use pass::Pass;
