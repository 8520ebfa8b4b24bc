//! Programs as trees of containment domains, fault scripts, events and refusals; and, in `specs/`, the meaning of all of
//! them: what operations and domains compute, what the one-thread reading of a program and its script gives.
//! `specs/Lib.antt` says in which order to read.
//!
//! ```
//! let tree = Tree::checked(kinds, domains).ok_or("no program")?;
//! // a root `top` over the two domains `left` and `right`, in preorder
//! assert_eq!(rt; find(&tree, "top/left"), Some(NodeId(1)));
//! assert_eq!(rt; path_text(alloc, &tree, NodeId(2))?.as_str(), "top/right");
//! ```
#![tactic(auto)]

mod check;
mod document;
mod domain;
mod event;
mod groups;
mod kinds;
pub mod laws;
pub mod limits;
mod operation;
mod path;
mod refusal;
mod tree;

pub use document::{Document, Fault, RawFault, RawScript, Region, Regions, Script};
pub use domain::{Domain, Entry, How, Item, NodeId};
pub use event::{Begins, Cause, Event, Kept};
pub use groups::GroupPlace;
pub use kinds::{Kind, KindName, Kinds, halting};
pub use operation::{Op, fits, is_full, reads, writes};
pub use path::{find, path_text};
pub use refusal::{Refusal, Refuse, Which};
pub use tree::Tree;
