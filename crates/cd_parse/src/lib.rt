//! The language of documents: what a text means, and the reader that finds it out.
//!
//! A text of four lines is a document with one region and one domain:
//!
//!     let text = b"cd 1\nregion a 4 const 0\ndomain top retry 1 detects none\nend\n";
//!     let document = read_document(alloc, text.as_slice())?;
//!     document.regions.items().len() == 1
#![tactic(auto)]

mod document;
mod draft;
mod heads;
pub mod laws;
mod marked;
mod operations;
mod parsing;
mod ranges;
mod signature;
mod statements;

pub use document::read_document;
pub use signature::{OpName, Operand};
