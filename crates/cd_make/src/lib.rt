//! The document that is generated for a size: a product of rows in parts of blocks, a stencil in strips, a sum, and strikes.
//!
//! ```
//! write_make(alloc, 14, &mut sink)?;
//! ```
//!
//! The one call writes the whole text to a sink, by as many writes as it takes. `specs/Making.antt` has the text as a
//! template in which capital letters stand for numbers, and the call's clause says that the sink grew by exactly these bytes,
//! or by a front of them where a write failed or memory was wanting. That the text is an accepted document is no claim of
//! this crate.
#![tactic(auto)]

mod make;

pub use make::write_make;
