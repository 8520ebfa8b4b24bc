//! The ground of the runtime: places of words and sets of them, patterns of initial words, lists and texts that
//! contracts see by their content, and the ends through which bytes come and go.
//!
//! ```
//! let mut places = Places::new(alloc);
//! places.add(Range { region: 1, low: 10, high: 20 })?;
//! places.add(Range { region: 1, low: 20, high: 25 })?;
//! // the two touch, so they are one range
//! assert_eq!(rt; places.ranges(), [Range { region: 1, low: 10, high: 25 }].as_slice());
//! ```
#![tactic(auto)]

mod bytes;
mod calls;
mod items;
mod least;
mod memory_sink;
mod memory_source;
mod pattern;
mod place;
mod places;
mod sink;
mod source;
mod std_ends;
mod text;
mod transfer;
mod united;

pub use bytes::Bytes;
pub use items::Items;
pub use memory_sink::MemorySink;
pub use memory_source::MemorySource;
pub use pattern::Pattern;
pub use place::{Place, Range};
pub use places::Places;
pub use sink::{Sink, WriteStop};
pub use source::{Failed, Source};
use std::alloc::{AllocError, AllocFailed};
pub use std_ends::{StdSink, StdSource};
pub use text::Text;
pub use transfer::{ReadStop, read_all, write_all};

/// There was not enough memory. It is merged with no other answer.
#[derive(Debug, Clone, Copy, PartialEq, Eq)]
pub struct NoMemory;

impl From<AllocError> for NoMemory {
    fn from(_error: AllocError) -> Self {
        NoMemory
    }
}

impl<T: Drop> From<AllocFailed<T>> for NoMemory {
    fn from(_error: AllocFailed<T>) -> Self {
        NoMemory
    }
}
