//! The tokens of a document: its text as lines, lines as tokens and blocks, and the parts that statements are made of:
//! numbers and sums, names, kinds, patterns; how what is wrong with the parts of a statement becomes its one refusal; and how
//! regions, places and kinds are written as tokens again.
//!
//! In the second turn of `for row in 0..4` the bounds of `b[2*row..2*row+2]` are read so:
//!
//!     let row = Variable { name, value: 1 };
//!     bounds(&[row], b"2*row..2*row+2") == Ok((2, 4))
#![tactic(auto)]

mod blocks;
mod kinds;
mod lines;
mod names;
mod sums;
mod written;
mod wrong;

pub use blocks::{Layout, lay_out};
pub use kinds::{kind, kind_set, pattern};
pub use lines::{Line, Role, Token};
pub use names::{is_numbered, name, path, text_of};
pub use sums::{Variable, bounds, bounds_at, cut, expression, find, is_base};
pub use written::{add_kinds, kind_name, kinds_text, place_text, region_name};
pub use wrong::{Stop, Wrong, all_hold, both, guard, room};
