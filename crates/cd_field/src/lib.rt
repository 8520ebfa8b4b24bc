//! The machine that a program runs on: the trait that says what each call does to it, the machine over flat lists that the
//! program ships, and a plain machine over maps.
//!
//! ```
//! machine.load(&regions, &script)?;
//! machine.begin(node, 1)?;
//! machine.reached(0)?;
//! let word = machine.read(place);
//! ```
//!
//! Contracts see a machine as one record, and each call's clause is one equation between the record after the call and
//! the record before it, so what an equation does not name stays.
#![tactic(auto)]

mod cuts;
mod event_list;
mod faults;
mod field;
mod flat_parts;
mod flat_words;
mod hull;
mod hulls;
mod loads;
mod map_field;
mod region_words;
mod script_field;
mod shared_faults;
mod shared_words;
mod spans;
mod told;
mod words;

pub use field::Field;
pub use map_field::MapField;
pub use script_field::ScriptField;
