//! Tests that cross crates. Whole calls of the program, over a source, a sink and a machine in memory: which status, which
//! text, and what is left in the machine. Documents through the reader, the printer and the static checks.
//!
//! A test is a table and a helper that goes through it, as in `tests::actions`:
//!
//!     static READINGS: [Case; 2] = cases! {
//!         FILL, "" => 0, "committed\nbegins root 1\ntotal 1\n";
//!         FILL, RECOVERED => 0, "committed\nbegins root 2\ntotal 2\n";
//!     };
//!
//!     all_tell(rt.alloc(), &["read"], &READINGS)
#![tactic(auto)]

#[cfg(test)]
mod tests;
