//! The engine by `join`: it runs a program from its root to its end, the members of a group at the same time.
#![tactic(auto)]

mod run;
mod siblings;
mod turns;

pub use run::run_root;
