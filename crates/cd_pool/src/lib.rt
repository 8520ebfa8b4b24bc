//! The pool: it runs a program by workers that take up ready domains from the cells, and the engine that the top call is handed.
//!
//!     let mut engine = PoolEngine::new(&OpenGate);
//!     let outcome = engine.run_root(&rt, alloc, &plan, part, pass, 2)?;
//!     let begins = engine.begins();
//!
//! `run_root` runs a program, with the clause of cd_fork's. Ready domains go from worker to worker as hints, through deques; a claim
//! decides. A worker goes through the `Gate` with each domain that it has claimed, before the first step of that domain's turn:
//! `OpenGate` lets all through, `HoldingGate` keeps two of them until both are there. An `Engine` runs programs through its gate and
//! counts how often their domains began, in a count that stays once it is at its last value; `specs/Counts.antt` has what it counts.
#![tactic(auto)]

mod crew;
mod deques;
mod engine;
mod gate;
mod hints;
mod run;
mod worker;

pub use engine::{Engine, PoolEngine};
pub use gate::{Gate, HoldingGate, OpenGate};
pub use run::run_root;
