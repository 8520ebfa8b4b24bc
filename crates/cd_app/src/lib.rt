//! The program: it reads its words and a document, and checks, reads through, lifts, makes or runs it.
//!
//! `run_cd` is the whole of it, over any source, sink, machine and engine; `plain_cd` does what runs nothing, without a machine and
//! without waiting. What a call does is said in `specs/` by three tables (`Deeds`, `Outcomes`, `Calls`): what words ask for, what comes of
//! it, and how each status stands to the text. What a run leaves on a machine is `HoldsRun` of `Running`, and in an engine's count
//! `IsCounted`.
//!
//!     let mut source = MemorySource::new(text, 4096, Vec::new(alloc));
//!     let mut sink = MemorySink::new(alloc, 4096, Vec::new(alloc));
//!     let mut machine = ScriptField::empty(alloc);
//!     let mut engine = PoolEngine::new(&OpenGate);
//!     let status = run_cd(&rt, alloc, &words, &mut source, &mut sink, &mut machine, &mut engine);
//!
//! For the words `run` and a document whose root fills its region, `status` is `Status::Done`, the sink holds the report, and
//! `engine.begins()` is 1.
#![tactic(auto)]

mod actions;
mod call;
pub mod laws;
mod need;
mod program;
mod receive;
mod run;
mod status;
mod tell;

pub use call::{plain_cd, run_cd};
pub use run::AskedRun;
pub use status::Status;
