//! The command line of the program: which command its words give, exactly.
//!
//! The words are read with `clap` as one simple command without flags for help and version, and the values of options as
//! text; `command_of` then gives the texts their meaning. `specs/CommandLine.antt` defines the command that words give, and
//! the clause of `command_of` says that it gives this one, and none exactly where there is none. The table of options stands in
//! `options`, a row for each.
//!
//!     let mut words = Words::new(alloc);
//!     words.push(Text::of(alloc, "run")?)?;
//!     words.push(Text::of(alloc, "--workers=8")?)?;
//!     let command = command_of(alloc, &words)?; // Some(Command::Run { workers: 8, with_record: false })
#![tactic(auto)]

mod command;
mod line;
mod meaning;
mod options;
mod value;
mod words;

pub use command::{Command, command_of};
pub use words::Words;
