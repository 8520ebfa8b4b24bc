//! What a command line asks for.

ghost use Rattle.std.specs.Prelude.{◌≡◌, IfOk};
ghost use Rattle.cd_command.specs.CommandLine.{command_in, IsWithin};

use crate::Words;
use crate::line::{found, texts_of};
use crate::meaning::command_by;
use cd_base::NoMemory;
use std::alloc::Global;

/// What a command line asks for.
#[derive(Debug, Clone, Copy, PartialEq, Eq)]
pub enum Command {
    /// The canonical text of a document.
    Check,
    /// What the one-thread reading of a document comes to.
    Read,
    /// A document of the first version as one of the second.
    Lift,
    /// A run by 1 to 64 workers, and whether its record is written.
    Run { workers: u32, with_record: bool },
    /// The document of the hierarchical product of this size, 1 to 14.
    Make { size: u32 },
}

/// The command that words give, or none. It takes memory for a list of the words and for the parse, and fails only where
/// this is wanting.
pub fn command_of(alloc: Global, words: &Words) -> Result<Option<Command>, NoMemory>
    ensures exact { IfOk result (λ command. command ≡ command_in words.now) }
    ensures range { IfOk result (λ command. IsWithin command) }
{
    let texts = texts_of(alloc, words)?;
    match found(alloc, texts.as_slice())? {
        Some(found) => Ok(command_by(&found)),
        None => Ok(None),
    }
}
