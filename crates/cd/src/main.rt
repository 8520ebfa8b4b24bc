//! The program `cd`: it hands its words, standard input and standard output to `run_cd`, with a machine and an engine, and ends with
//! the status.
//!
//!     $ bin/cd run < examples/leak.cd
//!     committed
//!     region y 7 7 7 7
//!     begins root 2
//!     begins root/worker 2
//!     total 4
#![tactic(auto)]

use cd_app::run_cd;
use cd_base::{NoMemory, StdSink, StdSource, Text};
use cd_command::Words;
use cd_field::ScriptField;
use cd_pool::{OpenGate, PoolEngine};
use std::alloc::{AllocError, Global};
use std::process::ExitCode;
use std::{env, io};

// There was no memory for the words.
const NO_MEMORY: u8 = 6;

// The system does not give the words.
const NO_WORDS: u8 = 8;

fn main(rt: HostRuntime) -> ExitCode {
    let alloc = rt.alloc();
    let arguments = match env::args(&rt) {
        Ok(arguments) => arguments,
        Err(error) => return ExitCode::from(no_words(&error)),
    };
    let collected: Result<Vec<String>, AllocError> = arguments.skip(1).collect(alloc);
    let Ok(collected) = collected else {
        return ExitCode::from(NO_MEMORY);
    };
    let Ok(words) = words_of(alloc, collected.as_slice()) else {
        return ExitCode::from(NO_MEMORY);
    };
    let mut source = StdSource::new(rt.reader());
    let mut sink = StdSink::new(io::writer(&rt));
    let mut machine = ScriptField::empty(alloc);
    let mut engine = PoolEngine::new(&OpenGate);
    let status = run_cd(
        &rt,
        alloc,
        &words,
        &mut source,
        &mut sink,
        &mut machine,
        &mut engine,
    );
    ExitCode::from(status.code())
}

// The status where the words did not come.
fn no_words(error: &io::Error) -> u8 {
    match error.kind() {
        io::ErrorKind::OutOfMemory => NO_MEMORY,
        _ => NO_WORDS,
    }
}

fn words_of(alloc: Global, arguments: &[String]) -> Result<Words, NoMemory> {
    let mut words = Words::new(alloc);
    for argument in arguments {
        words.push(Text::of(alloc, argument.as_str())?)?;
    }
    Ok(words)
}
