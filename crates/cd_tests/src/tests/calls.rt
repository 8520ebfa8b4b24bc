//! Whole calls over a source, a sink and a machine in memory, and the helpers by which tables of them are tried.

use cd_app::{Status, run_cd};
use cd_base::{MemorySink, MemorySource, Text};
use cd_command::Words;
use cd_field::{Field, MapField};
use cd_pool::{OpenGate, PoolEngine};
use std::alloc::Global;
use std::sync::Wait;
use std::test::Fail;
use std::thread::Threads;

/// A document whose root fills its one region.
pub(crate) const FILL: &str =
    "cd 1\nregion y 4 const 0\ndomain root retry 2 detects flip\npreserve y copy\nfill y 7\nend\n";

/// What it is reported as where nothing strikes.
pub(crate) const FILLED: &str = "committed\nregion y 7 7 7 7\nbegins root 1\ntotal 1\n";

/// Strikes after it that the root recovers from.
pub(crate) const RECOVERED: &str = "faults\nstrike root 1 1 flip y[0] 255\n";

/// Strikes after it that use up the root's tries.
pub(crate) const EXHAUSTED: &str =
    "faults\nstrike root 1 1 flip y[0] 255\nstrike root 2 1 flip y[0] 1\n";

/// The line for words that give no command.
pub(crate) const USAGE: &str =
    "usage: cd check|read|run|make|lift [--workers N] [--record] [--size N]\n";

/// What a call gave: its status as a number, what it wrote, whether the machine's record has an event after it, and how many begins
/// an engine counted that had counted none.
#[derive(Drop)]
pub(crate) struct Answer {
    pub status: u8,
    pub written: Vec<u8>,
    pub began: bool,
    pub counted: u64,
}

impl Answer {
    /// Whether an answer has this status and this text.
    pub(crate) fn is(&self, status: u8, written: &[u8]) -> bool {
        self.status == status && self.written.as_slice() == written
    }
}

pub(crate) fn words_of(alloc: Global, texts: &[&str]) -> Result<Words, Fail> {
    let mut words = Words::new(alloc);
    for text in texts {
        words.push(Text::of(alloc, text)?)?;
    }
    Ok(words)
}

/// A call with these words on a text, where nothing fails.
pub(crate) fn call<R: Threads + Wait + Sync>(
    rt: &R,
    alloc: Global,
    words: &[&str],
    text: &[u8],
    machine: &mut MapField,
) -> Result<Answer, Fail> {
    let words = words_of(alloc, words)?;
    let text = Vec::from_slice(alloc, text)?;
    let mut source = MemorySource::new(text, 4096, Vec::new(alloc));
    let mut sink = MemorySink::new(alloc, 65536, Vec::new(alloc));
    let mut engine = PoolEngine::new(&OpenGate);
    let status = run_cd(
        rt,
        alloc,
        &words,
        &mut source,
        &mut sink,
        machine,
        &mut engine,
    );
    answered(alloc, &status, &sink, machine, engine.begins())
}

/// A call with these words on a text, whose source gives and whose sink takes one byte a call. They fail at the calls with
/// these numbers, where 0 is no call.
pub(crate) fn call_failing<R: Threads + Wait + Sync>(
    rt: &R,
    alloc: Global,
    words: &[&str],
    text: &str,
    (failing_read, failing_write): (u64, u64),
    machine: &mut MapField,
) -> Result<Answer, Fail> {
    let words = words_of(alloc, words)?;
    let text = Vec::from_slice(alloc, text.as_bytes())?;
    let mut source = MemorySource::new(text, 1, Vec::from_slice(alloc, &[failing_read])?);
    let mut sink = MemorySink::new(alloc, 1, Vec::from_slice(alloc, &[failing_write])?);
    let mut engine = PoolEngine::new(&OpenGate);
    let status = run_cd(
        rt,
        alloc,
        &words,
        &mut source,
        &mut sink,
        machine,
        &mut engine,
    );
    answered(alloc, &status, &sink, machine, engine.begins())
}

fn answered(
    alloc: Global,
    status: &Status,
    sink: &MemorySink,
    machine: &MapField,
    counted: u64,
) -> Result<Answer, Fail> {
    Ok(Answer {
        status: status.code(),
        written: Vec::from_slice(alloc, sink.bytes())?,
        began: machine.event(0).is_some(),
        counted,
    })
}

/// A call with these words on two texts, one after the other, where nothing fails.
pub(crate) fn call_joined<R: Threads + Wait + Sync>(
    rt: &R,
    alloc: Global,
    words: &[&str],
    front: &str,
    back: &str,
    machine: &mut MapField,
) -> Result<Answer, Fail> {
    let mut text = String::from_str(alloc, front)?;
    text.push_str(back)?;
    call(rt, alloc, words, text.as_bytes(), machine)
}

/// A document in two parts, and the status and the text that a call on it is to answer.
pub(crate) type Case<'a> = (&'a str, &'a str, u8, &'a str);

/// What a test fails with at a case: the words, what is wrong, and the document, its second part first since a long text is
/// cut off.
fn failed(words: &[&str], why: &str, case: &Case) -> Fail {
    let (front, back, _, _) = case;
    Fail::new(format_args!("{words:?} {why}: {back} behind {front}"))
}

/// Whether the engine counted as many begins as the report's line `total` has, and none where there is none.
fn counts_as_told(alloc: Global, counted: u64, written: &str) -> Result<bool, Fail> {
    let line = format!(in alloc; "\ntotal {counted}\n")?;
    Ok(written.contains(line.as_str()) || (counted == 0 && !written.contains("\ntotal ")))
}

/// A call that answers as the case says, and fails the test where it does not.
fn answers<R: Threads + Wait + Sync>(
    rt: &R,
    alloc: Global,
    words: &[&str],
    case: &Case,
    machine: &mut MapField,
) -> Result<Answer, Fail> {
    let (front, back, status, written) = case;
    let answer = call_joined(rt, alloc, words, front, back, machine)?;
    if answer.status != *status {
        return Err(failed(words, "gives another status", case));
    }
    if answer.written.as_slice() != written.as_bytes() {
        return Err(failed(words, "writes another text", case));
    }
    Ok(answer)
}

/// A call that runs a document: it answers as the case says, the record begins exactly where the status is of a run, and the engine
/// counts what the report does.
fn runs<R: Threads + Wait + Sync>(
    rt: &R,
    alloc: Global,
    words: &[&str],
    case: &Case,
) -> Result<(), Fail> {
    let mut machine = MapField::empty(alloc);
    let (_, _, status, written) = case;
    let answer = answers(rt, alloc, words, case, &mut machine)?;
    if answer.began != (*status < 2) {
        return Err(failed(words, "leaves another record", case));
    }
    if !counts_as_told(alloc, answer.counted, written)? {
        return Err(failed(words, "counts other begins", case));
    }
    Ok(())
}

/// A call that runs nothing: it answers as the case says, there is no record, and nothing is counted.
pub(crate) fn tells<R: Threads + Wait + Sync>(
    rt: &R,
    alloc: Global,
    words: &[&str],
    case: &Case,
) -> Result<(), Fail> {
    let mut machine = MapField::empty(alloc);
    let answer = answers(rt, alloc, words, case, &mut machine)?;
    if answer.began || answer.counted != 0 {
        return Err(failed(words, "leaves a record", case));
    }
    Ok(())
}

/// A call that gives the case's status and writes a text that begins with the case's, or ends with it.
pub(crate) fn touches<R: Threads + Wait + Sync>(
    rt: &R,
    alloc: Global,
    words: &[&str],
    at_front: bool,
    case: &Case,
) -> Result<(), Fail> {
    let mut machine = MapField::empty(alloc);
    let (front, back, status, part) = case;
    let answer = call_joined(rt, alloc, words, front, back, &mut machine)?;
    if answer.status == *status && has_part(answer.written.as_slice(), at_front, part.as_bytes()) {
        return Ok(());
    }
    Err(failed(words, "writes another text", case))
}

fn has_part(text: &[u8], at_front: bool, part: &[u8]) -> bool {
    if at_front {
        text.starts_with(part)
    } else {
        text.ends_with(part)
    }
}

/// Calls that run documents, one for each case.
pub(crate) fn all_run<R: Threads + Wait + Sync>(
    rt: &R,
    alloc: Global,
    words: &[&str],
    cases: &[Case],
) -> Result<(), Fail> {
    for case in cases {
        runs(rt, alloc, words, case)?;
    }
    Ok(())
}

/// Calls that run nothing, one for each case.
pub(crate) fn all_tell<R: Threads + Wait + Sync>(
    rt: &R,
    alloc: Global,
    words: &[&str],
    cases: &[Case],
) -> Result<(), Fail> {
    for case in cases {
        tells(rt, alloc, words, case)?;
    }
    Ok(())
}

/// Calls of which each text begins with the case's.
pub(crate) fn all_begin<R: Threads + Wait + Sync>(
    rt: &R,
    alloc: Global,
    words: &[&str],
    cases: &[Case],
) -> Result<(), Fail> {
    for case in cases {
        touches(rt, alloc, words, true, case)?;
    }
    Ok(())
}

/// Calls of which each text ends with the case's.
pub(crate) fn all_end<R: Threads + Wait + Sync>(
    rt: &R,
    alloc: Global,
    words: &[&str],
    cases: &[Case],
) -> Result<(), Fail> {
    for case in cases {
        touches(rt, alloc, words, false, case)?;
    }
    Ok(())
}
