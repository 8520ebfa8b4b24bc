//! What an engine has counted after several calls with it.

use super::calls::{EXHAUSTED, FILL, RECOVERED, words_of};
use super::texts::{MEMBERS, MEMBERS_STRUCK};
use cd_app::run_cd;
use cd_base::{MemorySink, MemorySource};
use cd_field::MapField;
use cd_pool::{Gate, OpenGate, PoolEngine};
use std::alloc::Global;
use std::sync::Wait;
use std::test::Fail;
use std::thread::Threads;

/// A call in two parts of its document: its words, the number of the write that fails, where 0 is none, its status, and the count after it.
type Counted<'a> = (&'a [&'a str], &'a str, &'a str, u64, u8, u64);

/// Calls with one engine, in this order: runs are counted, also where the report is not written; all else is not.
static CALLS: [Counted; 9] = [
    (&["run", "--record"], FILL, RECOVERED, 0, 0, 2),
    (&["read"], FILL, RECOVERED, 0, 0, 2),
    (&["check"], FILL, RECOVERED, 0, 0, 2),
    (&["run"], FILL, EXHAUSTED, 0, 1, 4),
    (&["walk"], FILL, "", 0, 2, 4),
    (&["run"], FILL, "none\n", 0, 3, 4),
    (&["run", "--workers=1"], FILL, "", 1, 5, 5),
    (&["run", "--workers=8"], MEMBERS, MEMBERS_STRUCK, 0, 0, 11),
    (&["make"], "", "", 1, 5, 11),
];

// One call, by its status and the count after it.
fn counts<R: Threads + Wait + Sync, G: Gate>(
    rt: &R,
    alloc: Global,
    call: &Counted,
    engine: &mut PoolEngine<'_, G>,
) -> Result<(), Fail> {
    let (words, front, back, failing_write, status, count) = call;
    let mut text = String::from_str(alloc, front)?;
    text.push_str(back)?;
    let words = words_of(alloc, words)?;
    let bytes = Vec::from_slice(alloc, text.as_bytes())?;
    let mut source = MemorySource::new(bytes, 4096, Vec::new(alloc));
    let mut sink = MemorySink::new(alloc, 4096, Vec::from_slice(alloc, &[*failing_write])?);
    let mut machine = MapField::empty(alloc);
    let ended = run_cd(
        rt,
        alloc,
        &words,
        &mut source,
        &mut sink,
        &mut machine,
        engine,
    );
    let code = ended.code();
    let begins = engine.begins();
    if code == *status && begins == *count {
        return Ok(());
    }
    Err(Fail::new(format_args!(
        "status {code} and {begins} begins in place of {status} and {count}"
    )))
}

#[test]
fn an_engine_counts_the_begins_of_its_runs(rt: HostRuntime) -> Result<(), Fail> {
    let mut engine = PoolEngine::new(&OpenGate);
    if engine.begins() != 0 {
        return Err(Fail::new("it has counted before it ran"));
    }
    for call in &CALLS {
        counts(&rt, rt.alloc(), call, &mut engine)?;
    }
    Ok(())
}
