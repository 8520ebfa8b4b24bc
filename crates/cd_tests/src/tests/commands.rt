//! Words of the command line: what they do, and that others do nothing.

use super::calls::{FILL, FILLED, USAGE, call_joined, touches, words_of};
use cd_app::{plain_cd, run_cd};
use cd_base::{MemorySink, MemorySource, read_all};
use cd_field::{Field, MapField};
use cd_pool::{OpenGate, PoolEngine};
use cd_tree::{Event, NodeId};
use std::alloc::Global;
use std::sync::Wait;
use std::test::Fail;
use std::thread::Threads;

macro_rules! lists {
    ($($words:expr;)*) => {
        [$(&$words),*]
    };
}

/// Words that give no command.
static NOTHING: [&[&str]; 54] = lists! {
    []; ["run", "run"]; ["runs"]; ["RUN"]; ["run "]; [""]; ["help"]; ["--help"]; ["-h"]; ["--version"];
    ["-V"]; ["-"]; ["run", "-"]; ["--"]; ["--", "--"]; ["--", "--", "run"]; ["--", "run", "check"];
    ["run", "--", "--record"]; ["-run"]; ["--run"]; ["run", "-x"]; ["run", "--work=2"]; ["run", "--workers"];
    ["run", "--workers", "-1"]; ["run", "--workers", "-"]; ["run", "--workers", "--record"];
    ["--workers", "--", "run"]; ["run", "--workers", ""]; ["run", "--workers="]; ["run", "--workers", "0"];
    ["run", "--workers", "65"]; ["run", "--workers=0008"]; ["run", "--workers=8 "]; ["run", "--workers=+8"];
    ["run", "--workers=8x"]; ["run", "--workers=8=8"]; ["run", "--workers=8", "--workers=8"];
    ["run", "--record", "--record"]; ["run", "--record="]; ["run", "--record=1"]; ["run", "--size=4"];
    ["check", "--record"]; ["check", "--workers=2"]; ["read", "--workers=2"]; ["read", "--size=1"];
    ["lift", "--record"]; ["make", "--record"]; ["make", "--workers=2"]; ["make", "--size"];
    ["make", "--size=0"]; ["make", "--size=15"]; ["make", "--size=4", "--size=4"]; ["make", "check"];
    ["--size=4"];
};

// A call with these words writes the usage line, reads nothing, counts nothing, and leaves the machine as the run before left it.
fn give_nothing<R: Threads + Wait + Sync>(
    rt: &R,
    alloc: Global,
    texts: &[&str],
) -> Result<(), Fail> {
    let words = words_of(alloc, texts)?;
    let mut machine = MapField::empty(alloc);
    call_joined(rt, alloc, &["run"], FILL, "", &mut machine)?;
    let text = Vec::from_slice(alloc, FILL.as_bytes())?;
    let mut source = MemorySource::new(text, 1, Vec::new(alloc));
    let mut sink = MemorySink::new(alloc, 1, Vec::new(alloc));
    let mut engine = PoolEngine::new(&OpenGate);
    let status = run_cd(
        rt,
        alloc,
        &words,
        &mut source,
        &mut sink,
        &mut machine,
        &mut engine,
    );
    let left = read_all(alloc, &mut source, 100)?;
    let last = Some(Event::Complete { node: NodeId(0) });
    if status.code() == 2
        && sink.bytes() == USAGE.as_bytes()
        && left.as_slice() == FILL.as_bytes()
        && machine.event(5) == last
        && machine.event(6).is_none()
        && engine.begins() == 0
    {
        return Ok(());
    }
    Err(Fail::new(format_args!("the words {texts:?} do something")))
}

#[test]
fn other_words_read_nothing_and_run_nothing(rt: HostRuntime) -> Result<(), Fail> {
    for texts in &NOTHING {
        give_nothing(&rt, rt.alloc(), texts)?;
    }
    Ok(())
}

/// What a run of the document writes with its record.
const RECORDED: &str = "\
committed
region y 7 7 7 7
begins root 1
total 1
record
begin 0 1
saved 0 0 copy
reached 0 0
reached 0 1
found 0 none
complete 0
";

/// What `check` writes of it.
const CHECKED: &str = "\
# accepted domains 1 items 1 entries 1 words 4 need 1 faults 0
cd 1
region y 4 const 0
domain root retry 2 detects flip
preserve y[0..4] copy
fill y[0..4] 7
end
";

const READ: &str = "committed\nbegins root 1\ntotal 1\n";

/// What `lift` writes of it.
const LIFTED: &str = "\
cd 2
kind flip
kind lost
kind link
kind node
region y 4 const 0
domain root retry 2 detects flip
preserve y[0..4] copy
fill y[0..4] 7
end
";

/// The first lines of made documents.
const SIZE_1: &str = "cd 1\nregion starts 17 iota 0 2\n";

const SIZE_2: &str = "cd 1\nregion starts 65 iota 0 2\n";

const SIZE_4: &str = "cd 1\nregion starts 257 iota 0 2\n";

const SIZE_14: &str = "cd 1\nregion starts 3137 iota 0 2\n";

/// Words that give a command, and what it writes, or of `make` the first lines.
static COMMANDS: [(&[&str], &str); 26] = [
    (&["run"], FILLED),
    (&["run", "--workers", "8"], FILLED),
    (&["--workers", "8", "run"], FILLED),
    (&["run", "--workers=8"], FILLED),
    (&["--workers=8", "run"], FILLED),
    (&["--", "run"], FILLED),
    (&["run", "--"], FILLED),
    (&["--workers=64", "--", "run"], FILLED),
    (&["run", "--workers", "1"], FILLED),
    (&["run", "--workers=064"], FILLED),
    (&["run", "--record"], RECORDED),
    (&["--record", "run"], RECORDED),
    (&["--record", "--", "run"], RECORDED),
    (&["run", "--record", "--workers=3"], RECORDED),
    (&["--workers", "3", "run", "--record"], RECORDED),
    (&["check"], CHECKED),
    (&["check", "--"], CHECKED),
    (&["read"], READ),
    (&["--", "read"], READ),
    (&["lift"], LIFTED),
    (&["make"], SIZE_4),
    (&["make", "--size", "4"], SIZE_4),
    (&["make", "--size=1"], SIZE_1),
    (&["make", "--size=014"], SIZE_14),
    (&["--size", "2", "make"], SIZE_2),
    (&["--size=2", "--", "make"], SIZE_2),
];

#[test]
fn words_give_their_command(rt: HostRuntime) -> Result<(), Fail> {
    for (words, written) in &COMMANDS {
        touches(&rt, rt.alloc(), words, true, &(FILL, "", 0, *written))?;
    }
    Ok(())
}

/// Words with what `plain_cd` writes for them on the same document, and its status; none where they ask for a run.
static PLAIN: [(&[&str], Option<u8>, &str); 8] = [
    (&["check"], Some(0), CHECKED),
    (&["read"], Some(0), READ),
    (&["lift"], Some(0), LIFTED),
    (&["make", "--size=1"], Some(0), SIZE_1),
    (&["walk"], Some(2), USAGE),
    (&[], Some(2), USAGE),
    (&["run"], None, ""),
    (&["run", "--record"], None, ""),
];

// What is done without a machine is done as with one, and a run is handed back with nothing read and nothing written.
fn is_plain(alloc: Global, texts: &[&str], wanted: Option<u8>, written: &str) -> Result<(), Fail> {
    let words = words_of(alloc, texts)?;
    let text = Vec::from_slice(alloc, FILL.as_bytes())?;
    let mut source = MemorySource::new(text, 4096, Vec::new(alloc));
    let mut sink = MemorySink::new(alloc, 4096, Vec::new(alloc));
    let done = plain_cd(alloc, &words, &mut source, &mut sink);
    let left = read_all(alloc, &mut source, 100)?;
    let status = done.ok().map(|status| status.code());
    if status == wanted
        && sink.bytes().starts_with(written.as_bytes())
        && (wanted.is_some() || (left.as_slice() == FILL.as_bytes() && sink.bytes().is_empty()))
    {
        return Ok(());
    }
    Err(Fail::new(format_args!("the words {texts:?} do otherwise")))
}

#[test]
fn what_runs_nothing_needs_no_machine(rt: HostRuntime) -> Result<(), Fail> {
    for (words, status, written) in &PLAIN {
        is_plain(rt.alloc(), words, *status, written)?;
    }
    Ok(())
}
