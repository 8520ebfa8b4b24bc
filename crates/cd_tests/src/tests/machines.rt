//! What is left on a machine after a run: words and events.

ghost use Rattle.std.specs.Prelude.{◌≡◌, ◌<◌, IsTrue, IfOk, false};
ghost use Rattle.cd_field.specs.Maps.{machine_of};
ghost use Rattle.cd_app.specs.Headline.{comes_of_a_run};
ghost use Rattle.cd_tests.specs.Look.{HasFourWords, HasFourWordsLeft, FourArePresent, IsRun};

use super::calls::{EXHAUSTED, FILL, RECOVERED, call_joined};
use cd_app::{Status, run_cd};
use cd_base::{MemorySink, MemorySource, Place, Sink, Source, Text};
use cd_command::Words;
use cd_field::{Field, MapField};
use cd_pool::{Engine, OpenGate, PoolEngine};
use cd_tree::{Event, Kept, Kind, Kinds, NodeId, laws};
use std::alloc::Global;
use std::sync::Wait;
use std::test::Fail;
use std::thread::Threads;

// The word `run` alone.
fn run_alone(alloc: Global) -> Result<Words, Fail>
    ensures { IfOk result (λ words. IsRun words false) }
{
    let mut words = Words::new(alloc);
    words.push(Text::of(alloc, "run")?)?;
    Ok(words)
}

fn comes_of_a_run(status: &Status) -> bool
    ensures { result ≡ comes_of_a_run status.now }
{
    matches!(
        status,
        Status::Done | Status::Exhausted(_) | Status::WriteFault
    )
}

fn word(machine: &MapField, index: u32) -> u64
    requires present { FourArePresent (machine_of machine.now) }
    requires within { index < 4 }
{
    machine.read(Place { region: 0, index })
}

// Runs what the source has, and says whether the run came to its end.
fn runs<R: Threads + Wait + Sync, S: Source, K: Sink, F: Field, E: Engine>(
    rt: &R,
    alloc: Global,
    words: &Words,
    source: &mut S,
    sink: &mut K,
    machine: &mut F,
    engine: &mut E,
) -> bool
    requires run { IsRun words.now false }
    requires text { HasFourWordsLeft (S.model source.old).left }
    ensures { IsTrue result → FourArePresent (F.model machine.new) }
{
    laws::words_stay();
    cd_app::laws::a_run_leaves_what_the_reading_gives();
    let status = run_cd(rt, alloc, words, source, sink, machine, engine);
    comes_of_a_run(&status)
}

// The first four words of the machine after the call `run` on a text; none where the run did not come to its end.
fn words_behind<R: Threads + Wait + Sync>(
    rt: &R,
    alloc: Global,
    text: &str,
    failing_write: u64,
) -> Result<Option<[u64; 4]>, Fail>
    requires { HasFourWords text.now }
{
    let words = run_alone(alloc)?;
    let text = Vec::from_slice(alloc, text.as_bytes())?;
    let mut source = MemorySource::new(text, 4096, Vec::new(alloc));
    let mut sink = MemorySink::new(alloc, 1, Vec::from_slice(alloc, &[failing_write])?);
    let mut machine = MapField::empty(alloc);
    let mut engine = PoolEngine::new(&OpenGate);
    if runs(
        rt,
        alloc,
        &words,
        &mut source,
        &mut sink,
        &mut machine,
        &mut engine,
    ) {
        return Ok(Some(four_words(&machine)));
    }
    Ok(None)
}

fn four_words(machine: &MapField) -> [u64; 4]
    requires { FourArePresent (machine_of machine.now) }
{
    [
        word(machine, 0),
        word(machine, 1),
        word(machine, 2),
        word(machine, 3),
    ]
}

// As `FILL`, with two strikes after it.
const STRUCK: &str =
    "cd 1\nregion y 4 const 0\ndomain root retry 2 detects flip\npreserve y copy\nfill y 7\nend\nfaults\nstrike root 1 1 flip y[0] 255\nstrike root 2 1 flip y[0] 1\n";

fn words_behind_strikes<R: Threads + Wait + Sync>(
    rt: &R,
    alloc: Global,
) -> Result<Option<[u64; 4]>, Fail> {
    words_behind(rt, alloc, STRUCK, 0)
}

fn words_behind_fill<R: Threads + Wait + Sync>(
    rt: &R,
    alloc: Global,
    failing_write: u64,
) -> Result<Option<[u64; 4]>, Fail> {
    words_behind(rt, alloc, FILL, failing_write)
}

/// Fails unless these are the words that a run left.
fn are(found: Option<[u64; 4]>, wanted: [u64; 4]) -> Result<(), Fail> {
    if found == Some(wanted) {
        return Ok(());
    }
    Err(Fail::new(format_args!("{found:?} in place of {wanted:?}")))
}

#[test]
fn words_are_there_after_a_run(rt: HostRuntime) -> Result<(), Fail> {
    are(words_behind_fill(&rt, rt.alloc(), 0)?, [7, 7, 7, 7])?;
    are(words_behind_strikes(&rt, rt.alloc())?, [0, 0, 0, 0])
}

#[test]
fn a_fault_at_any_write_leaves_the_words(rt: HostRuntime) -> Result<(), Fail> {
    for call in 1..50 {
        are(words_behind_fill(&rt, rt.alloc(), call)?, [7, 7, 7, 7])?;
    }
    Ok(())
}

const NODE: NodeId = NodeId(0);

const SAVED: Event = Event::Saved {
    node: NODE,
    entry: 0,
    how: Kept::Copy,
};

const REFILLED: Event = Event::Refilled {
    node: NODE,
    entry: 0,
};

const START: Event = Event::Reached {
    node: NODE,
    point: 0,
};

const END: Event = Event::Reached {
    node: NODE,
    point: 1,
};

/// The events of a try that comes to its end.
fn tried(number: u64, entry: Event, kinds: Kinds) -> [Event; 5] {
    let begin = Event::Begin { node: NODE, number };
    [begin, entry, START, END, Event::Found { node: NODE, kinds }]
}

/// The machine has these events after the call `run` on a document with strikes: a try that found a flip, one that found
/// these kinds, and the last ones.
fn leaves<R: Threads + Wait + Sync>(
    rt: &R,
    alloc: Global,
    strikes: &str,
    kinds: Kinds,
    last: &[Event],
) -> Result<(), Fail> {
    let mut machine = MapField::empty(alloc);
    call_joined(rt, alloc, &["run"], FILL, strikes, &mut machine)?;
    let flip = Kinds::none().with(Kind(0));
    let mut events = Vec::from_slice(alloc, &tried(1, SAVED, flip))?;
    events.extend_from_slice(&tried(2, REFILLED, kinds))?;
    events.extend_from_slice(last)?;
    for (k, event) in events.iter().enumerate() {
        if machine.event(k as u64) != Some(*event) {
            return Err(Fail::new(format_args!("event {k} is not {event:?}")));
        }
    }
    if machine.event(events.len() as u64).is_some() {
        return Err(Fail::new("there are more events"));
    }
    Ok(())
}

#[test]
fn a_recovered_run_leaves_its_record(rt: HostRuntime) -> Result<(), Fail> {
    let last = [Event::Complete { node: NODE }];
    leaves(&rt, rt.alloc(), RECOVERED, Kinds::none(), &last)
}

#[test]
fn an_exhausted_run_ends_with_its_refill(rt: HostRuntime) -> Result<(), Fail> {
    let last = [REFILLED, Event::Escalate { node: NODE }];
    leaves(
        &rt,
        rt.alloc(),
        EXHAUSTED,
        Kinds::none().with(Kind(0)),
        &last,
    )
}
