// The calls that time what threads share: blocks of words behind passes, or a plain copy.
use crate::copies;
use crate::passes::{self, Measure, ROOM, ROOM_OF_ONE, Task};
use cd_base::NoMemory;
use cd_keep::ArcPass;
use cd_lease::LeasePass;
use std::alloc::Global;
use std::sync::Wait;
use std::thread::Threads;

// How many blocks the table has.
const BLOCKS: u32 = 64;

/// Behind what a block stands.
#[derive(Debug, Clone, Copy)]
enum Behind {
    Leased,
    Pointed,
    Plain,
}

/// A call, as its words say.
#[derive(Debug, Clone, Copy)]
pub(crate) struct Call {
    behind: Behind,
    task: Task,
    threads: u32,
}

/// The call that these words are.
pub(crate) fn call_of(words: &[String]) -> Option<Call> {
    let (behind, rest) = words.split_first()?;
    let (measure, rest) = rest.split_first()?;
    let (turns, rest) = rest.split_first()?;
    let task = Task {
        measure: measure_of(measure.as_str())?,
        turns: turns.parse::<u32>().ok()?,
    };
    Some(Call {
        behind: behind_of(behind.as_str())?,
        task,
        threads: rest.first()?.parse::<u32>().ok()?,
    })
}

fn behind_of(word: &str) -> Option<Behind> {
    if word == "leased" {
        Some(Behind::Leased)
    } else if word == "pointed" {
        Some(Behind::Pointed)
    } else if word == "plain" {
        Some(Behind::Plain)
    } else {
        None
    }
}

fn measure_of(word: &str) -> Option<Measure> {
    if word == "keep" {
        Some(Measure::Keep)
    } else if word == "share" {
        Some(Measure::Share)
    } else if word == "hold" {
        Some(Measure::Hold)
    } else if word == "fetch" {
        Some(Measure::Fetch)
    } else if word == "split" {
        Some(Measure::Split)
    } else if word == "later" {
        Some(Measure::SplitLater)
    } else if word == "layer" {
        Some(Measure::Layer)
    } else {
        None
    }
}

/// The sum that the threads' turns give. Where they hold what they share, there are rounds, each with a store of its own.
pub(crate) fn sum_of_call<R: Threads + Wait + Sync>(
    rt: &R,
    alloc: Global,
    call: Call,
) -> Result<u64, NoMemory> {
    let rounds = match (call.behind, call.task.measure) {
        (Behind::Leased | Behind::Pointed, Measure::Hold) => call.task.turns / ROOM_OF_ONE,
        _ => 1,
    };
    let mut sum = 0u64;
    for _ in 0..rounds {
        sum = sum.wrapping_add(sum_of_round(rt, alloc, call)?);
    }
    Ok(sum)
}

fn sum_of_round<R: Threads + Wait + Sync>(
    rt: &R,
    alloc: Global,
    call: Call,
) -> Result<u64, NoMemory> {
    match call.behind {
        Behind::Leased => {
            let pass = LeasePass::open(alloc, BLOCKS, ROOM)?;
            passes::sum_of_threads(rt, pass, call.threads, call.task)
        }
        Behind::Pointed => {
            let pass = ArcPass::open(alloc, ROOM)?;
            passes::sum_of_threads(rt, pass, call.threads, call.task)
        }
        Behind::Plain => copies::sum_of_threads(rt, alloc, call.threads, call.task),
    }
}
