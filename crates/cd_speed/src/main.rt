//! A program that measures: it runs one operation some number of times, on a machine (`field OP TURNS`), on a part that is
//! carved out of one (`part OP TURNS`) or as a plain loop over slices (`slice OP TURNS`), and prints a sum of words that the
//! turns gave, which is the same for all. `hand word TURNS` and `hand region TURNS` carve out and take back a part that reads
//! five regions and writes one word or a region; `copy region TURNS` copies a region's words there and back.
//!
//! `leased MEASURE TURNS THREADS` keeps, shares or fetches a block of 64 words by passes over one table of blocks, so many times on
//! each of 1, 2 or 4 threads; `pointed` does it by passes over shared pointers, and `plain` with a plain copy behind one. MEASURE is `keep` or
//! `share`, each of which gives up as often, `hold`, which shares only, or `fetch`; or `split`, which splits off a pass and takes it back,
//! `later`, which does it in a pass that has kept 10,000 blocks, or `layer`, which does it after each block that is kept.
//!
//! `group ROUNDS THREADS` sends the group of a domain through the cells so many rounds, on 1, 2 or 4 threads, and prints how many claims
//! were won.
//!
//! `carve WRITTEN RANGES TURNS` carves out and takes back a part that has so many ranges of a region, where WRITTEN says what it
//! writes of their words: `all`, `half` or `none`. `share changed TURNS` does it with a part that shares a region and changes one
//! word of it, `share same TURNS` with one that changes none. `refill field TURNS` and `refill part TURNS` put a region's words back
//! by one run. `tell field COUNT` tells so many events, `event field COUNT` also reads them back, and `tell list COUNT` and
//! `event list COUNT` do it with a plain list.
//!
//! It has no clock: the scripts `operations.sh`, `passes.sh`, `cells.sh`, `parts.sh` and `events.sh` of `bench` take the time of many turns and
//! of few.
#![tactic(auto)]

mod calls;
mod cells;
mod copies;
mod hands;
mod machine;
mod operations;
mod parts;
mod passes;
mod plain;
mod records;
mod refills;
mod shared;

use cd_base::NoMemory;
use std::alloc::{AllocError, Global};
use std::env;
use std::process::ExitCode;
use std::sync::Wait;
use std::thread::Threads;

// The words are no such call.
const MISUSE: u8 = 2;

// Writing failed, or the system does not give the words.
const FAULT: u8 = 4;

const NO_MEMORY: u8 = 6;

/// On what the turns run.
#[derive(Debug, Clone, Copy)]
enum Way {
    Field,
    Part,
    Slice,
    Hand,
    Copy,
}

fn main(rt: HostRuntime) -> ExitCode {
    let alloc = rt.alloc();
    let Ok(arguments) = env::args(&rt) else {
        return ExitCode::from(FAULT);
    };
    let collected: Result<Vec<String>, AllocError> = arguments.skip(1).collect(alloc);
    let Ok(words) = collected else {
        return ExitCode::from(NO_MEMORY);
    };
    match sum_of_call(&rt, alloc, words.as_slice()) {
        Ok(Some(sum)) => printed(&rt, sum),
        Ok(None) => ExitCode::from(MISUSE),
        Err(NoMemory) => ExitCode::from(NO_MEMORY),
    }
}

fn printed(rt: &HostRuntime, sum: u64) -> ExitCode {
    match println!(rt; "{sum}") {
        Ok(()) => ExitCode::from(0),
        Err(_) => ExitCode::from(FAULT),
    }
}

fn sum_of_call<R: Threads + Wait + Sync>(
    rt: &R,
    alloc: Global,
    words: &[String],
) -> Result<Option<u64>, NoMemory> {
    if let Some((rounds, threads)) = cells::call_of(words) {
        return Ok(Some(cells::claims_of_threads(rt, alloc, rounds, threads)?));
    }
    if let Some(call) = shared::call_of(words) {
        return Ok(Some(shared::sum_of_call(rt, alloc, call)?));
    }
    if let Some(call) = calls::call_of(words) {
        return calls::sum_of_call(alloc, call);
    }
    match call_of(words) {
        Some((way, name, turns)) => sum_of_turns(alloc, way, name, turns),
        None => Ok(None),
    }
}

fn call_of(words: &[String]) -> Option<(Way, &str, u32)> {
    let (first, rest) = words.split_first()?;
    let (name, rest) = rest.split_first()?;
    let turns = rest.first()?.parse::<u32>().ok()?;
    Some((way_of(first.as_str())?, name.as_str(), turns))
}

fn way_of(word: &str) -> Option<Way> {
    if word == "field" {
        Some(Way::Field)
    } else if word == "part" {
        Some(Way::Part)
    } else if word == "slice" {
        Some(Way::Slice)
    } else if word == "hand" {
        Some(Way::Hand)
    } else if word == "copy" {
        Some(Way::Copy)
    } else {
        None
    }
}

// The sum that the turns give, where there is an operation of this name.
fn sum_of_turns(alloc: Global, way: Way, name: &str, turns: u32) -> Result<Option<u64>, NoMemory> {
    let count = if name == "word" {
        1
    } else {
        operations::LENGTH
    };
    match way {
        Way::Hand => hands::first_of_hands(alloc, count, turns),
        Way::Copy => Ok(Some(plain::first_of_copies(alloc, count, turns)?)),
        Way::Field | Way::Part | Way::Slice => sum_of_operation(alloc, way, name, turns),
    }
}

fn sum_of_operation(
    alloc: Global,
    way: Way,
    name: &str,
    turns: u32,
) -> Result<Option<u64>, NoMemory> {
    let Some(op) = operations::named(name) else {
        return Ok(None);
    };
    let sum = match way {
        Way::Field => machine::sum_of_turns(alloc, op, turns)?,
        Way::Part => machine::sum_of_part(alloc, op, turns)?,
        Way::Slice | Way::Hand | Way::Copy => Some(plain::sum_of_turns(alloc, op, turns)?),
    };
    Ok(sum)
}
