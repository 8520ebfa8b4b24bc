// The calls that time parts, refills and records.
use crate::hands::{self, Written};
use crate::{records, refills};
use cd_base::NoMemory;
use std::alloc::Global;

/// A call, as its words say.
#[derive(Debug, Clone, Copy)]
pub(crate) enum Call {
    Carve {
        written: Written,
        ranges: u32,
        turns: u32,
    },
    Share {
        changes: bool,
        turns: u32,
    },
    Refill {
        part: bool,
        turns: u32,
    },
    Tell {
        list: bool,
        reads: bool,
        count: u32,
    },
}

/// The call that these words are.
pub(crate) fn call_of(words: &[String]) -> Option<Call> {
    let (way, rest) = words.split_first()?;
    let (name, rest) = rest.split_first()?;
    let (first, rest) = rest.split_first()?;
    let number = first.parse::<u32>().ok()?;
    if way.as_str() == "carve" {
        return Some(Call::Carve {
            written: written_of(name.as_str())?,
            ranges: number,
            turns: rest.first()?.parse::<u32>().ok()?,
        });
    }
    timed_of(way.as_str(), name.as_str(), number)
}

fn written_of(word: &str) -> Option<Written> {
    if word == "all" {
        Some(Written::Whole)
    } else if word == "half" {
        Some(Written::Half)
    } else if word == "none" {
        Some(Written::Nothing)
    } else {
        None
    }
}

fn timed_of(way: &str, name: &str, number: u32) -> Option<Call> {
    if way == "share" {
        Some(Call::Share {
            changes: name == "changed",
            turns: number,
        })
    } else if way == "refill" {
        Some(Call::Refill {
            part: name == "part",
            turns: number,
        })
    } else if way == "tell" || way == "event" {
        Some(Call::Tell {
            list: name == "list",
            reads: way == "event",
            count: number,
        })
    } else {
        None
    }
}

/// The sum that the turns give; none where the ranges do not fit in a region.
pub(crate) fn sum_of_call(alloc: Global, call: Call) -> Result<Option<u64>, NoMemory> {
    match call {
        Call::Carve {
            written,
            ranges,
            turns,
        } => hands::first_of_carves(alloc, written, ranges, turns),
        Call::Share { changes, turns } => hands::first_of_shares(alloc, changes, turns),
        Call::Refill { part, turns } => Ok(Some(refills::sum_of_refills(alloc, part, turns)?)),
        Call::Tell { list, reads, count } => Ok(Some(sum_of_events(alloc, list, reads, count)?)),
    }
}

fn sum_of_events(alloc: Global, list: bool, reads: bool, count: u32) -> Result<u64, NoMemory> {
    if list {
        records::sum_of_list(alloc, count, reads)
    } else {
        records::sum_of_told(alloc, count, reads)
    }
}
