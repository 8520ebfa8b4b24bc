//! The deques through which hints go from worker to worker.

use cd_base::NoMemory;
use cd_tree::NodeId;
use crossbeam_deque::{Stealer, Worker};
use std::alloc::Global;

// How many hints a deque has room for at first.
const FIRST_HINTS: usize = 64;

/// A deque for each worker.
pub(crate) fn deques_for(alloc: Global, crew: usize) -> Result<Vec<Worker<NodeId>>, NoMemory> {
    let mut deques = Vec::with_capacity(alloc, crew)?;
    for _ in 0..crew {
        deques.push(Worker::new_lifo(alloc, FIRST_HINTS)?)?;
    }
    Ok(deques)
}

/// A handle on each, by which others take from it.
pub(crate) fn stealers_of(
    alloc: Global,
    deques: &[Worker<NodeId>],
) -> Result<Vec<Stealer<NodeId>>, NoMemory> {
    let mut stealers = Vec::with_capacity(alloc, deques.len())?;
    for deque in deques {
        stealers.push(deque.stealer()?)?;
    }
    Ok(stealers)
}
