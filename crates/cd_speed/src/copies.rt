// The same turns on a plain copy of a block's words behind a shared pointer. What is shared is let go in its turn.
ghost use Rattle.std.specs.Thread.{IsSync};

use crate::passes::{Measure, Task, WORDS};
use crate::plain::copy;
use cd_base::NoMemory;
use std::alloc::Global;
use std::sync::Arc;
use std::thread::{Threads, join};

type Block = Arc<[u64; 64], Global>;

/// Has so many threads do their turns on one copy. Gives the sum of what they read.
pub(crate) fn sum_of_threads<R: Threads + Sync>(
    rt: &R,
    alloc: Global,
    threads: u32,
    task: Task,
) -> Result<u64, NoMemory> {
    let block = Arc::new(alloc, WORDS)?;
    match threads {
        4 => on_four(rt, alloc, block, task),
        2 => on_two(rt, alloc, block, task),
        _ => on_one(alloc, &block, task),
    }
}

fn on_four<R: Threads + Sync>(
    rt: &R,
    alloc: Global,
    block: Block,
    task: Task,
) -> Result<u64, NoMemory> {
    let other = Arc::try_clone(&block)?;
    let (first, second) = join(
        rt,
        move || -> Result<u64, NoMemory>
            requires { IsSync R.row }
        { on_two(rt, alloc, block, task) },
        move || -> Result<u64, NoMemory>
            requires { IsSync R.row }
        { on_two(rt, alloc, other, task) },
    );
    Ok(first?.wrapping_add(second?))
}

fn on_two<R: Threads + Sync>(
    rt: &R,
    alloc: Global,
    block: Block,
    task: Task,
) -> Result<u64, NoMemory> {
    let other = Arc::try_clone(&block)?;
    let (first, second) = join(
        rt,
        move || -> Result<u64, NoMemory> { on_one(alloc, &block, task) },
        move || -> Result<u64, NoMemory> { on_one(alloc, &other, task) },
    );
    Ok(first?.wrapping_add(second?))
}

fn on_one(alloc: Global, block: &Block, task: Task) -> Result<u64, NoMemory> {
    match task.measure {
        Measure::Keep | Measure::Layer => kept_in_turn(alloc, task.turns),
        Measure::Share | Measure::Hold | Measure::Split | Measure::SplitLater => {
            shared_in_turn(block, task.turns)
        }
        Measure::Fetch => Ok(fetched_in_turn(block, task.turns)),
    }
}

fn kept_in_turn(alloc: Global, turns: u32) -> Result<u64, NoMemory> {
    let mut kept = Arc::new(alloc, WORDS)?;
    let mut sum = 0u64;
    for turn in 0..turns {
        sum = sum.wrapping_add(kept[turn as usize % 64]);
        kept = Arc::new(alloc, WORDS)?;
    }
    Ok(sum)
}

fn shared_in_turn(block: &Block, turns: u32) -> Result<u64, NoMemory> {
    let mut sum = 0u64;
    for turn in 0..turns {
        let other = Arc::try_clone(block)?;
        sum = sum.wrapping_add(other[turn as usize % 64]);
    }
    Ok(sum)
}

fn fetched_in_turn(block: &Block, turns: u32) -> u64 {
    let mut words = [0; 64];
    let mut sum = 0u64;
    for turn in 0..turns {
        sum = sum.wrapping_add(copy_and_read(block.as_slice(), &mut words, turn % 64));
    }
    sum
}

fn copy_and_read(from: &[u64], words: &mut [u64], at: u32) -> u64 {
    copy(words, from);
    words.get(at as usize).copied().unwrap_or(0)
}
