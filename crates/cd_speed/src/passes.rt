// Turns of one call of a pass, or of a call and the one that takes it back, on one, two and four threads. Each thread has a
// pass of its own, and all were split off from one.
ghost use Rattle.std.specs.Prelude.{◌≡◌, ◌+◌, ◌<◌, ◌≤◌, IsSome, OnOk, length};
ghost use Rattle.std.specs.Thread.{IsSend, IsSync};
ghost use Rattle.cd_keep.specs.PassModel.{child_of, joined, without, words_of};
ghost use Rattle.cd_speed.specs.Turned.{CanTurn};

use cd_base::NoMemory;
use cd_keep::{KeepId, Pass};
use std::sync::Wait;
use std::thread::{Threads, join};

/// The words of a block.
pub(crate) const WORDS: [u64; 64] = [7; 64];

/// The room that the first pass is opened with.
pub(crate) const ROOM: u32 = 65_536;

/// A thread's room.
pub(crate) const ROOM_OF_ONE: u32 = 16_000;

// How many blocks are kept by a pass that is split off for them. Then it is let go, and its room is gone.
const TURNS_OF_ONE: u32 = 256;

/// What a turn does.
#[derive(Debug, Clone, Copy)]
pub(crate) enum Measure {
    /// Keeps a block and gives it up.
    Keep,
    /// Shares a block and gives it up.
    Share,
    /// Shares a block and holds it, as often as there is room: no other number of turns.
    Hold,
    /// Fetches a block's words.
    Fetch,
    /// Splits off a pass and takes it back.
    Split,
    /// The same where thousands of blocks were kept before.
    SplitLater,
    /// Keeps a block, splits off a pass and takes it back, and gives the block up.
    Layer,
}

// How many blocks are kept before a pass is split off where it is to be late.
const KEPT_BEFORE: u32 = 10_000;

/// What each thread does.
#[derive(Debug, Clone, Copy)]
pub(crate) struct Task {
    pub(crate) measure: Measure,
    pub(crate) turns: u32,
}

/// Keeps a block, and has so many threads do their turns. Gives the sum of what they read.
pub(crate) fn sum_of_threads<R: Threads + Wait + Sync, P: Pass>(
    rt: &R,
    mut pass: P,
    threads: u32,
    task: Task,
) -> Result<u64, NoMemory>
    requires { (P.model pass).room ≡ 65536 }
{
    let id = pass.keep(rt, WORDS.as_slice())?;
    let child = pass.split(4 * ROOM_OF_ONE)?;
    match threads {
        4 => on_four(rt, child, id, task),
        2 => on_two(rt, child, id, task),
        _ => on_one(rt, child, id, task),
    }
}

fn on_four<R: Threads + Wait + Sync, P: Pass>(
    rt: &R,
    mut pass: P,
    id: KeepId,
    task: Task,
) -> Result<u64, NoMemory>
    requires { CanTurn (P.model pass) id 64000 }
{
    let child = pass.split(2 * ROOM_OF_ONE)?;
    let (first, second) = join(
        rt,
        move || -> Result<u64, NoMemory>
            requires { IsSync R.row × IsSend P.row × CanTurn (P.model pass) id 32000 }
        { on_two(rt, pass, id, task) },
        move || -> Result<u64, NoMemory>
            requires { IsSync R.row × IsSend P.row × CanTurn (P.model child) id 32000 }
        { on_two(rt, child, id, task) },
    );
    Ok(first?.wrapping_add(second?))
}

fn on_two<R: Threads + Wait + Sync, P: Pass>(
    rt: &R,
    mut pass: P,
    id: KeepId,
    task: Task,
) -> Result<u64, NoMemory>
    requires { CanTurn (P.model pass) id 32000 }
{
    let child = pass.split(ROOM_OF_ONE)?;
    let (first, second) = join(
        rt,
        move || -> Result<u64, NoMemory>
            requires { IsSync R.row × IsSend P.row × CanTurn (P.model pass) id 16000 }
        { on_one(rt, pass, id, task) },
        move || -> Result<u64, NoMemory>
            requires { IsSync R.row × IsSend P.row × CanTurn (P.model child) id 16000 }
        { on_one(rt, child, id, task) },
    );
    Ok(first?.wrapping_add(second?))
}

fn on_one<R: Wait, P: Pass>(rt: &R, mut pass: P, id: KeepId, task: Task) -> Result<u64, NoMemory>
    requires { CanTurn (P.model pass) id 16000 }
{
    match task.measure {
        Measure::Keep | Measure::Layer => kept_in_turn(rt, &mut pass, task),
        Measure::Split => split_in_turn(&mut pass, task.turns),
        Measure::SplitLater => split_later(rt, &mut pass, task.turns),
        Measure::Share => Ok(shared_in_turn(&mut pass, id, task.turns)),
        Measure::Hold => Ok(held_in_turn(&mut pass, id)),
        Measure::Fetch => Ok(fetched_in_turn(&mut pass, id, task.turns)),
    }
}

// So many blocks, each some after another in a pass of its own, which is let go with what it has seen.
fn kept_in_turn<R: Wait, P: Pass>(rt: &R, pass: &mut P, task: Task) -> Result<u64, NoMemory>
    requires { 16000 ≤ (P.model pass.old).room }
{
    let mut sum = 0u64;
    let count = (task.turns / TURNS_OF_ONE).min(ROOM_OF_ONE);
    for _turn in 0..count {
        let child = pass.split(1)?;
        sum = sum.wrapping_add(kept_by_one(rt, child, task)?);
    }
    Ok(sum)
}

fn kept_by_one<R: Wait, P: Pass>(rt: &R, pass: P, task: Task) -> Result<u64, NoMemory>
    requires { (P.model pass).room ≡ 1 }
{
    match task.measure {
        Measure::Layer => layered_by(rt, pass),
        _ => kept_by(rt, pass),
    }
}

fn layered_by<R: Wait, P: Pass>(rt: &R, mut pass: P) -> Result<u64, NoMemory>
    requires { (P.model pass).room ≡ 1 }
{
    let mut sum = 0u64;
    for _turn in 0..TURNS_OF_ONE {
        sum = sum.wrapping_add(keep_split_and_give_up(rt, &mut pass)?);
    }
    Ok(sum)
}

fn keep_split_and_give_up<R: Wait, P: Pass>(rt: &R, pass: &mut P) -> Result<u64, NoMemory>
    requires { (P.model pass.old).room ≡ 1 }
    ensures { OnOk result ((P.model pass.new).room ≡ 1) }
{
    let id = pass.keep(rt, WORDS.as_slice())?;
    split_and_join(pass)?;
    pass.give_up(id);
    Ok(7)
}

fn split_in_turn<P: Pass>(pass: &mut P, turns: u32) -> Result<u64, NoMemory> {
    let mut sum = 0u64;
    for _turn in 0..turns {
        split_and_join(pass)?;
        sum = sum.wrapping_add(7);
    }
    Ok(sum)
}

fn split_and_join<P: Pass>(pass: &mut P) -> Result<(), NoMemory>
    ensures { OnOk result (P.model pass.new ≡ joined (without (P.model pass.old) 0) (child_of (P.model pass.old) 0)) }
{
    let child = pass.split(0)?;
    pass.join(child);
    Ok(())
}

fn split_later<R: Wait, P: Pass>(rt: &R, pass: &mut P, turns: u32) -> Result<u64, NoMemory>
    requires { 16000 ≤ (P.model pass.old).room }
{
    for _turn in 0..KEPT_BEFORE {
        let _id: KeepId = pass.keep(rt, WORDS.as_slice())?;
    }
    split_in_turn(pass, turns)
}

fn kept_by<R: Wait, P: Pass>(rt: &R, mut pass: P) -> Result<u64, NoMemory>
    requires { (P.model pass).room ≡ 1 }
{
    let mut sum = 0u64;
    for _turn in 0..TURNS_OF_ONE {
        sum = sum.wrapping_add(keep_and_give_up(rt, &mut pass)?);
    }
    Ok(sum)
}

fn keep_and_give_up<R: Wait, P: Pass>(rt: &R, pass: &mut P) -> Result<u64, NoMemory>
    requires { (P.model pass.old).room ≡ 1 }
    ensures { OnOk result ((P.model pass.new).room ≡ 1) }
{
    let id = pass.keep(rt, WORDS.as_slice())?;
    pass.give_up(id);
    Ok(7)
}

fn shared_in_turn<P: Pass>(pass: &mut P, id: KeepId, turns: u32) -> u64
    requires { CanTurn (P.model pass.old) id 16000 }
{
    let mut sum = 0u64;
    for _turn in 0..turns {
        sum = sum.wrapping_add(share_and_give_up(pass, id));
    }
    sum
}

fn share_and_give_up<P: Pass>(pass: &mut P, id: KeepId) -> u64
    requires { CanTurn (P.model pass.old) id 16000 }
    ensures { CanTurn (P.model pass.new) id 16000 }
{
    if pass.share(id).is_err() {
        return 0;
    }
    pass.give_up(id);
    7
}

fn held_in_turn<P: Pass>(pass: &mut P, id: KeepId) -> u64
    requires { CanTurn (P.model pass.old) id 16000 }
{
    let mut sum = 0u64;
    for _turn in 0..ROOM_OF_ONE {
        sum = sum.wrapping_add(share_once(pass, id));
    }
    sum
}

fn share_once<P: Pass>(pass: &mut P, id: KeepId) -> u64
    requires known { IsSome ((P.model pass.old).known id) }
    requires room { 0 < (P.model pass.old).room }
    ensures known { IsSome ((P.model pass.new).known id) }
    ensures room { (P.model pass.old).room ≤ (P.model pass.new).room + 1 }
{
    if pass.share(id).is_ok() { 7 } else { 0 }
}

fn fetched_in_turn<P: Pass>(pass: &mut P, id: KeepId, turns: u32) -> u64
    requires { CanTurn (P.model pass.old) id 16000 }
{
    if pass.share(id).is_err() {
        return 0;
    }
    let mut words = [0; 64];
    let mut sum = 0u64;
    for turn in 0..turns {
        let word = fetch_and_read(pass, id, &mut words, turn % 64);
        sum = sum.wrapping_add(word);
    }
    sum
}

fn fetch_and_read<P: Pass>(pass: &mut P, id: KeepId, words: &mut [u64], at: u32) -> u64
    requires held { 0 < (P.model pass.old).holds id }
    requires known { length (words_of (P.model pass.old) id) ≡ 64 }
    requires long { length words.old ≡ 64 }
    requires at { at < 64 }
    ensures same { P.model pass.new ≡ P.model pass.old }
    ensures long { length words.new ≡ 64 }
{
    pass.fetch(id, words);
    words[at as usize]
}
