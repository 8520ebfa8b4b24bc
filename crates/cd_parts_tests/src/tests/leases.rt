//! Passes over one table of blocks, one after another and by many threads.

ghost use Rattle.std.specs.Prelude.{◌≡◌, ◌-◌, ◌<◌, ◌∷◌, [], Some, IfOk, IsSome, OnOk};
ghost use Rattle.std.specs.Thread.{IsSync};
ghost use Rattle.cd_keep.specs.PassModel.{HoldsNothing, opened};
ghost use Rattle.cd_lease.specs.Leases.{model_of};
ghost use Rattle.cd_parts_tests.specs.Turns.{CanTurn, IsSpare};

use super::copies::expect;
use cd_keep::{KeepId, Pass};
use cd_lease::{LeasePass, Try};
use std::sync::Wait;
use std::test::Fail;
use std::thread::{Threads, join};

fn expect_id(found: KeepId, block: u32, serial: u64) -> Result<(), Fail> {
    expect(u64::from(found.block), u64::from(block))?;
    expect(found.serial, serial)
}

// What went wrong. It may be let go, which a `Fail` may not.
type Wrong = &'static str;

fn same(found: u64, wanted: u64) -> Result<(), Wrong> {
    if found == wanted {
        Ok(())
    } else {
        Err("another word")
    }
}

// No block is free for one word more.
fn finds_none(pass: &mut LeasePass) -> Result<(), Wrong>
    requires { 0 < (model_of pass.old).room }
    ensures { OnOk result (model_of pass.new ≡ model_of pass.old) }
{
    match pass.try_keep([5].as_slice()) {
        Try::NotYet => Ok(()),
        Try::Kept(_) => Err("a block that somebody holds"),
    }
}

// What was seen under an id is gone: its block has another serial.
fn is_gone(pass: &mut LeasePass, id: KeepId, found: u64) -> Result<(), Wrong>
    requires known { IsSome ((model_of pass.old).known id) }
    requires room { 0 < (model_of pass.old).room }
    ensures { OnOk result ((model_of pass.new).room ≡ (model_of pass.old).room) }
{
    match pass.share(id) {
        Ok(()) => Err("what is gone was shared"),
        Err(note) => {
            same(note.seen(), id.serial)?;
            same(note.found(), found)?;
            Ok(())
        }
    }
}

// Keeps a word at once, under this serial, and reads it.
fn keeps_under(pass: &mut LeasePass, serial: u64, word: u64) -> Result<(), Fail>
    requires { 0 < (model_of pass.old).room }
{
    match pass.try_keep([word].as_slice()) {
        Try::NotYet => Err(Fail::new("no block, where one is free")),
        Try::Kept(id) => {
            expect_id(id, 0, serial)?;
            expect(pass.word(id, 0), word)
        }
    }
}

// One block is kept in by one pass, then another, then the first again, each time with the next serial. What was seen in it
// before is gone.
fn one_block_three_keeps<R: Wait>(rt: &R, pass: &mut LeasePass) -> Result<(), Fail>
    requires { model_of pass.old ≡ opened (model_of pass.old).store 3 }
{
    let first = pass.keep(rt, [1, 2].as_slice())?;
    expect_id(first, 0, 1)?;
    let mut other = pass.split(1)?;
    finds_none(&mut other)?;
    pass.give_up(first);
    let second = pass.keep(rt, [3].as_slice())?;
    expect_id(second, 0, 2)?;
    is_gone(&mut other, first, 2)?;
    pass.give_up(second);
    keeps_under(&mut other, 3, 5)
}

#[test]
fn a_block_is_taken_again_with_the_next_serial(rt: HostRuntime) -> Result<(), Fail> {
    let mut pass = LeasePass::open(rt.alloc(), 1, 3)?;
    one_block_three_keeps(&rt, &mut pass)
}

// Shares what was seen, if it is still there, reads it and gives it up.
fn shares_what_was_seen(pass: &mut LeasePass, seen: KeepId) -> Result<(), Wrong>
    requires known { (model_of pass.old).known seen ≡ Some (7 ∷ []) }
    requires room { 0 < (model_of pass.old).room }
    requires nothing { HoldsNothing (model_of pass.old) }
    ensures { OnOk result (IsSpare (model_of pass.old) (model_of pass.new)) }
{
    match pass.share(seen) {
        Ok(()) => {
            let word = pass.word(seen, 0);
            pass.give_up(seen);
            same(word, 7)?;
            Ok(())
        }
        Err(note) => {
            if note.found() <= note.seen() {
                return Err("gone, and no later serial");
            }
            Ok(())
        }
    }
}

// Keeps two words, reads the second and gives them up.
fn keeps_two_words<R: Wait>(rt: &R, pass: &mut LeasePass, word: u64) -> Result<(), Wrong>
    requires room { 0 < (model_of pass.old).room }
    requires nothing { HoldsNothing (model_of pass.old) }
    ensures { OnOk result (IsSpare (model_of pass.old) (model_of pass.new)) }
{
    let id = pass
        .keep(rt, [0, word].as_slice())
        .map_err(|_| "want of memory")?;
    let read = pass.word(id, 1);
    pass.give_up(id);
    same(read, word)?;
    Ok(())
}

// Splits off a pass and takes it back.
fn splits_and_takes_back(pass: &mut LeasePass) -> Result<(), Wrong>
    requires room { 0 < (model_of pass.old).room }
    requires nothing { HoldsNothing (model_of pass.old) }
    ensures { OnOk result (IsSpare (model_of pass.old) (model_of pass.new)) }
{
    match pass.split(1) {
        Ok(child) => {
            pass.join(child);
            Ok(())
        }
        Err(_) => Err("want of memory"),
    }
}

// So many turns of a pass that begins with nothing and ends so.
fn turns<R: Wait>(rt: &R, mut pass: LeasePass, seen: KeepId, count: u64) -> Result<LeasePass, Wrong>
    requires { CanTurn (model_of pass) seen }
    ensures { IfOk result (λ after. IsSpare (model_of pass) (model_of after)) }
{
    for turn in 0..count {
        shares_what_was_seen(&mut pass, seen)?;
        keeps_two_words(rt, &mut pass, turn)?;
        splits_and_takes_back(&mut pass)?;
    }
    Ok(pass)
}

// Two passes at the same time.
fn two_at_once<R: Threads + Wait + Sync>(
    rt: &R,
    one: LeasePass,
    two: LeasePass,
    seen: KeepId,
) -> Result<(LeasePass, LeasePass), Wrong>
    requires one { CanTurn (model_of one) seen }
    requires two { CanTurn (model_of two) seen }
    ensures one { IfOk result (λ both. IsSpare (model_of one) (model_of both.0)) }
    ensures two { IfOk result (λ both. IsSpare (model_of two) (model_of both.1)) }
{
    let (first, second) = join(
        rt,
        move || -> Result<LeasePass, Wrong>
            requires { IsSync R.row × CanTurn (model_of one) seen }
            ensures { IfOk result (λ after. IsSpare (model_of one) (model_of after)) }
        { turns(rt, one, seen, 200) },
        move || -> Result<LeasePass, Wrong>
            requires { IsSync R.row × CanTurn (model_of two) seen }
            ensures { IfOk result (λ after. IsSpare (model_of two) (model_of after)) }
        { turns(rt, two, seen, 200) },
    );
    let first = first?;
    let second = second?;
    Ok((first, second))
}

// Keeps one word at once.
fn keeps_at_once(pass: &mut LeasePass, word: u64) -> Result<(), Wrong>
    requires { 0 < (model_of pass.old).room }
    ensures { OnOk result ((model_of pass.new).room ≡ (model_of pass.old).room - 1) }
{
    match pass.try_keep([word].as_slice()) {
        Try::Kept(_) => Ok(()),
        Try::NotYet => Err("no block, where one is free"),
    }
}

// Four passes at the same time.
fn four_at_once<R: Threads + Wait + Sync>(
    rt: &R,
    one: LeasePass,
    two: LeasePass,
    three: LeasePass,
    four: LeasePass,
    seen: KeepId,
) -> Result<(LeasePass, LeasePass, LeasePass, LeasePass), Wrong>
    requires one { CanTurn (model_of one) seen }
    requires two { CanTurn (model_of two) seen }
    requires three { CanTurn (model_of three) seen }
    requires four { CanTurn (model_of four) seen }
    ensures one { IfOk result (λ all. IsSpare (model_of one) (model_of all.0)) }
    ensures two { IfOk result (λ all. IsSpare (model_of two) (model_of all.1)) }
    ensures three { IfOk result (λ all. IsSpare (model_of three) (model_of all.2)) }
    ensures four { IfOk result (λ all. IsSpare (model_of four) (model_of all.3)) }
{
    let (first, second) = join(
        rt,
        move || -> Result<(LeasePass, LeasePass), Wrong>
            requires { IsSync R.row × CanTurn (model_of one) seen × CanTurn (model_of two) seen }
            ensures { IfOk result (λ both. IsSpare (model_of one) (model_of both.0) × IsSpare (model_of two) (model_of both.1)) }
        { two_at_once(rt, one, two, seen) },
        move || -> Result<(LeasePass, LeasePass), Wrong>
            requires { IsSync R.row × CanTurn (model_of three) seen × CanTurn (model_of four) seen }
            ensures { IfOk result (λ both. IsSpare (model_of three) (model_of both.0) × IsSpare (model_of four) (model_of both.1)) }
        { two_at_once(rt, three, four, seen) },
    );
    let (one, two) = first?;
    let (three, four) = second?;
    Ok((one, two, three, four))
}

// Two blocks, and four threads that keep, share, split, give up and end. Then both blocks are free, and no more.
fn two_blocks<R: Threads + Wait + Sync>(rt: &R, pass: &mut LeasePass) -> Result<(), Fail>
    requires { model_of pass.old ≡ opened (model_of pass.old).store 8 }
{
    let seen = pass.keep(rt, [7].as_slice())?;
    let one = pass.split(1)?;
    let two = pass.split(1)?;
    let three = pass.split(1)?;
    let four = pass.split(1)?;
    pass.give_up(seen);
    let (one, two, three, four) = four_at_once(rt, one, two, three, four, seen)?;
    pass.join(one);
    pass.join(two);
    pass.join(three);
    pass.join(four);
    keeps_at_once(pass, 1)?;
    keeps_at_once(pass, 2)?;
    finds_none(pass)?;
    Ok(())
}

#[test]
fn threads_keep_in_few_blocks_and_leave_them_free(rt: HostRuntime) -> Result<(), Fail> {
    let mut pass = LeasePass::open(rt.alloc(), 2, 8)?;
    two_blocks(&rt, &mut pass)
}
