//! One long random sequence of calls, made on both machines, which give the same at each step.

ghost use Rattle.std.specs.Prelude.{◌≡◌, ◌<◌, true, All, OnOk, IfOk};
ghost use Rattle.cd_base.specs.Words.{in_ranges};
ghost use Rattle.cd_parts_tests.specs.Trials.{board, IsAimed, IsReady, IsSame};

use super::board::{expect_event, fault, load_board, look, script_of};
use super::parts::{come_back, hand_over, part_of_board, part_to_write};
use cd_base::{Pattern, Place, Range};
use cd_field::{Field, MapField, ScriptField};
use cd_tree::{Kept, Kind, NodeId, Script};
use std::alloc::Global;
use std::test::Fail;

const TURNS: u32 = 3000;

// The next number of a linear congruential generator.
fn next(random: u64) -> u64 {
    random
        .wrapping_mul(6364136223846793005)
        .wrapping_add(1442695040888963407)
}

// A number below a count, from some digits of a random number: those from a power of 2 on.
fn pick(random: u64, from: u64, count: u64) -> u64
    requires from { 0 < from }
    requires count { 0 < count }
    ensures { result < count }
{
    random / from % count
}

fn pick_place(random: u64) -> Place
    ensures { in_ranges board result ≡ true }
{
    let index = pick(random, 1 << 48, 6) as u32;
    if index < 4 {
        Place { region: 0, index }
    } else {
        Place {
            region: 1,
            index: index - 4,
        }
    }
}

// Some strike together at one point, two of them the same word; two strike in a part before any domain begins there.
fn some_faults(alloc: Global) -> Result<Script, Fail>
    ensures { IfOk result (λ script. All IsAimed script) }
{
    let faults = [
        fault(1, 0, 1, 0, 255),
        fault(1, 0, 2, 3, 258),
        fault(2, 1, 3, 1, 256),
        fault(1, 0, 4, 0, 255),
        fault(2, 2, 1, 2, 257),
        fault(0, 1, 2, 2, 17),
        fault(0, 2, 3, 0, 33),
    ];
    script_of(alloc, &faults)
}

// A call that changes words.
fn change<F: Field>(field: &mut F, random: u64) -> Result<(), Fail>
    requires { IsReady (F.model field.old) }
    ensures ready { OnOk result (IsReady (F.model field.new)) }
    ensures same { OnOk result (IsSame (F.model field.old) (F.model field.new)) }
{
    let place = pick_place(random);
    match pick(random, 1 << 40, 4) {
        0 => field.write(place, random),
        1 => field.refill(place, random),
        2 => field.begin(
            NodeId(pick(random, 1 << 36, 2) as u32),
            pick(random, 1 << 32, 4),
        )?,
        _ => field.reached(pick(random, 1 << 32, 3) as u32)?,
    }
    Ok(())
}

// A call that changes the words of a range of the first region, which may be empty.
fn change_run<F: Field>(field: &mut F, random: u64) -> Result<(), Fail>
    requires { IsReady (F.model field.old) }
    ensures { OnOk result (IsReady (F.model field.new)) }
{
    let low = pick(random, 1 << 36, 5) as u32;
    let high = low + pick(random, 1 << 32, u64::from(5 - low)) as u32;
    let range = Range {
        region: 0,
        low,
        high,
    };
    let words = [random, !random, random / 3, 0];
    let words = &words[..(high - low) as usize];
    if pick(random, 1 << 40, 2) == 0 {
        field.write_run(range, words);
    } else {
        field.refill_run(range, words);
    }
    Ok(())
}

// A call that tells of a domain's end, or of its kinds.
fn tell_end<F: Field>(field: &mut F, random: u64) -> Result<(), Fail>
    requires { IsReady (F.model field.old) }
    ensures { OnOk result (IsReady (F.model field.new)) }
{
    let kinds = field.notes().with(Kind(pick(random, 1 << 32, 5) as u8));
    match pick(random, 1 << 40, 4) {
        0 => field.halted(kinds)?,
        1 => field.found(kinds)?,
        2 => field.complete()?,
        _ => field.escalate()?,
    }
    Ok(())
}

// A call that tells of an entry.
fn tell_entry<F: Field>(field: &mut F, random: u64) -> Result<(), Fail>
    requires { IsReady (F.model field.old) }
    ensures { OnOk result (IsReady (F.model field.new)) }
{
    let entry = pick(random, 1 << 32, 3) as u32;
    match pick(random, 1 << 40, 4) {
        0 => field.saved(entry, Kept::Copy)?,
        1 => field.refilled(entry)?,
        2 => tell_fall(field, entry, pick_place(random), random)?,
        _ => {
            let seen = pick(random, 1 << 36, 9);
            field.lapsed(entry, seen, seen + 1)?;
        }
    }
    Ok(())
}

// The word of a place is not the one that is wanted.
fn tell_fall<F: Field>(field: &mut F, entry: u32, place: Place, wanted: u64) -> Result<(), Fail>
    requires ready { IsReady (F.model field.old) }
    requires within { in_ranges board place ≡ true }
    ensures { OnOk result (IsReady (F.model field.new)) }
{
    if field.read(place) != wanted {
        field.fell(entry, place, wanted)?;
    }
    Ok(())
}

// Whether a part comes back with commit; if not, the word that is put back.
fn word_back(random: u64) -> Option<u64> {
    if pick(random, 1 << 32, 2) == 0 {
        None
    } else {
        Some(random)
    }
}

// A part changes words that it shares, has such a part of its own, as deep as is asked, and comes back.
fn hand_down<F: Field>(field: &mut F, alloc: Global, random: u64, depth: u32) -> Result<(), Fail>
    requires { IsReady (F.model field.old) }
    ensures ready { OnOk result (IsReady (F.model field.new)) }
    ensures same { OnOk result (IsSame (F.model field.old) (F.model field.new)) }
{
    change(field, random)?;
    if depth == 0 {
        return Ok(());
    }
    let index = pick(random, 1 << 36, 4) as u32;
    let mut part = part_to_write(field, alloc, index)?;
    hand_down(&mut part, alloc, next(random), depth - 1)?;
    come_back(field, part, index, word_back(random))?;
    Ok(())
}

fn step<F: Field>(field: &mut F, alloc: Global, random: u64) -> Result<(), Fail>
    requires { IsReady (F.model field.old) }
    ensures { OnOk result (IsReady (F.model field.new)) }
{
    match pick(random, 1 << 56, 8) {
        0 => hand_over(
            field,
            alloc,
            pick(random, 1 << 40, 3) as u32,
            pick(random, 1 << 36, 3) as u32,
            random,
            pick(random, 1 << 32, 2) == 0,
        )?,
        1 => tell_entry(field, random)?,
        2 => tell_end(field, random)?,
        3 => change_run(field, random)?,
        4 => hand_down(field, alloc, random, 3)?,
        _ => change(field, random)?,
    }
    Ok(())
}

// Whether both machines have an event of a number; it is the same.
fn same_event<F: Field, G: Field>(field: &F, other: &G, k: u64) -> Result<bool, Fail> {
    let event = field.event(k);
    expect_event(other, k, event)?;
    Ok(event.is_some())
}

// Both machines give the same: the words, the notes, and the events from a number on, up to one that neither has. A turn
// tells at most eight. Gives the number of events.
fn agree<F: Field, G: Field>(field: &F, other: &G, from: u64) -> Result<u64, Fail>
    requires one { IsReady (F.model field.now) }
    requires both { IsReady (G.model other.now) }
{
    if look(field) != look(other) || field.notes() != other.notes() {
        return Err(Fail::new(format_args!("words or notes after {from} events")));
    }
    let mut count = from;
    for _more in 0..12 {
        if !same_event(field, other, count)? {
            return Ok(count);
        }
        count = count.saturating_add(1);
    }
    Ok(count)
}

// Both machines have these many events, and no more.
fn agree_at_the_end<F: Field, G: Field>(field: &F, other: &G, count: u64) -> Result<(), Fail> {
    for k in 0..count {
        same_event(field, other, k)?;
    }
    if same_event(field, other, count)? || count <= u64::from(TURNS) / 2 {
        return Err(Fail::new(format_args!("{count} events")));
    }
    Ok(())
}

// One call on both machines.
fn step_both<F: Field, G: Field>(
    alloc: Global,
    field: &mut F,
    other: &mut G,
    random: u64,
) -> Result<(), Fail>
    requires one { IsReady (F.model field.old) }
    requires both { IsReady (G.model other.old) }
    ensures one { OnOk result (IsReady (F.model field.new)) }
    ensures both { OnOk result (IsReady (G.model other.new)) }
{
    step(field, alloc, random)?;
    step(other, alloc, random)?;
    Ok(())
}

// Parts of both machines, and parts of those, have the same words as they: then a part, its part and the machine change, each
// alone, and what the others see stays.
fn share_both<F: Field, G: Field>(
    alloc: Global,
    field: &mut F,
    other: &mut G,
    random: u64,
) -> Result<(), Fail>
    requires one { IsReady (F.model field.old) }
    requires both { IsReady (G.model other.old) }
    ensures one { OnOk result (IsReady (F.model field.new)) }
    ensures both { OnOk result (IsReady (G.model other.new)) }
{
    let mut part = part_of_board(field, alloc)?;
    let mut twin = part_of_board(other, alloc)?;
    let mut low_part = part_of_board(&mut part, alloc)?;
    let mut low_twin = part_of_board(&mut twin, alloc)?;
    step_both(alloc, &mut part, &mut twin, next(random))?;
    agree(&low_part, &low_twin, 0)?;
    step_both(alloc, field, other, next(next(random)))?;
    agree(&part, &twin, 0)?;
    step_both(alloc, &mut low_part, &mut low_twin, random)?;
    agree(&low_part, &low_twin, 0)?;
    agree(&part, &twin, 0)?;
    Ok(())
}

// A turn makes one call on both machines; some share their words with parts first.
fn turn_both<F: Field, G: Field>(
    alloc: Global,
    field: &mut F,
    other: &mut G,
    random: u64,
) -> Result<(), Fail>
    requires one { IsReady (F.model field.old) }
    requires both { IsReady (G.model other.old) }
    ensures one { OnOk result (IsReady (F.model field.new)) }
    ensures both { OnOk result (IsReady (G.model other.new)) }
{
    if pick(random, 1 << 20, 8) == 0 {
        share_both(alloc, field, other, random)?;
    }
    step_both(alloc, field, other, random)
}

// Each turn compares both machines. At the end the whole record is compared once more.
fn run_both<F: Field, G: Field>(alloc: Global, field: &mut F, other: &mut G) -> Result<(), Fail> {
    let script = some_faults(alloc)?;
    load_board(field, alloc, Pattern::Mix(9), &script)?;
    load_board(other, alloc, Pattern::Mix(9), &script)?;
    let mut random = 7;
    let mut count = 0;
    for _turn in 0..TURNS {
        random = next(random);
        turn_both(alloc, field, other, random)?;
        count = agree(field, other, count)?;
    }
    agree_at_the_end(field, other, count)
}

#[test]
fn the_two_machines_agree(rt: HostRuntime) -> Result<(), Fail> {
    let alloc = rt.alloc();
    let mut plain = MapField::empty(alloc);
    let mut flat = ScriptField::empty(alloc);
    run_both(alloc, &mut plain, &mut flat)
}
