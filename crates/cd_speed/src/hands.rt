// Turns in which a part is carved out of the shipped machine, changed and taken back.
ghost use Rattle.std.specs.Prelude.{◌≡◌, ◌<◌, All, length, IfOk, IsTrue, OnOk};
ghost use Rattle.cd_tree.specs.Operations.{length_of};
ghost use Rattle.cd_speed.specs.Timed.{AreWithin, HasRegions, LieInRegions};

use crate::machine::{FIVE_REGIONS, load};
use crate::operations::{LENGTH, has_all};
use crate::parts::hand_over;
use cd_base::{NoMemory, Place, Places, Range};
use cd_field::{Field, ScriptField};
use std::alloc::Global;

// The first region.
const WHOLE: Range = Range {
    region: 1,
    low: 0,
    high: LENGTH,
};

const FIRST_WORD: Range = Range {
    region: 1,
    low: 0,
    high: 1,
};

/// What a part does to the ranges that it is carved out for.
#[derive(Debug, Clone, Copy)]
pub(crate) enum Written {
    Whole,
    Half,
    Nothing,
}

/// The ranges that a part reads, and those that it writes.
#[derive(Drop)]
struct Pieces {
    reads: Vec<Range>,
    writes: Vec<Range>,
}

/// A part that reads five regions and writes the first words of one of them.
pub(crate) fn first_of_hands(
    alloc: Global,
    count: u32,
    turns: u32,
) -> Result<Option<u64>, NoMemory> {
    let range = Range {
        region: 1,
        low: 0,
        high: count,
    };
    first_of_turns(alloc, &FIVE_REGIONS, &[range], &[range], turns)
}

/// A part that has so many ranges of a region, and writes all their words, the second half of each, or none.
pub(crate) fn first_of_carves(
    alloc: Global,
    written: Written,
    count: u32,
    turns: u32,
) -> Result<Option<u64>, NoMemory> {
    let pieces = cut_pieces(alloc, written, count)?;
    first_of_turns(alloc, &pieces.reads, &pieces.writes, &pieces.writes, turns)
}

/// A part that reads a region which it shares with the machine, and in which the first word changes or none does.
pub(crate) fn first_of_shares(
    alloc: Global,
    changes: bool,
    turns: u32,
) -> Result<Option<u64>, NoMemory> {
    if changes {
        first_of_turns(alloc, &[WHOLE], &[], &[FIRST_WORD], turns)
    } else {
        first_of_turns(alloc, &[WHOLE], &[], &[], turns)
    }
}

// Ranges of one length that do not touch.
fn cut_pieces(alloc: Global, written: Written, count: u32) -> Result<Pieces, NoMemory> {
    let mut pieces = Pieces {
        reads: Vec::new(alloc),
        writes: Vec::new(alloc),
    };
    let stride = LENGTH / count.max(1);
    let size = stride.saturating_sub(1);
    let mut low = 0u32;
    for _ in 0..count {
        add_piece(&mut pieces, written, low, size)?;
        low = low.saturating_add(stride);
    }
    Ok(pieces)
}

fn add_piece(pieces: &mut Pieces, written: Written, low: u32, size: u32) -> Result<(), NoMemory> {
    let high = low.saturating_add(size);
    let middle = low.saturating_add(size / 2);
    let end = middle.saturating_add(size / 2);
    match written {
        Written::Whole => pieces.writes.push(part_of_first(low, high))?,
        Written::Half => {
            pieces.reads.push(part_of_first(low, middle))?;
            pieces.writes.push(part_of_first(middle, end))?;
        }
        Written::Nothing => pieces.reads.push(part_of_first(low, high))?,
    }
    Ok(())
}

fn part_of_first(low: u32, high: u32) -> Range {
    Range {
        region: 1,
        low,
        high,
    }
}

// Carves a part out so many times, which reads some ranges, writes others, and changes each of some ranges. Gives the first
// word of the first region; none where the ranges do not lie in the regions or those that change not in the part.
#[tactic(auto, using(crate::proofs::Handed::same_lie, crate::proofs::Handed::same_long))]
fn first_of_turns(
    alloc: Global,
    reads: &[Range],
    writes: &[Range],
    changed: &[Range],
    turns: u32,
) -> Result<Option<u64>, NoMemory> {
    let length = length_of_first(changed);
    if !are_parts(reads)
        || !are_parts(writes)
        || !are_parts(changed)
        || !are_long(changed, length)
    {
        return Ok(None);
    }
    let read = Places::of(alloc, reads)?;
    let wrote = Places::of(alloc, writes)?;
    if !lie_within(alloc, &read, &wrote, changed)? {
        return Ok(None);
    }
    let words = vec![in alloc; 7; length as usize]?;
    let mut field = ScriptField::empty(alloc);
    load(alloc, &mut field)?;
    hand_turns(&mut field, &read, &wrote, changed, &words, turns)?;
    Ok(Some(field.read(Place {
        region: 1,
        index: 0,
    })))
}

fn length_of_first(ranges: &[Range]) -> u32 {
    match ranges.first() {
        Some(range) => range.high.saturating_sub(range.low),
        None => 0,
    }
}

// Whether ranges have words, and lie in the regions from the second on.
#[tactic(auto, using(crate::proofs::Handed::all_lie))]
fn are_parts(ranges: &[Range]) -> bool
    ensures full { IsTrue result → All (λ (range : Range). range.low < range.high) ranges.now }
    ensures lie { IsTrue result → LieInRegions ranges.now }
{
    are_full(ranges) && has_all(ranges)
}

fn are_full(ranges: &[Range]) -> bool
    ensures { IsTrue result → All (λ (range : Range). range.low < range.high) ranges.now }
{
    ranges.iter().all(|range| range.low < range.high)
}

fn are_long(ranges: &[Range], length: u32) -> bool
    ensures { IsTrue result → All (λ range. length_of range ≡ length) ranges.now }
{
    ranges.iter().all(|range| range.low <= range.high && range.high - range.low == length)
}

// Whether ranges lie in those that a part reads and writes.
#[tactic(auto, using(crate::proofs::Handed::within_none))]
fn lie_within(
    alloc: Global,
    reads: &Places,
    writes: &Places,
    ranges: &[Range],
) -> Result<bool, NoMemory>
    requires { All (λ (range : Range). range.low < range.high) ranges.now }
    ensures { IfOk result (λ within. IsTrue within → AreWithin ranges.now reads.now writes.now) }
{
    let mut all = reads.try_clone(alloc)?;
    all.union(writes)?;
    let places = Places::of(alloc, ranges)?;
    Ok(all.lacks(&places).is_none())
}

fn hand_turns<F: Field>(
    field: &mut F,
    reads: &Places,
    writes: &Places,
    changed: &[Range],
    words: &[u64],
    turns: u32,
) -> Result<(), NoMemory>
    requires loaded { HasRegions (F.model field.old) 0 }
    requires reads { LieInRegions reads.now }
    requires writes { LieInRegions writes.now }
    requires changed { AreWithin changed.now reads.now writes.now }
    requires long { All (λ range. length_of range ≡ length words.now) changed.now }
    ensures { OnOk result (HasRegions (F.model field.new) 0) }
{
    for _turn in 0..turns {
        hand_over(field, reads, writes, changed, words)?;
    }
    Ok(())
}
