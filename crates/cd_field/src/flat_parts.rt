// The words of regions as they are loaded, and what happens to the words of a list of ranges, and of faults.
ghost use Rattle.std.specs.Prelude.{◌≡◌, ◌<◌, ◌+◌, ◌^◌, ◌&&◌, ◌||◌, ◌==◌, true, false, nat_lt, length, Some, IsSome, All, OnOk, IfOk, if◌then◌else◌};
ghost use Rattle.cd_base.specs.Words.{pattern_word, struck_word, in_ranges};
ghost use Rattle.cd_tree.specs.Meaning.{initial, written};
ghost use Rattle.cd_tree.specs.Scripts.{kinds_of, words_struck};
ghost use Rattle.cd_field.specs.Hulls.{AreCovered, words_by, lost_by};
ghost use Rattle.cd_field.specs.Flat.{flat_words, flat_lost};

use crate::flat_words::FlatWords;
use crate::hull::Hull;
use crate::loads::first_words;
use cd_base::{NoMemory, Place, Places, Range};
use cd_tree::{Fault, Kinds, Region};
use std::alloc::Global;

// The words that regions begin with.
pub(crate) fn first_flat(alloc: Global, regions: &[Region]) -> Result<FlatWords, NoMemory>
    requires { length regions.now < 2 ^ 32 }
    ensures words { IfOk result (λ words. (q : _) → flat_words words q ≡ initial regions.now q) }
    ensures lost { IfOk result (λ words. (q : _) → flat_lost words q ≡ false) }
{
    let mut ranges = Vec::new(alloc);
    let mut hulls = Vec::new(alloc);
    for number in 0..regions.len() as u32 {
        add_region(
            alloc,
            &mut ranges,
            &mut hulls,
            number,
            &regions[number as usize],
        )?;
    }
    Ok(FlatWords::of(ranges, hulls))
}

// The words of one region more.
fn add_region(
    alloc: Global,
    ranges: &mut Vec<Range>,
    hulls: &mut Vec<Hull>,
    number: u32,
    region: &Region,
) -> Result<(), NoMemory>
    requires covered { AreCovered ranges.old.items hulls.old.items }
    requires count { length hulls.old.items ≡ number }
    ensures covered { OnOk result (AreCovered ranges.new.items hulls.new.items) }
    ensures count { OnOk result (length hulls.new.items ≡ number + 1) }
    ensures words { OnOk result ((q : _) → words_by ranges.new.items hulls.new.items q ≡ (if (number == q.region) && nat_lt q.index region.now.length then Some (pattern_word region.now.pattern q.index) else words_by ranges.old.items hulls.old.items q)) }
    ensures lost { OnOk result ((q : _) → lost_by ranges.old.items hulls.old.items q ≡ false → lost_by ranges.new.items hulls.new.items q ≡ false) }
{
    let words = first_words(alloc, region.pattern, region.length)?;
    hulls.push(Hull::of(alloc, 0, words))?;
    ranges.push(Range {
        region: number,
        low: 0,
        high: region.length,
    })?;
    Ok(())
}

// The words of ranges are away.
pub(crate) fn mark_ranges(words: &mut FlatWords, ranges: &[Range]) -> Result<(), NoMemory>
    requires { (q : _) → in_ranges ranges.now q ≡ true → IsSome (flat_words words.old q) }
    ensures words { OnOk result ((q : _) → flat_words words.new q ≡ flat_words words.old q) }
    ensures lost { OnOk result ((q : _) → flat_lost words.new q ≡ (in_ranges ranges.now q || flat_lost words.old q)) }
{
    for range in ranges {
        words.mark_range(*range)?;
    }
    Ok(())
}

// The words of ranges become those of others, and are here.
pub(crate) fn take_ranges(words: &mut FlatWords, others: &FlatWords, ranges: &[Range])
    requires known { (q : _) → in_ranges ranges.now q ≡ true → IsSome (flat_words words.old q) }
    requires given { (q : _) → in_ranges ranges.now q ≡ true → IsSome (flat_words others.now q) }
    ensures words { (q : _) → flat_words words.new q ≡ written (in_ranges ranges.now) (flat_words others.now) (flat_words words.old) q }
    ensures lost { (q : _) → flat_lost words.new q ≡ (if in_ranges ranges.now q then false else flat_lost words.old q) }
{
    for range in ranges {
        words.take_range(others, *range);
    }
}

// Faults change their words, in order. Gives their kinds.
pub(crate) fn strike_flat(words: &mut FlatWords, hits: &[Fault]) -> Kinds
    requires { All (λ fault. IsSome (flat_words words.old fault.place)) hits.now }
    ensures words { flat_words words.new ≡ words_struck hits.now (flat_words words.old) }
    ensures lost { flat_lost words.new ≡ flat_lost words.old }
    ensures kinds { result ≡ kinds_of hits.now }
{
    let mut kinds = Kinds::none();
    for fault in hits {
        change_flat(words, fault.place, fault.mask);
        kinds = kinds.with(fault.kind);
    }
    kinds
}

fn change_flat(words: &mut FlatWords, place: Place, mask: u64)
    requires { IsSome (flat_words words.old place) }
    ensures words { flat_words words.new ≡ struck_word (flat_words words.old) place mask }
    ensures lost { (q : _) → flat_lost words.new q ≡ flat_lost words.old q }
{
    let word = words.word(place);
    words.set(place, word ^ mask);
}

// The places of two sets.
pub(crate) fn union_of(alloc: Global, a: &Places, b: &Places) -> Result<Places, NoMemory>
    ensures { IfOk result (λ all. (q : _) → in_ranges all q ≡ (in_ranges a.now q || in_ranges b.now q)) }
{
    let mut all = a.try_clone(alloc)?;
    all.union(b)?;
    Ok(all)
}
