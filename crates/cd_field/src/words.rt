// Words of places in ordered maps, and sets of places: one place, one range, a list of ranges at a time.
ghost use Rattle.std.specs.Prelude.{◌≡◌, ◌<◌, ◌^◌, ◌&&◌, ◌||◌, ◌==◌, false, nat_lt, length, None, Some, IsSome, OnOk, IfOk, if◌then◌else◌};
ghost use Rattle.cd_base.specs.Words.{pattern_word, same_place, struck_word, put, in_range, in_ranges};
ghost use Rattle.cd_tree.specs.Meaning.{initial, written};
ghost use Rattle.cd_tree.specs.Scripts.{strikes_at, struck, kinds_of, words_struck};
ghost use Rattle.cd_field.specs.Maps.{words_of, places_of};

use cd_base::{NoMemory, Place, Range};
use cd_tree::{Fault, Kinds, NodeId, Region};
use std::alloc::Global;
use std::collections::{BTreeMap, BTreeSet};

pub(crate) type WordMap = BTreeMap<Place, u64>;

pub(crate) type PlaceSet = BTreeSet<Place>;

// The words that regions begin with.
pub(crate) fn first_words(alloc: Global, regions: &[Region]) -> Result<WordMap, NoMemory>
    requires { length regions.now < 2 ^ 32 }
    ensures { IfOk result (λ words. (q : _) → words_of words q ≡ initial regions.now q) }
{
    let mut words = BTreeMap::new(alloc);
    for number in 0..regions.len() as u32 {
        add_region(&mut words, number, &regions[number as usize])?;
    }
    Ok(words)
}

fn add_region(words: &mut WordMap, number: u32, region: &Region) -> Result<(), NoMemory>
    ensures { OnOk result ((q : _) → words_of words.new q ≡ (if (number == q.region) && nat_lt q.index region.now.length then Some (pattern_word region.now.pattern q.index) else words_of words.old q)) }
{
    for index in 0..region.length {
        let place = Place {
            region: number,
            index,
        };
        words.insert(place, region.pattern.at(index))?;
    }
    Ok(())
}

// Changes a word that is there.
pub(crate) fn set_word(words: &mut WordMap, place: Place, word: u64)
    requires { IsSome (words_of words.old place) }
    ensures { words_of words.new ≡ put (words_of words.old) place word }
{
    let was: Result<_, _> = words.insert(place, word);
    let _ = was.unwrap();
}

// The faults that strike at a point change their words, in order. Gives their kinds.
pub(crate) fn strike(
    words: &mut WordMap,
    script: &[Fault],
    node: NodeId,
    begin: u64,
    point: u32,
) -> Result<Kinds, NoMemory>
    ensures words { OnOk result (words_of words.new ≡ words_struck (struck script.now node begin point) (words_of words.old)) }
    ensures kinds { IfOk result (λ kinds. kinds ≡ kinds_of (struck script.now node begin point)) }
{
    let mut kinds = Kinds::none();
    for fault in script {
        if strikes(*fault, node, begin, point) {
            change(words, fault.place, fault.mask)?;
            kinds = kinds.with(fault.kind);
        }
    }
    Ok(kinds)
}

pub(crate) fn strikes(fault: Fault, node: NodeId, begin: u64, point: u32) -> bool
    ensures { result ≡ strikes_at node begin point fault }
{
    fault.node.0 == node.0 && fault.begin == begin && fault.item == point
}

fn change(words: &mut WordMap, place: Place, mask: u64) -> Result<(), NoMemory>
    ensures { OnOk result (words_of words.new ≡ struck_word (words_of words.old) place mask) }
{
    let word = words.get(&place).copied().unwrap_or(0);
    words.insert(place, word ^ mask)?;
    Ok(())
}

// The words of these places alone.
pub(crate) fn words_at(
    alloc: Global,
    words: &WordMap,
    reads: &[Range],
    writes: &[Range],
) -> Result<WordMap, NoMemory>
    ensures { IfOk result (λ part. (q : _) → words_of part q ≡ (if in_ranges reads.now q || in_ranges writes.now q then words_of words.now q else None)) }
{
    let mut part = BTreeMap::new(alloc);
    take_words(&mut part, words, reads)?;
    take_words(&mut part, words, writes)?;
    Ok(part)
}

// The places of these ranges get the words, or the want of one, that they have in `others`.
pub(crate) fn take_words(
    words: &mut WordMap,
    others: &WordMap,
    ranges: &[Range],
) -> Result<(), NoMemory>
    ensures { OnOk result ((q : _) → words_of words.new q ≡ written (in_ranges ranges.now) (words_of others.now) (words_of words.old) q) }
{
    for range in ranges {
        take_range(words, others, *range)?;
    }
    Ok(())
}

fn take_range(words: &mut WordMap, others: &WordMap, range: Range) -> Result<(), NoMemory>
    ensures { OnOk result ((q : _) → words_of words.new q ≡ written (in_range range) (words_of others.now) (words_of words.old) q) }
{
    for index in range.low..range.high {
        let place = Place {
            region: range.region,
            index,
        };
        take_word(words, others, place)?;
    }
    Ok(())
}

fn take_word(words: &mut WordMap, others: &WordMap, place: Place) -> Result<(), NoMemory>
    ensures { OnOk result ((q : _) → words_of words.new q ≡ written (same_place place) (words_of others.now) (words_of words.old) q) }
{
    if let Some(word) = others.get(&place) {
        words.insert(place, *word)?;
    } else {
        words.remove(&place);
    }
    Ok(())
}

// Adds the places of ranges to a set.
pub(crate) fn add_places(places: &mut PlaceSet, ranges: &[Range]) -> Result<(), NoMemory>
    ensures { OnOk result ((q : _) → places_of places.new q ≡ (in_ranges ranges.now q || places_of places.old q)) }
{
    for range in ranges {
        add_range(places, *range)?;
    }
    Ok(())
}

fn add_range(places: &mut PlaceSet, range: Range) -> Result<(), NoMemory>
    ensures { OnOk result ((q : _) → places_of places.new q ≡ (in_range range q || places_of places.old q)) }
{
    for index in range.low..range.high {
        let place = Place {
            region: range.region,
            index,
        };
        places.insert(place)?;
    }
    Ok(())
}

// Takes the places of ranges out of a set.
pub(crate) fn remove_places(places: &mut PlaceSet, ranges: &[Range])
    ensures { (q : _) → places_of places.new q ≡ (if in_ranges ranges.now q then false else places_of places.old q) }
{
    for range in ranges {
        remove_range(places, *range);
    }
}

fn remove_range(places: &mut PlaceSet, range: Range)
    ensures { (q : _) → places_of places.new q ≡ (if in_range range q then false else places_of places.old q) }
{
    for index in range.low..range.high {
        let place = Place {
            region: range.region,
            index,
        };
        places.remove(&place);
    }
}
