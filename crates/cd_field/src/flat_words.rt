// The words of a machine: a hull for each region, looked up by the region's number.
ghost use Rattle.std.specs.Prelude.{◌≡◌, ◌<◌, ◌||◌, true, false, None, Some, IsSome, length, OnOk, IfOk, if◌then◌else◌};
ghost use Rattle.cd_base.specs.Words.{same_place, in_range, in_ranges};
ghost use Rattle.cd_tree.specs.Meaning.{written};
ghost use Rattle.cd_tree.specs.Operations.{length_of};
ghost use Rattle.cd_field.specs.FieldModel.{laid, words_in};
ghost use Rattle.cd_field.specs.Hulls.{words_by, lost_by, AreCovered};

use crate::cuts::cut_hulls;
use crate::hull::Hull;
use crate::hulls::{clear_run, clear_word, lay_run, mark_run, run_of, set_word, word_of};
use cd_base::{NoMemory, Place, Range};
use std::alloc::Global;

/// The words of some ranges. A word is found by its region and index alone; the ranges say which places have one.
#[derive(Drop)]
pub(crate) struct FlatWords {
    ranges: Vec<Range>,
    hulls: Vec<Hull>,
    ghost covered: { AreCovered ranges.items hulls.items },
}

impl FlatWords {
    ghost use Rattle.cd_field.specs.Flat.{flat_words, flat_lost};

    /// No words. It takes no memory.
    pub(crate) fn new(alloc: Global) -> FlatWords
        ensures words { (q : _) → flat_words result q ≡ None }
        ensures lost { (q : _) → flat_lost result q ≡ false }
    {
        FlatWords {
            ranges: Vec::new(alloc),
            hulls: Vec::new(alloc),
        }
    }

    /// The words of the places of ranges, in hulls.
    pub(crate) fn of(ranges: Vec<Range>, hulls: Vec<Hull>) -> FlatWords
        requires { AreCovered ranges.items hulls.items }
        ensures words { (q : _) → flat_words result q ≡ words_by ranges.items hulls.items q }
        ensures lost { (q : _) → flat_lost result q ≡ lost_by ranges.items hulls.items q }
    {
        FlatWords { ranges, hulls }
    }

    /// The word of a place that has one.
    #[inline(always)]
    pub(crate) fn word(&self, place: Place) -> u64
        requires { IsSome (flat_words self.now place) }
        ensures { flat_words self.now place ≡ Some result }
    {
        word_of(&self.hulls, place)
    }

    /// Changes the word of a place that has one. Whether it is away stays.
    #[inline(always)]
    pub(crate) fn set(&mut self, place: Place, word: u64)
        requires { IsSome (flat_words self.old place) }
        ensures words { (q : _) → flat_words self.new q ≡ (if same_place place q then Some word else flat_words self.old q) }
        ensures lost { (q : _) → flat_lost self.new q ≡ flat_lost self.old q }
    {
        set_word(&mut self.hulls, place, word);
    }

    /// The words of a range of places that have one, in order.
    #[inline(always)]
    pub(crate) fn run(&self, range: Range) -> &[u64]
        requires { (q : _) → in_range range q ≡ true → IsSome (flat_words self.now q) }
        ensures words { result.now ≡ words_in (flat_words self.now) range }
        ensures long { length result.now ≡ length_of range }
    {
        if range.low < range.high {
            run_of(&self.hulls, range)
        } else {
            &[]
        }
    }

    /// Changes the words of a range of places that have one. Whether they are away stays.
    #[inline(always)]
    pub(crate) fn write_run(&mut self, range: Range, words: &[u64])
        requires known { (q : _) → in_range range q ≡ true → IsSome (flat_words self.old q) }
        requires long { length words.now ≡ length_of range }
        ensures words { (q : _) → flat_words self.new q ≡ laid (flat_words self.old) range words.now q }
        ensures lost { (q : _) → flat_lost self.new q ≡ flat_lost self.old q }
    {
        if range.low < range.high {
            lay_run(&mut self.hulls, range, words);
        }
    }

    /// The words of a range of places that have one are here.
    fn clear_run(&mut self, range: Range)
        requires { (q : _) → in_range range q ≡ true → IsSome (flat_words self.old q) }
        ensures words { (q : _) → flat_words self.new q ≡ flat_words self.old q }
        ensures lost { (q : _) → flat_lost self.new q ≡ (if in_range range q then false else flat_lost self.old q) }
    {
        if range.low < range.high {
            clear_run(&mut self.hulls, range);
        }
    }

    /// Changes the words of a range of places that have one. They are here then.
    pub(crate) fn put_back_run(&mut self, range: Range, words: &[u64])
        requires known { (q : _) → in_range range q ≡ true → IsSome (flat_words self.old q) }
        requires long { length words.now ≡ length_of range }
        ensures words { (q : _) → flat_words self.new q ≡ laid (flat_words self.old) range words.now q }
        ensures lost { (q : _) → flat_lost self.new q ≡ (if in_range range q then false else flat_lost self.old q) }
    {
        self.clear_run(range);
        self.write_run(range, words);
    }

    /// The word of a place that has one is here.
    #[inline(always)]
    fn clear(&mut self, place: Place)
        requires { IsSome (flat_words self.old place) }
        ensures words { (q : _) → flat_words self.new q ≡ flat_words self.old q }
        ensures lost { (q : _) → flat_lost self.new q ≡ (if same_place place q then false else flat_lost self.old q) }
    {
        clear_word(&mut self.hulls, place);
    }

    /// Changes the word of a place that has one. It is here then.
    pub(crate) fn put_back(&mut self, place: Place, word: u64)
        requires { IsSome (flat_words self.old place) }
        ensures words { (q : _) → flat_words self.new q ≡ (if same_place place q then Some word else flat_words self.old q) }
        ensures lost { (q : _) → flat_lost self.new q ≡ (if same_place place q then false else flat_lost self.old q) }
    {
        self.clear(place);
        self.set(place, word);
    }

    /// The words of a range are away.
    pub(crate) fn mark_range(&mut self, range: Range) -> Result<(), NoMemory>
        requires { (q : _) → in_range range q ≡ true → IsSome (flat_words self.old q) }
        ensures words { OnOk result ((q : _) → flat_words self.new q ≡ flat_words self.old q) }
        ensures lost { OnOk result ((q : _) → flat_lost self.new q ≡ (in_range range q || flat_lost self.old q)) }
    {
        if range.low < range.high {
            mark_run(&mut self.hulls, range)?;
        }
        Ok(())
    }

    /// The words of a range become those of others, and are here.
    pub(crate) fn take_range(&mut self, others: &FlatWords, range: Range)
        requires known { (q : _) → in_range range q ≡ true → IsSome (flat_words self.old q) }
        requires given { (q : _) → in_range range q ≡ true → IsSome (flat_words others.now q) }
        ensures words { (q : _) → flat_words self.new q ≡ written (in_range range) (flat_words others.now) (flat_words self.old) q }
        ensures lost { (q : _) → flat_lost self.new q ≡ (if in_range range q then false else flat_lost self.old q) }
    {
        self.put_back_run(range, others.run(range));
    }

    /// The words of some ranges alone, none of them away. Regions are shared as long as neither changes a word there.
    pub(crate) fn part(&mut self, alloc: Global, ranges: &[Range]) -> Result<FlatWords, NoMemory>
        requires { (q : _) → in_ranges ranges.now q ≡ true → IsSome (flat_words self.old q) }
        ensures words { IfOk result (λ part. (q : _) → flat_words part q ≡ (if in_ranges ranges.now q then flat_words self.old q else None)) }
        ensures lost { IfOk result (λ part. (q : _) → flat_lost part q ≡ false) }
        ensures still_words { (q : _) → flat_words self.new q ≡ flat_words self.old q }
        ensures still_lost { (q : _) → flat_lost self.new q ≡ flat_lost self.old q }
    {
        let hulls = cut_hulls(alloc, &mut self.hulls, ranges)?;
        let ranges = ranges.to_vec(alloc)?;
        Ok(FlatWords::of(ranges, hulls))
    }
}
