//! Sets of places.
ghost use Rattle.std.specs.Prelude.{◌≡◌, ◌+◌, ◌<◌, ◌≤◌, ◌&&◌, ◌||◌, [], length, All, IfOk, OnOk, OnErr};
ghost use Rattle.cd_base.specs.declared.place.Place.{Place};
ghost use Rattle.cd_base.specs.declared.place.Range.{Range};
ghost use Rattle.cd_base.specs.Words.{in_range, in_ranges};
ghost use Rattle.cd_base.specs.Places.{IsOrdered, IsLeast, in_both, in_second_alone, is_before, hull, with_range};

use crate::least::{first_common, first_lacking};
use crate::united::{united, united_in_order};
use crate::{NoMemory, Place, Range};
use std::alloc::Global;
use std::marker::Model;

/// A set of places, kept as ranges in order. No two of them touch, so equal sets are equal lists of ranges.
#[derive(Drop)]
pub struct Places {
    ranges: Vec<Range>,
    alloc: Global,
}

impl Model for Places {
    ghost use Rattle.std.specs.Prelude.{List};
    ghost use Rattle.cd_base.specs.declared.place.Range.{Range};
    ghost use Rattle.cd_base.specs.Places.{IsOrdered};

    ghost Value = { List Range };

    ghost view = { λ set. set.ranges.items };

    ghost invariant = { λ set. IsOrdered set.ranges.items };
}

impl Places {
    /// The empty set. It takes no memory.
    pub fn new(alloc: Global) -> Places
        ensures { result ≡ [] }
    {
        Places {
            ranges: Vec::new(alloc),
            alloc,
        }
    }

    /// The set of the places of some ranges. They are sorted in a copy, and joined in one pass.
    pub fn of(alloc: Global, ranges: &[Range]) -> Result<Places, NoMemory>
        requires { All (λ (range : Range). range.low < range.high) ranges.now }
        ensures places { IfOk result (λ set. (q : Place) → in_ranges set q ≡ in_ranges ranges.now q) }
        ensures few { IfOk result (λ set. length set ≤ length ranges.now) }
    {
        let mut copy = Vec::from_slice(alloc, ranges)?;
        Places::sorting(alloc, copy.as_mut_slice())
    }

    /// The set of the places of some ranges, which are put in order where they stand. It takes time n log n in their number,
    /// one pass where they are in order already, and memory for the set alone.
    pub fn sorting(alloc: Global, ranges: &mut [Range]) -> Result<Places, NoMemory>
        requires { All (λ (range : Range). range.low < range.high) ranges.old }
        ensures places { IfOk result (λ set. (q : Place) → in_ranges set q ≡ in_ranges ranges.old q) }
        ensures few { IfOk result (λ set. length set ≤ length ranges.old) }
    {
        ranges.sort_unstable_by_key(|range| (range.region, range.low));
        let ranges = united_in_order(alloc, ranges)?;
        Ok(Places { ranges, alloc })
    }

    /// The set of the places of two sets. It takes one pass over both.
    pub fn of_both(alloc: Global, first: &Places, second: &Places) -> Result<Places, NoMemory>
        ensures places { IfOk result (λ set. (q : Place) → in_ranges set q ≡ (in_ranges first.now q || in_ranges second.now q)) }
        ensures few { IfOk result (λ set. length set ≤ length first.now + length second.now) }
    {
        let ranges = united(alloc, &first.ranges, &second.ranges)?;
        Ok(Places { ranges, alloc })
    }

    /// A set of the same places, in memory of its own.
    pub fn try_clone(&self, alloc: Global) -> Result<Places, NoMemory>
        ensures { IfOk result (λ set. set ≡ self.now) }
    {
        let ranges = Vec::from_slice(alloc, &self.ranges)?;
        Ok(Places { ranges, alloc })
    }

    /// Adds the places of a range. The set takes at most one range more.
    pub fn add(&mut self, range: Range) -> Result<(), NoMemory>
        requires { range.low < range.high }
        ensures places { OnOk result ((q : _) → in_ranges self.new q ≡ (in_range range q || in_ranges self.old q)) }
        ensures few { length self.new ≤ length self.old + 1 }
        ensures unchanged { OnErr result (self.new ≡ self.old) }
    {
        let ranges = with(self.alloc, &self.ranges, range)?;
        self.ranges = ranges;
        Ok(())
    }

    /// Adds the places of another set. It takes one pass over both, and memory for the new ranges beside the old.
    pub fn union(&mut self, other: &Places) -> Result<(), NoMemory>
        ensures places { OnOk result ((q : Place) → in_ranges self.new q ≡ (in_ranges self.old q || in_ranges other.now q)) }
        ensures few { length self.new ≤ length self.old + length other.now }
        ensures unchanged { OnErr result (self.new ≡ self.old) }
    {
        let ranges = united(self.alloc, &self.ranges, &other.ranges)?;
        self.ranges = ranges;
        Ok(())
    }

    /// The least place of both sets. It takes one pass over both, and no memory.
    pub fn meets(&self, other: &Places) -> Option<Place>
        ensures { IsLeast (in_both self.now other.now) result }
    {
        first_common(&self.ranges, &other.ranges)
    }

    /// The least place of the other set that is not in this one. It takes one pass over both, and no memory.
    pub fn lacks(&self, other: &Places) -> Option<Place>
        ensures { IsLeast (in_second_alone self.now other.now) result }
    {
        first_lacking(&self.ranges, &other.ranges)
    }

    /// The least place of the set that lies in a range. It takes one pass over the set, and no memory.
    pub fn first_in(&self, range: Range) -> Option<Place>
        ensures { IsLeast (λ q. in_ranges self.now q && in_range range q) result }
    {
        if range.low < range.high {
            first_common(&self.ranges, &[range])
        } else {
            None
        }
    }

    /// Whether a place is in the set. It takes no memory.
    pub fn has(&self, place: Place) -> bool
        ensures { result ≡ in_ranges self.now place }
    {
        for range in &self.ranges {
            if holds(*range, place) {
                return true;
            }
        }
        false
    }

    /// The ranges in order, none touching the next. It takes no memory.
    pub fn ranges(&self) -> &[Range]
        ensures value { result.now ≡ self.now }
        ensures order { IsOrdered self.now }
    {
        self.ranges.as_slice()
    }
}

// One pass: `range` waits for its place, and gives way to a later range as soon as it has found it.
fn with(alloc: Global, ranges: &[Range], mut range: Range) -> Result<Vec<Range>, NoMemory>
    ensures { IfOk result (λ all. all.items ≡ with_range range ranges.now) }
{
    let mut all = Vec::new(alloc);
    for next in ranges {
        if comes_before(*next, range) {
            all.push(*next)?;
        } else if comes_before(range, *next) {
            all.push(range)?;
            range = *next;
        } else {
            range = joined(range, *next);
        }
    }
    all.push(range)?;
    Ok(all)
}

pub(crate) fn comes_before(range: Range, other: Range) -> bool
    ensures { result ≡ is_before range other }
{
    range.region < other.region || range.region == other.region && range.high < other.low
}

pub(crate) fn joined(range: Range, other: Range) -> Range
    ensures { result ≡ hull range other }
{
    Range {
        region: range.region,
        low: range.low.min(other.low),
        high: range.high.max(other.high),
    }
}

fn holds(range: Range, place: Place) -> bool
    ensures { result ≡ in_range range place }
{
    range.region == place.region && range.low <= place.index && place.index < range.high
}
