//! One pass over two sets of places: the least place of both, and the least that one of them lacks.
ghost use Rattle.std.specs.Prelude.{◌≡◌, [], ◌∷◌, MatchOption};
ghost use Rattle.cd_base.specs.Places.{IsLeast, IsOrdered, begins_before, ends_before, in_both, in_second_alone};

use crate::{Place, Range};

// The least place that is in both sets. While the first ranges of the two are apart, the one that ends first is passed.
pub(crate) fn first_common(mut first: &[Range], mut second: &[Range]) -> Option<Place>
    requires first { IsOrdered first.now }
    requires second { IsOrdered second.now }
    ensures { IsLeast (in_both first.entry.now second.entry.now) result }
{
    loop {
        let (one, rest) = parted(first)?;
        let (other, left) = parted(second)?;
        if ends_before(one, other) {
            first = rest;
        } else if ends_before(other, one) {
            second = left;
        } else {
            return Some(place_in(one, one.low.max(other.low)));
        }
    }
}

// The least place of the second set that the first lacks. Ranges that end before the second's begins, and ranges of the
// second that lie in one of the first, are passed.
pub(crate) fn first_lacking(mut first: &[Range], mut second: &[Range]) -> Option<Place>
    requires first { IsOrdered first.now }
    requires second { IsOrdered second.now }
    ensures { IsLeast (in_second_alone first.entry.now second.entry.now) result }
{
    loop {
        let (other, left) = parted(second)?;
        let Some((one, rest)) = parted(first) else {
            return Some(place_in(other, other.low));
        };
        if ends_before(one, other) {
            first = rest;
        } else if begins_before(other, one) {
            return Some(place_in(other, other.low));
        } else if other.high <= one.high {
            second = left;
        } else {
            return Some(place_in(one, one.high));
        }
    }
}

// The first range of a list, and the others.
pub(crate) fn parted(ranges: &[Range]) -> Option<(Range, &[Range])>
    ensures { MatchOption result (ranges.now ≡ []) (λ parts. ranges.now ≡ parts.0 ∷ parts.1.now) }
{
    match ranges {
        [] => None,
        [range, rest @ ..] => Some((*range, rest)),
    }
}

// Whether a range ends where the other begins, or before.
fn ends_before(range: Range, other: Range) -> bool
    ensures { result ≡ ends_before range other }
{
    range.region < other.region || range.region == other.region && range.high <= other.low
}

// Whether a range begins before the other.
pub(crate) fn begins_before(range: Range, other: Range) -> bool
    ensures { result ≡ begins_before range other }
{
    range.region < other.region || range.region == other.region && range.low < other.low
}

// The place of an index in the region of a range.
fn place_in(range: Range, index: u32) -> Place
    ensures region { result.region ≡ range.region }
    ensures index { result.index ≡ index }
{
    Place {
        region: range.region,
        index,
    }
}
