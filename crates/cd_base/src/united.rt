//! One pass over one or two lists of ranges, by their beginnings, into one list.
ghost use Rattle.std.specs.Prelude.{◌≡◌, [], ◌∷◌, IfOk, MatchOption};
ghost use Rattle.cd_base.specs.Places.{by_start, united, united_from};

use crate::least::{begins_before, parted};
use crate::places::{comes_before, joined};
use crate::{NoMemory, Range};
use std::alloc::Global;

// Of two lists the range that begins first, and what is left of both.
#[derive(Clone, Copy)]
struct Next<'a> {
    range: Range,
    first: &'a [Range],
    second: &'a [Range],
}

// The ranges of two lists, by their beginnings, each joined with the next where they overlap or touch.
pub(crate) fn united<'a>(
    alloc: Global,
    first: &'a [Range],
    second: &'a [Range],
) -> Result<Vec<Range>, NoMemory>
    ensures { IfOk result (λ all. all.items ≡ united (by_start first.now second.now)) }
{
    match earliest(first, second) {
        None => Ok(Vec::new(alloc)),
        Some(next) => united_from(alloc, next.range, next.first, next.second),
    }
}

// One pass over both lists: `range` waits until the next range does not touch it.
fn united_from<'a>(
    alloc: Global,
    mut range: Range,
    mut first: &'a [Range],
    mut second: &'a [Range],
) -> Result<Vec<Range>, NoMemory>
    ensures { IfOk result (λ all. all.items ≡ united_from range (by_start first.entry.now second.entry.now)) }
{
    let mut all = Vec::new(alloc);
    while let Some(next) = earliest(first, second) {
        if comes_before(range, next.range) {
            all.push(range)?;
            range = next.range;
        } else {
            range = joined(range, next.range);
        }
        first = next.first;
        second = next.second;
    }
    all.push(range)?;
    Ok(all)
}

// Ranges that stand by their beginnings, each joined with the next where they overlap or touch.
pub(crate) fn united_in_order(alloc: Global, ranges: &[Range]) -> Result<Vec<Range>, NoMemory>
    ensures { IfOk result (λ all. all.items ≡ united ranges.now) }
{
    match parted(ranges) {
        None => Ok(Vec::new(alloc)),
        Some((range, rest)) => united_behind(alloc, range, rest),
    }
}

// One pass over one list: `range` waits until the next range does not touch it.
fn united_behind(alloc: Global, mut range: Range, ranges: &[Range]) -> Result<Vec<Range>, NoMemory>
    ensures { IfOk result (λ all. all.items ≡ united_from range ranges.now) }
{
    let mut all = Vec::new(alloc);
    for next in ranges {
        if comes_before(range, *next) {
            all.push(range)?;
            range = *next;
        } else {
            range = joined(range, *next);
        }
    }
    all.push(range)?;
    Ok(all)
}

// The range of two lists that begins first; of two that begin together that of the first list.
fn earliest<'a>(first: &'a [Range], second: &'a [Range]) -> Option<Next<'a>>
    ensures { MatchOption result (by_start first.now second.now ≡ []) (λ next. by_start first.now second.now ≡ next.range ∷ by_start next.first.now next.second.now) }
{
    match (parted(first), parted(second)) {
        (None, None) => None,
        (Some((range, rest)), None) => Some(Next {
            range,
            first: rest,
            second,
        }),
        (None, Some((range, rest))) => Some(Next {
            range,
            first,
            second: rest,
        }),
        (Some((one, rest)), Some((other, left))) => {
            if begins_before(other, one) {
                Some(Next {
                    range: other,
                    first,
                    second: left,
                })
            } else {
                Some(Next {
                    range: one,
                    first: rest,
                    second,
                })
            }
        }
    }
}
