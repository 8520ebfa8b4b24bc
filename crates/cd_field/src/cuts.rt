// Hulls cut out of others: for each region the words from the first that some ranges have there to the last.
ghost use Rattle.std.specs.Prelude.{◌≡◌, ◌<◌, false, length, IfOk};
ghost use Rattle.cd_field.specs.Hulls.{hull_at, HasRun, AreCovered, words_by, lost_by};
ghost use Rattle.cd_field.specs.Spans.{span_at, widened, widened_by, cut, HoldRanges};

use crate::hull::Hull;
use crate::spans::Span;
use cd_base::{NoMemory, Range};
use std::alloc::Global;

/// The words of the places of some ranges. None of them is away.
pub(crate) fn cut_hulls(
    alloc: Global,
    whole: &mut Vec<Hull>,
    ranges: &[Range],
) -> Result<Vec<Hull>, NoMemory>
    requires { AreCovered ranges.now whole.old.items }
    ensures covered { IfOk result (λ hulls. AreCovered ranges.now hulls.items) }
    ensures words { IfOk result (λ hulls. (q : _) → words_by ranges.now hulls.items q ≡ words_by ranges.now whole.old.items q) }
    ensures lost { IfOk result (λ hulls. (q : _) → lost_by ranges.now hulls.items q ≡ false) }
    ensures same { whole.new.items ≡ whole.old.items }
{
    let spans = spans_of(alloc, whole, ranges)?;
    let hulls = cut_each(alloc, whole, &spans)?;
    Ok(hulls)
}

// The span of each region.
fn spans_of(alloc: Global, whole: &[Hull], ranges: &[Range]) -> Result<Vec<Span>, NoMemory>
    requires { AreCovered ranges.now whole.now }
    ensures { IfOk result (λ spans. HoldRanges whole.now ranges.now spans.items) }
{
    let mut spans = Vec::new(alloc);
    spans.resize(whole.len(), Span { low: 0, high: 0 })?;
    for range in ranges {
        widen(&mut spans, *range);
    }
    Ok(spans)
}

// The span of a range's region holds the range too. An empty range changes nothing.
fn widen(spans: &mut Vec<Span>, range: Range)
    requires { range.low < range.high → range.region < length spans.old.items }
    ensures { spans.new.items ≡ widened_by spans.old.items range }
{
    if range.low < range.high {
        let region = range.region as usize;
        spans[region] = with_range(spans[region], range);
    }
}

fn with_range(span: Span, range: Range) -> Span
    ensures { result ≡ widened span range }
{
    if span.low < span.high {
        Span {
            low: span.low.min(range.low),
            high: span.high.max(range.high),
        }
    } else {
        Span {
            low: range.low,
            high: range.high,
        }
    }
}

fn cut_each(alloc: Global, whole: &mut Vec<Hull>, spans: &[Span]) -> Result<Vec<Hull>, NoMemory>
    requires long { length spans.now ≡ length whole.old.items }
    requires within { (region : _) → (span_at spans.now region).low < (span_at spans.now region).high → HasRun (hull_at whole.old.items region) (span_at spans.now region).low (span_at spans.now region).high }
    ensures cuts { IfOk result (λ hulls. (region : _) → hull_at hulls.items region ≡ cut (hull_at whole.old.items region) (span_at spans.now region)) }
    ensures same { whole.new.items ≡ whole.old.items }
{
    let mut hulls = Vec::new(alloc);
    for region in 0..spans.len() {
        let hull = cut_one(alloc, &mut whole[region], spans[region])?;
        hulls.push(hull)?;
    }
    Ok(hulls)
}

fn cut_one(alloc: Global, hull: &mut Hull, span: Span) -> Result<Hull, NoMemory>
    requires { span.low < span.high → HasRun hull.old span.low span.high }
    ensures cut { IfOk result (λ part. part ≡ cut hull.old span) }
    ensures same { hull.new ≡ hull.old }
{
    if span.low < span.high {
        let part = hull.part(span.low, span.high)?;
        Ok(part)
    } else {
        Ok(Hull::empty(alloc))
    }
}
