// Least places of sets.
ghost use Rattle.std.specs.Prelude.{◌≡◌, ◌&&◌};
ghost use Rattle.cd_base.specs.Places.{IsLeast, stands_before};
ghost use Rattle.cd_base.specs.Words.{in_range};
ghost use Rattle.cd_cover.specs.Least.{earlier_of};

use cd_base::{Place, Range};

// The place that stands before the other.
pub(crate) fn earlier(one: Option<Place>, other: Option<Place>) -> Option<Place>
    ensures { result ≡ earlier_of one other }
{
    match (one, other) {
        (Some(p), Some(q)) => Some(if comes_before(q, p) { q } else { p }),
        (Some(p), None) => Some(p),
        (None, _) => other,
    }
}

fn comes_before(p: Place, q: Place) -> bool
    ensures { result ≡ stands_before p q }
{
    p.region < q.region || p.region == q.region && p.index < q.index
}

// The least place of two ranges at once.
pub(crate) fn first_common(one: Range, other: Range) -> Option<Place>
    ensures { IsLeast (λ q. in_range one q && in_range other q) result }
{
    let low = one.low.max(other.low);
    let high = one.high.min(other.high);
    if one.region == other.region && low < high {
        Some(Place {
            region: one.region,
            index: low,
        })
    } else {
        None
    }
}
