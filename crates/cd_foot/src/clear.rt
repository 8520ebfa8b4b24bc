// Whether the members of a group are apart at a glance: in each of few regions what they write lies one behind the other,
// and none of them reaches into what the others write. It is one pass from the first and one from the last, in place of a
// look at each pair; where it does not tell, the members may still be apart.
ghost use Rattle.std.specs.Prelude.{◌≡◌, ◌<◌, ◌||◌, List, true, false, length, All, IsTrue, IfSome};
ghost use Rattle.cd_base.specs.declared.place.Place.{Place};
ghost use Rattle.cd_base.specs.Words.{in_range, in_ranges};
ghost use Rattle.cd_tree.specs.declared.domain.NodeId.{NodeId};
ghost use Rattle.cd_tree.specs.declared.domain.Domain.{Domain};
ghost use Rattle.cd_tree.specs.Domains.{node_of, members_by};
ghost use Rattle.cd_tree.specs.Meaning.{MembersApart};
ghost use Rattle.cd_foot.specs.Feet.{AreFeet};
ghost use Rattle.cd_foot.specs.Clear.{turn, Misses, Widens, IsClear};

use crate::Footprints;
use cd_base::{Places, Range};
use cd_tree::NodeId;

// In which order members are gone through.
#[derive(Clone, Copy)]
pub(crate) enum Order {
    FromFirst,
    FromLast,
}

// Whether these members are seen to be apart.
pub(crate) fn are_clear(feet: &Footprints, members: &[NodeId]) -> bool
    requires { All (λ (id : NodeId). id.0 < length feet.now) members.now }
    ensures { IsTrue result → (domains : List Domain) → AreFeet domains feet.now → MembersApart (members_by (node_of domains) members.now) }
{
    is_clear(feet, members, Order::FromFirst) && is_clear(feet, members, Order::FromLast)
}

// Whether none of these members reaches into the ranges of what those before it, in this order, write.
fn is_clear(feet: &Footprints, members: &[NodeId], order: Order) -> bool
    requires { All (λ (id : NodeId). id.0 < length feet.now) members.now }
    ensures { IsTrue result → IsClear feet.now members.now order }
{
    let count = members.len();
    let mut hulls = [Range {
        region: 0,
        low: 0,
        high: 0,
    }; 4];
    for k in 0..count {
        match with_member(feet, hulls, members[order.at(k, count)]) {
            Some(all) => hulls = all,
            None => return false,
        }
    }
    true
}

// Ranges that hold what members write, with what one member more writes; none where this member reaches into them.
fn with_member(feet: &Footprints, hulls: [Range; 4], member: NodeId) -> Option<[Range; 4]>
    requires { member.0 < length feet.now }
    ensures { IfSome result (Widens feet.now hulls member) }
{
    if reaches_into(feet.reach(member), &hulls) {
        return None;
    }
    with_all(hulls, feet.writes(member).ranges())
}

// Whether a set has a place in one of these ranges.
fn reaches_into(reach: &Places, hulls: &[Range]) -> bool
    ensures { result ≡ false → Misses (in_ranges hulls.now) reach.now }
{
    for hull in hulls {
        if reach.first_in(*hull).is_some() {
            return true;
        }
    }
    false
}

// Ranges that hold these and others, where four regions are enough.
fn with_all(mut hulls: [Range; 4], ranges: &[Range]) -> Option<[Range; 4]>
    ensures { IfSome result (λ all. (q : Place) → (in_ranges hulls q || in_ranges ranges.now q) ≡ true → in_ranges all q ≡ true) }
{
    for range in ranges {
        hulls = with(hulls, *range)?;
    }
    Some(hulls)
}

// Ranges that hold these and one more: it is joined with the one of its region, or takes the place of one without a place.
fn with(hulls: [Range; 4], range: Range) -> Option<[Range; 4]>
    ensures { IfSome result (λ all. (q : Place) → (in_ranges hulls q || in_range range q) ≡ true → in_ranges all q ≡ true) }
{
    for k in 0..hulls.len() {
        if let Some(hull) = joined(hulls[k], range) {
            let mut all = hulls;
            all[k] = hull;
            return Some(all);
        }
    }
    None
}

// A range that holds two ranges, where they are of one region or the first has no place.
fn joined(hull: Range, range: Range) -> Option<Range>
    ensures { IfSome result (λ all. (q : Place) → (in_range hull q || in_range range q) ≡ true → in_range all q ≡ true) }
{
    if hull.low >= hull.high {
        return Some(range);
    }
    if hull.region != range.region {
        return None;
    }
    Some(Range {
        region: hull.region,
        low: hull.low.min(range.low),
        high: hull.high.max(range.high),
    })
}

impl Order {
    // The index of the member that is gone through after k others.
    fn at(self, k: usize, count: usize) -> usize
        requires { k < count }
        ensures { result ≡ turn self count k }
    {
        match self {
            Order::FromFirst => k,
            Order::FromLast => count - 1 - k,
        }
    }
}
