// Whether two members of one group interfere, and which two do first.
ghost use Rattle.std.specs.Prelude.{◌≡◌, ◌<◌, ◌&&◌, ◌||◌, List, length, Some, All, MatchResult};
ghost use Rattle.cd_base.specs.Words.{PlaceSet};
ghost use Rattle.cd_base.specs.Places.{IsLeast, stands_before};
ghost use Rattle.cd_tree.specs.declared.domain.NodeId.{NodeId};
ghost use Rattle.cd_tree.specs.declared.domain.Domain.{Domain};
ghost use Rattle.cd_tree.specs.Domains.{Node, node_of, root_of, members_by, body_by};
ghost use Rattle.cd_tree.specs.Meaning.{node_writes, node_reach, clash, IsDisjoint};
ghost use Rattle.cd_tree.specs.Refusals.{FirstOf, refusal_in};
ghost use Rattle.cd_foot.specs.Feet.{AreFeet};
ghost use Rattle.cd_foot.specs.Overlaps.{pairs_with, pairs_among, sibling_pairs, OverlapOf, FirstOverlap};
ghost use Rattle.cd_foot.specs.Gathered.{IsItemOf};
ghost use Rattle.cd_foot.specs.Siblings.{PairOf, item_pairs};

use crate::Footprints;
use crate::clear::are_clear;
use cd_base::Place;
use cd_tree::laws::each_domain_answers_for_itself;
use cd_tree::{Item, NodeId, Refusal, Tree};

/// Whether no two members of a group interfere, in any group of a program. It takes no memory. Where the members of a group
/// write in four regions at most, in each one behind the other, and none reaches into what others write there, it takes time
/// in their ranges; else in the ranges of each pair.
///
/// The refusal is E9 with the first two that do, by their parent in preorder, their group, the first and the second of
/// them, and with the least place that one of the two writes and the other reaches.
pub fn disjoint(tree: &Tree, feet: &Footprints) -> Result<(), Refusal>
    requires { AreFeet tree.now.domains feet.now }
    ensures first { FirstOverlap tree.now.domains (refusal_in result) }
    ensures exactly { MatchResult result (λ _. IsDisjoint (root_of tree.now.domains)) (λ _. IsDisjoint (root_of tree.now.domains) → ⊥) }
{
    let count = tree.count();
    each_domain_answers_for_itself();
    for id in 0..count {
        items_apart(feet, tree.node(NodeId(id)).items.items())?;
    }
    Ok(())
}

// The first two members of a group of these items that interfere.
fn items_apart(feet: &Footprints, items: &[Item]) -> Result<(), Refusal>
    requires { All (IsItemOf (length feet.now)) items.now }
    ensures { (domains : List Domain) → AreFeet domains feet.now → FirstOf OverlapOf (sibling_pairs (body_by (node_of domains) items.now)) (refusal_in result) }
{
    for item in items {
        item_apart(feet, item)?;
    }
    Ok(())
}

// The first two members of an item that interfere.
fn item_apart(feet: &Footprints, item: &Item) -> Result<(), Refusal>
    requires { IsItemOf (length feet.now) item.now }
    ensures { (domains : List Domain) → AreFeet domains feet.now → FirstOf OverlapOf (item_pairs (node_of domains) item.now) (refusal_in result) }
{
    match item {
        Item::Run(_) => Ok(()),
        Item::Group(members) => members_apart(feet, members.items()),
    }
}

// The first two of these members that interfere.
fn members_apart(feet: &Footprints, members: &[NodeId]) -> Result<(), Refusal>
    requires { All (λ (id : NodeId). id.0 < length feet.now) members.now }
    ensures { (domains : List Domain) → AreFeet domains feet.now → FirstOf OverlapOf (pairs_among (members_by (node_of domains) members.now)) (refusal_in result) }
{
    if are_clear(feet, members) {
        return Ok(());
    }
    pairs_apart(feet, members)
}

// The first two of these members that interfere, pair by pair.
fn pairs_apart(feet: &Footprints, members: &[NodeId]) -> Result<(), Refusal>
    requires { All (λ (id : NodeId). id.0 < length feet.now) members.now }
    ensures { (domains : List Domain) → AreFeet domains feet.now → FirstOf OverlapOf (pairs_among (members_by (node_of domains) members.now)) (refusal_in result) }
{
    for (number, one) in members.iter().enumerate() {
        apart_from(feet, *one, &members[number + 1..])?;
    }
    Ok(())
}

// The first of these members that interferes with one.
fn apart_from(feet: &Footprints, one: NodeId, others: &[NodeId]) -> Result<(), Refusal>
    requires one { one.0 < length feet.now }
    requires others { All (λ (id : NodeId). id.0 < length feet.now) others.now }
    ensures { (domains : List Domain) (d : Node) → AreFeet domains feet.now → node_of domains one ≡ Some d → FirstOf OverlapOf (pairs_with d (members_by (node_of domains) others.now)) (refusal_in result) }
{
    for other in others {
        pair_apart(feet, one, *other)?;
    }
    Ok(())
}

// Whether two domains interfere, as a refusal of the two.
fn pair_apart(feet: &Footprints, one: NodeId, other: NodeId) -> Result<(), Refusal>
    requires one { one.0 < length feet.now }
    requires other { other.0 < length feet.now }
    ensures { (domains : List Domain) (d e : Node) → AreFeet domains feet.now → node_of domains one ≡ Some d → node_of domains other ≡ Some e → PairOf one other d e (refusal_in result) }
{
    match first_clash(feet, one, other) {
        None => Ok(()),
        Some(place) => Err(Refusal::Overlap(one, other, place)),
    }
}

// The least place that one of two domains writes and the other reaches.
fn first_clash(feet: &Footprints, one: NodeId, other: NodeId) -> Option<Place>
    requires one { one.0 < length feet.now }
    requires other { other.0 < length feet.now }
    ensures { (domains : List Domain) (d e : Node) → AreFeet domains feet.now → node_of domains one ≡ Some d → node_of domains other ≡ Some e → IsLeast (clash d e) result }
{
    least(
        first_reached(feet, one, other),
        first_reached(feet, other, one),
    )
}

// The least place that the first domain writes and the second reaches.
fn first_reached(feet: &Footprints, one: NodeId, other: NodeId) -> Option<Place>
    requires one { one.0 < length feet.now }
    requires other { other.0 < length feet.now }
    ensures { (domains : List Domain) (d e : Node) → AreFeet domains feet.now → node_of domains one ≡ Some d → node_of domains other ≡ Some e → IsLeast (λ p. node_writes d p && node_reach e p) result }
{
    feet.writes(one).meets(feet.reach(other))
}

// The least place of two sets, by the least of each.
fn least(first: Option<Place>, second: Option<Place>) -> Option<Place>
    ensures { (one other : PlaceSet) → IsLeast one first → IsLeast other second → IsLeast (λ p. one p || other p) result }
{
    match (first, second) {
        (Some(place), Some(next)) => Some(if comes_before(next, place) {
            next
        } else {
            place
        }),
        (Some(place), None) => Some(place),
        (None, place) => place,
    }
}

// By region, then by index.
fn comes_before(place: Place, other: Place) -> bool
    ensures { result ≡ stands_before place other }
{
    place.region < other.region || place.region == other.region && place.index < other.index
}
