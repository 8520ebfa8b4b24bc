//! Where children stand: the group and the place of a domain among its parent's items, and the last child of a domain.

ghost use Rattle.std.specs.Prelude.{◌≡◌, ◌<◌, ◌^◌, ◌∷◌, ◌++◌, [], ℕ, List, Some, length, slice_get, MatchOption};
ghost use Rattle.cd_tree.specs.declared.domain.NodeId.{NodeId};
ghost use Rattle.cd_tree.specs.Groups.{HasMember, StandsAt};
ghost use Rattle.cd_tree.specs.Slices.{children_in};

use crate::{Item, NodeId};

/// The place of a domain among its parent's items: the number of the item, which is a group, and the domain's number in
/// that group.
#[derive(Debug, Clone, Copy, PartialEq, Eq)]
pub struct GroupPlace {
    pub item: u32,
    pub member: u32,
}

// The place of a domain among these items, where it stands among them.
pub(crate) fn place_among(items: &[Item], id: NodeId) -> Option<GroupPlace>
    requires { length items.now < 2 ^ 32 }
    ensures { MatchOption result ((item member : ℕ) → StandsAt items.now id item member → ⊥) (λ at. StandsAt items.now id at.item at.member) }
{
    for (item, each) in items.iter().enumerate() {
        if let Some(member) = member_of(each, id) {
            let item = item as u32;
            return Some(GroupPlace { item, member });
        }
    }
    None
}

// The number of a domain among the members of an item, where it is one of them.
fn member_of(item: &Item, id: NodeId) -> Option<u32>
    ensures { MatchOption result ((member : ℕ) → HasMember item.now member id → ⊥) (λ member. HasMember item.now member id) }
{
    match item {
        Item::Run(_) => None,
        Item::Group(ids) => number_of(ids.items(), id),
    }
}

// The number of a domain among these, where it is one of them.
fn number_of(ids: &[NodeId], id: NodeId) -> Option<u32>
    requires { length ids.now < 2 ^ 32 }
    ensures { MatchOption result ((member : ℕ) → slice_get ids.now member ≡ Some id → ⊥) (λ member. slice_get ids.now member ≡ Some id) }
{
    for (member, each) in ids.iter().enumerate() {
        if each.0 == id.0 {
            return Some(member as u32);
        }
    }
    None
}

// The last of the children that items name, where they name one.
pub(crate) fn last_child(items: &[Item]) -> Option<NodeId>
    ensures { MatchOption result (children_in items.now ≡ []) (λ id. (front : List NodeId) × (children_in items.now ≡ front ++ id ∷ [])) }
{
    for k in (0..items.len()).rev() {
        if let Some(last) = last_member(&items[k]) {
            return Some(last);
        }
    }
    None
}

// The last member of an item, where it has one.
fn last_member(item: &Item) -> Option<NodeId>
    ensures { MatchOption result (children_in (item.now ∷ []) ≡ []) (λ id. (front : List NodeId) × (children_in (item.now ∷ []) ≡ front ++ id ∷ [])) }
{
    match item {
        Item::Run(_) => None,
        Item::Group(ids) => ids.items().last().copied(),
    }
}
