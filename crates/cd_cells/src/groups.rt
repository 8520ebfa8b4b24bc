// What a plan says of a domain among its siblings.
ghost use Rattle.std.specs.Prelude.{◌≡◌, ◌<◌, [], length};
ghost use Rattle.cd_cover.specs.Plans.{IsPlan};
ghost use Rattle.cd_cells.specs.States.{numbers_of, siblings_of};

use cd_cover::Plan;
use cd_tree::{Item, NodeId, laws};

/// The members of the group in which a domain is one, itself among them; for the root, none.
pub(crate) fn siblings_of<'p>(plan: &'p Plan<'_>, node: NodeId) -> &'p [NodeId]
    requires { node.0 < length plan.now.tree.domains }
    ensures group { 0 < node.0 → numbers_of result.now ≡ siblings_of plan.now node.0 }
    ensures root { node.0 ≡ 0 → result.now ≡ [] }
{
    laws::children_stand_once();
    let tree = plan.tree();
    let Some(parent) = tree.node(node).parent else {
        return &[];
    };
    let Some(place) = tree.place_of(node) else {
        return &[];
    };
    match &tree.node(parent).items.items()[place.item as usize] {
        Item::Run(_) => &[],
        Item::Group(ids) => ids.items(),
    }
}

/// A plan is sound.
pub(crate) fn is_settled(plan: &Plan)
    ensures { IsPlan plan.now }
{
    prove!(0 < plan.tree().count());
}
