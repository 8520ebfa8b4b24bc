// One fault of a script: which domain its path names, and whether it can strike there and be found.
ghost use Rattle.std.specs.Prelude.{◌≡◌, ◌<◌, length};
ghost use Rattle.cd_tree.specs.Scripts.{declared_for};
ghost use Rattle.cd_foot.specs.Feet.{AreFeet};
ghost use Rattle.cd_script.specs.Acceptance.{FaultAnswers, reaches};

use cd_base::Place;
use cd_foot::Footprints;
use cd_tree::{Fault, Kinds, NodeId, RawFault, Refusal, Tree, find, laws};

// One fault of a script, by its number, with the domain that its path names.
pub(crate) fn found(
    tree: &Tree,
    feet: &Footprints,
    fault: &RawFault,
    number: u32,
) -> Result<Fault, Refusal>
    requires { AreFeet tree.now.domains feet.now }
    ensures { FaultAnswers tree.now.domains number fault.now result }
{
    let Some(node) = find(tree, fault.path.as_str()) else {
        return Err(Refusal::UnknownPath(number));
    };
    let domain = tree.node(node);
    if fault.item > domain.items.items().len() as u64 {
        return Err(Refusal::NoSuchItem(number));
    }
    if !reaches(tree, feet, node, fault.place) {
        return Err(Refusal::OutsideReach(number));
    }
    if !declared(tree, node).has(fault.kind) {
        return Err(Refusal::Undetected(number));
    }
    Ok(Fault {
        node,
        begin: fault.begin,
        item: fault.item as u32,
        kind: fault.kind,
        place: fault.place,
        mask: fault.mask,
    })
}

// Whether a domain reaches a place.
fn reaches(tree: &Tree, feet: &Footprints, node: NodeId, place: Place) -> bool
    requires feet { AreFeet tree.now.domains feet.now }
    requires node { node.0 < length tree.now.domains }
    ensures { result ≡ reaches tree.now.domains node place }
{
    feet.reach(node).has(place)
}

// The kinds that a domain or one above it declares.
fn declared(tree: &Tree, node: NodeId) -> Kinds
    requires { node.0 < length tree.now.domains }
    ensures { result ≡ declared_for tree.now.domains node }
{
    laws::paths_go_from_parent_to_child();
    prove!(node.0 < tree.count());
    let domain = tree.node(node);
    match domain.parent {
        None => domain.detects,
        Some(parent) => declared(tree, parent).union(domain.detects),
    }
}
