// The footprint of one domain, and as many empty ones as a program has domains.
ghost use Rattle.std.specs.Prelude.{◌≡◌, ◌<◌, ◌+◌, length, Some, IfOk};
ghost use Rattle.cd_tree.specs.TreeModel.{IsTree};
ghost use Rattle.cd_tree.specs.Domains.{node_of};
ghost use Rattle.cd_foot.specs.Feet.{IsFoot};
ghost use Rattle.cd_foot.specs.Gathered.{AreFeetFrom};

use crate::Foot;
use crate::gathered::{Side, places_of};
use cd_base::{NoMemory, Places, Range};
use cd_tree::{NodeId, Tree};
use std::alloc::Global;

/// As many footprints without a place.
pub(crate) fn no_feet(alloc: Global, count: u32) -> Result<Vec<Foot>, NoMemory>
    ensures { IfOk result (λ feet. length feet.items ≡ count) }
{
    let mut feet = Vec::new(alloc);
    for _ in 0..count {
        feet.push(Foot {
            reads: Places::new(alloc),
            writes: Places::new(alloc),
            reach: Places::new(alloc),
        })?;
    }
    Ok(feet)
}

/// The footprint of a domain, by those of the domains after it. Its places are gathered in `ranges`.
pub(crate) fn foot_of(
    alloc: Global,
    tree: &Tree,
    node: NodeId,
    feet: &[Foot],
    ranges: &mut Vec<Range>,
) -> Result<Foot, NoMemory>
    requires tree { IsTree tree.now }
    requires node { node.0 < length tree.now.domains }
    requires after { AreFeetFrom (node.0 + 1) tree.now.domains feet.now }
    ensures { IfOk result (λ foot. (d : _) → node_of tree.now.domains node ≡ Some d → IsFoot d foot) }
{
    let domain = tree.node(node);
    let reads = places_of(alloc, Side::Reads, domain, feet, ranges)?;
    let writes = places_of(alloc, Side::Writes, domain, feet, ranges)?;
    let reach = Places::of_both(alloc, &reads, &writes)?;
    Ok(Foot {
        reads,
        writes,
        reach,
    })
}
