//! How many workers can have something to do at the same time.
ghost use Rattle.std.specs.Prelude.{◌<◌, ◌≤◌, IfOk};

use cd_base::{Items, NoMemory};
use cd_tree::{Item, NodeId, Tree};
use std::alloc::Global;

/// The number of workers for a program: no more than were asked for, and no more than domains of it can be in hand at the same time.
pub(crate) fn crew_for(alloc: Global, tree: &Tree, workers: u32) -> Result<u32, NoMemory>
    requires { 0 < workers }
    ensures some { IfOk result (λ crew. 0 < crew) }
    ensures most { IfOk result (λ crew. crew ≤ workers) }
{
    if workers == 1 {
        return Ok(1);
    }
    let width = width_of(alloc, tree)?;
    Ok(workers.min(width.max(1)))
}

// How many domains of a program can be in hand at the same time. Each comes after its parent, so they are gone through from the last
// on: the list has the widths of all domains, the last first.
fn width_of(alloc: Global, tree: &Tree) -> Result<u32, NoMemory> {
    let count = tree.count();
    let mut widths = Vec::with_capacity(alloc, count as usize)?;
    for k in 0..count {
        let node = NodeId(count - 1 - k);
        let width = widest(&tree.node(node).items, widths.as_slice(), count - 1);
        widths.push(width)?;
    }
    Ok(widths.last().copied().unwrap_or(1))
}

// How many domains can be in hand at the same time within one with these items: itself, or as many as within the members of a group.
fn widest(items: &Items<Item>, widths: &[u32], last: u32) -> u32 {
    let mut most = 1;
    for item in items.items() {
        if let Item::Group(ids) = item {
            most = most.max(together(ids.items(), widths, last));
        }
    }
    most
}

fn together(ids: &[NodeId], widths: &[u32], last: u32) -> u32 {
    let mut sum: u32 = 0;
    for id in ids {
        let width = widths.get(last.wrapping_sub(id.0) as usize);
        sum = sum.saturating_add(width.copied().unwrap_or(1));
    }
    sum
}
