// Where references lead.
ghost use Rattle.std.specs.Prelude.{◌≡◌, ◌<◌, ◌^◌, ◌&&◌, length, map, IfOk, IsSomeAnd};
ghost use Rattle.cd_tree.specs.Domains.{node_of, nodes_from};
ghost use Rattle.cd_tree.specs.TreeModel.{IsTree};
ghost use Rattle.cd_cover.specs.Links.{holder, holds_range, is_kept, by_way, frames_of, link_in, entry_link};
ghost use Rattle.cd_cover.specs.Plans.{links_of};
ghost use Rattle.cd_cover.specs.Seeking.{sought_above};

use crate::laws;
use cd_base::{Items, NoMemory, Range};
use cd_tree::{Entry, How, NodeId, Tree};
use std::alloc::Global;

// The link of each entry of a domain; none for an entry that is no reference.
pub(crate) type Links = Items<Option<(NodeId, u32)>>;

// The first copy or reference among entries that holds a range, with its number.
fn first_holder(range: Range, entries: &[Entry]) -> Option<(u32, Entry)>
    requires { length entries.now < 2 ^ 32 }
    ensures { result ≡ holder range 0 entries.now }
{
    for at in 0..entries.len() as u32 {
        let entry = entries[at as usize];
        if keeps(entry, range) {
            return Some((at, entry));
        }
    }
    None
}

// Whether an entry's words can be referred to, and are those of a range and more.
fn keeps(entry: Entry, range: Range) -> bool
    ensures { result ≡ (is_kept entry.how && holds_range entry.range range) }
{
    is_stored(entry.how) && holds(entry.range, range)
}

fn is_stored(how: How) -> bool
    ensures { result ≡ is_kept how }
{
    match how {
        How::Copy | How::Refer => true,
        How::Regen(_) => false,
    }
}

fn holds(outer: Range, range: Range) -> bool
    ensures { result ≡ holds_range outer range }
{
    outer.region == range.region && outer.low <= range.low && range.high <= outer.high
}

// The range that is sought above a domain with these entries, or none where they have the target.
pub(crate) fn seek_above(range: Range, entries: &[Entry]) -> Option<Range>
    requires { length entries.now < 2 ^ 32 }
    ensures { result ≡ sought_above range entries.now }
{
    match first_holder(range, entries) {
        None => Some(range),
        Some((_, entry)) => further(entry, range),
    }
}

// Where the way goes on after a holder.
fn further(entry: Entry, range: Range) -> Option<Range>
    ensures { result ≡ by_way entry.how None (λ outer. Some outer) (Some range) entry.range }
{
    match entry.how {
        How::Copy => None,
        How::Refer => Some(entry.range),
        How::Regen(_) => Some(range),
    }
}

// The link of a range that a domain refers to.
pub(crate) fn link_of_range(tree: &Tree, node: NodeId, range: Range) -> Option<(NodeId, u32)>
    requires tree { IsTree tree.now }
    requires node { node.0 < length tree.now.domains }
    ensures { result ≡ link_in range (frames_of tree.now.domains node) }
{
    laws::frames_go_up();
    cd_tree::laws::paths_go_from_parent_to_child();
    match tree.node(node).parent {
        None => None,
        Some(parent) => match first_holder(range, tree.node(parent).entries.items()) {
            Some((at, _)) => Some((parent, at)),
            None => link_of_range(tree, parent, range),
        },
    }
}

// The link of an entry, where it is a reference.
fn link_of_entry(tree: &Tree, node: NodeId, entry: Entry) -> Option<(NodeId, u32)>
    requires tree { IsTree tree.now }
    requires node { node.0 < length tree.now.domains }
    ensures { result ≡ entry_link (frames_of tree.now.domains node) entry }
{
    match entry.how {
        How::Copy | How::Regen(_) => None,
        How::Refer => link_of_range(tree, node, entry.range),
    }
}

// The links of a domain's entries.
fn links_of_domain(alloc: Global, tree: &Tree, node: NodeId) -> Result<Links, NoMemory>
    requires tree { IsTree tree.now }
    requires node { node.0 < length tree.now.domains }
    ensures { IfOk result (λ links. IsSomeAnd (node_of tree.now.domains node) (λ d. links ≡ links_of tree.now d)) }
{
    cd_tree::laws::the_nested_view_follows_the_list();
    let mut links = Items::new(alloc);
    for entry in tree.node(node).entries.items() {
        links.push(link_of_entry(tree, node, *entry))?;
    }
    Ok(links)
}

// The links of all domains' entries.
pub(crate) fn all_links(alloc: Global, tree: &Tree) -> Result<Vec<Links>, NoMemory>
    requires { IsTree tree.now }
    ensures { IfOk result (λ links. links.items ≡ map (links_of tree.now) (nodes_from 0 tree.now.domains)) }
{
    let mut links = Vec::new(alloc);
    for k in 0..tree.count() {
        links.push(links_of_domain(alloc, tree, NodeId(k))?)?;
    }
    Ok(links)
}
