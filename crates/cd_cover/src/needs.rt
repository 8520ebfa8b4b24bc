// How many blocks a run of each domain needs.
ghost use Rattle.std.specs.Prelude.{◌≡◌, ◌<◌, ◌≤◌, ◌+◌, ◌*◌, ◌^◌, All, length, map, sum_by, slice_index, IfOk, OnOk, IsSomeAnd};
ghost use Rattle.cd_tree.specs.Limits.{entries_limit};
ghost use Rattle.cd_tree.specs.Domains.{node_of, nodes_from, body_of};
ghost use Rattle.cd_tree.specs.Meaning.{entry_need, body_need, node_need};
ghost use Rattle.cd_tree.specs.TreeModel.{IsTree};
ghost use Rattle.cd_cover.specs.Needs.{own_need, most_entry, most_own, AreSmall, HoldsFrom, item_need, CanAdd};

use cd_base::NoMemory;
use cd_tree::limits::BLOCK_WORDS;
use cd_tree::{Entry, How, Item, NodeId, Tree};
use std::alloc::Global;

// The blocks of one entry; a reference takes one more, since it may begin inside one.
fn entry_blocks(entry: Entry) -> u64
    ensures value { result ≡ entry_need entry }
    ensures small { result ≤ most_entry }
{
    let words = u64::from(entry.range.high.saturating_sub(entry.range.low));
    let blocks = (words + u64::from(BLOCK_WORDS - 1)) / u64::from(BLOCK_WORDS);
    match entry.how {
        How::Copy | How::Regen(_) => blocks,
        How::Refer => blocks + 1,
    }
}

// The blocks of a domain's own entries.
fn own_blocks(entries: &[Entry]) -> u64
    requires { length entries.now ≤ entries_limit }
    ensures value { result ≡ sum_by entry_need entries.now }
    ensures small { result ≤ most_own }
{
    let mut all = 0;
    for entry in entries {
        all += entry_blocks(*entry);
    }
    all
}

// The blocks of each domain's own entries.
fn own_needs(alloc: Global, tree: &Tree) -> Result<Vec<u64>, NoMemory>
    requires { IsTree tree.now }
    ensures value { IfOk result (λ own. own.items ≡ map own_need tree.now.domains) }
    ensures small { OnOk result (AreSmall tree.now.domains) }
{
    let mut own = Vec::new(alloc);
    for k in 0..tree.count() {
        own.push(own_blocks(tree.node(NodeId(k)).entries.items()))?;
    }
    Ok(own)
}

// What members need together.
fn members_blocks(needs: &[u64], members: &[NodeId]) -> u64
    requires here { All (λ (id : NodeId). id.0 < length needs.now) members.now }
    requires fits { sum_by (λ id. slice_index needs.now id.0) members.now < 2 ^ 64 }
    ensures { result ≡ sum_by (λ id. slice_index needs.now id.0) members.now }
{
    let mut all = 0;
    for member in members {
        all += needs[member.0 as usize];
    }
    all
}

// What the members of an item need together; an operation needs nothing.
fn item_blocks(needs: &[u64], item: &Item) -> u64
    requires { CanAdd needs.now item.now }
    ensures { result ≡ item_need needs.now item.now }
{
    match item {
        Item::Run(_) => 0,
        Item::Group(members) => members_blocks(needs, members.items()),
    }
}

// The most that one group of a domain needs.
fn groups_blocks(tree: &Tree, needs: &[u64], node: NodeId) -> u64
    requires tree { IsTree tree.now }
    requires node { node.0 < length tree.now.domains }
    requires size { length needs.now ≡ length tree.now.domains }
    requires below { HoldsFrom tree.now.domains (node.0 + 1) needs.now }
    requires fits { IsSomeAnd (node_of tree.now.domains node) (λ d. body_need (body_of d) < 2 ^ 64) }
    ensures { IsSomeAnd (node_of tree.now.domains node) (λ d. result ≡ body_need (body_of d)) }
{
    cd_tree::laws::the_nested_view_follows_the_list();
    let mut most: u64 = 0;
    for item in tree.node(node).items.items() {
        most = most.max(item_blocks(needs, item));
    }
    most
}

// The need of each domain: its own blocks first, then from the last domain to the first what its groups need.
pub(crate) fn needs_of(alloc: Global, tree: &Tree) -> Result<Vec<u64>, NoMemory>
    requires { IsTree tree.now }
    ensures { IfOk result (λ needs. needs.items ≡ map node_need (nodes_from 0 tree.now.domains)) }
{
    cd_tree::laws::the_nested_view_follows_the_list();
    cd_tree::laws::the_root_needs_the_most();
    let mut needs = own_needs(alloc, tree)?;
    for k in (0..tree.count()).rev() {
        let more = groups_blocks(tree, &needs, NodeId(k));
        needs[k as usize] += more;
    }
    Ok(needs)
}
