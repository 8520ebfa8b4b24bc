//! Whether kinds and domains are a program's: a function for each part of what a program is.

ghost use Rattle.std.specs.Prelude.{◌≡◌, ◌≢◌, ◌↔◌, ◌<◌, ◌≤◌, ℕ, List, [], ◌∷◌, None, Some, length, slice_get, sum_by, IsTrue, IsSomeAnd, MatchOption, All, Contains};
ghost use Rattle.cd_tree.specs.Domains.{root_of, node_of, members_by, body_by, node_numbers, body_numbers, member_numbers, node_depth, body_depth, members_depth, numbers_from};
ghost use Rattle.cd_tree.specs.Limits.{kinds_limit, entries_limit, members_limit, depth_limit};
ghost use Rattle.cd_tree.specs.Operations.{IsFull};
ghost use Rattle.cd_tree.specs.TreeModel.{IsTree, FitsDomain, EachFits, FitsItems, NamesChildren, SiblingsDiffer, KindsDiffer};
ghost use Rattle.cd_tree.specs.Parts.{AreFew, IsWalkable, WalkGives};

use crate::limits::{
    MOST_DEPTH, MOST_DOMAINS, MOST_ENTRIES, MOST_ITEMS, MOST_KINDS, MOST_MEMBERS, MOST_PRESERVES,
    MOST_RETRY,
};
use crate::operation::{fits, is_full};
use crate::{Domain, Entry, Item, KindName, NodeId};
use cd_base::Text;

/// Whether kinds and domains are a program's. It takes no memory. Each two domains are compared, and each two kinds.
pub(crate) fn is_tree(kinds: &[KindName], domains: &[Domain]) -> bool
    ensures { IsTrue result ↔ IsTree (record { kinds = kinds.now; domains = domains.now }) }
{
    if !are_few(kinds, domains) || !all_fit(kinds, domains) {
        return false;
    }
    has_root(domains) && kinds_differ(kinds) && siblings_differ(domains) && are_in_order(domains)
}

// Whether there are domains, and few enough of everything.
fn are_few(kinds: &[KindName], domains: &[Domain]) -> bool
    ensures { IsTrue result ↔ AreFew kinds.now domains.now }
{
    !domains.is_empty()
        && domains.len() <= MOST_DOMAINS as usize
        && kinds.len() <= MOST_KINDS as usize
        && items_within(domains, MOST_ITEMS as usize)
        && entries_within(domains, MOST_PRESERVES as usize)
}

// Whether the domains have at most so many items together.
fn items_within(domains: &[Domain], most: usize) -> bool
    ensures { IsTrue result ↔ (sum_by (λ (domain : Domain). length domain.items) domains.now ≤ most) }
{
    let mut left = most;
    for domain in domains {
        let count = domain.items.items().len();
        if left < count {
            return false;
        }
        left -= count;
    }
    true
}

// Whether the domains have at most so many entries together.
fn entries_within(domains: &[Domain], most: usize) -> bool
    ensures { IsTrue result ↔ (sum_by (λ (domain : Domain). length domain.entries) domains.now ≤ most) }
{
    let mut left = most;
    for domain in domains {
        let count = domain.entries.items().len();
        if left < count {
            return false;
        }
        left -= count;
    }
    true
}

// Whether the first domain has no parent.
fn has_root(domains: &[Domain]) -> bool
    ensures { IsTrue result ↔ IsSomeAnd (slice_get domains.now 0) (λ domain. domain.parent ≡ None) }
{
    match domains.first() {
        None => false,
        Some(root) => root.parent.is_none(),
    }
}

// Whether no two kinds have the same name.
fn kinds_differ(kinds: &[KindName]) -> bool
    ensures { IsTrue result ↔ KindsDiffer kinds.now }
{
    for at in 0..kinds.len() {
        if !is_new_kind(&kinds[..at], &kinds[at]) {
            return false;
        }
    }
    true
}

// Whether none of these kinds has the name of this one.
fn is_new_kind(kinds: &[KindName], kind: &KindName) -> bool
    ensures { IsTrue result ↔ All (λ (other : KindName). other.name ≢ kind.now.name) kinds.now }
{
    kinds
        .iter()
        .all(|other| are_different(&other.name, &kind.name))
}

fn are_different(name: &Text, other: &Text) -> bool
    ensures { IsTrue result ↔ (name.now ≢ other.now) }
{
    name.as_str().as_bytes() != other.as_str().as_bytes()
}

// Whether no two children of one parent have the same name.
fn siblings_differ(domains: &[Domain]) -> bool
    ensures { IsTrue result ↔ SiblingsDiffer domains.now }
{
    for at in 0..domains.len() {
        if !is_new_sibling(&domains[..at], &domains[at]) {
            return false;
        }
    }
    true
}

// Whether none of these domains has the parent and the name of this one.
fn is_new_sibling(domains: &[Domain], child: &Domain) -> bool
    ensures { IsTrue result ↔ All (λ (domain : Domain). domain.parent ≡ child.now.parent → domain.name ≢ child.now.name) domains.now }
{
    domains.iter().all(|domain| is_apart_from(domain, child))
}

// Whether two domains have different parents or different names.
fn is_apart_from(domain: &Domain, child: &Domain) -> bool
    ensures { IsTrue result ↔ (domain.now.parent ≡ child.now.parent → domain.now.name ≢ child.now.name) }
{
    domain.parent != child.parent || are_different(&domain.name, &child.name)
}

// Whether each domain is as a program wants it.
fn all_fit(kinds: &[KindName], domains: &[Domain]) -> bool
    requires { AreFew kinds.now domains.now }
    ensures { IsTrue result ↔ EachFits kinds.now domains.now 0 domains.now }
{
    for (at, domain) in domains.iter().enumerate() {
        if !domain_fits(kinds, domains, at as u32, domain) {
            return false;
        }
    }
    true
}

// Whether one domain, by its number, is as a program wants it.
fn domain_fits(kinds: &[KindName], domains: &[Domain], at: u32, domain: &Domain) -> bool
    requires { length kinds.now ≤ kinds_limit }
    ensures { IsTrue result ↔ FitsDomain kinds.now domains.now at domain.now }
{
    is_name(domain.name.as_str().as_bytes())
        && 0 < domain.retry
        && domain.retry <= MOST_RETRY
        && domain.detects.are_below(kinds.len())
        && entries_fit(domain.entries.items())
        && items_fit(domains, at, domain.items.items())
}

// Whether a name has no `/`.
fn is_name(name: &[u8]) -> bool
    ensures { IsTrue result ↔ (Contains name.now 47 → ⊥) }
{
    !name.contains(&b'/')
}

// Whether there are few entries, each of a range with a place.
fn entries_fit(entries: &[Entry]) -> bool
    ensures { IsTrue result ↔ (length entries.now ≤ entries_limit) × All (λ (entry : Entry). IsFull entry.range) entries.now }
{
    entries.len() <= MOST_ENTRIES as usize
        && entries
            .iter()
            .all(|entry| entry.range.low < entry.range.high)
}

// Whether the items of a domain fit.
fn items_fit(domains: &[Domain], at: u32, items: &[Item]) -> bool
    ensures { IsTrue result ↔ FitsItems domains.now at items.now }
{
    for item in items {
        if !item_fits(domains, at, item) {
            return false;
        }
    }
    true
}

// Whether an item of a domain fits.
fn item_fits(domains: &[Domain], at: u32, item: &Item) -> bool
    ensures { IsTrue result ↔ FitsItems domains.now at (item.now ∷ []) }
{
    match item {
        Item::Run(op) => is_full(op) && fits(op),
        Item::Group(ids) => group_fits(domains, at, ids.items()),
    }
}

// Whether a group has members, not too many, which are children.
fn group_fits(domains: &[Domain], at: u32, ids: &[NodeId]) -> bool
    ensures { IsTrue result ↔ (0 < length ids.now) × (length ids.now ≤ members_limit) × NamesChildren domains.now at ids.now }
{
    !ids.is_empty() && ids.len() <= MOST_MEMBERS as usize && are_children(domains, at, ids)
}

// Whether these are later domains with this parent.
fn are_children(domains: &[Domain], at: u32, ids: &[NodeId]) -> bool
    ensures { IsTrue result ↔ NamesChildren domains.now at ids.now }
{
    for id in ids {
        if !is_child(domains, at, *id) {
            return false;
        }
    }
    true
}

// Whether this is a later domain with this parent.
fn is_child(domains: &[Domain], at: u32, id: NodeId) -> bool
    ensures { IsTrue result ↔ NamesChildren domains.now at (id ∷ []) }
{
    at < id.0 && has_parent(domains, id, at)
}

// Whether there is such a domain, with this parent.
fn has_parent(domains: &[Domain], id: NodeId, parent: u32) -> bool
    ensures { IsTrue result ↔ IsSomeAnd (slice_get domains.now id.0) (λ child. child.parent ≡ Some (record { 0 = parent })) }
{
    match domain_at(domains, id) {
        None => false,
        Some(child) => child.parent == Some(NodeId(parent)),
    }
}

// A domain by its number, where it is there.
fn domain_at(domains: &[Domain], id: NodeId) -> Option<&Domain>
    ensures { MatchOption result (slice_get domains.now id.0 ≡ None) (λ domain. slice_get domains.now id.0 ≡ Some domain.now) }
{
    domains.get(id.0 as usize)
}

// Whether a walk from the root meets the numbers 0, 1, .. once each, and goes no deeper than the limit.
fn are_in_order(domains: &[Domain]) -> bool
    requires some { 0 < length domains.now }
    requires view { IsWalkable domains.now }
    ensures { IsTrue result ↔ (node_numbers (root_of domains.now) ≡ numbers_from 0 (length domains.now)) × (node_depth (root_of domains.now) ≤ depth_limit) }
{
    match walk_domain(domains, NodeId(0), 0, MOST_DEPTH) {
        None => false,
        Some(count) => count as usize == domains.len(),
    }
}

// Walks a domain, where it is there, and all below it. `at` is the number that it must have, and `levels` says how many
// may stand inside each other; the answer is the number behind the last, or nothing where the walk must stop.
#[cycle(walk)]
fn walk_domain(domains: &[Domain], id: NodeId, at: u32, levels: u32) -> Option<u32>
    requires { IsWalkable domains.now }
    ensures { let seen = members_by (node_of domains.now) (id ∷ []) in WalkGives (member_numbers seen) (members_depth seen) at levels result }
{
    let Some(domain) = domain_at(domains, id) else {
        return Some(at);
    };
    if id.0 != at || levels == 0 {
        return None;
    }
    walk_items(domains, domain.items.items(), at + 1, levels - 1)
}

// Walks all that items have in them, in order.
#[cycle(walk)]
fn walk_items(domains: &[Domain], items: &[Item], at: u32, levels: u32) -> Option<u32>
    requires { IsWalkable domains.now }
    ensures { let seen = body_by (node_of domains.now) items.now in WalkGives (body_numbers seen) (body_depth seen) at levels result }
{
    let mut next = at;
    for item in items {
        next = walk_item(domains, item, next, levels)?;
    }
    Some(next)
}

// An operation has no domain in it, a group has its members.
#[cycle(walk)]
fn walk_item(domains: &[Domain], item: &Item, at: u32, levels: u32) -> Option<u32>
    requires { IsWalkable domains.now }
    ensures { let seen = body_by (node_of domains.now) (item.now ∷ []) in WalkGives (body_numbers seen) (body_depth seen) at levels result }
{
    match item {
        Item::Run(_) => Some(at),
        Item::Group(ids) => walk_members(domains, ids.items(), at, levels),
    }
}

// Walks these domains in order.
#[cycle(walk)]
fn walk_members(domains: &[Domain], ids: &[NodeId], at: u32, levels: u32) -> Option<u32>
    requires { IsWalkable domains.now }
    ensures { let seen = members_by (node_of domains.now) ids.now in WalkGives (member_numbers seen) (members_depth seen) at levels result }
{
    let mut next = at;
    for id in ids {
        next = walk_domain(domains, *id, next, levels)?;
    }
    Some(next)
}
