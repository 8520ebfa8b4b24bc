// The outer references of a domain, one after another.
ghost use Rattle.std.specs.Prelude.{◌≡◌, ℕ, ◌<◌, ◌≤◌, ◌+◌, ◌^◌, [], ◌∷◌, drop, length, MatchOption, IfSome};
ghost use Rattle.std.specs.Iterator.{YieldsFirst, item_count};
ghost use Rattle.cd_tree.specs.declared.domain.NodeId.{NodeId as Id};
ghost use Rattle.cd_cover.specs.declared.outer.Position.{Position as Place};
ghost use Rattle.cd_cover.specs.OuterLaws.{leads_before, leading_before};
ghost use Rattle.cd_cover.specs.OuterLeft.{IsWithin, NextPosition, left_at};

use crate::links::Links;
use cd_tree::NodeId;
use std::marker::Model;

// Where a walk over a subtree stands: the domain that is looked at, the entry in it, and how many domains are left with it.
#[derive(Clone, Copy)]
pub(crate) struct Position {
    node: u32,
    entry: u32,
    left: u32,
}

/// The outer references of a domain that are still to come, each by its domain and its entry. Contracts see the list of
/// them. It takes no memory: it walks over the links of the domain's subtree, and looks at each entry of it once.
#[derive(Drop)]
pub struct OuterReferences<'a> {
    links: &'a [Links],
    first: u32,
    at: Position,
}

impl<'a> Model for OuterReferences<'a> {
    ghost use Rattle.std.specs.Prelude.{ℕ, List, length, ◌<◌, ◌^◌};
    ghost use Rattle.cd_tree.specs.declared.domain.NodeId.{NodeId};
    ghost use Rattle.cd_cover.specs.OuterLeft.{IsWithin, left_at};

    ghost Value = { List (NodeId × ℕ) };

    ghost view = { λ walk. left_at walk.links.now walk.first walk.at };

    ghost invariant = { λ walk. IsWithin walk.links.now walk.at };
}

impl<'a> OuterReferences<'a> {
    // Those of the domain of this number, in whose subtree as many domains lie.
    pub(crate) fn of(links: &'a [Links], first: u32, size: u32) -> OuterReferences<'a>
        requires { IsWithin links.now (record { node = first; entry = 0; left = size }) }
        ensures { result ≡ left_at links.now first (record { node = first; entry = 0; left = size }) }
    {
        OuterReferences {
            links,
            first,
            at: Position {
                node: first,
                entry: 0,
                left: size,
            },
        }
    }
}

impl<'a> Iterator for OuterReferences<'a> {
    type Item = (NodeId, u32);

    ghost next_gives = { YieldsFirst (λ walk. walk) };

    ghost remaining = { item_count (λ walk. walk) };

    fn next(&mut self) -> Option<(NodeId, u32)> {
        let (reference, behind) = next_leading(self.first, self.links, self.at)?;
        self.at = behind;
        Some(reference)
    }
}

// Whether a link leads to a domain that stands before this one.
fn leads_out(first: u32, link: Option<(NodeId, u32)>) -> bool
    ensures { result ≡ leads_before first link }
{
    match link {
        None => false,
        Some((up, _)) => up.0 < first,
    }
}

// The first entry from a number on whose link leads before a domain.
fn first_leading(first: u32, links: &[Option<(NodeId, u32)>], from: u32) -> Option<u32>
    requires few { length links.now < 2 ^ 32 }
    ensures within { IfSome result (λ k. k < length links.now) }
    ensures value { (id : Id) → MatchOption result (leading_before first id from (drop from links.now) ≡ []) (λ k. leading_before first id from (drop from links.now) ≡ (id, k) ∷ leading_before first id (k + 1) (drop (k + 1) links.now)) }
{
    for at in from..links.len() as u32 {
        if leads_out(first, links[at as usize]) {
            return Some(at);
        }
    }
    None
}

// The next outer reference from a position on, and the position after it.
fn next_leading(first: u32, links: &[Links], from: Position) -> Option<((NodeId, u32), Position)>
    requires { IsWithin links.now from }
    ensures next { NextPosition links.now first from result }
    ensures within { IfSome result (λ (found : (Id × ℕ) × Place). IsWithin links.now found.1) }
{
    let mut at = from;
    while at.left > 0 {
        if let Some(entry) = first_leading(first, links[at.node as usize].items(), at.entry) {
            return Some((
                (NodeId(at.node), entry),
                Position {
                    entry: entry + 1,
                    ..at
                },
            ));
        }
        at = Position {
            node: at.node + 1,
            entry: 0,
            left: at.left - 1,
        };
    }
    None
}
