//! Programs: lists of domains that are a tree's.

ghost use Rattle.std.specs.Prelude.{◌≡◌, ◌<◌, ◌^◌, length, slice_get, Some, MatchOption};
ghost use Rattle.cd_tree.specs.Groups.{IsPlaceOf};
ghost use Rattle.cd_tree.specs.Slices.{slice_end};

use crate::check::is_tree;
use crate::groups::{last_child, place_among};
use crate::{Domain, GroupPlace, KindName, NodeId};
use cd_base::Items;
use std::marker::Model;

/// A program: the kinds of faults that it knows, and its domains in preorder, parents before their children.
#[derive(Drop)]
pub struct Tree {
    kinds: Items<KindName>,
    domains: Items<Domain>,
}

impl Model for Tree {
    ghost use Rattle.cd_tree.specs.TreeModel.{TreeModel, IsTree};

    ghost Value = { TreeModel };

    ghost view = { λ tree. record { kinds = tree.kinds; domains = tree.domains } };

    ghost invariant = { λ tree. IsTree (record { kinds = tree.kinds; domains = tree.domains }) };
}

impl Tree {
    ghost use Rattle.cd_tree.specs.TreeModel.{IsTree};

    /// The tree of a list of domains. It takes no memory.
    pub fn of(kinds: Items<KindName>, domains: Items<Domain>) -> Tree
        requires { IsTree (record { kinds = kinds; domains = domains }) }
        ensures kinds { result.kinds ≡ kinds }
        ensures domains { result.domains ≡ domains }
    {
        Tree { kinds, domains }
    }

    /// The tree of a list of domains, where it is a program's. None exactly where it is none. It takes no memory.
    pub fn checked(kinds: Items<KindName>, domains: Items<Domain>) -> Option<Tree>
        ensures { MatchOption result (IsTree (record { kinds = kinds; domains = domains }) → ⊥) (λ tree. (tree.kinds ≡ kinds) × (tree.domains ≡ domains)) }
    {
        if !is_tree(kinds.items(), domains.items()) {
            return None;
        }
        Some(Tree { kinds, domains })
    }

    /// The names of the kinds, in the order of declaration. It takes no memory.
    pub fn kinds(&self) -> &[KindName]
        ensures { result.now ≡ self.now.kinds }
    {
        self.kinds.items()
    }

    /// The number of domains, which is at least 1. It takes no memory.
    pub fn count(&self) -> u32
        ensures value { result ≡ length self.now.domains }
        ensures sound { IsTree self.now }
    {
        self.domains.items().len() as u32
    }

    /// A domain by its number. It takes no memory.
    pub fn node(&self, id: NodeId) -> &Domain
        requires { id.0 < length self.now.domains }
        ensures { slice_get self.now.domains id.0 ≡ Some result.now }
    {
        &self.domains.items()[id.0 as usize]
    }

    /// The number behind those of a domain and of all below it, which are the numbers from its own on. It takes no memory,
    /// and goes down from last child to last child, past the operations that stand behind each: at most `MOST_DEPTH` levels.
    pub fn end_of(&self, id: NodeId) -> u32
        requires { id.0 < length self.now.domains }
        ensures { result ≡ slice_end self.now.domains id }
    {
        prove!(0 < self.count());
        match last_child(self.node(id).items.items()) {
            None => id.0 + 1,
            Some(last) => self.end_of(last),
        }
    }

    /// The place of a domain among its parent's items; the root has none. It takes no memory, and compares the domain with
    /// the children before it.
    pub fn place_of(&self, id: NodeId) -> Option<GroupPlace>
        requires { id.0 < length self.now.domains }
        ensures { IsPlaceOf self.now.domains id result }
    {
        prove!(0 < self.count());
        match self.node(id).parent {
            None => None,
            Some(parent) => place_among(self.node(parent).items.items(), id),
        }
    }
}
