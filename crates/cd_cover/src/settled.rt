// Plans: programs whose static questions are settled, and what a run asks of them.
ghost use Rattle.std.specs.Prelude.{◌≡◌, ◌≢◌, ◌<◌, ◌↔◌, None, length, IsSome, IsSomeAnd};
ghost use Rattle.cd_tree.specs.declared.domain.How.TheVariants.{Refer};
ghost use Rattle.cd_tree.specs.Domains.{node_of};
ghost use Rattle.cd_tree.specs.Legal.{entry_at};
ghost use Rattle.cd_tree.specs.Meaning.{node_need};
ghost use Rattle.cd_cover.specs.Links.{link_of};
ghost use Rattle.cd_cover.specs.Outer.{outer_references};
ghost use Rattle.cd_cover.specs.Plans.{IsPlan};

use crate::OuterReferences;
use crate::links::Links;
use cd_foot::Footprints;
use cd_tree::{NodeId, Tree};
use std::marker::Model;

/// A program whose static questions are settled, with the answers that a run asks for: the link of each reference, and how
/// many blocks of 64 words each domain needs.
#[derive(Drop)]
pub struct Plan<'a> {
    tree: &'a Tree,
    feet: &'a Footprints,
    links: Vec<Links>,
    needs: Vec<u64>,
}

impl<'a> Model for Plan<'a> {
    ghost use Rattle.cd_cover.specs.Plans.{PlanModel, IsPlan};

    ghost Value = { PlanModel };

    ghost view = { λ plan. record { tree = plan.tree.now; feet = plan.feet.now; links = plan.links.items; needs = plan.needs.items } };

    ghost invariant = { λ plan. IsPlan (record { tree = plan.tree.now; feet = plan.feet.now; links = plan.links.items; needs = plan.needs.items }) };
}

impl<'a> Plan<'a> {
    // The plan of these parts.
    pub(crate) fn of(
        tree: &'a Tree,
        feet: &'a Footprints,
        links: Vec<Links>,
        needs: Vec<u64>,
    ) -> Plan<'a>
        requires { IsPlan (record { tree = tree.now; feet = feet.now; links = links.items; needs = needs.items }) }
        ensures tree { result.tree ≡ tree.now }
        ensures feet { result.feet ≡ feet.now }
    {
        Plan {
            tree,
            feet,
            links,
            needs,
        }
    }

    /// The program. It takes no memory.
    pub fn tree(&self) -> &Tree
        ensures value { result.now ≡ self.now.tree }
        ensures sound { IsPlan self.now }
    {
        self.tree
    }

    /// Its footprints. It takes no memory.
    pub fn feet(&self) -> &Footprints
        ensures value { result.now ≡ self.now.feet }
        ensures sound { IsPlan self.now }
    {
        self.feet
    }

    /// The most blocks that a domain and those below it hold at once. It takes no memory.
    pub fn need(&self, node: NodeId) -> u32
        requires { node.0 < length self.now.tree.domains }
        ensures { IsSomeAnd (node_of self.now.tree.domains node) (λ d. result ≡ node_need d) }
    {
        self.needs[node.0 as usize] as u32
    }

    /// The link of an entry: the domain and the entry that it refers to. It takes no memory.
    pub fn link(&self, node: NodeId, entry: u32) -> Option<(NodeId, u32)>
        requires { IsSome (entry_at self.now.tree.domains node entry) }
        ensures value { result ≡ link_of self.now.tree.domains node entry }
        ensures none { (result ≡ None) ↔ IsSomeAnd (entry_at self.now.tree.domains node entry) (λ e. e.how ≢ Refer) }
    {
        cd_tree::laws::the_nested_view_follows_the_list();
        self.links[node.0 as usize].items()[entry as usize]
    }

    /// The outer references of a domain, one after another in preorder: the references of it and of the domains below it whose
    /// link lies above it. It takes no memory. To go through them all takes one step for each entry of the domain's subtree.
    pub fn outer_references(&self, node: NodeId) -> OuterReferences<'_>
        requires { node.0 < length self.now.tree.domains }
        ensures { IsSomeAnd (node_of self.now.tree.domains node) (λ d. result ≡ outer_references d) }
    {
        cd_tree::laws::children_fill_slices();
        let end = self.tree.end_of(node);
        OuterReferences::of(&self.links, node.0, end - node.0)
    }
}
