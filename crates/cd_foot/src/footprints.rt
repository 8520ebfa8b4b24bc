// Footprints: what each domain of a program reads, writes and reaches.
ghost use Rattle.std.specs.Prelude.{◌≡◌, ◌<◌, ◌+◌, length, slice_get, Some, IfOk, IsSomeAnd};

use crate::one_foot::{foot_of, no_feet};
use cd_base::{NoMemory, Places};
use cd_tree::{NodeId, Tree};
use std::alloc::Global;
use std::marker::Model;

/// The places that a domain reads, those that it writes, and those of either set.
#[derive(Drop)]
pub struct Foot {
    pub reads: Places,
    pub writes: Places,
    pub reach: Places,
}

/// The footprints of all domains of a program, by their numbers.
#[derive(Drop)]
pub struct Footprints {
    feet: Vec<Foot>,
}

impl Model for Footprints {
    ghost use Rattle.std.specs.Prelude.{List};
    ghost use Rattle.cd_foot.specs.declared.footprints.Foot.{Foot};

    ghost Value = { List Foot };

    ghost view = { λ feet. feet.feet.items };
}

impl Footprints {
    ghost use Rattle.cd_foot.specs.Feet.{AreFeet};

    /// The footprints of a program's domains. The ranges of a domain are put in order with those of its members, so the
    /// time is n log n in the number of ranges, for each level of the tree.
    pub fn of(alloc: Global, tree: &Tree) -> Result<Footprints, NoMemory>
        ensures { IfOk result (λ feet. AreFeet tree.now.domains feet) }
    {
        let count = tree.count();
        let mut feet = no_feet(alloc, count)?;
        let mut ranges = Vec::new(alloc);
        for id in (0..count).rev() {
            let foot = foot_of(alloc, tree, NodeId(id), &feet, &mut ranges)?;
            feet[id as usize] = foot;
        }
        Ok(Footprints { feet })
    }

    /// The places that a domain reads. It takes no memory.
    pub fn reads(&self, node: NodeId) -> &Places
        requires { node.0 < length self.now }
        ensures { IsSomeAnd (slice_get self.now node.0) (λ foot. result.now ≡ foot.reads) }
    {
        &self.feet[node.0 as usize].reads
    }

    /// The places that a domain writes. It takes no memory.
    pub fn writes(&self, node: NodeId) -> &Places
        requires { node.0 < length self.now }
        ensures { IsSomeAnd (slice_get self.now node.0) (λ foot. result.now ≡ foot.writes) }
    {
        &self.feet[node.0 as usize].writes
    }

    /// The places that a domain reads or writes. It takes no memory.
    pub fn reach(&self, node: NodeId) -> &Places
        requires { node.0 < length self.now }
        ensures { IsSomeAnd (slice_get self.now node.0) (λ foot. result.now ≡ foot.reach) }
    {
        &self.feet[node.0 as usize].reach
    }
}
