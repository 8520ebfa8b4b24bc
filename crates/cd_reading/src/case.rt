// A program under a script, with what its reading asks again and again.
ghost use Rattle.std.specs.Prelude.{◌≡◌, ◌<◌, filter, length, IfOk};
ghost use Rattle.cd_reading.specs.Cases.{IsCase, domains_of};
ghost use Rattle.cd_reading.specs.Strikes.{strikes_in};

use crate::strikes::{Struck, all_struck, struck_in};
use cd_base::{Items, NoMemory};
use cd_tree::{Fault, Kinds, NodeId, Script, Tree, halting};
use std::alloc::Global;

// A program and its script: the kinds that halt, and the faults by domain and begin.
#[derive(Drop)]
pub(crate) struct Case<'a> {
    pub tree: &'a Tree,
    pub script: &'a Script,
    pub halts: Kinds,
    pub domains: Vec<Items<Struck>>,
}

impl<'a> Case<'a> {
    pub(crate) fn of(
        alloc: Global,
        tree: &'a Tree,
        script: &'a Script,
    ) -> Result<Case<'a>, NoMemory>
        ensures case { IfOk result IsCase }
        ensures tree { IfOk result (λ case. case.tree.now ≡ tree.now) }
        ensures script { IfOk result (λ case. case.script.now ≡ script.now) }
    {
        let domains = all_struck(alloc, script, tree.count())?;
        Ok(Case {
            tree,
            script,
            halts: halting(tree.kinds()),
            domains,
        })
    }

    // The faults that strike at a begin of a domain.
    pub(crate) fn struck_at(&self, node: NodeId, begin: u64) -> &[Fault]
        requires case { IsCase self.now }
        requires node { node.0 < length (domains_of self.now) }
        ensures { result.now ≡ filter (strikes_in node.0 begin) self.now.script.now }
    {
        struck_in(self.domains[node.0 as usize].items(), begin)
    }
}
