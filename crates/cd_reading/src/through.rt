// The call that reads a program through: its begins, and the cause where the root escalates.
ghost use Rattle.std.specs.Prelude.{◌≡◌, ◌+◌, ◌<◌, ◌≤◌, ◌++◌, ◌∷◌, [], ℕ, List, All, length, IfOk};
ghost use Rattle.cd_tree.specs.TreeModel.{IsTree};
ghost use Rattle.cd_tree.specs.Record.{cause_of};
ghost use Rattle.cd_tree.specs.Scripts.{path_of};
ghost use Rattle.cd_reading.specs.Ends.{node_end, NodeFits};
ghost use Rattle.cd_reading.specs.Through.{begins_in, cause_in};

use crate::case::Case;
use crate::ends::Ended;
use crate::walk::read_domain;
use cd_base::{Items, NoMemory};
use cd_tree::{Begins, Cause, NodeId, Script, Tree, laws};
use std::alloc::Global;

/// What a run of a program comes to: how often each domain begins and, where the root escalates, why.
#[derive(Drop)]
pub struct Reading {
    pub begins: Begins,
    pub cause: Option<Cause>,
}

/// The one-thread reading of a program under a script: tries, points and members in order, as the definitions have them,
/// with no machine and no word. Each domain that a fault names is first compared with each fault; then a begin costs as many
/// steps as its domain has begins with faults, a point as many as faults strike at its begin, and a domain without members in
/// which none strikes a look at its items. It recurses as deep as domains nest, and takes memory for the counts and the faults alone.
pub fn read_through(alloc: Global, tree: &Tree, script: &Script) -> Result<Reading, NoMemory>
    ensures begins { IfOk result (λ reading. reading.begins ≡ begins_in tree.now script.now) }
    ensures cause { IfOk result (λ reading. reading.cause ≡ cause_in tree.now script.now) }
    ensures size { IfOk result (λ reading. length reading.begins ≡ length tree.now.domains) }
    ensures few { IfOk result (λ reading. All (λ n. n ≤ 1 + length script.now) reading.begins) }
{
    laws::counts_are_at_most_one_more_than_entries();
    let case = Case::of(alloc, tree, script)?;
    let mut counts = no_begins(alloc, tree.count())?;
    let end = read_domain(&case, NodeId(0), &mut counts);
    let cause = cause_of(alloc, tree, end)?;
    let begins = Begins::of(counts);
    Ok(Reading { begins, cause })
}

/// As many counts of no begin: those before a run.
pub fn no_begins(alloc: Global, count: u32) -> Result<Vec<u64>, NoMemory>
    ensures size { IfOk result (λ counts. length counts.items ≡ count) }
    ensures none { IfOk result (λ counts. All (λ n. n ≡ 0) counts.items) }
{
    let mut counts = Vec::new(alloc);
    for _ in 0..count {
        counts.push(0)?;
    }
    Ok(counts)
}

// The cause of the root's escalation, where it escalates.
fn cause_of(alloc: Global, tree: &Tree, end: Ended) -> Result<Option<Cause>, NoMemory>
    requires { NodeFits (length tree.now.domains) end }
    ensures { IfOk result (λ cause. cause ≡ cause_of tree.now.domains (node_end end)) }
{
    match end {
        Ended::Done(_) => Ok(None),
        Ended::Escalated(blamed, _) => {
            prove!(0 < tree.count());
            let path = path_of(alloc, tree, blamed.node)?;
            let kinds = blamed.kinds;
            Ok(Some(Cause { path, kinds }))
        }
    }
}

/// The numbers of the domains from the root down to a domain. It goes up as deep as domains nest.
#[cycle(path)]
pub fn path_of(alloc: Global, tree: &Tree, node: NodeId) -> Result<Items<NodeId>, NoMemory>
    requires tree { IsTree tree.now }
    requires node { node.0 < length tree.now.domains }
    ensures path { IfOk result (λ path. path ≡ path_of tree.now.domains node) }
    ensures few { IfOk result (λ path. length path ≤ node.0 + 1) }
{
    let mut path = path_above(alloc, tree, node)?;
    path.push(node)?;
    Ok(path)
}

// The numbers of the domains above a domain, from the root down.
#[cycle(path)]
fn path_above(alloc: Global, tree: &Tree, node: NodeId) -> Result<Items<NodeId>, NoMemory>
    requires tree { IsTree tree.now }
    requires node { node.0 < length tree.now.domains }
    ensures path { IfOk result (λ path. path ++ node ∷ [] ≡ path_of tree.now.domains node) }
    ensures few { IfOk result (λ path. length path ≤ node.0) }
{
    laws::paths_go_from_parent_to_child();
    match tree.node(node).parent {
        None => Ok(Items::new(alloc)),
        Some(parent) => path_of(alloc, tree, parent),
    }
}
