// Domains of which the reading knows all without a walk: no fault strikes in them, and they have no members.
ghost use Rattle.std.specs.Prelude.{◌≡◌, ◌<◌, ◌↔◌, IsTrue, All, length};
ghost use Rattle.cd_tree.specs.Reading.{read_node};
ghost use Rattle.cd_reading.specs.Cases.{IsCase, domains_of, given};
ghost use Rattle.cd_reading.specs.Ends.{node_end, NodeFits};
ghost use Rattle.cd_reading.specs.Plain.{IsRun, IsPlain};
ghost use Rattle.cd_reading.specs.Steps.{quiet};
ghost use Rattle.cd_reading.specs.Walk.{the_node, listed, AreCounts};

use crate::case::Case;
use crate::ends::Ended;
use cd_tree::{Item, Kinds, NodeId, laws};

impl<'a> Case<'a> {
    // Whether a domain has no members, and no fault strikes in any of its begins.
    pub(crate) fn is_plain(&self, node: NodeId) -> bool
        requires case { IsCase self.now }
        requires node { node.0 < length (domains_of self.now) }
        ensures { IsTrue result → IsPlain self.now node }
    {
        self.domains[node.0 as usize].items().is_empty()
            && only_runs(self.tree.node(node).items.items())
    }
}

// A domain that is plain: it begins once, and completes without a leak.
pub(crate) fn read_plain(case: &Case, id: NodeId, counts: &mut [u64]) -> Ended
    requires case { IsCase case.now }
    requires node { id.0 < length (domains_of case.now) }
    requires size { length counts.old ≡ length (domains_of case.now) }
    requires counts { AreCounts (read_node (given case.now) (the_node (domains_of case.now) id) (listed counts.old)).counts }
    requires plain { IsPlain case.now id }
    ensures reads { quiet (read_node (given case.now) (the_node (domains_of case.now) id) (listed counts.old)) ≡ (listed counts.new, node_end result) }
    ensures fits { NodeFits (length (domains_of case.now)) result }
{
    laws::the_nested_view_follows_the_list();
    counts[id.0 as usize] += 1;
    Ended::Done(Kinds::none())
}

// Whether all of these items are operations.
fn only_runs(items: &[Item]) -> bool
    ensures { IsTrue result ↔ All IsRun items.now }
{
    items.iter().all(|item| is_run(item))
}

// Whether an item is an operation.
fn is_run(item: &Item) -> bool
    ensures { IsTrue result ↔ IsRun item.now }
{
    match item {
        Item::Run(_) => true,
        Item::Group(_) => false,
    }
}
