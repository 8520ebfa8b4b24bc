// A script, and beside it its faults in order by domain, begin and point, in which a point finds its own by a search.
ghost use Rattle.std.specs.Prelude.{◌≡◌, ◌≤◌, ◌&&◌, ◌==◌, true, false, length, IfOk};
ghost use Rattle.std.specs.List.Sorted.{IsPartitionPoint, IsPartitionedBy};
ghost use Rattle.cd_tree.specs.Scripts.{strikes_at, struck};
ghost use Rattle.cd_field.specs.FaultOrder.{strikes_before, IsInFaultOrder, StrikeAlike, IsCalm};

use crate::words::strikes;
use cd_base::NoMemory;
use cd_tree::{Fault, NodeId};
use std::alloc::Global;

/// A script as it was loaded, and its faults in order; those of one point stand as they do in the script.
#[derive(Drop)]
pub(crate) struct Faults {
    script: Vec<Fault>,
    order: Vec<Fault>,
    ghost sorted: { IsInFaultOrder order.items },
    ghost alike: { StrikeAlike script.items order.items },
}

impl Faults {
    pub(crate) fn of(alloc: Global, script: &[Fault]) -> Result<Faults, NoMemory>
        ensures { IfOk result (λ faults. faults.script.items ≡ script.now) }
    {
        let order = in_order(alloc, script)?;
        let script = script.to_vec(alloc)?;
        Ok(Faults { script, order })
    }

    /// Whether a begin of a domain has faults.
    pub(crate) fn strike(&self, node: NodeId, begin: u64) -> bool
        ensures { result ≡ false → IsCalm self.now.script.items node begin }
    {
        has_begin(self.order.as_slice(), node, begin)
    }

    /// The faults that strike at a point, in script order.
    pub(crate) fn hits(&self, node: NodeId, begin: u64, point: u32) -> &[Fault]
        ensures { result.now ≡ struck self.now.script.items node begin point }
    {
        hits_in(self.order.as_slice(), node, begin, point)
    }
}

// The faults by domain, begin and point.
fn in_order(alloc: Global, script: &[Fault]) -> Result<Vec<Fault>, NoMemory>
    ensures sorted { IfOk result (λ order. IsInFaultOrder order.items) }
    ensures alike { IfOk result (λ order. StrikeAlike script.now order.items) }
{
    let mut order = script.to_vec(alloc)?;
    order.sort_by_key(|fault| (fault.node.0, fault.begin, fault.item))?;
    Ok(order)
}

// How many faults strike before a point.
fn count_before(order: &[Fault], node: NodeId, begin: u64, point: u32) -> usize
    requires { IsInFaultOrder order.now }
    ensures within { result ≤ length order.now }
    ensures split { IsPartitionPoint (λ fault. strikes_before node begin point fault ≡ true) (λ fault. strikes_before node begin point fault ≡ false) order.now result }
{
    order.partition_point(|fault| is_before(*fault, node, begin, point))
}

fn is_before(fault: Fault, node: NodeId, begin: u64, point: u32) -> bool
    ensures { result ≡ strikes_before node begin point fault }
{
    fault.node.0 < node.0
        || (fault.node.0 == node.0
            && (fault.begin < begin || (fault.begin == begin && fault.item < point)))
}

// How many of these faults strike at a point; they stand first.
fn count_at(faults: &[Fault], node: NodeId, begin: u64, point: u32) -> usize
    requires { IsPartitionedBy (strikes_at node begin point) faults.now }
    ensures within { result ≤ length faults.now }
    ensures split { IsPartitionPoint (λ fault. strikes_at node begin point fault ≡ true) (λ fault. strikes_at node begin point fault ≡ false) faults.now result }
{
    faults.partition_point(|fault| strikes(*fault, node, begin, point))
}

fn hits_in(order: &[Fault], node: NodeId, begin: u64, point: u32) -> &[Fault]
    requires { IsInFaultOrder order.now }
    ensures { result.now ≡ struck order.now node begin point }
{
    let first = count_before(order, node, begin, point);
    let (_, rest) = order.split_at(first);
    let count = count_at(rest, node, begin, point);
    let (hits, _) = rest.split_at(count);
    hits
}

fn has_begin(order: &[Fault], node: NodeId, begin: u64) -> bool
    requires { IsInFaultOrder order.now }
    ensures { result ≡ false → IsCalm order.now node begin }
{
    let first = count_before(order, node, begin, 0);
    first < order.len() && is_of(order[first], node, begin)
}

fn is_of(fault: Fault, node: NodeId, begin: u64) -> bool
    ensures { result ≡ ((fault.node.0 == node.0) && (fault.begin == begin)) }
{
    fault.node.0 == node.0 && fault.begin == begin
}
