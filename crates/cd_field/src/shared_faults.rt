// The faults of a machine, which the parts that are carved out of it share.
ghost use Rattle.std.specs.Prelude.{◌≡◌, false, IfOk};
ghost use Rattle.cd_tree.specs.Scripts.{struck};
ghost use Rattle.cd_field.specs.FaultOrder.{IsCalm};
ghost use Rattle.cd_field.specs.SharedFaults.{script_of};

use crate::faults::Faults;
use cd_base::NoMemory;
use cd_tree::{Fault, NodeId};
use std::alloc::Global;
use std::sync::Arc;

/// The faults of a script; none before one is loaded.
pub(crate) type SharedFaults = Option<Arc<Faults, Global>>;

/// The faults of a script.
pub(crate) fn faults_of(alloc: Global, script: &[Fault]) -> Result<SharedFaults, NoMemory>
    ensures { IfOk result (λ faults. script_of faults ≡ script.now) }
{
    let faults = Faults::of(alloc, script)?;
    let shared = Arc::new(alloc, faults)?;
    Ok(Some(shared))
}

/// The same faults for another machine.
pub(crate) fn share_faults(faults: &SharedFaults) -> Result<SharedFaults, NoMemory>
    ensures { IfOk result (λ second. script_of second ≡ script_of faults.now) }
{
    match faults {
        Some(faults) => {
            let second = Arc::try_clone(faults)?;
            Ok(Some(second))
        }
        None => Ok(None),
    }
}

/// Whether a begin of a domain has faults.
pub(crate) fn are_due(faults: &SharedFaults, node: NodeId, begin: u64) -> bool
    ensures { result ≡ false → IsCalm (script_of faults.now) node begin }
{
    match faults {
        Some(faults) => faults.strike(node, begin),
        None => false,
    }
}

/// The faults that strike at a point, in script order.
pub(crate) fn hits(faults: &SharedFaults, node: NodeId, begin: u64, point: u32) -> &[Fault]
    ensures { result.now ≡ struck (script_of faults.now) node begin point }
{
    match faults {
        Some(faults) => faults.hits(node, begin, point),
        None => &[],
    }
}
