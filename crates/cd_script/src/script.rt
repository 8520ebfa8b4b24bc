// The call that accepts a script, or tells its first fault that cannot strike.
ghost use Rattle.cd_foot.specs.Feet.{AreFeet};
ghost use Rattle.cd_script.specs.Acceptance.{AcceptAnswers};

use crate::fault::found;
use cd_base::Items;
use cd_foot::Footprints;
use cd_tree::{RawScript, Refuse, Script, Tree, laws};
use std::alloc::Global;

/// The script of a document's strikes. The first fault that cannot strike, or cannot be found where it strikes, is
/// refused.
pub fn accept(
    alloc: Global,
    tree: &Tree,
    feet: &Footprints,
    faults: &RawScript,
) -> Result<Script, Refuse>
    requires { AreFeet tree.now.domains feet.now }
    ensures { AcceptAnswers tree.now faults.now result }
{
    laws::kinds_are_declared_on_the_path();
    prove!(0 < tree.count());
    let mut script = Items::new(alloc);
    for (k, raw) in faults.items().iter().enumerate() {
        let fault = found(tree, feet, raw, k as u32 + 1).map_err(Refuse::Refused)?;
        script.push(fault).map_err(|_| Refuse::NoMemory)?;
    }
    Ok(script)
}
