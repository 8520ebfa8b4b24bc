// The static checks of a document, one after another.
ghost use Rattle.cd_foot.specs.Feet.{AreFeet};
ghost use Rattle.cd_check.specs.Checking.{Checks};

use cd_cover::{Plan, plan};
use cd_foot::{Footprints, disjoint};
use cd_script::accept;
use cd_tree::{Document, Refuse, Script};
use std::alloc::Global;

/// The plan and the script of a document, or its first refusal: two siblings that interfere (E9), then what stands in the
/// way of a plan (E10 to E12, and E8 for a need above the limit), then the first fault that cannot strike, or cannot be
/// found where it strikes (E13 to E16). The plan borrows the program and its footprints; the script is a list of its own.
pub fn check<'a>(
    alloc: Global,
    document: &'a Document,
    feet: &'a Footprints,
) -> Result<(Plan<'a>, Script), Refuse>
    requires { AreFeet document.now.tree.domains feet.now }
    ensures { Checks document.now result }
{
    disjoint(&document.tree, feet).map_err(Refuse::Refused)?;
    let settled = plan(alloc, &document.tree, feet)?;
    let script = accept(alloc, &document.tree, feet, &document.faults)?;
    Ok((settled, script))
}
