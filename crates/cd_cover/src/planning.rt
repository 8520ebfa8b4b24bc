// The call that plans a program, or tells its first flaw.
ghost use Rattle.std.specs.Prelude.{IfOk};
ghost use Rattle.cd_tree.specs.Domains.{root_of};
ghost use Rattle.cd_tree.specs.Meaning.{IsDisjoint};
ghost use Rattle.cd_foot.specs.Feet.{AreFeet};
ghost use Rattle.cd_cover.specs.Results.{Plans, PlansOrRefuses};

use crate::Plan;
use crate::flaws::first_flaw;
use crate::links::all_links;
use crate::needs::needs_of;
use crate::program::Program;
use cd_base::NoMemory;
use cd_foot::Footprints;
use cd_tree::limits::MOST_NEED;
use cd_tree::{Refusal, Refuse, Tree, Which};
use std::alloc::Global;

/// The plan of a program. Its domains are tried in preorder: first whether each place that a domain's body touches is in
/// one of its entries, then each entry in order, whether a reference has a link and is fresh. At last the need of the whole
/// program is compared with the limit.
pub fn plan<'a>(alloc: Global, tree: &'a Tree, feet: &'a Footprints) -> Result<Plan<'a>, Refuse>
    requires feet { AreFeet tree.now.domains feet.now }
    requires disjoint { IsDisjoint (root_of tree.now.domains) }
    ensures { Plans tree.now feet.now result }
{
    match planned(alloc, tree, feet) {
        Ok(Ok(plan)) => Ok(plan),
        Ok(Err(refusal)) => Err(Refuse::Refused(refusal)),
        Err(NoMemory) => Err(Refuse::NoMemory),
    }
}

// The plan or the first flaw, apart from want of memory.
fn planned<'a>(
    alloc: Global,
    tree: &'a Tree,
    feet: &'a Footprints,
) -> Result<Result<Plan<'a>, Refusal>, NoMemory>
    requires feet { AreFeet tree.now.domains feet.now }
    requires disjoint { IsDisjoint (root_of tree.now.domains) }
    ensures { IfOk result (PlansOrRefuses tree.now feet.now) }
{
    cd_tree::laws::the_nested_view_follows_the_list();
    cd_tree::laws::each_domain_answers_for_itself();
    prove!(0 < tree.count());
    if let Some(refusal) = first_flaw(alloc, &Program { tree, feet })? {
        return Ok(Err(refusal));
    }
    let needs = needs_of(alloc, tree)?;
    let need = needs[0];
    if need > MOST_NEED {
        return Ok(Err(Refusal::Limit(Which::Need, need)));
    }
    let links = all_links(alloc, tree)?;
    Ok(Ok(Plan::of(tree, feet, links, needs)))
}
