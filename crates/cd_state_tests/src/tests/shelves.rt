// A program of one domain that is planned; its entries are preserved and given up by the public calls.
ghost use Rattle.std.specs.Prelude.{◌≡◌, IfOk, IsSomeAnd, slice_get};
ghost use Rattle.cd_keep.specs.PassModel.{HoldsNothing};
ghost use Rattle.cd_state_tests.specs.Sample.{IsSample, SampleIsHere};

use crate::tests::tries::{begin_first, one_operation};
use cd_base::{Items, Text};
use cd_cover::{Plan, plan};
use cd_field::{Field, ScriptField};
use cd_foot::{Footprints, disjoint};
use cd_keep::{ArcPass, Pass};
use cd_tree::{Event, Kept, KindName, NodeId, Tree};
use cd_tries::{Keep, Shelf, give_up_all, preserve};
use std::alloc::Global;
use std::sync::Wait;
use std::test::Fail;

// The domain declares kinds up to the fourth.
fn four_kinds(alloc: Global) -> Result<Items<KindName>, Fail> {
    let mut kinds = Items::new(alloc);
    for name in ["soft", "hard", "late", "last"] {
        if kinds.items().len() < 4 {
            kinds.push(KindName {
                name: Text::of(alloc, name)?,
                halts: false,
            })?;
        }
    }
    Ok(kinds)
}

fn one_domain(alloc: Global) -> Result<Tree, Fail>
    ensures { IfOk result (λ tree. IsSomeAnd (slice_get tree.domains 0) (λ domain. IsSample domain)) }
{
    let mut domains = Items::new(alloc);
    domains.push(one_operation(alloc)?)?;
    match Tree::checked(four_kinds(alloc)?, domains) {
        Some(tree) => Ok(tree),
        None => Err(Fail::new("no program")),
    }
}

// Preserves the domain's entries, and gives up what is kept: whether its one entry is kept by one piece.
fn preserves<F: Field, P: Pass, R: Wait>(
    rt: &R,
    alloc: Global,
    plan: &Plan,
    field: &mut F,
    pass: &mut P,
) -> Result<bool, Fail>
    requires sample { IsSomeAnd (slice_get plan.now.tree.domains 0) (λ domain. IsSample domain) }
    requires here { (F.model field.old).node ≡ record { 0 = 0 } }
    requires words { SampleIsHere (F.model field.old) }
    requires nothing { HoldsNothing (P.model pass.old) }
    requires room { (P.model pass.old).room ≡ 1 }
{
    let domain = plan.tree().node(NodeId(0));
    let shelf = preserve(rt, alloc, plan, NodeId(0), domain, &[], field, pass)?;
    give_up_all(shelf.keeps(), pass);
    Ok(is_one_copy(&shelf))
}

fn is_one_copy(shelf: &Shelf) -> bool {
    match shelf.keeps() {
        [Keep::Copied(pieces)] => {
            pieces.begin == 0 && pieces.end == 4 && pieces.ids.items().len() == 1
        }
        _ => false,
    }
}

#[test]
fn a_domain_preserves_its_entries(rt: HostRuntime) -> Result<(), Fail> {
    let alloc = rt.alloc();
    let tree = one_domain(alloc)?;
    let feet = Footprints::of(alloc, &tree)?;
    if disjoint(&tree, &feet).is_err() {
        return Err(Fail::new("siblings overlap"));
    }
    let Ok(plan) = plan(alloc, &tree, &feet) else {
        return Err(Fail::new("no plan"));
    };
    let mut field = ScriptField::empty(alloc);
    begin_first(alloc, &[], &mut field)?;
    let mut pass = ArcPass::open(alloc, 1)?;
    let saved = Some(Event::Saved {
        node: NodeId(0),
        entry: 0,
        how: Kept::Copy,
    });
    if !preserves(&rt, alloc, &plan, &mut field, &mut pass)? || field.event(1) != saved {
        return Err(Fail::new("kept otherwise"));
    }
    Ok(())
}
