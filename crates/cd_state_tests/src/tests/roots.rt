// The root of a program on the shipped machine and pass: at a table of cells, by hand, and run by one worker alone.
ghost use Rattle.std.specs.Prelude.{◌≡◌, ◌<◌, length, IfOk};
ghost use Rattle.cd_keep.specs.PassModel.{HoldsNothing};
ghost use Rattle.cd_state_tests.specs.Ends.{IsSampleMachine, IsSampleRoot};

use crate::tests::claims::{finds, finds_none};
use crate::tests::samples::{carved, one_program};
use cd_base::Items;
use cd_cells::{open_cells, run_alone, start_run};
use cd_core::Outcome;
use cd_cover::{Plan, plan};
use cd_field::{Field, ScriptField};
use cd_foot::{Footprints, disjoint};
use cd_keep::{ArcPass, Pass};
use cd_tree::{Begins, NodeId};
use std::alloc::Global;
use std::sync::Wait;
use std::test::Fail;

// Before the root is posted it cannot be claimed; afterwards it can once, and not again by another pass.
fn is_claimed_once<F: Field, P: Pass>(
    alloc: Global,
    plan: &Plan,
    field: F,
    pass: P,
) -> Result<(), Fail>
    requires root { IsSampleRoot plan.now.tree.domains }
    requires machine { IsSampleMachine (F.model field) }
    requires nothing { HoldsNothing (P.model pass) }
    requires room { (P.model pass).room ≡ 1 }
{
    let mut empty = open_cells::<F, P>(alloc, plan, &field)?;
    finds_none(&mut empty, NodeId(0))?;
    let mut cells = start_run(alloc, plan, field, pass)?;
    let mut other = cells.split()?;
    let root = finds(&mut cells, NodeId(0))?;
    if root.node() != NodeId(0) {
        return Err(Fail::new("another state"));
    }
    finds_none(&mut other, NodeId(0))
}

fn begins_once(begins: &Begins) -> Result<(), Fail>
    requires { 0 < length begins.now }
{
    if begins.at(0) == 1 {
        Ok(())
    } else {
        Err(Fail::new("not one begin"))
    }
}

// One worker alone commits it, and it begins once.
fn commits_alone<R: Wait, F: Field, P: Pass>(
    rt: &R,
    alloc: Global,
    plan: &Plan,
    field: F,
    pass: P,
) -> Result<(), Fail>
    requires root { IsSampleRoot plan.now.tree.domains }
    requires machine { IsSampleMachine (F.model field) }
    requires nothing { HoldsNothing (P.model pass) }
    requires room { (P.model pass).room ≡ 1 }
{
    match run_alone(rt, alloc, plan, field, pass)? {
        Outcome::Committed(_, begins) => begins_once(&begins),
        Outcome::Exhausted(_, _, _) => Err(Fail::new("the root has escalated")),
    }
}

#[test]
fn a_root_goes_through_the_cells(rt: HostRuntime) -> Result<(), Fail> {
    let alloc = rt.alloc();
    let tree = one_program(alloc)?;
    let feet = Footprints::of(alloc, &tree)?;
    if disjoint(&tree, &feet).is_err() {
        return Err(Fail::new("siblings overlap"));
    }
    let Ok(plan) = plan(alloc, &tree, &feet) else {
        return Err(Fail::new("no plan"));
    };
    let none = Items::new(alloc);
    let mut whole = ScriptField::empty(alloc);
    let by_hand = carved(alloc, &none, &mut whole)?;
    is_claimed_once(alloc, &plan, by_hand, ArcPass::open(alloc, 1)?)?;
    let alone = carved(alloc, &none, &mut whole)?;
    commits_alone(&rt, alloc, &plan, alone, ArcPass::open(alloc, 1)?)
}
