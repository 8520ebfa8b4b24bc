// States run by hand on the shipped machine and pass: the root of a program of one domain starts, advances to its end, and is
// finished.
ghost use Rattle.std.specs.Prelude.{◌≡◌, ◌<◌, length, IfOk};
ghost use Rattle.cd_keep.specs.PassModel.{HoldsNothing};
ghost use Rattle.cd_state_tests.specs.Sample.{SampleIsHere};
ghost use Rattle.cd_state_tests.specs.Ends.{HasEnded, IsLegible, IsSampleFault, IsSampleMachine, IsSampleRoot, IsSampleScript};
ghost use Rattle.cd_core.specs.StateModel.{state_model};

use crate::tests::samples::{carved, kind, one_program, tells};
use cd_base::{Items, Place};
use cd_core::{NodeState, Outcome, Step, start_root};
use cd_cover::{Plan, plan};
use cd_field::{Field, ScriptField};
use cd_foot::{Footprints, disjoint};
use cd_keep::{ArcPass, Pass};
use cd_tree::{Begins, Cause, Fault, Kind, NodeId, Script};
use std::alloc::Global;
use std::sync::Wait;
use std::test::Fail;

// How many begins are struck, and what comes of it: whether the root completes, how often it began, the number of events,
// and the second word.
struct Case {
    name: &'static str,
    struck: u64,
    done: bool,
    begins: u64,
    events: u64,
    word: u64,
}

// The words begin as 3, the operation makes them 7, and the domain has two tries.
static TABLE: [Case; 3] = [
    Case {
        name: "nothing strikes",
        struck: 0,
        done: true,
        begins: 1,
        events: 6,
        word: 7,
    },
    Case {
        name: "the first try is struck",
        struck: 1,
        done: true,
        begins: 2,
        events: 11,
        word: 7,
    },
    Case {
        name: "both tries are struck",
        struck: 2,
        done: false,
        begins: 2,
        events: 12,
        word: 3,
    },
];

// Each of the first begins is struck after the operation.
fn script_of(alloc: Global, struck: u64) -> Result<Script, Fail>
    ensures { IfOk result (λ script. IsSampleScript script) }
{
    let mut script = Items::new(alloc);
    for begin in 0..struck {
        if begin < 8 && script.items().len() < 8 {
            script.push(fault(begin + 1))?;
        }
    }
    Ok(script)
}

fn fault(begin: u64) -> Fault
    ensures { IsSampleFault result }
{
    Fault {
        node: NodeId(0),
        begin,
        item: 1,
        kind: Kind(0),
        place: Place {
            region: 0,
            index: 0,
        },
        mask: 255,
    }
}

// Starts the root, advances it to its end, and compares.
fn runs<F: Field, P: Pass, R: Wait>(
    rt: &R,
    alloc: Global,
    plan: &Plan,
    case: &Case,
    field: F,
    pass: P,
) -> Result<(), Fail>
    requires root { IsSampleRoot plan.now.tree.domains }
    requires machine { IsSampleMachine (F.model field) }
    requires nothing { HoldsNothing (P.model pass) }
    requires room { (P.model pass).room ≡ 1 }
{
    let mut state = start_root(alloc, plan, field, pass)?;
    match state.advance(rt, alloc, plan) {
        Step::Done => finishes(case, true, state),
        Step::Escalated => finishes(case, false, state),
        Step::Group(_) => Err(Fail::new(format_args!("{}: members are sent", case.name))),
        Step::NoMemory => Err(Fail::new(format_args!("{}: no memory", case.name))),
    }
}

// Finishes the root, and compares.
fn finishes<F: Field, P: Pass>(case: &Case, done: bool, state: NodeState<F, P>) -> Result<(), Fail>
    requires { HasEnded (state_model F.model P.model state) }
{
    if done != case.done {
        return Err(Fail::new(format_args!("{}: completes {done}", case.name)));
    }
    let outcome = outcome_of(state);
    compare(case, &outcome)
}

fn outcome_of<F: Field, P: Pass>(state: NodeState<F, P>) -> Outcome<F>
    requires { HasEnded (state_model F.model P.model state) }
    ensures { IsLegible F.model result }
{
    state.finish()
}

fn compare<F: Field>(case: &Case, outcome: &Outcome<F>) -> Result<(), Fail>
    requires { IsLegible F.model outcome.now }
{
    match outcome {
        Outcome::Committed(field, begins) => ends_so(case, case.done, field, begins),
        Outcome::Exhausted(field, begins, cause) => {
            ends_so(case, !case.done && is_own(cause), field, begins)
        }
    }
}

// Whether the root found the kind itself.
fn is_own(cause: &Cause) -> bool {
    cause.kinds == kind() && cause.path.items() == [NodeId(0)].as_slice()
}

fn ends_so<F: Field>(case: &Case, so: bool, field: &F, begins: &Begins) -> Result<(), Fail>
    requires words { SampleIsHere (F.model field.now) }
    requires begins { 0 < length begins.now }
{
    let word = field.read(Place {
        region: 0,
        index: 1,
    });
    let count = begins.at(0);
    if !so || word != case.word || count != case.begins || !tells(case.events, field) {
        return Err(Fail::new(format_args!(
            "{}: ends so {so}, word {word}, begins {count}",
            case.name
        )));
    }
    Ok(())
}

fn run_case<R: Wait>(rt: &R, alloc: Global, plan: &Plan, case: &Case) -> Result<(), Fail>
    requires { IsSampleRoot plan.now.tree.domains }
{
    let mut whole = ScriptField::empty(alloc);
    let script = script_of(alloc, case.struck)?;
    let field = carved(alloc, &script, &mut whole)?;
    let pass = ArcPass::open(alloc, 1)?;
    runs(rt, alloc, plan, case, field, pass)
}

#[test]
fn a_root_comes_to_its_end(rt: HostRuntime) -> Result<(), Fail> {
    let alloc = rt.alloc();
    let tree = one_program(alloc)?;
    let feet = Footprints::of(alloc, &tree)?;
    if disjoint(&tree, &feet).is_err() {
        return Err(Fail::new("siblings overlap"));
    }
    let Ok(plan) = plan(alloc, &tree, &feet) else {
        return Err(Fail::new("no plan"));
    };
    for case in &TABLE {
        run_case(&rt, alloc, &plan, case)?;
    }
    Ok(())
}
