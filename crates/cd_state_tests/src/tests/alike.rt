//! Programs of groups, run whole on the shipped machine by each engine and with each kind of pass: what comes of them, by one worker,
//! by two and by eight.
ghost use Rattle.std.specs.Prelude.{◌≡◌, true, length, IfOk};
ghost use Rattle.cd_core.specs.Running.{RanTo};
ghost use Rattle.cd_core.specs.StateLaws.{CanStart};
ghost use Rattle.cd_cover.specs.Plans.{IsPlan};
ghost use Rattle.cd_tree.specs.Domains.{root_of};
ghost use Rattle.cd_tree.specs.Meaning.{node_need};
ghost use Rattle.cd_tree.specs.Scripts.{IsAccepted};
ghost use Rattle.cd_foot.specs.Feet.{AreFeet};
ghost use Rattle.cd_keep.specs.Arcs.{model_of};
ghost use Rattle.cd_keep.specs.PassModel.{opened};
ghost use Rattle.cd_core.specs.Fits.{IsHere};
ghost use Rattle.cd_state_tests.specs.Groups.{IsReadable, IsRootPart};

use crate::tests::groups::{carved, word_at};
use cd_base::{Items, NoMemory, Place, Range, Text};
use cd_core::Outcome;
use cd_cover::{Plan, plan};
use cd_field::{Field, ScriptField};
use cd_foot::{Footprints, disjoint};
use cd_keep::{ArcPass, Pass};
use cd_lease::LeasePass;
use cd_pool::OpenGate;
use cd_script::accept;
use cd_tree::{
    Begins, Domain, Entry, How, Item, Kind, KindName, Kinds, NodeId, Op, RawFault, RawScript,
    Script, Tree,
};
use std::alloc::Global;
use std::sync::Wait;
use std::test::Fail;
use std::thread::Threads;

// The domain that is struck behind its only item, at each of its first begins, and the word that is struck. What comes of it:
// whether the root completes, how often each domain begins, the number of events, and the words.
struct Case {
    name: &'static str,
    path: &'static str,
    struck: u64,
    word: u32,
    done: bool,
    begins: [u64; 5],
    events: u64,
    words: [u64; 4],
}

// The words begin as 3. The root's group has `a` and `b`, that of `a` has `c` and `d`; each domain has two tries.
static TABLE: [Case; 5] = [
    Case {
        name: "nothing strikes",
        path: "root",
        struck: 0,
        word: 0,
        done: true,
        begins: [1, 1, 1, 1, 1],
        events: 30,
        words: [5, 7, 9, 9],
    },
    Case {
        name: "a member is struck once",
        path: "root/b",
        struck: 1,
        word: 2,
        done: true,
        begins: [1, 1, 1, 1, 2],
        events: 35,
        words: [5, 7, 9, 9],
    },
    Case {
        name: "a member below a member escalates",
        path: "root/a/d",
        struck: 2,
        word: 1,
        done: true,
        begins: [1, 2, 2, 3, 1],
        events: 50,
        words: [5, 7, 9, 9],
    },
    Case {
        name: "the first member escalates, and the root",
        path: "root/a",
        struck: 4,
        word: 0,
        done: false,
        begins: [2, 4, 4, 4, 2],
        events: 90,
        words: [3, 3, 3, 3],
    },
    Case {
        name: "the last member escalates, and the root",
        path: "root/b",
        struck: 4,
        word: 3,
        done: false,
        begins: [2, 2, 2, 2, 4],
        events: 66,
        words: [3, 3, 3, 3],
    },
];

// ---- the program

fn part(low: u32, high: u32) -> Range {
    Range {
        region: 0,
        low: low as _,
        high: high as _,
    }
}

fn kind() -> Kinds {
    Kinds::none().with(Kind(0))
}

fn one_kind(alloc: Global) -> Result<Items<KindName>, Fail> {
    let mut kinds = Items::new(alloc);
    kinds.push(KindName {
        name: Text::of(alloc, "soft")?,
        halts: false,
    })?;
    Ok(kinds)
}

fn domain_of(
    alloc: Global,
    name: &str,
    parent: Option<NodeId>,
    entry: Entry,
    item: Item,
) -> Result<Domain, Fail> {
    let mut entries = Items::new(alloc);
    entries.push(entry)?;
    let mut items = Items::new(alloc);
    items.push(item)?;
    Ok(Domain {
        name: Text::of(alloc, name)?,
        parent,
        retry: 2,
        detects: kind(),
        entries,
        items,
    })
}

// A domain with a group of two.
fn group_of(
    alloc: Global,
    name: &str,
    parent: Option<NodeId>,
    range: Range,
    members: (u32, u32),
) -> Result<Domain, Fail> {
    let mut ids = Items::new(alloc);
    ids.push(NodeId(members.0))?;
    ids.push(NodeId(members.1))?;
    let entry = Entry {
        range,
        how: How::Copy,
    };
    domain_of(alloc, name, parent, entry, Item::Group(ids))
}

// A domain that fills its words.
fn leaf_of(
    alloc: Global,
    name: &str,
    parent: u32,
    range: Range,
    how: How,
    word: u64,
) -> Result<Domain, Fail> {
    let entry = Entry { range, how };
    let item = Item::Run(Op::Fill(range, word));
    domain_of(alloc, name, Some(NodeId(parent)), entry, item)
}

fn program(alloc: Global) -> Result<Tree, Fail> {
    let mut domains = Items::new(alloc);
    domains.push(group_of(alloc, "root", None, part(0, 4), (1, 4))?)?;
    domains.push(group_of(alloc, "a", Some(NodeId(0)), part(0, 2), (2, 3))?)?;
    domains.push(leaf_of(alloc, "c", 1, part(0, 1), How::Copy, 5)?)?;
    domains.push(leaf_of(alloc, "d", 1, part(1, 2), How::Refer, 7)?)?;
    domains.push(leaf_of(alloc, "b", 0, part(2, 4), How::Refer, 9)?)?;
    match Tree::checked(one_kind(alloc)?, domains) {
        Some(tree) => Ok(tree),
        None => Err(Fail::new("no program")),
    }
}

// ---- the machine

fn strikes_of(alloc: Global, case: &Case) -> Result<RawScript, Fail> {
    let mut faults = Items::new(alloc);
    for begin in 0..case.struck {
        if begin < 8 && faults.items().len() < 8 {
            faults.push(RawFault {
                path: Text::of(alloc, case.path)?,
                begin: begin + 1,
                item: 1,
                kind: Kind(0),
                place: Place {
                    region: 0,
                    index: case.word,
                },
                mask: 255,
            })?;
        }
    }
    Ok(faults)
}

fn script_of(alloc: Global, tree: &Tree, feet: &Footprints, case: &Case) -> Result<Script, Fail>
    requires { AreFeet tree.now.domains feet.now }
    ensures { IfOk result (λ script. IsAccepted tree.now script) }
{
    match accept(alloc, tree, feet, &strikes_of(alloc, case)?) {
        Ok(script) => Ok(script),
        Err(_) => Err(Fail::new(format_args!("{}: no script", case.name))),
    }
}

// A pass with the room that the root needs.
fn pass_of(alloc: Global, plan: &Plan) -> Result<ArcPass, Fail>
    ensures { IfOk result (λ pass. model_of pass ≡ opened 0 (node_need (root_of plan.now.tree.domains))) }
{
    prove!(0 < plan.tree().count());
    Ok(ArcPass::open(alloc, plan.need(NodeId(0)))?)
}

// A plan is sound.
fn is_settled(plan: &Plan)
    ensures { IsPlan plan.now }
{
    prove!(0 < plan.tree().count());
}

// ---- the run

// By which engine, and with copies in one table of blocks or behind shared pointers.
#[derive(Clone, Copy, PartialEq, Eq)]
struct Way {
    by_pool: bool,
    leased: bool,
}

static WAYS: [Way; 4] = [
    Way {
        by_pool: false,
        leased: false,
    },
    Way {
        by_pool: false,
        leased: true,
    },
    Way {
        by_pool: true,
        leased: false,
    },
    Way {
        by_pool: true,
        leased: true,
    },
];

fn run_by<R: Threads + Wait + Sync, F: Field, P: Pass>(
    rt: &R,
    alloc: Global,
    plan: &Plan,
    field: F,
    pass: P,
    by_pool: bool,
    workers: u32,
) -> Result<Outcome<F>, NoMemory>
    requires { CanStart plan.now (F.model field) (P.model pass) }
    ensures { IfOk result (RanTo F.model plan.now (F.model field)) }
{
    if by_pool {
        let workers = workers.clamp(1, 64);
        return cd_pool::run_root(rt, alloc, plan, field, pass, workers, &OpenGate);
    }
    cd_fork::run_root(rt, alloc, plan, field, pass, workers)
}

// With copies behind shared pointers.
fn run_shared<R: Threads + Wait + Sync, F: Field>(
    rt: &R,
    alloc: Global,
    plan: &Plan,
    field: F,
    by_pool: bool,
    workers: u32,
) -> Result<Outcome<F>, Fail>
    requires { IsRootPart plan.now (F.model field) }
    ensures { IfOk result (RanTo F.model plan.now (F.model field)) }
{
    is_settled(plan);
    let pass = pass_of(alloc, plan)?;
    let outcome = run_by(rt, alloc, plan, field, pass, by_pool, workers)?;
    Ok(outcome)
}

// With copies in a table of as many blocks as the root needs.
fn run_leased<R: Threads + Wait + Sync, F: Field>(
    rt: &R,
    alloc: Global,
    plan: &Plan,
    field: F,
    by_pool: bool,
    workers: u32,
) -> Result<Outcome<F>, Fail>
    requires { IsRootPart plan.now (F.model field) }
    ensures { IfOk result (RanTo F.model plan.now (F.model field)) }
{
    is_settled(plan);
    let need = plan.need(NodeId(0));
    let pass = LeasePass::open(alloc, need.max(1), need)?;
    let outcome = run_by(rt, alloc, plan, field, pass, by_pool, workers)?;
    Ok(outcome)
}

fn run_with<R: Threads + Wait + Sync, F: Field>(
    rt: &R,
    alloc: Global,
    plan: &Plan,
    script: &Script,
    whole: &mut F,
    way: Way,
    workers: u32,
) -> Result<Outcome<F>, Fail>
    requires { IsAccepted plan.now.tree script.now }
    ensures { IfOk result (IsReadable F.model plan.now) }
{
    is_settled(plan);
    let field = carved(alloc, plan, script, whole)?;
    if way.leased {
        let outcome = run_leased(rt, alloc, plan, field, way.by_pool, workers)?;
        return Ok(outcome);
    }
    let outcome = run_shared(rt, alloc, plan, field, way.by_pool, workers)?;
    Ok(outcome)
}

fn machine_of<F>(outcome: &Outcome<F>) -> &F {
    match outcome {
        Outcome::Committed(field, _) => field,
        Outcome::Exhausted(field, _, _) => field,
    }
}

// The number of events of the shorter record, where the two are the same.
fn same_record<F: Field>(one: &F, other: &F) -> Option<u64> {
    for k in 0..1000u64 {
        let event = one.event(k);
        if event != other.event(k) {
            return None;
        }
        if event.is_none() {
            return Some(k);
        }
    }
    None
}

fn ends_so<F: Field>(
    plan: &Plan,
    case: &Case,
    done: bool,
    field: &F,
    begins: &Begins,
) -> Result<(), Fail>
    requires here { IsHere (root_of plan.now.tree.domains) (F.model field.now) }
    requires begins { length begins.now ≡ length plan.now.tree.domains }
{
    if plan.tree().count() != 5 {
        return Err(Fail::new("other domains"));
    }
    let counts = [
        begins.at(0),
        begins.at(1),
        begins.at(2),
        begins.at(3),
        begins.at(4),
    ];
    let words = [
        word_at(plan, field, 0)?,
        word_at(plan, field, 1)?,
        word_at(plan, field, 2)?,
        word_at(plan, field, 3)?,
    ];
    if done != case.done || counts != case.begins || words != case.words {
        return Err(Fail::new(format_args!(
            "{}: done {done}, begins {counts:?}, words {words:?}",
            case.name
        )));
    }
    Ok(())
}

fn shows<F: Field>(plan: &Plan, case: &Case, outcome: &Outcome<F>) -> Result<(), Fail>
    requires { IsReadable F.model plan.now outcome.now }
{
    match outcome {
        Outcome::Committed(field, begins) => ends_so(plan, case, true, field, begins),
        Outcome::Exhausted(field, begins, _) => ends_so(plan, case, false, field, begins),
    }
}

// Runs a case by one worker and by more, each in a way of its own, and compares.
fn run_case<R: Threads + Wait + Sync>(
    rt: &R,
    alloc: Global,
    plan: &Plan,
    script: &Script,
    case: &Case,
    way: Way,
    workers: u32,
) -> Result<(), Fail>
    requires { IsAccepted plan.now.tree script.now }
{
    let mut whole = ScriptField::empty(alloc);
    let one = run_with(rt, alloc, plan, script, &mut whole, WAYS[0], 1)?;
    let more = run_with(rt, alloc, plan, script, &mut whole, way, workers)?;
    shows(plan, case, &one)?;
    shows(plan, case, &more)?;
    match same_record(machine_of(&one), machine_of(&more)) {
        Some(events) if events == case.events => Ok(()),
        Some(events) => Err(Fail::new(format_args!("{}: {events} events", case.name))),
        None => Err(Fail::new(format_args!("{}: another record", case.name))),
    }
}

// Each case in a way, by so many workers.
fn run_all<R: Threads + Wait + Sync>(
    rt: &R,
    alloc: Global,
    tree: &Tree,
    feet: &Footprints,
    plan: &Plan,
    way: Way,
    workers: u32,
) -> Result<(), Fail>
    requires feet { AreFeet tree.now.domains feet.now }
    requires same { plan.now.tree ≡ tree.now }
{
    for case in &TABLE {
        let script = script_of(alloc, tree, feet, case)?;
        run_case(rt, alloc, plan, &script, case, way, workers)?;
    }
    Ok(())
}

#[test]
fn groups_run_alike_by_each_engine_with_any_number_of_workers(rt: HostRuntime) -> Result<(), Fail> {
    let alloc = rt.alloc();
    let tree = program(alloc)?;
    let feet = Footprints::of(alloc, &tree)?;
    if disjoint(&tree, &feet).is_err() {
        return Err(Fail::new("siblings overlap"));
    }
    let Ok(plan) = plan(alloc, &tree, &feet) else {
        return Err(Fail::new("no plan"));
    };
    for way in WAYS {
        run_all(&rt, alloc, &tree, &feet, &plan, way, 1)?;
        run_all(&rt, alloc, &tree, &feet, &plan, way, 2)?;
        run_all(&rt, alloc, &tree, &feet, &plan, way, 8)?;
    }
    Ok(())
}
