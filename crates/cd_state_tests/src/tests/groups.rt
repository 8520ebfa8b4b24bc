// Groups run by hand on the shipped machine and pass: the root of a program of four domains is taken to its end, turn by turn,
// the members of its group and of theirs one after another.
ghost use Rattle.std.specs.Prelude.{◌≡◌, ◌<◌, true, length, map, IfOk, OnOk};
ghost use Rattle.cd_tree.specs.Domains.{root_of};
ghost use Rattle.cd_tree.specs.Scripts.{IsAccepted};
ghost use Rattle.cd_keep.specs.PassModel.{HoldsNothing};
ghost use Rattle.cd_core.specs.Fits.{Fits, IsHere};
ghost use Rattle.cd_state_tests.specs.Groups.{HasSent, HasTaken, HasTurned, IsOver, IsReadable, IsRootPart};
ghost use Rattle.cd_core.specs.Returning.{CameBack, EachCameBack};
ghost use Rattle.cd_core.specs.StateLaws.{CanStart, TakesBack};
ghost use Rattle.cd_core.specs.StateModel.{state_model};
ghost use Rattle.cd_core.specs.Steps.{AllFit, CanMove};

use crate::tests::samples::{one_region, tells};
use cd_base::{Items, Place, Places, Range, Text};
use cd_core::{NodeState, Outcome, Stage, Step, returning_laws, start_root};
use cd_cover::{Plan, plan};
use cd_field::{Field, ScriptField};
use cd_foot::{Footprints, disjoint};
use cd_keep::{ArcPass, Pass};
use cd_script::accept;
use cd_tree::{
    Begins, Domain, Entry, How, Item, Kind, KindName, Kinds, NodeId, Op, RawFault, Script, Tree,
};
use std::alloc::Global;
use std::sync::Wait;
use std::test::Fail;

// A fault behind the operation of a member: it strikes the first word that the member writes.
struct Strike {
    path: &'static str,
    begin: u64,
    kind: u8,
    index: u32,
}

// What strikes, and how often each of the four domains began then, with the number of events. In each case the root
// completes, and the members have written their words.
struct Case {
    name: &'static str,
    strikes: &'static [Strike],
    begins: [u64; 4],
    events: u64,
}

// The root declares kind 3, the domain below it kinds 1 and 2, and the two members of this kind 0. Kinds 2 and 3 halt. All
// have two tries.
static TABLE: [Case; 4] = [
    Case {
        name: "both members commit",
        strikes: &[],
        begins: [1, 1, 1, 1],
        events: 24,
    },
    Case {
        name: "one member escalates, and the group is run again",
        strikes: &[
            Strike {
                path: "root/both/two",
                begin: 1,
                kind: 0,
                index: 2,
            },
            Strike {
                path: "root/both/two",
                begin: 2,
                kind: 0,
                index: 2,
            },
        ],
        begins: [1, 2, 2, 3],
        events: 44,
    },
    Case {
        name: "what the second member leaves over goes on to the root",
        strikes: &[
            Strike {
                path: "root/both/one",
                begin: 1,
                kind: 2,
                index: 0,
            },
            Strike {
                path: "root/both/two",
                begin: 1,
                kind: 3,
                index: 2,
            },
        ],
        begins: [2, 2, 2, 2],
        events: 43,
    },
    Case {
        name: "what a member leaks is found behind the group",
        strikes: &[Strike {
            path: "root/both/one",
            begin: 1,
            kind: 1,
            index: 0,
        }],
        begins: [1, 2, 2, 2],
        events: 41,
    },
];

// ---- the program

fn range(low: u32, high: u32) -> Range
    ensures { result ≡ record { region = 0; low = low; high = high } }
{
    Range {
        region: 0,
        low,
        high,
    }
}

fn one_kind(alloc: Global, name: &str, halts: bool) -> Result<KindName, Fail> {
    Ok(KindName {
        name: Text::of(alloc, name)?,
        halts,
    })
}

fn four_kinds(alloc: Global) -> Result<Items<KindName>, Fail> {
    let mut kinds = Items::new(alloc);
    kinds.push(one_kind(alloc, "found", false)?)?;
    kinds.push(one_kind(alloc, "leaked", false)?)?;
    kinds.push(one_kind(alloc, "halting", true)?)?;
    kinds.push(one_kind(alloc, "fatal", true)?)?;
    Ok(kinds)
}

// A domain that copies the words of a range and has one item.
fn one_domain(
    alloc: Global,
    name: &str,
    parent: Option<NodeId>,
    words: Range,
    detects: Kinds,
    item: Item,
) -> Result<Domain, Fail> {
    let mut entries = Items::new(alloc);
    entries.push(Entry {
        range: words,
        how: How::Copy,
    })?;
    let mut items = Items::new(alloc);
    items.push(item)?;
    Ok(Domain {
        name: Text::of(alloc, name)?,
        parent,
        retry: 2,
        detects,
        entries,
        items,
    })
}

// A member that fills its words.
fn one_member(alloc: Global, name: &str, words: Range, word: u64) -> Result<Domain, Fail> {
    let detects = Kinds::none().with(Kind(0));
    let item = Item::Run(Op::Fill(words, word));
    one_domain(alloc, name, Some(NodeId(1)), words, detects, item)
}

// The group of two domains, or of the first alone.
fn one_group(alloc: Global, first: NodeId, second: Option<NodeId>) -> Result<Item, Fail> {
    let mut ids = Items::new(alloc);
    ids.push(first)?;
    if let Some(id) = second {
        ids.push(id)?;
    }
    Ok(Item::Group(ids))
}

fn four_domains(alloc: Global) -> Result<Items<Domain>, Fail> {
    let all = range(0, 4);
    let lone = one_group(alloc, NodeId(1), None)?;
    let pair = one_group(alloc, NodeId(2), Some(NodeId(3)))?;
    let fatal = Kinds::none().with(Kind(3));
    let found = Kinds::none().with(Kind(1)).with(Kind(2));
    let mut domains = Items::new(alloc);
    domains.push(one_domain(alloc, "root", None, all, fatal, lone)?)?;
    domains.push(one_domain(alloc, "both", Some(NodeId(0)), all, found, pair)?)?;
    domains.push(one_member(alloc, "one", range(0, 2), 5)?)?;
    domains.push(one_member(alloc, "two", range(2, 4), 9)?)?;
    Ok(domains)
}

fn four_program(alloc: Global) -> Result<Tree, Fail> {
    match Tree::checked(four_kinds(alloc)?, four_domains(alloc)?) {
        Some(tree) => Ok(tree),
        None => Err(Fail::new("no program")),
    }
}

// ---- the machine of a case

fn one_fault(alloc: Global, strike: &Strike) -> Result<RawFault, Fail> {
    Ok(RawFault {
        path: Text::of(alloc, strike.path)?,
        begin: strike.begin,
        item: 1,
        kind: Kind(strike.kind),
        place: Place {
            region: 0,
            index: strike.index,
        },
        mask: 255,
    })
}

fn accepted(alloc: Global, plan: &Plan, strikes: &[Strike]) -> Result<Script, Fail>
    ensures { IfOk result (λ script. IsAccepted plan.now.tree script) }
{
    let mut faults = Items::new(alloc);
    for strike in strikes {
        if faults.items().len() < 8 {
            faults.push(one_fault(alloc, strike)?)?;
        }
    }
    match accept(alloc, plan.tree(), plan.feet(), &faults) {
        Ok(script) => Ok(script),
        Err(_) => Err(Fail::new("the script is refused")),
    }
}

// The part of a machine that the root works on.
pub(crate) fn carved<F: Field>(
    alloc: Global,
    plan: &Plan,
    script: &Script,
    whole: &mut F,
) -> Result<F, Fail>
    requires { IsAccepted plan.now.tree script.now }
    ensures { IfOk result (λ part. IsRootPart plan.now (F.model part)) }
{
    whole.load(&one_region(alloc)?, script)?;
    prove!(0 < plan.tree().count());
    let reads = plan.feet().reads(NodeId(0));
    let writes = plan.feet().writes(NodeId(0));
    let mut places = Places::new(alloc);
    places.add(range(0, 4))?;
    if places.lacks(reads).is_some() || places.lacks(writes).is_some() {
        return Err(Fail::new("the root reaches more than the region"));
    }
    Ok(whole.carve(reads, writes)?)
}

// ---- turns

// A domain to its end, with the members of its groups, which nest as deep as the levels below it.
#[cycle(ends)]
fn ends<F: Field, P: Pass, R: Wait>(
    rt: &R,
    alloc: Global,
    plan: &Plan,
    sent: NodeState<F, P>,
    levels: u32,
) -> Result<NodeState<F, P>, Fail>
    requires fits { Fits plan.now (state_model F.model P.model sent) }
    requires moves { CanMove sent.stage }
    ensures { IfOk result (λ child. CameBack plan.now (state_model F.model P.model sent) (state_model F.model P.model child)) }
{
    let mut state = sent;
    for _ in 0..8 {
        if turns(rt, alloc, plan, &mut state, levels)? {
            return Ok(state);
        }
    }
    Err(Fail::new("it goes on"))
}

// One turn of a domain: to its next group, whose members are taken to their ends, or to its own end. Whether it has ended.
#[cycle(ends)]
fn turns<F: Field, P: Pass, R: Wait>(
    rt: &R,
    alloc: Global,
    plan: &Plan,
    state: &mut NodeState<F, P>,
    levels: u32,
) -> Result<bool, Fail>
    requires fits { Fits plan.now (state_model F.model P.model state.old) }
    requires moves { CanMove state.old.stage }
    ensures { IfOk result (λ over. HasTurned plan.now (state_model F.model P.model state.old) (state_model F.model P.model state.new) over) }
{
    let _tree = plan.tree();
    match state.advance(rt, alloc, plan) {
        Step::Group(children) => {
            takes(rt, alloc, plan, state, children, levels)?;
            Ok(false)
        }
        Step::Done => Ok(true),
        Step::Escalated => Ok(true),
        Step::NoMemory => Err(Fail::new("no memory")),
    }
}

// The members of a group to their ends, and back to the domain that sent them.
#[cycle(ends)]
fn takes<F: Field, P: Pass, R: Wait>(
    rt: &R,
    alloc: Global,
    plan: &Plan,
    state: &mut NodeState<F, P>,
    sent: Vec<NodeState<F, P>>,
    levels: u32,
) -> Result<(), Fail>
    requires fits { Fits plan.now (state_model F.model P.model state.old) }
    requires all { AllFit plan.now (map (state_model F.model P.model) sent.items) }
    requires sent { HasSent plan.now (state_model F.model P.model state.old) (map (state_model F.model P.model) sent.items) }
    ensures { OnOk result (HasTaken plan.now (state_model F.model P.model state.old) (state_model F.model P.model state.new) (map (state_model F.model P.model) sent.items)) }
{
    returning_laws::members_come_back();
    let children = all_end(rt, alloc, plan, sent, levels)?;
    take_back(plan, state, children)?;
    Ok(())
}

// Members to their ends, one after another.
#[cycle(ends)]
fn all_end<F: Field, P: Pass, R: Wait>(
    rt: &R,
    alloc: Global,
    plan: &Plan,
    sent: Vec<NodeState<F, P>>,
    levels: u32,
) -> Result<Vec<NodeState<F, P>>, Fail>
    requires { AllFit plan.now (map (state_model F.model P.model) sent.items) }
    ensures { IfOk result (λ children. EachCameBack plan.now (map (state_model F.model P.model) sent.items) (map (state_model F.model P.model) children.items)) }
{
    if levels == 0 {
        return Err(Fail::new("groups nest too deep"));
    }
    let mut children = Vec::new(alloc);
    for member in sent {
        if !is_ready(&member) {
            return Err(Fail::new("a member has begun"));
        }
        let child = ends(rt, alloc, plan, member, levels - 1)?;
        children.push(child)?;
    }
    Ok(children)
}

fn is_ready<F: Field, P: Pass>(state: &NodeState<F, P>) -> bool
    ensures { result ≡ true → CanMove state.now.stage }
{
    matches!(&state.stage, Stage::Ready)
}

fn take_back<F: Field, P: Pass>(
    plan: &Plan,
    state: &mut NodeState<F, P>,
    children: Vec<NodeState<F, P>>,
) -> Result<(), Fail>
    requires fits { Fits plan.now (state_model F.model P.model state.old) }
    requires back { TakesBack plan.now (state_model F.model P.model state.old) (map (state_model F.model P.model) children.items) }
    ensures { OnOk result (HasTaken plan.now (state_model F.model P.model state.old) (state_model F.model P.model state.new) (map (state_model F.model P.model) children.items)) }
{
    state.resume(plan, children)?;
    Ok(())
}

// ---- what comes of it

fn runs<F: Field, P: Pass, R: Wait>(
    rt: &R,
    alloc: Global,
    plan: &Plan,
    case: &Case,
    field: F,
    pass: P,
) -> Result<(), Fail>
    requires { CanStart plan.now (F.model field) (P.model pass) }
{
    let _tree = plan.tree();
    let started = start_root(alloc, plan, field, pass)?;
    let ended = ends(rt, alloc, plan, started, 2)?;
    let outcome = outcome_of(plan, ended);
    compare(plan, case, &outcome)
}

fn outcome_of<F: Field, P: Pass>(plan: &Plan, state: NodeState<F, P>) -> Outcome<F>
    requires { IsOver plan.now (state_model F.model P.model state) }
    ensures { IsReadable F.model plan.now result }
{
    state.finish()
}

fn compare<F: Field>(plan: &Plan, case: &Case, outcome: &Outcome<F>) -> Result<(), Fail>
    requires { IsReadable F.model plan.now outcome.now }
{
    match outcome {
        Outcome::Committed(field, begins) => ends_so(plan, case, field, begins),
        Outcome::Exhausted(_, _, _) => Err(Fail::new(format_args!("{}: exhausted", case.name))),
    }
}

fn ends_so<F: Field>(plan: &Plan, case: &Case, field: &F, begins: &Begins) -> Result<(), Fail>
    requires here { IsHere (root_of plan.now.tree.domains) (F.model field.now) }
    requires begins { length begins.now ≡ length plan.now.tree.domains }
{
    let counts = counts_of(plan, begins)?;
    let first = word_at(plan, field, 0)?;
    let second = word_at(plan, field, 2)?;
    if counts != case.begins || first != 5 || second != 9 || !tells(case.events, field) {
        let [root, both, one, two] = counts;
        return Err(Fail::new(format_args!(
            "{}: begins {root} {both} {one} {two}, words {first} {second}, events {}",
            case.name,
            events_of(field)
        )));
    }
    Ok(())
}

fn counts_of(plan: &Plan, begins: &Begins) -> Result<[u64; 4], Fail>
    requires { length begins.now ≡ length plan.now.tree.domains }
{
    if plan.tree().count() != 4 {
        return Err(Fail::new("other domains"));
    }
    Ok([begins.at(0), begins.at(1), begins.at(2), begins.at(3)])
}

// A word that the root reaches.
pub(crate) fn word_at<F: Field>(plan: &Plan, field: &F, index: u32) -> Result<u64, Fail>
    requires { IsHere (root_of plan.now.tree.domains) (F.model field.now) }
{
    let place = Place { region: 0, index };
    prove!(0 < plan.tree().count());
    if !plan.feet().reach(NodeId(0)).has(place) {
        return Err(Fail::new("the root does not reach the word"));
    }
    Ok(field.read(place))
}

// The number of events, up to 99.
fn events_of<F: Field>(field: &F) -> u64 {
    for events in 0..99 {
        if field.event(events).is_none() {
            return events;
        }
    }
    99
}

fn run_case<R: Wait>(rt: &R, alloc: Global, plan: &Plan, case: &Case) -> Result<(), Fail> {
    let script = accepted(alloc, plan, case.strikes)?;
    let mut whole = ScriptField::empty(alloc);
    let field = carved(alloc, plan, &script, &mut whole)?;
    prove!(0 < plan.tree().count());
    let pass = ArcPass::open(alloc, plan.need(NodeId(0)))?;
    runs(rt, alloc, plan, case, field, pass)
}

#[test]
fn members_come_back_to_their_domain(rt: HostRuntime) -> Result<(), Fail> {
    let alloc = rt.alloc();
    let tree = four_program(alloc)?;
    let feet = Footprints::of(alloc, &tree)?;
    if disjoint(&tree, &feet).is_err() {
        return Err(Fail::new("siblings overlap"));
    }
    let Ok(plan) = plan(alloc, &tree, &feet) else {
        return Err(Fail::new("no plan"));
    };
    for case in &TABLE {
        run_case(&rt, alloc, &plan, case)?;
    }
    Ok(())
}
