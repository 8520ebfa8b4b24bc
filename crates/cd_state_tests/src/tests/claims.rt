// Passes at one small table: of many claims of a posted domain one wins, and a stop is seen by all.
ghost use Rattle.std.specs.Prelude.{◌≡◌, ◌<◌, ℕ, [], ◌∷◌, All, IfOk, OnOk};
ghost use Rattle.cd_cells.specs.Listing.{no_ask};
ghost use Rattle.cd_cells.specs.Passes.{Claims, PassHas, SameTable, key_of};
ghost use Rattle.cd_state_tests.specs.Claims.{HasTried, IsIdle, SampleHas, sample};

use cd_cells::{Arrived, CellPass, Shape};
use cd_tree::NodeId;
use std::alloc::Global;
use std::test::Fail;
use std::thread::{self, Threads};

#[derive(Drop)]
struct Sample {
    note: u64,
}

impl Shape<u8> for Sample {
    ghost kind = { λ key. sample };
}

type Cells = CellPass<u8, Sample>;

// A claim that gives none.
pub(crate) fn finds_none<K, T: Shape<K>>(
    cells: &mut CellPass<K, T>,
    node: NodeId,
) -> Result<(), Fail>
    requires below { node.0 < (T.kind (key_of cells.old)).count }
    requires free { (may : _) × PassHas T.kind cells.old [] may }
    ensures same { SameTable cells.old cells.new }
    ensures free { (may : _) → PassHas T.kind cells.old [] may → OnOk result (PassHas T.kind cells.new [] may) }
{
    match cells.claim(node) {
        None => Ok(()),
        Some(_) => Err(Fail::new("what cannot be claimed was claimed")),
    }
}

// A claim that gives the state.
pub(crate) fn finds<K, T: Shape<K>>(cells: &mut CellPass<K, T>, node: NodeId) -> Result<T, Fail>
    requires below { node.0 < (T.kind (key_of cells.old)).count }
    requires free { (may : _) × PassHas T.kind cells.old [] may }
    ensures same { SameTable cells.old cells.new }
    ensures claims { (may : _) → PassHas T.kind cells.old [] may → IfOk result (Claims T.kind cells.old cells.new may node.0) }
{
    match cells.claim(node) {
        None => Err(Fail::new("what was posted cannot be claimed")),
        Some(state) => Ok(state),
    }
}

// ---- many threads

// Passes at the same table, in a list.
fn parted(alloc: Global, cells: &mut Cells, count: u32) -> Result<Vec<Cells>, Fail>
    requires has { SampleHas cells.old [] [] }
    ensures here { OnOk result (IsIdle cells.old cells.new) }
    ensures passes { IfOk result (λ passes. All (IsIdle cells.old) passes.items) }
{
    let mut passes = Vec::new(alloc);
    for _ in 0..count {
        let pass = cells.split()?;
        passes.push(pass)?;
    }
    Ok(passes)
}

// What a thread does: it claims the root, and hands back its pass and what it got.
fn tried(mut cells: Cells) -> (Cells, Option<Sample>)
    requires has { SampleHas cells [] [] }
    ensures { HasTried cells result }
{
    let claimed = cells.claim(NodeId(0));
    (cells, claimed)
}

// The root arrives.
fn arrives(cells: &mut Cells, state: Sample) -> Result<(), Fail>
    requires { (ask : _) × (ask.node.0 ≡ 0) × SampleHas cells.old (ask ∷ []) [] }
    ensures same { SameTable cells.old cells.new }
    ensures has { OnOk result (SampleHas cells.new [] []) }
{
    match cells.arrive(NodeId(0), None, &[], state) {
        Arrived::Root => Ok(()),
        Arrived::NotLast => Err(Fail::new("others of its group")),
        Arrived::Last(_, _) => Err(Fail::new("a domain above the root")),
    }
}

// Takes back the pass of a thread: whether it had won, as 1 or 0. What it won cannot be claimed again, and arrives.
fn taken_back(cells: &mut Cells, back: (Cells, Option<Sample>)) -> Result<u64, Fail>
    requires has { SampleHas cells.old [] [] }
    requires back { HasTried cells.old back }
    ensures { OnOk result (IsIdle cells.old cells.new) }
{
    let (mut pass, claimed) = back;
    match claimed {
        None => {
            cells.join(pass);
            Ok(0)
        }
        Some(state) => {
            finds_none(cells, NodeId(0))?;
            arrives(&mut pass, state)?;
            cells.join(pass);
            Ok(1)
        }
    }
}

// Takes back the passes of all threads: how many of them had won.
fn winners(cells: &mut Cells, backs: Vec<(Cells, Option<Sample>)>) -> Result<u64, Fail>
    requires has { SampleHas cells.old [] [] }
    requires backs { All (HasTried cells.old) backs.items }
    ensures { OnOk result (IsIdle cells.old cells.new) }
{
    let mut won = 0u64;
    for back in backs {
        won = won.saturating_add(taken_back(cells, back)?);
    }
    Ok(won)
}

// Many threads claim the root at once: how many win.
fn claimed_by_many<R: Threads + Sync>(rt: &R, alloc: Global, cells: &mut Cells) -> Result<u64, Fail>
    requires has { SampleHas cells.old [] [] }
    ensures { OnOk result (IsIdle cells.old cells.new) }
{
    let passes = parted(alloc, cells, 8)?;
    let backs = thread::map_vec(
        rt,
        passes,
        &|pass|
            requires { SampleHas pass [] [] }
            ensures { HasTried pass result }
        { tried(pass) },
    )?;
    winners(cells, backs)
}

// The root that has arrived is taken once.
fn closes_once(cells: &mut Cells) -> Result<(), Fail>
    requires has { SampleHas cells.old [] [] }
{
    let mut other = cells.split()?;
    let Some(root) = cells.close() else {
        return Err(Fail::new("the root has arrived, and is not there"));
    };
    if root.note != 7 {
        return Err(Fail::new("another state"));
    }
    match other.close() {
        None => Ok(()),
        Some(_) => Err(Fail::new("the root was closed twice")),
    }
}

// The root is posted, which cannot be claimed before.
fn posted(cells: &mut Cells) -> Result<(), Fail>
    requires may { SampleHas cells.old [] (no_ask ∷ []) }
    ensures { OnOk result (IsIdle cells.old cells.new) }
{
    finds_none(cells, NodeId(0))?;
    cells.post(NodeId(0), Sample { note: 7 });
    Ok(())
}

#[test]
fn one_of_many_claims_wins(rt: HostRuntime) -> Result<(), Fail> {
    let alloc = rt.alloc();
    let mut cells = Cells::open(alloc, &3, 1, 0)?;
    posted(&mut cells)?;
    if claimed_by_many(&rt, alloc, &mut cells)? != 1 {
        return Err(Fail::new("not one has won"));
    }
    closes_once(&mut cells)
}

// ---- a stop

// So many passes are split off, one from the other, and the last one stops: no other finds the stop bit before, and each finds it after.
fn stops_below(cells: &mut Cells, more: u32) -> Result<(), Fail>
    requires here { (may : _) × SampleHas cells.old [] may }
{
    if more == 0 {
        cells.stop();
        return Ok(());
    }
    let before = cells.stopped();
    let mut child = cells.split()?;
    stops_below(&mut child, more - 1)?;
    let after = cells.stopped();
    if before || !after {
        return Err(Fail::new("a stop before the stop, or one that is not seen"));
    }
    Ok(())
}

#[test]
fn a_stop_is_seen_by_all(rt: HostRuntime) -> Result<(), Fail> {
    let mut cells = Cells::open(rt.alloc(), &3, 1, 0)?;
    stops_below(&mut cells, 5)
}
