//! Each call of a machine, on the plain machine and on the shipped one.

ghost use Rattle.std.specs.Prelude.{◌≡◌, [], ◌∷◌, OnOk, IfOk};
ghost use Rattle.cd_field.specs.FieldModel.{ArePresent};
ghost use Rattle.cd_field.specs.FlatMachine.{flat_machine};
ghost use Rattle.cd_parts_tests.specs.Trials.{IsReady, IsSame};

use super::board::{
    expect_event, expect_events, expect_note, expect_words, fault, load_board, place, places,
    script_of,
};
use super::parts::{come_back, hand_over, part_to_write};
use cd_base::{Items, Pattern, Range};
use cd_field::{Field, MapField, ScriptField};
use cd_tree::{Event, Kept, Kind, Kinds, NodeId};
use std::alloc::Global;
use std::test::Fail;

const NINES: Pattern = Pattern::Const(9);

// The root begins, the first word changes, and the first point is reached.
fn comes_to_a_point<F: Field>(field: &mut F, number: u64) -> Result<(), Fail>
    requires { IsReady (F.model field.old) }
    ensures { OnOk result (IsReady (F.model field.new)) }
{
    field.begin(NodeId(0), number)?;
    field.write(place(0), 4);
    field.reached(0)?;
    Ok(())
}

// Before the first item of the root's first begin a fault of kind 2 strikes the second word, once; its kind is noted, and the
// next begin forgets it.
fn strikes<F: Field>(field: &mut F, alloc: Global) -> Result<(), Fail>
    ensures { OnOk result (IsReady (F.model field.new)) }
{
    let node = NodeId(0);
    let script = script_of(alloc, &[fault(1, 0, 2, 1, 5)])?;
    load_board(field, alloc, NINES, &script)?;
    expect_words(field, [9, 9, 9, 9])?;
    comes_to_a_point(field, 1)?;
    expect_words(field, [4, 12, 9, 9])?;
    expect_note(field, Some(Kind(2)))?;
    comes_to_a_point(field, 2)?;
    expect_words(field, [4, 12, 9, 9])?;
    expect_note(field, None)?;
    let told = [
        Event::Begin { node, number: 1 },
        Event::Reached { node, point: 0 },
        Event::Begin { node, number: 2 },
        Event::Reached { node, point: 0 },
    ];
    expect_events(field, 0, &told)
}

// Each call that tells something, once. The last word is no 7.
fn tell_all<F: Field>(field: &mut F, kinds: Kinds) -> Result<(), Fail>
    requires { IsReady (F.model field.old) }
{
    field.begin(NodeId(0), 3)?;
    if field.read(place(3)) != 7 {
        field.fell(1, place(3), 7)?;
    }
    field.saved(0, Kept::Copy)?;
    field.lapsed(0, 1, 2)?;
    field.refilled(0)?;
    field.halted(kinds)?;
    field.found(kinds)?;
    field.complete()?;
    field.escalate()?;
    Ok(())
}

// Each call that tells something appends its event. Four are there before.
fn tells<F: Field>(field: &mut F) -> Result<(), Fail>
    requires { IsReady (F.model field.old) }
{
    let node = NodeId(0);
    let kinds = Kinds::none().with(Kind(1));
    tell_all(field, kinds)?;
    let told = [
        Event::Begin { node, number: 3 },
        Event::Fell {
            node,
            entry: 1,
            place: place(3),
            wanted: 7,
            found: 9,
        },
        Event::Saved {
            node,
            entry: 0,
            how: Kept::Copy,
        },
        Event::Lapsed {
            node,
            entry: 0,
            seen: 1,
            found: 2,
        },
        Event::Refilled { node, entry: 0 },
        Event::Halted { node, kinds },
        Event::Found { node, kinds },
        Event::Complete { node },
        Event::Escalate { node },
    ];
    expect_events(field, 4, &told)
}

// A part begins, a part of it changes the second word, and it comes back.
fn lets_work<F: Field>(part: &mut F, alloc: Global) -> Result<(), Fail>
    requires { IsReady (F.model part.old) }
    ensures ready { OnOk result (IsReady (F.model part.new)) }
    ensures same { OnOk result (IsSame (F.model part.old) (F.model part.new)) }
{
    part.begin(NodeId(2), 1)?;
    let mut inner = part_to_write(part, alloc, 1)?;
    works(&mut inner)?;
    come_back(part, inner, 1, None)?;
    expect_words(part, [9, 77, 6, !6])
}

// The part of the part.
fn works<F: Field>(part: &mut F) -> Result<(), Fail>
    requires { IsReady (F.model part.old) }
    ensures ready { OnOk result (IsReady (F.model part.new)) }
    ensures same { OnOk result (IsSame (F.model part.old) (F.model part.new)) }
{
    part.begin(NodeId(3), 1)?;
    part.write(place(1), 77);
    part.complete()?;
    Ok(())
}

// What a part, and a part of a part, wrote comes back with commit. What a part wrote that comes back without is put back.
fn carves<F: Field>(field: &mut F, alloc: Global) -> Result<(), Fail> {
    load_board(field, alloc, NINES, &Items::new(alloc))?;
    hand_over(field, alloc, 0, 2, 8, true)?;
    expect_words(field, [9, 9, 8, 9])?;
    hand_over(field, alloc, 1, 2, 6, false)?;
    expect_words(field, [9, 9, 6, !6])?;
    let mut part = part_to_write(field, alloc, 1)?;
    lets_work(&mut part, alloc)?;
    come_back(field, part, 1, None)?;
    expect_words(field, [9, 77, 6, !6])?;
    let told = [
        begin(1, 8),
        complete(1),
        begin(1, 6),
        complete(1),
        begin(2, 1),
        begin(3, 1),
        complete(3),
    ];
    expect_events(field, 0, &told)
}

fn begin(node: u32, number: u64) -> Event {
    let node = NodeId(node);
    Event::Begin { node, number }
}

fn complete(node: u32) -> Event {
    Event::Complete { node: NodeId(node) }
}

// A long record, in a part and behind it.
fn remembers_many<F: Field>(field: &mut F, alloc: Global) -> Result<(), Fail> {
    load_board(field, alloc, NINES, &Items::new(alloc))?;
    let writes = places(alloc, 0, 1)?;
    let mut part = field.carve(&writes, &writes)?;
    for entry in 0..1100 {
        field.refilled(entry)?;
        part.refilled(entry)?;
    }
    field.absorb(part, false)?;
    field.complete()?;
    has_many(field)
}

// The events of a long record.
fn has_many<F: Field>(field: &F) -> Result<(), Fail> {
    for entry in 0..1100 {
        was_refilled(field, u64::from(entry), entry)?;
        was_refilled(field, u64::from(entry) + 1100, entry)?;
    }
    let last = [Event::Complete { node: NodeId(0) }];
    expect_events(field, 2200, &last)
}

fn was_refilled<F: Field>(field: &F, k: u64, entry: u32) -> Result<(), Fail> {
    let node = NodeId(0);
    expect_event(field, k, Some(Event::Refilled { node, entry }))
}

fn meets_its_calls<F: Field>(field: &mut F, alloc: Global) -> Result<(), Fail> {
    strikes(field, alloc)?;
    tells(field)?;
    carves(field, alloc)?;
    remembers_many(field, alloc)?;
    Ok(())
}

#[test]
fn a_field_of_maps_meets_its_calls(rt: HostRuntime) -> Result<(), Fail> {
    let alloc = rt.alloc();
    let mut field = MapField::empty(alloc);
    meets_its_calls(&mut field, alloc)
}

#[test]
fn a_flat_field_meets_its_calls(rt: HostRuntime) -> Result<(), Fail> {
    let alloc = rt.alloc();
    let mut field = ScriptField::empty(alloc);
    meets_its_calls(&mut field, alloc)
}

// A part with the last two words of the first region, which are its to write, and the first.
fn carve_two<F: Field>(field: &mut F, alloc: Global) -> Result<F, Fail>
    requires { IsReady (F.model field.old) }
    ensures { IfOk result (λ part. ArePresent (F.model part) (record { region = 0; low = 2; high = 4 } ∷ [])) }
{
    let reads = places(alloc, 0, 1)?;
    let writes = places(alloc, 2, 4)?;
    let part = field.carve(&reads, &writes)?;
    Ok(part)
}

// The shipped machine lends its words: that it does is known to the caller, who unwraps the answer.
fn lends(field: &ScriptField, range: Range, wanted: &[u64]) -> Result<(), Fail>
    requires { ArePresent (flat_machine field.now) (range ∷ []) }
{
    if field.lent(range).unwrap() == wanted {
        Ok(())
    } else {
        Err(Fail::new("other words are lent"))
    }
}

#[test]
fn a_flat_field_and_a_part_of_it_lend_their_words(rt: HostRuntime) -> Result<(), Fail> {
    let alloc = rt.alloc();
    let mut field = ScriptField::empty(alloc);
    load_board(&mut field, alloc, Pattern::Iota(1, 1), &Items::new(alloc))?;
    lends(&field, span(1, 4), &[2, 3, 4])?;
    lends(&field, span(3, 3), &[])?;
    let part = carve_two(&mut field, alloc)?;
    lends(&part, span(2, 4), &[3, 4])
}

fn span(low: u32, high: u32) -> Range
    ensures { result ≡ record { region = 0; low = low; high = high } }
{
    Range {
        region: 0,
        low,
        high,
    }
}
