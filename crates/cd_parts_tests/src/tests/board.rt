//! The board that the tests run on, a hundred words and two, and what is expected of a machine that has it.

ghost use Rattle.std.specs.Prelude.{◌≡◌, ◌+◌, ◌<◌, ◌^◌, true, [], ◌∷◌, All, IsSome, OnOk, IfOk, length};
ghost use Rattle.cd_base.specs.Words.{in_ranges};
ghost use Rattle.cd_tree.specs.Meaning.{initial};
ghost use Rattle.cd_parts_tests.specs.Trials.{board, IsAimed, IsReady};

use cd_base::{Items, Pattern, Place, Places, Range, Text};
use cd_field::Field;
use cd_tree::{Event, Fault, Kind, Kinds, NodeId, Region, Regions, Script};
use std::alloc::Global;
use std::test::Fail;

/// A place of the first region.
pub(crate) fn place(index: u32) -> Place
    ensures { result ≡ record { region = 0; index = index } }
{
    Place { region: 0, index }
}

/// Places of the first region.
pub(crate) fn places(alloc: Global, low: u32, high: u32) -> Result<Places, Fail>
    requires { low < high }
    ensures { IfOk result (λ places. (q : _) → in_ranges places q ≡ in_ranges (record { region = 0; low = low; high = high } ∷ []) q) }
{
    let mut places = Places::new(alloc);
    places.add(Range {
        region: 0,
        low,
        high,
    })?;
    Ok(places)
}

/// Two places of the first region.
pub(crate) fn two_from(low: u32) -> Range
    requires { low < 100 }
    ensures { result ≡ record { region = 0; low = low; high = low + 2 } }
{
    Range {
        region: 0,
        low,
        high: low + 2,
    }
}

/// The whole board.
pub(crate) fn whole_board(alloc: Global) -> Result<Places, Fail>
    ensures { IfOk result (λ places. (q : _) → in_ranges places q ≡ in_ranges board q) }
{
    let mut places = Places::new(alloc);
    places.add(Range {
        region: 0,
        low: 0,
        high: 100,
    })?;
    places.add(Range {
        region: 1,
        low: 0,
        high: 2,
    })?;
    Ok(places)
}

// A hundred words of a pattern, and the words 3 and 5.
fn two_regions(alloc: Global, first: Pattern) -> Result<Regions, Fail>
    ensures { IfOk result (λ regions. (p : _) → in_ranges board p ≡ true → IsSome (initial regions p)) }
{
    let mut regions = Items::new(alloc);
    regions.push(Region {
        name: Text::of(alloc, "a")?,
        length: 100,
        pattern: first,
    })?;
    regions.push(Region {
        name: Text::of(alloc, "b")?,
        length: 2,
        pattern: Pattern::Iota(3, 2),
    })?;
    Ok(regions)
}

/// A machine with the board, whose first words are of a pattern.
pub(crate) fn load_board<F: Field>(
    field: &mut F,
    alloc: Global,
    first: Pattern,
    script: &Script,
) -> Result<(), Fail>
    requires { All IsAimed script.now }
    ensures { OnOk result (IsReady (F.model field.new)) }
{
    field.load(&two_regions(alloc, first)?, script)?;
    Ok(())
}

/// A fault of the root on the first region.
pub(crate) fn fault(begin: u64, item: u32, kind: u8, index: u32, mask: u64) -> Fault
    requires { index < 4 }
    ensures { IsAimed result }
{
    Fault {
        node: NodeId(0),
        begin,
        item,
        kind: Kind(kind),
        place: place(index),
        mask,
    }
}

/// A script of faults.
pub(crate) fn script_of(alloc: Global, faults: &[Fault]) -> Result<Script, Fail>
    requires few { length faults.now < 2 ^ 32 }
    requires aimed { All IsAimed faults.now }
    ensures { IfOk result (λ script. All IsAimed script) }
{
    Ok(Items::of(Vec::from_slice(alloc, faults)?))
}

/// The first four words and the two.
pub(crate) fn look<F: Field>(field: &F) -> ([u64; 4], [u64; 2])
    requires { IsReady (F.model field.now) }
{
    let mut four = [0; 4];
    field.read_run(
        Range {
            region: 0,
            low: 0,
            high: 4,
        },
        &mut four,
    );
    let mut two = [0; 2];
    field.read_run(
        Range {
            region: 1,
            low: 0,
            high: 2,
        },
        &mut two,
    );
    (four, two)
}

/// The four words are these.
pub(crate) fn expect_words<F: Field>(field: &F, wanted: [u64; 4]) -> Result<(), Fail>
    requires { IsReady (F.model field.now) }
{
    let (four, _) = look(field);
    if four == wanted {
        Ok(())
    } else {
        Err(Fail::new(format_args!("words {four:?} in place of {wanted:?}")))
    }
}

/// The notes are this kind, or none.
pub(crate) fn expect_note<F: Field>(field: &F, wanted: Option<Kind>) -> Result<(), Fail> {
    let kinds = match wanted {
        Some(kind) => Kinds::none().with(kind),
        None => Kinds::none(),
    };
    let notes = field.notes();
    if notes == kinds {
        Ok(())
    } else {
        Err(Fail::new(format_args!("notes {notes:?} in place of {kinds:?}")))
    }
}

/// The event of a number is this one, or there is none.
pub(crate) fn expect_event<F: Field>(field: &F, k: u64, wanted: Option<Event>) -> Result<(), Fail> {
    let event = field.event(k);
    if event == wanted {
        Ok(())
    } else {
        Err(Fail::new(format_args!("event {k} is {event:?} in place of {wanted:?}")))
    }
}

/// The events from a number on are these, and no more.
pub(crate) fn expect_events<F: Field>(field: &F, from: u64, wanted: &[Event]) -> Result<(), Fail> {
    let mut k = from;
    for event in wanted {
        expect_event(field, k, Some(*event))?;
        k = k.saturating_add(1);
    }
    expect_event(field, k, None)
}
