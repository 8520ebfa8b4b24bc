//! What is printed, by example.

ghost use Rattle.std.specs.Prelude.{◌<◌, ◌^◌, length, IsTrue, IfOk};
ghost use Rattle.cd_field.specs.FlatMachine.{flat_machine};
ghost use Rattle.cd_report.specs.Texts.{AllPresent};

use cd_base::{Items, MemorySink, Pattern, Place, Text, WriteStop};
use cd_field::{Field, ScriptField};
use cd_report::{write_read_fault, write_reading, write_refusal, write_run, write_usage};
use cd_tree::{
    Begins, Domain, Event, Kept, Kind, KindName, Kinds, NodeId, Refusal, Region, Regions, Tree,
    Which,
};
use std::alloc::Global;
use std::test::Fail;

/// Refusals of no document, each with what is said of it; what is not there has no name.
static REFUSALS: [(Refusal, &'static str); 12] = [
    (Refusal::TooLong, "E1 longer than 1048576 bytes"),
    (Refusal::Line(1), "E2 line 1"),
    (Refusal::UnknownRegion(12), "E3 line 12"),
    (Refusal::OutsideRegion(2), "E4 line 2"),
    (Refusal::NameTaken(3), "E5 line 3"),
    (Refusal::Shape(65536), "E6 line 65536"),
    (Refusal::Arithmetic(u32::MAX), "E7 line 4294967295"),
    (Refusal::NoTarget(NodeId(7), 1), "E11  entry 1"),
    (Refusal::UnknownPath(1), "E13 fault 1"),
    (Refusal::NoSuchItem(2), "E14 fault 2"),
    (Refusal::OutsideReach(256), "E15 fault 256"),
    (Refusal::Undetected(10), "E16 fault 10"),
];

/// Limits that were passed, each with what is said of it.
static LIMITS: [(Which, u64, &'static str); 15] = [
    (Which::Lines, 65537, "E8 lines 65537"),
    (Which::Nesting, 17, "E8 nesting 17"),
    (Which::Name, 33, "E8 name 33"),
    (Which::Kinds, 17, "E8 kinds 17"),
    (Which::Regions, 65, "E8 regions 65"),
    (Which::Words, u64::MAX, "E8 words 18446744073709551615"),
    (Which::Domains, 2049, "E8 domains 2049"),
    (Which::Depth, 17, "E8 depth 17"),
    (Which::Items, 16385, "E8 items 16385"),
    (Which::Entries, 65, "E8 entries 65"),
    (Which::Preserves, 16385, "E8 preserves 16385"),
    (Which::Members, 257, "E8 members 257"),
    (Which::Retry, 0, "E8 retry 0"),
    (Which::Faults, 257, "E8 faults 257"),
    (Which::Need, 65537, "E8 need 65537"),
];

// That these bytes are this text.
fn is_text(bytes: &[u8], text: &str) -> Result<(), Fail> {
    if bytes == text.as_bytes() {
        Ok(())
    } else {
        Err(Fail::new(format_args!("not {text}")))
    }
}

// That this is said of a refusal of no document, in a line of its own that is written in pieces.
fn refuses(alloc: Global, refusal: &Refusal, said: &str) -> Result<(), Fail> {
    let mut sink = MemorySink::new(alloc, 7, Vec::new(alloc));
    write_refusal(alloc, None, refusal, &mut sink)?;
    let line = format!(in alloc; "refused {said}\n")?;
    is_text(sink.bytes(), line.as_str())
}

#[test]
fn each_refusal_has_its_line(rt: HostRuntime) -> Result<(), Fail> {
    for (refusal, said) in &REFUSALS {
        refuses(rt.alloc(), refusal, said)?;
    }
    let place = Place {
        region: 2,
        index: 5,
    };
    refuses(
        rt.alloc(),
        &Refusal::Stale(NodeId(7), 1, place),
        "E12  entry 1 ",
    )
}

#[test]
fn each_limit_has_its_line(rt: HostRuntime) -> Result<(), Fail> {
    for (which, count, said) in &LIMITS {
        refuses(rt.alloc(), &Refusal::Limit(*which, *count), said)?;
    }
    Ok(())
}

// One region, named y.
fn one_region(alloc: Global) -> Result<Regions, Fail> {
    let region = Region {
        name: Text::of(alloc, "y")?,
        length: 9,
        pattern: Pattern::Const(0),
    };
    Ok(Items::of(vec![in alloc; region]?))
}

// A machine that has these regions, and this event alone on record.
fn told_of(alloc: Global, regions: &Regions, event: Event) -> Result<ScriptField, Fail>
    ensures { IfOk result (λ machine. AllPresent (flat_machine machine) regions.now) }
{
    let mut machine = ScriptField::empty(alloc);
    machine.load(regions, &Items::new(alloc))?;
    machine.tell(event)?;
    Ok(machine)
}

// That an event has this line in the record, where there is one region.
fn tells(alloc: Global, event: Event, line: &str) -> Result<(), Fail> {
    let tree = one_domain(alloc)?.ok_or("no tree")?;
    let regions = one_region(alloc)?;
    let machine = told_of(alloc, &regions, event)?;
    let sink = run_report(alloc, &tree, &regions, &machine)?;
    let words = "committed\nregion y 0 0 0 0 0 0 0 0 0\nbegins root 1\ntotal 1\nrecord\n";
    let report = format!(in alloc; "{words}{line}")?;
    is_text(sink.bytes(), report.as_str())
}

// An entry of domain 3 was preserved.
fn saved(how: Kept) -> Event {
    let node = NodeId(3);
    Event::Saved {
        node,
        entry: 2,
        how,
    }
}

// An entry of domain 3 was to have the word 7 in this place of the region, or of another that is not there.
fn fell(region: u32, index: u32) -> Event {
    Event::Fell {
        node: NodeId(3),
        entry: 2,
        place: Place { region, index },
        wanted: 7,
        found: u64::MAX,
    }
}

#[test]
fn events_of_entries_have_their_lines(rt: HostRuntime) -> Result<(), Fail> {
    let alloc = rt.alloc();
    let node = NodeId(3);
    tells(alloc, saved(Kept::Copy), "saved 3 2 copy\n")?;
    tells(alloc, saved(Kept::Refer), "saved 3 2 refer\n")?;
    tells(alloc, saved(Kept::Regen), "saved 3 2 regen\n")?;
    let present = "fell 3 2 y[5] wanted 7 found 18446744073709551615\n";
    tells(alloc, fell(0, 5), present)?;
    let nowhere = "fell 3 2 [0] wanted 7 found 18446744073709551615\n";
    tells(alloc, fell(1, 0), nowhere)?;
    let (entry, seen, found) = (1, 12, 13);
    let lapsed = Event::Lapsed {
        node,
        entry,
        seen,
        found,
    };
    tells(alloc, lapsed, "lapsed 3 1 seen 12 found 13\n")?;
    tells(alloc, Event::Refilled { node, entry }, "refilled 3 1\n")
}

#[test]
fn events_of_tries_have_their_lines(rt: HostRuntime) -> Result<(), Fail> {
    let alloc = rt.alloc();
    let node = NodeId(3);
    tells(
        alloc,
        Event::Begin {
            node,
            number: 4294967296,
        },
        "begin 3 4294967296\n",
    )?;
    tells(alloc, Event::Reached { node, point: 9 }, "reached 3 9\n")?;
    tells(alloc, Event::Complete { node }, "complete 3\n")?;
    tells(alloc, Event::Escalate { node }, "escalate 3\n")
}

#[test]
fn lines_of_their_own(rt: HostRuntime) -> Result<(), Fail> {
    let mut sink = MemorySink::new(rt.alloc(), 100, Vec::new(rt.alloc()));
    write_usage(&mut sink)?;
    write_read_fault(&mut sink)?;
    is_text(
        sink.bytes(),
        "usage: cd check|read|run|make|lift [--workers N] [--record] [--size N]\nread fault\n",
    )
}

#[test]
fn a_failing_write_leaves_the_front_of_a_line(rt: HostRuntime) -> Result<(), Fail> {
    let alloc = rt.alloc();
    let mut sink = MemorySink::new(alloc, 4, Vec::from_slice(alloc, &[3])?);
    assert_eq!(rt; write_read_fault(&mut sink), Err(WriteStop::Failed));
    is_text(sink.bytes(), "read fau")
}

// A program of one domain, with one kind.
fn one_domain(alloc: Global) -> Result<Option<Tree>, Fail> {
    let hard = KindName {
        name: Text::of(alloc, "hard")?,
        halts: true,
    };
    let root = Domain {
        name: Text::of(alloc, "root")?,
        parent: None,
        retry: 1,
        detects: Kinds::none(),
        entries: Items::new(alloc),
        items: Items::new(alloc),
    };
    let kinds = Items::of(vec![in alloc; hard]?);
    Ok(Tree::checked(kinds, Items::of(vec![in alloc; root]?)))
}

// A machine without regions, and with some events on record.
fn told(alloc: Global) -> Result<ScriptField, Fail> {
    let mut machine = ScriptField::empty(alloc);
    machine.begin(NodeId(0), 1)?;
    machine.saved(2, Kept::Refer)?;
    machine.halted(Kinds::none().with(Kind(0)))?;
    machine.found(Kinds::none())?;
    machine.escalate()?;
    Ok(machine)
}

// Whether a `u64` counts the events of a machine's record.
fn is_short<F: Field>(machine: &F) -> bool
    ensures { IsTrue result → length (F.model machine.now).events < 2 ^ 64 }
{
    machine.event(u64::MAX).is_none()
}

// The report of a run of the one domain, with the record of these events.
fn run_report(
    alloc: Global,
    tree: &Tree,
    regions: &Regions,
    machine: &ScriptField,
) -> Result<MemorySink, Fail>
    requires { AllPresent (flat_machine machine.now) regions.now }
{
    let begins = Begins::of(Vec::from_slice(alloc, &[1])?);
    let mut sink = MemorySink::new(alloc, 5, Vec::new(alloc));
    if tree.count() == 1 && is_short(machine) {
        write_run(
            alloc, tree, regions, machine, &begins, None, true, &mut sink,
        )?;
    }
    Ok(sink)
}

#[test]
fn a_report_with_its_record(rt: HostRuntime) -> Result<(), Fail> {
    let tree = one_domain(rt.alloc())?.ok_or("no tree")?;
    let machine = told(rt.alloc())?;
    let sink = run_report(rt.alloc(), &tree, &Items::new(rt.alloc()), &machine)?;
    is_text(
        sink.bytes(),
        "committed\nbegins root 1\ntotal 1\nrecord\nbegin 0 1\nsaved 0 2 refer\nhalted 0 hard\nfound 0 none\nescalate 0\n",
    )
}

#[test]
fn what_the_reading_gives(rt: HostRuntime) -> Result<(), Fail> {
    let tree = one_domain(rt.alloc())?.ok_or("no tree")?;
    let begins = Begins::of(Vec::from_slice(rt.alloc(), &[12])?);
    let mut sink = MemorySink::new(rt.alloc(), 5, Vec::new(rt.alloc()));
    if tree.count() == 1 {
        write_reading(rt.alloc(), &tree, &begins, None, &mut sink)?;
    }
    is_text(sink.bytes(), "committed\nbegins root 12\ntotal 12\n")
}
