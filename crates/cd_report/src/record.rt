// The record of a run, which is written piece by piece.
ghost use Rattle.std.specs.Prelude.{◌≡◌, ◌<◌, ◌≤◌, ◌-◌, ◌^◌, length, take, drop, IfOk, string_bytes};
ghost use Rattle.cd_tree.specs.Limits.{kinds_limit};
ghost use Rattle.cd_base.specs.Ends.{WriteAll};
ghost use Rattle.cd_report.specs.Records.{events_text, record_text};

use crate::events::add_event;
use cd_base::{NoMemory, Sink, WriteStop, write_all};
use cd_field::Field;
use cd_tree::{Event, KindName, Region};
use std::alloc::{AllocError, Global};

const HEAD: &str = "record\n";

// The most events whose text is made at once.
const PIECE: u64 = 4096;

/// Writes the record of a machine.
pub fn write_record<F: Field, K: Sink>(
    alloc: Global,
    kinds: &[KindName],
    regions: &[Region],
    machine: &F,
    sink: &mut K,
) -> Result<(), WriteStop>
    requires kinds { length kinds.now ≤ kinds_limit }
    requires short { length (F.model machine.now).events < 2 ^ 64 }
    ensures { WriteAll (K.model sink.old) (K.model sink.new) (record_text kinds.now regions.now (F.model machine.now).events) result }
{
    write_all(sink, HEAD.as_bytes())?;
    let mut from = 0u64;
    while machine.event(from).is_some() {
        let to = from.saturating_add(PIECE);
        let Ok(text) = events_between(alloc, kinds, regions, machine, from, to) else {
            return Err(WriteStop::NoMemory);
        };
        write_all(sink, text.as_bytes())?;
        from = to;
    }
    Ok(())
}

/// The lines of a machine's events from one number to below another.
fn events_between<F: Field>(
    alloc: Global,
    kinds: &[KindName],
    regions: &[Region],
    machine: &F,
    from: u64,
    to: u64,
) -> Result<String, NoMemory>
    requires { length kinds.now ≤ kinds_limit }
    ensures { IfOk result (λ text. string_bytes text ≡ events_text kinds.now regions.now (take (to - from) (drop from (F.model machine.now).events))) }
{
    let mut events = Vec::new(alloc);
    machine.events(from, to, &mut events)?;
    let text = lines_of(alloc, kinds, regions, events.as_slice())?;
    Ok(text)
}

/// The lines of some events.
fn lines_of(
    alloc: Global,
    kinds: &[KindName],
    regions: &[Region],
    events: &[Event],
) -> Result<String, AllocError>
    requires { length kinds.now ≤ kinds_limit }
    ensures { IfOk result (λ text. string_bytes text ≡ events_text kinds.now regions.now events.now) }
{
    let mut text = String::new(alloc);
    for event in events {
        add_event(alloc, kinds, regions, *event, &mut text)?;
    }
    Ok(text)
}
