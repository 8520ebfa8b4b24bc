// The reports of a run and of a reading.
ghost use Rattle.std.specs.Prelude.{◌≡◌, ◌<◌, ◌^◌, length, sum, IfOk, string_bytes};
ghost use Rattle.std.specs.Option.{option_copied};
ghost use Rattle.cd_base.specs.Ends.{WriteAll};
ghost use Rattle.cd_report.specs.Texts.{report_with, region_lines, reading_text, AllPresent};
ghost use Rattle.cd_report.specs.Records.{run_text};

use crate::begins::{add_begins, total_of};
use crate::outcome::add_outcome;
use crate::record::write_record;
use crate::regions::add_regions;
use cd_base::{Sink, WriteStop, write_all};
use cd_field::Field;
use cd_tree::{Begins, Cause, Regions, Tree};
use std::alloc::{AllocError, Global};

/// Writes the report of a run: what became of it, the regions' words, how often each domain began, and with the record
/// each of its events. The record's text is made in pieces, and never stands whole in memory.
pub fn write_run<F: Field, K: Sink>(
    alloc: Global,
    tree: &Tree,
    regions: &Regions,
    machine: &F,
    begins: &Begins,
    cause: Option<&Cause>,
    with_record: bool,
    sink: &mut K,
) -> Result<(), WriteStop>
    requires present { AllPresent (F.model machine.now) regions.now }
    requires counts { length begins.now ≡ length tree.now.domains }
    requires total { sum begins.now < 2 ^ 64 }
    requires short { length (F.model machine.now).events < 2 ^ 64 }
    ensures { WriteAll (K.model sink.old) (K.model sink.new) (run_text with_record tree.now regions.now (F.model machine.now).words (F.model machine.now).events begins.now (option_copied cause.entry)) result }
{
    let Ok(words) = regions_text(alloc, regions, machine) else {
        return Err(WriteStop::NoMemory);
    };
    let Ok(text) = report(alloc, tree, words.as_str(), begins, cause) else {
        return Err(WriteStop::NoMemory);
    };
    write_all(sink, text.as_bytes())?;
    if !with_record {
        return Ok(());
    }
    let count = tree.count();
    prove!(0 < count);
    write_record(alloc, tree.kinds(), regions.items(), machine, sink)
}

/// Writes what the reading gives: what becomes of the run, and how often each domain begins.
pub fn write_reading<K: Sink>(
    alloc: Global,
    tree: &Tree,
    begins: &Begins,
    cause: Option<&Cause>,
    sink: &mut K,
) -> Result<(), WriteStop>
    requires counts { length begins.now ≡ length tree.now.domains }
    requires total { sum begins.now < 2 ^ 64 }
    ensures { WriteAll (K.model sink.old) (K.model sink.new) (reading_text tree.now begins.now (option_copied cause.entry)) result }
{
    match report(alloc, tree, "", begins, cause) {
        Ok(text) => write_all(sink, text.as_bytes()),
        Err(_) => Err(WriteStop::NoMemory),
    }
}

/// The lines of the regions.
fn regions_text<F: Field>(
    alloc: Global,
    regions: &Regions,
    machine: &F,
) -> Result<String, AllocError>
    requires { AllPresent (F.model machine.now) regions.now }
    ensures { IfOk result (λ text. string_bytes text ≡ region_lines (F.model machine.now).words 0 regions.now) }
{
    let mut text = String::new(alloc);
    add_regions(alloc, regions.items(), machine, &mut text)?;
    Ok(text)
}

/// The report of a run, or of a reading, with these lines of regions.
fn report(
    alloc: Global,
    tree: &Tree,
    regions: &str,
    begins: &Begins,
    cause: Option<&Cause>,
) -> Result<String, AllocError>
    requires counts { length begins.now ≡ length tree.now.domains }
    requires total { sum begins.now < 2 ^ 64 }
    ensures { IfOk result (λ text. string_bytes text ≡ report_with regions.now tree.now begins.now (option_copied cause.entry)) }
{
    let count = tree.count();
    let mut text = String::new(alloc);
    add_outcome(alloc, tree, cause, &mut text)?;
    text.push_str(regions)?;
    add_begins(alloc, tree, begins, count, &mut text)?;
    text.push_str(&format!(in alloc; "total {}\n", total_of(begins, count))?)?;
    Ok(text)
}
