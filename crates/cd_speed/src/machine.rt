// Turns of an operation on the shipped machine, and on a part of it.
ghost use Rattle.std.specs.Prelude.{◌∷◌, All, IfOk, OnOk};
ghost use Rattle.cd_tree.specs.Operations.{op_reads, op_writes, FitsShape, IsFull};
ghost use Rattle.cd_speed.specs.Timed.{HasRegions, IsInside};

use crate::operations::{COUNT, LENGTH, is_inside, regions};
use cd_base::{Items, NoMemory, Place, Places, Range};
use cd_field::{Field, ScriptField};
use cd_kernel::apply;
use cd_tree::{Op, fits, is_full};
use std::alloc::Global;

const TWO_WORDS: [Range; 2] = [
    Range {
        region: 0,
        low: 0,
        high: 1,
    },
    Range {
        region: 0,
        low: 2,
        high: 3,
    },
];

/// The regions that operations use.
pub(crate) const FIVE_REGIONS: [Range; 5] = [
    Range {
        region: 1,
        low: 0,
        high: LENGTH,
    },
    Range {
        region: 2,
        low: 0,
        high: LENGTH,
    },
    Range {
        region: 3,
        low: 0,
        high: LENGTH,
    },
    Range {
        region: 4,
        low: 0,
        high: LENGTH,
    },
    Range {
        region: 5,
        low: 0,
        high: LENGTH,
    },
];

/// Runs an operation so many times, each time on another word first. Gives a sum of words that it wrote; none where the
/// operation does not have its shape.
pub(crate) fn sum_of_turns(alloc: Global, op: Op, turns: u32) -> Result<Option<u64>, NoMemory> {
    if !is_full(&op) || !fits(&op) || !is_inside(&op) {
        return Ok(None);
    }
    let mut field = ScriptField::empty(alloc);
    load(alloc, &mut field)?;
    Ok(Some(sum_on(&mut field, &op, turns)))
}

/// The same on a part that is carved out of the machine.
pub(crate) fn sum_of_part(alloc: Global, op: Op, turns: u32) -> Result<Option<u64>, NoMemory> {
    if !is_full(&op) || !fits(&op) || !is_inside(&op) {
        return Ok(None);
    }
    let mut field = ScriptField::empty(alloc);
    load(alloc, &mut field)?;
    let mut part = carved(alloc, &mut field)?;
    Ok(Some(sum_on(&mut part, &op, turns)))
}

/// Loads the regions.
pub(crate) fn load<F: Field>(alloc: Global, field: &mut F) -> Result<(), NoMemory>
    ensures { OnOk result (HasRegions (F.model field.new) 0) }
{
    field.load(&regions(alloc)?, &Items::new(alloc))?;
    Ok(())
}

/// A part with the regions that operations use, and two words of the first region that do not touch: so no region is the
/// part's range of its own number.
pub(crate) fn carved<F: Field>(alloc: Global, field: &mut F) -> Result<F, NoMemory>
    requires { HasRegions (F.model field.old) 0 }
    ensures { IfOk result (λ part. HasRegions (F.model part) 1) }
{
    let reads = Places::of(alloc, &TWO_WORDS)?;
    let writes = Places::of(alloc, &FIVE_REGIONS)?;
    field.carve(&reads, &writes)
}

fn sum_on<F: Field>(field: &mut F, op: &Op, turns: u32) -> u64
    requires loaded { HasRegions (F.model field.old) 1 }
    requires full { All IsFull (op_writes op.now ∷ op_reads op.now) }
    requires shape { FitsShape op.now }
    requires inside { All (IsInside 1) (op_writes op.now ∷ op_reads op.now) }
{
    let mut sum = 0u64;
    for turn in 0..turns {
        sum = sum.wrapping_add(turn_on(field, op, turn));
    }
    sum
}

fn turn_on<F: Field>(field: &mut F, op: &Op, turn: u32) -> u64
    requires loaded { HasRegions (F.model field.old) 1 }
    requires full { All IsFull (op_writes op.now ∷ op_reads op.now) }
    requires shape { FitsShape op.now }
    requires inside { All (IsInside 1) (op_writes op.now ∷ op_reads op.now) }
    ensures { HasRegions (F.model field.new) 1 }
{
    let index = turn % COUNT;
    field.write(Place { region: 2, index }, u64::from(turn));
    apply(op, field);
    field.read(Place { region: 1, index })
}
