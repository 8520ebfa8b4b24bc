//! Parts of a machine with the board, which go out and come back.

ghost use Rattle.std.specs.Prelude.{◌<◌, OnOk, IfOk};
ghost use Rattle.cd_parts_tests.specs.Trials.{IsReady, IsSame, HasLent, MayComeBack};

use super::board::{place, places, two_from, whole_board};
use cd_base::Places;
use cd_field::Field;
use cd_tree::NodeId;
use std::alloc::Global;
use std::test::Fail;

/// A part that reads the whole board and was carved to write nothing.
pub(crate) fn part_of_board<F: Field>(field: &mut F, alloc: Global) -> Result<F, Fail>
    requires { IsReady (F.model field.old) }
    ensures part { IfOk result (λ part. IsReady (F.model part)) }
    ensures rest { OnOk result (IsReady (F.model field.new)) }
{
    let reads = whole_board(alloc)?;
    let none = Places::new(alloc);
    let part = field.carve(&reads, &none)?;
    Ok(part)
}

/// A part that has the whole board, and shares it but for one word, which is its to write.
pub(crate) fn part_to_write<F: Field>(field: &mut F, alloc: Global, index: u32) -> Result<F, Fail>
    requires ready { IsReady (F.model field.old) }
    requires within { index < 4 }
    ensures ready { IfOk result (λ part. IsReady (F.model part)) }
    ensures mine { IfOk result (λ part. MayComeBack (F.model field.new) (F.model part) index) }
    ensures lent { OnOk result (HasLent (F.model field.new) index) }
    ensures same { OnOk result (IsSame (F.model field.old) (F.model field.new)) }
{
    let reads = whole_board(alloc)?;
    let writes = places(alloc, index, index + 1)?;
    let part = field.carve(&reads, &writes)?;
    Ok(part)
}

/// A part comes back with commit, or without, and then this word is put back.
pub(crate) fn come_back<F: Field>(
    field: &mut F,
    part: F,
    index: u32,
    word: Option<u64>,
) -> Result<(), Fail>
    requires within { index < 4 }
    requires lent { HasLent (F.model field.old) index }
    requires ready { IsReady (F.model part) }
    requires mine { MayComeBack (F.model field.old) (F.model part) index }
    ensures ready { OnOk result (IsReady (F.model field.new)) }
    ensures same { OnOk result (IsSame (F.model field.old) (F.model field.new)) }
{
    match word {
        None => field.absorb(part, true)?,
        Some(word) => {
            field.absorb(part, false)?;
            field.refill(place(index), word);
        }
    }
    Ok(())
}

/// A part has two words from one on, and two to write from another on. It changes the first of these, tells of it and comes
/// back, with commit, or without, and then both are put back.
pub(crate) fn hand_over<F: Field>(
    field: &mut F,
    alloc: Global,
    low: u32,
    index: u32,
    word: u64,
    commit: bool,
) -> Result<(), Fail>
    requires ready { IsReady (F.model field.old) }
    requires reads { low < 3 }
    requires writes { index < 3 }
    ensures { OnOk result (IsReady (F.model field.new)) }
{
    let reads = places(alloc, low, low + 2)?;
    let writes = places(alloc, index, index + 2)?;
    let mut part = field.carve(&reads, &writes)?;
    part.begin(NodeId(1), word)?;
    part.write(place(index), word);
    part.complete()?;
    field.absorb(part, commit)?;
    if !commit {
        field.refill_run(two_from(index), &[word, !word]);
    }
    Ok(())
}
