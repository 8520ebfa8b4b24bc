// Parts of the shipped machine that are carved out, changed and taken back.
ghost use Rattle.std.specs.Prelude.{◌≡◌, All, length, OnOk};
ghost use Rattle.cd_tree.specs.Operations.{length_of};
ghost use Rattle.cd_field.specs.FieldModel.{ArePresent};
ghost use Rattle.cd_speed.specs.Timed.{AreWithin, HasRegions, LieInRegions, Stays};

use cd_base::{NoMemory, Places, Range};
use cd_field::Field;

/// Carves a part out that reads some places and writes others, changes the words of each of some ranges in it to the same
/// words, and takes it back.
pub(crate) fn hand_over<F: Field>(
    field: &mut F,
    reads: &Places,
    writes: &Places,
    changed: &[Range],
    words: &[u64],
) -> Result<(), NoMemory>
    requires loaded { HasRegions (F.model field.old) 0 }
    requires reads { LieInRegions reads.now }
    requires writes { LieInRegions writes.now }
    requires changed { AreWithin changed.now reads.now writes.now }
    requires long { All (λ range. length_of range ≡ length words.now) changed.now }
    ensures { OnOk result (HasRegions (F.model field.new) 0) }
{
    let mut part = field.carve(reads, writes)?;
    change_each(&mut part, changed, words);
    field.absorb(part, true)?;
    Ok(())
}

fn change_each<F: Field>(part: &mut F, ranges: &[Range], words: &[u64])
    requires present { ArePresent (F.model part.old) ranges.now }
    requires long { All (λ range. length_of range ≡ length words.now) ranges.now }
    ensures { Stays (F.model part.old) (F.model part.new) }
{
    for range in ranges {
        part.write_run(*range, words);
    }
}
