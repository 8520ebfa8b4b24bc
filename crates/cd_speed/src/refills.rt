// Turns in which the words of a region are put back by one run.
ghost use Rattle.std.specs.Prelude.{◌≡◌, ◌<◌, length};
ghost use Rattle.cd_speed.specs.Timed.{HasRegions};

use crate::machine::{carved, load};
use crate::operations::COUNT;
use cd_base::{NoMemory, Place, Range};
use cd_field::{Field, ScriptField};
use std::alloc::Global;

const REGION: Range = Range {
    region: 1,
    low: 0,
    high: COUNT,
};

/// On a whole machine, or on a part of it.
pub(crate) fn sum_of_refills(alloc: Global, part: bool, turns: u32) -> Result<u64, NoMemory> {
    let mut field = ScriptField::empty(alloc);
    load(alloc, &mut field)?;
    let words = vec![in alloc; 7; COUNT as usize]?;
    if part {
        let mut part = carved(alloc, &mut field)?;
        Ok(refill_turns(&mut part, &words, turns))
    } else {
        Ok(refill_whole(&mut field, &words, turns))
    }
}

fn refill_whole<F: Field>(field: &mut F, words: &[u64], turns: u32) -> u64
    requires loaded { HasRegions (F.model field.old) 0 }
    requires long { length words.now ≡ 330000 }
{
    refill_turns(field, words, turns)
}

fn refill_turns<F: Field>(field: &mut F, words: &[u64], turns: u32) -> u64
    requires loaded { HasRegions (F.model field.old) 1 }
    requires long { length words.now ≡ 330000 }
{
    let mut sum = 0u64;
    for turn in 0..turns {
        sum = sum.wrapping_add(refill_and_read(field, words, turn % COUNT));
    }
    sum
}

fn refill_and_read<F: Field>(field: &mut F, words: &[u64], index: u32) -> u64
    requires loaded { HasRegions (F.model field.old) 1 }
    requires long { length words.now ≡ 330000 }
    requires within { index < 330000 }
    ensures { HasRegions (F.model field.new) 1 }
{
    field.write(Place { region: 1, index }, 0);
    field.refill_run(REGION, words);
    field.read(Place { region: 1, index })
}
