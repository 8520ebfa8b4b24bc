// A machine's hulls, one for each region by its number: one of them changed.
ghost use Rattle.std.specs.Prelude.{◌≡◌, ◌+◌, ◌<◌, ◌≤◌, length, OnOk, OnErr};
ghost use Rattle.cd_field.specs.Hulls.{hull_at, with_hull, HasIndex, HasRun, word_in, run_in, changed, run_laid, cleared, run_cleared, run_marked};

use crate::hull::Hull;
use cd_base::{NoMemory, Place, Range};

/// The word of a place.
#[inline(always)]
pub(crate) fn word_of(hulls: &[Hull], place: Place) -> u64
    requires { HasIndex (hull_at hulls.now place.region) place.index }
    ensures { result ≡ word_in (hull_at hulls.now place.region) place.index }
{
    hulls[place.region as usize].word(place.index)
}

/// Changes the word of a place.
#[inline(always)]
pub(crate) fn set_word(hulls: &mut Vec<Hull>, place: Place, word: u64)
    requires { HasIndex (hull_at hulls.old.items place.region) place.index }
    ensures { hulls.new.items ≡ with_hull hulls.old.items place.region (changed (hull_at hulls.old.items place.region) place.index word) }
{
    hulls[place.region as usize].set(place.index, word);
}

/// The words of a range.
#[inline(always)]
pub(crate) fn run_of(hulls: &[Hull], range: Range) -> &[u64]
    requires full { range.low < range.high }
    requires run { HasRun (hull_at hulls.now range.region) range.low range.high }
    ensures { result.now ≡ run_in (hull_at hulls.now range.region) range.low range.high }
{
    hulls[range.region as usize].run(range.low, range.high)
}

/// Changes the words of a range.
#[inline(always)]
pub(crate) fn lay_run(hulls: &mut Vec<Hull>, range: Range, run: &[u64])
    requires full { range.low < range.high }
    requires run { HasRun (hull_at hulls.old.items range.region) range.low range.high }
    requires long { range.low + length run.now ≡ range.high }
    ensures { hulls.new.items ≡ with_hull hulls.old.items range.region (run_laid (hull_at hulls.old.items range.region) range.low run.now) }
{
    hulls[range.region as usize].lay(range.low, run);
}

/// The word of a place is here.
#[inline(always)]
pub(crate) fn clear_word(hulls: &mut Vec<Hull>, place: Place)
    requires { HasIndex (hull_at hulls.old.items place.region) place.index }
    ensures { hulls.new.items ≡ with_hull hulls.old.items place.region (cleared (hull_at hulls.old.items place.region) place.index) }
{
    hulls[place.region as usize].clear(place.index);
}

/// The words of a range are here.
pub(crate) fn clear_run(hulls: &mut Vec<Hull>, range: Range)
    requires full { range.low < range.high }
    requires run { HasRun (hull_at hulls.old.items range.region) range.low range.high }
    ensures { hulls.new.items ≡ with_hull hulls.old.items range.region (run_cleared (hull_at hulls.old.items range.region) range.low range.high) }
{
    hulls[range.region as usize].clear_run(range.low, range.high);
}

/// The words of a range are away.
pub(crate) fn mark_run(hulls: &mut Vec<Hull>, range: Range) -> Result<(), NoMemory>
    requires full { range.low < range.high }
    requires run { HasRun (hull_at hulls.old.items range.region) range.low range.high }
    ensures marked { OnOk result (hulls.new.items ≡ with_hull hulls.old.items range.region (run_marked (hull_at hulls.old.items range.region) range.low range.high)) }
    ensures unchanged { OnErr result (hulls.new.items ≡ with_hull hulls.old.items range.region (hull_at hulls.old.items range.region)) }
{
    hulls[range.region as usize].mark_run(range.low, range.high)?;
    Ok(())
}
