// The words of a range by their number, and in runs.
ghost use Rattle.std.specs.Prelude.{◌≡◌, ℕ, ◌+◌, ◌<◌, ◌≤◌, ◌∷◌, [], length, slice_index, IfSome};
ghost use Rattle.cd_tree.specs.Operations.{length_of, nth_word};
ghost use Rattle.cd_field.specs.FieldModel.{FieldModel, ArePresent, words_in, wrote_run};
ghost use Rattle.cd_kernel.specs.Computing.{IsHere, nth_place, run_of};

use cd_base::{Place, Range};
use cd_field::Field;

/// The i-th word of a range.
pub(crate) fn read_nth<F: Field>(range: Range, i: u32, field: &F) -> u64
    requires inside { i < length_of range }
    requires here { IsHere (F.model field.now) range }
    ensures { result ≡ nth_word (F.model field.now).words range i }
{
    field.read(nth(range, i))
}

// The i-th place of a range.
fn nth(range: Range, i: u32) -> Place
    requires { i < length_of range }
    ensures { result ≡ nth_place range i }
{
    Place {
        region: range.region,
        index: range.low + i,
    }
}

/// The words of a range, where the machine lends them.
pub(crate) fn lent<F: Field>(range: Range, field: &F) -> Option<&[u64]>
    requires { IsHere (F.model field.now) range }
    ensures { IfSome result (λ words. words.now ≡ words_in (F.model field.now).words range) }
{
    field.lent(range)
}

/// The words of a range from one on, as many as the list takes, into it.
pub(crate) fn read_from<F: Field>(range: Range, at: u32, words: &mut [u64], field: &F)
    requires inside { at + length words.old ≤ length_of range }
    requires here { IsHere (F.model field.now) range }
    ensures { (j : ℕ) → j < length words.new → slice_index words.new j ≡ nth_word (F.model field.now).words range (at + j) }
{
    field.read_run(part(range, at, words.len() as u32), words);
}

/// The words of a range from one on, as many as the room has.
pub(crate) fn run_from<'a, F: Field>(
    range: Range,
    at: u32,
    room: &'a mut [u64],
    field: &'a F,
) -> &'a [u64]
    requires inside { at + length room.old ≤ length_of range }
    requires here { IsHere (F.model field.now) range }
    ensures long { length result.now ≡ length room.old }
    ensures words { (j : ℕ) → j < length result.now → slice_index result.now j ≡ nth_word (F.model field.now).words range (at + j) }
{
    field.run(part(range, at, room.len() as u32), room)
}

/// Changes the words of a range from one on to those of a list.
pub(crate) fn write_from<F: Field>(range: Range, at: u32, words: &[u64], field: &mut F)
    requires inside { at + length words.now ≤ length_of range }
    requires here { IsHere (F.model field.old) range }
    ensures { F.model field.new ≡ wrote_run (F.model field.old) (run_of range at (length words.now)) words.now }
{
    field.write_run(part(range, at, words.len() as u32), words);
}

// So many places of a range from one on. Where the range is there, so are they.
fn part(range: Range, at: u32, count: u32) -> Range
    requires { at + count ≤ length_of range }
    ensures run { result ≡ run_of range at count }
    ensures long { count ≡ length_of result }
    ensures present { (m : FieldModel) → IsHere m range → ArePresent m (result ∷ []) }
{
    let low = range.low + at;
    Range {
        region: range.region,
        low,
        high: low + count,
    }
}
