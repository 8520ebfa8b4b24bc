// What is made of all words of a range, taken in blocks.
ghost use Rattle.std.specs.Prelude.{◌≡◌, ◌+◌, ◌<◌, ◌≤◌, length};
ghost use Rattle.cd_tree.specs.Operations.{length_of};
ghost use Rattle.cd_kernel.specs.Computing.{gathered, gathered_on, CanGather, IsHere};

use crate::lists::{add_all, add_products, greatest_with};
use crate::words::run_from;
use cd_base::Range;
use cd_field::Field;

/// So many words are computed at a time.
pub(crate) const BLOCK: usize = 256;

/// How many words the block has that begins at one of so many.
pub(crate) fn block_length(at: u32, count: u32) -> u32
    requires { at < count }
    ensures some { 0 < result }
    ensures few { result ≤ 256 }
    ensures within { at + result ≤ count }
{
    (count - at).min(BLOCK as u32)
}

/// What is made of all words of a range: their sum, the sum of their products with those of another, or the greatest of them.
#[derive(Debug, Clone, Copy)]
pub(crate) enum Gathering {
    Adding,
    Multiplying(Range),
    Comparing,
}

/// What is made of all words of a range, a block at a time.
pub(crate) fn gather<F: Field>(gathering: Gathering, x: Range, field: &F) -> u64
    requires here { IsHere (F.model field.now) x }
    requires both { CanGather (F.model field.now) x gathering }
    ensures { result ≡ gathered gathering (F.model field.now).words x (length_of x) }
{
    let count = x.high.saturating_sub(x.low);
    let mut room = [0; BLOCK];
    let mut other = [0; BLOCK];
    let mut so_far = 0u64;
    let mut at = 0;
    while at < count {
        let length = block_length(at, count);
        let end = length as usize;
        so_far = gather_block(
            gathering,
            so_far,
            x,
            at,
            &mut room[..end],
            &mut other[..end],
            field,
        );
        at += length;
    }
    so_far
}

// The same goes on over as many words from one on as the rooms have.
fn gather_block<F: Field>(
    gathering: Gathering,
    so_far: u64,
    x: Range,
    at: u32,
    room: &mut [u64],
    other: &mut [u64],
    field: &F,
) -> u64
    requires inside { at + length room.old ≤ length_of x }
    requires same { length room.old ≡ length other.old }
    requires here { IsHere (F.model field.now) x }
    requires both { CanGather (F.model field.now) x gathering }
    ensures { result ≡ gathered_on gathering (F.model field.now).words x at so_far (length room.old) }
{
    let xs = run_from(x, at, room, field);
    match gathering {
        Gathering::Adding => add_all(so_far, xs),
        Gathering::Multiplying(z) => add_products(so_far, xs, run_from(z, at, other, field)),
        Gathering::Comparing => greatest_with(so_far, xs),
    }
}
