// Some of the words that several machines share, and room for a copy of them.
ghost use Rattle.std.specs.Prelude.{◌≡◌, ◌+◌, ◌≤◌, length, take, drop, vec_len, vec_capacity};
ghost use Rattle.std.specs.Arc.{arc_value};

use std::alloc::Global;
use std::sync::Arc;

/// Words of a shared list, from one on. The room for a copy is there from the start, so that making it takes no memory.
#[derive(Drop)]
pub(crate) struct SharedWords {
    pub(crate) all: Arc<Vec<u64>, Global>,
    pub(crate) first: usize,
    pub(crate) count: usize,
    pub(crate) room: Vec<u64>,
    ghost within: { first + count ≤ length (arc_value all).items },
    ghost empty: { vec_len room ≡ 0 },
    ghost enough: { count ≤ vec_capacity room },
}

/// The words.
#[inline(always)]
pub(crate) fn shared_list(shared: &SharedWords) -> &[u64]
    ensures { result.now ≡ take shared.now.count (drop shared.now.first (arc_value shared.now.all).items) }
{
    let all = shared.all.as_slice();
    &all[shared.first..shared.first + shared.count]
}

/// The words as a list of one's own: the shared list itself where nobody else has it, else a copy of them.
pub(crate) fn copy_of(shared: SharedWords) -> Vec<u64>
    ensures { result.items ≡ take shared.count (drop shared.first (arc_value shared.all).items) }
{
    let SharedWords {
        all,
        first,
        count,
        room,
    } = shared;
    if first == 0 && count == all.len() {
        match Arc::try_unwrap(all) {
            Ok(list) => list,
            Err(all) => copied(&all, first, count, room),
        }
    } else {
        copied(&all, first, count, room)
    }
}

fn copied(all: &[u64], first: usize, count: usize, mut room: Vec<u64>) -> Vec<u64>
    requires within { first + count ≤ length all.now }
    requires empty { vec_len room ≡ 0 }
    requires enough { count ≤ vec_capacity room }
    ensures { result.items ≡ take count (drop first all.now) }
{
    let copied: Result<_, _> = room.extend_from_slice(&all[first..first + count]);
    copied.unwrap();
    room
}
