// The blocks that a pass believes to be free. They only say where a search begins, so nothing is proved of them but what keeps
// them in their memory, and each is tested before it is used.
ghost use Rattle.std.specs.Prelude.{◌<◌};

use std::alloc::{AllocError, Global};

#[derive(Drop)]
pub(crate) struct Hints {
    free: Vec<u32>,
    last: u32,
}

impl Hints {
    // All blocks below `count`, the first to be given first. There is memory for as many.
    pub(crate) fn all(alloc: Global, count: u32) -> Result<Hints, AllocError> {
        let mut hints = Hints::none(alloc, count)?;
        for i in 0..count {
            hints.remember(count - 1 - i);
        }
        Ok(hints)
    }

    // None yet, with memory for `count`.
    pub(crate) fn none(alloc: Global, count: u32) -> Result<Hints, AllocError> {
        Ok(Hints {
            free: Vec::with_capacity(alloc, count as usize)?,
            last: 0,
        })
    }

    // A block to begin with: the latest that was remembered, else the one behind the one that was given before.
    pub(crate) fn next(&mut self, blocks: u32) -> u32
        requires { 0 < blocks }
        ensures { result < blocks }
    {
        let block = match self.free.pop() {
            Some(block) => block,
            None => self.last.wrapping_add(1),
        };
        self.last = if block < blocks { block } else { 0 };
        self.last
    }

    // A block that has become free. Where there is no memory for it, it is forgotten.
    pub(crate) fn remember(&mut self, block: u32) {
        if self.free.len() < self.free.capacity() {
            self.free.push_reserved(block);
        }
    }

    // The same, where it has.
    pub(crate) fn remember_if(&mut self, free: bool, block: u32) {
        if free {
            self.remember(block);
        }
    }

    // Gives another pass some of these.
    pub(crate) fn give(&mut self, other: &mut Hints, count: u32) {
        for _ in 0..count {
            if let Some(block) = self.free.pop() {
                other.remember(block);
            }
        }
        other.last = self.last;
    }

    // Takes another pass's.
    pub(crate) fn take(&mut self, mut other: Hints) {
        while let Some(block) = other.free.pop() {
            self.remember(block);
        }
    }
}
