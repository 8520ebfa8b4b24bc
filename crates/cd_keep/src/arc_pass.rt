// A pass whose words stand behind shared pointers.
ghost use Rattle.std.specs.Prelude.{◌≡◌, ◌+◌, ◌<◌, ◌≤◌, ◌^◌, None, length, IfOk, IsOk, IsSome, OnErr};
ghost use Rattle.cd_keep.specs.PassModel.{AreShort, IsPiece, kept};
ghost use Rattle.cd_keep.specs.Kept.{known_of};
ghost use Rattle.cd_keep.specs.Holding.{AreKnown};

use crate::holds::Holds;
use crate::kept::Kept;
use crate::{GoneNote, KeepId, Pass};
use cd_base::NoMemory;
use std::alloc::Global;
use std::sync::Wait;

/// A pass whose words stay as long as a pass that has seen them does. Its `share` never answers Gone, and its `keep` does
/// not wait: it is `keep_at_once`.
///
/// A split copies no words, and takes one pointer: to the list of the layers that relatives share. What was kept since the
/// last split becomes a layer before; then a list that another pass still has is copied, one pointer for each layer.
///
/// An id is new to the pass that keeps, and says nothing to one that has not seen it: two passes that were split off from
/// one may give the same id to different words.
#[derive(Drop)]
pub struct ArcPass {
    kept: Kept,
    holds: Holds,
    room: u32,
    most: u32,
    ghost within: { length holds.ids + room ≤ most },
    ghost few: { most < 2 ^ 32 },
    ghost short: { AreShort (known_of kept) },
    ghost known: { AreKnown (known_of kept) holds.ids },
}

#[tactic(auto, unfolding(crate::specs::Arcs::model_of))]
impl ArcPass {
    ghost use Rattle.cd_keep.specs.PassModel.{opened};
    ghost use Rattle.cd_keep.specs.Arcs.{model_of};

    /// A pass that holds and has seen nothing, with this room. All such passes are of one store.
    pub fn open(alloc: Global, room: u32) -> Result<ArcPass, NoMemory>
        ensures { IfOk result (λ pass. model_of pass ≡ opened 0 room) }
    {
        Ok(ArcPass {
            kept: Kept::none(alloc),
            holds: Holds::none(),
            room,
            most: room,
        })
    }

    /// What `keep` does, in a call that cannot wait.
    pub fn keep_at_once(&mut self, words: &[u64]) -> Result<KeepId, NoMemory>
        requires piece { IsPiece words.now }
        requires room { 0 < (model_of self.old).room }
        ensures new { IfOk result (λ id. (model_of self.old).known id ≡ None) }
        ensures kept { IfOk result (λ id. model_of self.new ≡ kept (model_of self.old) id words.now) }
        ensures unchanged { OnErr result (model_of self.new ≡ model_of self.old) }
    {
        let id = self.kept.keep(words)?;
        self.holds = self.holds.more(id);
        self.room -= 1;
        Ok(id)
    }
}

#[tactic(auto, unfolding(crate::specs::Arcs::model_of))]
impl Pass for ArcPass {
    ghost use Rattle.cd_keep.specs.PassModel.{shared};
    ghost use Rattle.cd_keep.specs.Arcs.{model_of, held_within_most, most_is_few, words_are_short};

    ghost model = { model_of };

    ghost within = { held_within_most };

    ghost few = { most_is_few };

    ghost short = { words_are_short };

    fn keep<R: Wait>(&mut self, _rt: &R, words: &[u64]) -> Result<KeepId, NoMemory> {
        self.keep_at_once(words)
    }

    fn split(&mut self, room: u32) -> Result<Self, NoMemory> {
        let child = ArcPass {
            kept: self.kept.seen()?,
            holds: Holds::none(),
            room,
            most: self.most,
        };
        self.room -= room;
        Ok(child)
    }

    fn share(&mut self, seen: KeepId) -> Result<(), GoneNote>
        requires known { IsSome ((model_of self.old).known seen) }
        requires room { 0 < (model_of self.old).room }
        ensures never_gone { IsOk result }
        ensures held { model_of self.new ≡ shared (model_of self.old) seen }
    {
        self.holds = self.holds.more(seen);
        self.room -= 1;
        Ok(())
    }

    fn word(&mut self, id: KeepId, i: u32) -> u64 {
        self.kept.words(id)[i as usize]
    }

    fn fetch(&mut self, id: KeepId, into: &mut [u64]) {
        into.copy_from_slice(self.kept.words(id));
    }

    fn give_up(&mut self, id: KeepId) {
        self.holds = self.holds.fewer(id);
        self.room += 1;
    }

    fn join(&mut self, child: Self) {
        self.room += child.room;
    }
}
