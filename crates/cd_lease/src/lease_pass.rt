// A pass whose words stand in blocks that all passes of its store share.
ghost use Rattle.std.specs.Prelude.{◌≡◌, ◌<◌, ◌≤◌, [], None, Some, length, slice_get, IfOk, IsOk, IsSome, OnErr, OnOk, MatchResult};
ghost use Rattle.std.specs.Arc.{arc_value};
ghost use Rattle.cd_keep.specs.PassModel.{IsPiece};
ghost use Rattle.cd_lease.specs.Seats.{IsAt};
ghost use Rattle.cd_lease.specs.Passes.{Rests, IsSize};
ghost use Rattle.cd_lease.specs.IdProps.{id_props};

use crate::hints::Hints;
use crate::passing::{give_back, part, share, take_back};
use crate::rule::{BLOCK_WORDS, Blocks, Place, Size};
use crate::steps::{let_go, read};
use crate::trying::{keep_in, serial_part};
use atomic_table::Table;
use cd_base::NoMemory;
use cd_keep::{GoneNote, KeepId, Pass};
use std::alloc::Global;
use std::sync::{Arc, Wait};
use std::thread;

/// What a try to keep words comes to.
#[derive(Debug, Clone, Copy, PartialEq, Eq)]
pub enum Try {
    Kept(KeepId),
    NotYet,
}

/// A pass over one table of blocks of 64 words, which all passes that were split off from one share. What it holds stays in
/// its block, whatever the others do; what it has seen may be gone. Only `keep` waits, until a block is free; none of its
/// calls but `open` and `split` takes memory.
#[derive(Drop)]
pub struct LeasePass {
    table: Arc<Blocks, Global>,
    seat: Place,
    blocks: u32,
    hints: Hints,
    alloc: Global,
    ghost at: { IsAt (arc_value table).shared.table_id seat.table_id (arc_value table).shared.key } by { Prim.hlevel id_props },
    ghost size: { IsSize (arc_value table).shared.key },
    ghost counted: { blocks ≡ (arc_value table).shared.key.blocks },
    ghost rests: { Rests (arc_value table).shared.key seat.me.0 },
    ghost bare: { length seat.me.1 ≡ 0 },
}

#[tactic(auto, unfolding(crate::specs::Leases::model_of))]
impl LeasePass {
    ghost use Rattle.cd_keep.specs.PassModel.{opened, kept};
    ghost use Rattle.cd_lease.specs.Steps.{newcomer};
    ghost use Rattle.cd_lease.specs.Leases.{model_of, view_of, size_of, Tries, KeepsTried};

    /// A pass over a new table of so many blocks, whose serials are 0. It holds and has seen nothing, and has this room.
    pub fn open(alloc: Global, blocks: u32, room: u32) -> Result<LeasePass, NoMemory>
        requires some { 0 < blocks }
        requires few { blocks ≤ 65536 }
        requires room { room ≤ 65536 }
        ensures model { IfOk result (λ pass. model_of pass ≡ opened (model_of pass).store room) }
        ensures view { IfOk result (λ pass. view_of pass ≡ newcomer [] room) }
        ensures size { IfOk result (λ pass. size_of pass ≡ record { blocks = blocks; most = room }) }
    {
        let size = Size { blocks, most: room };
        let words = vec![in alloc; 0; BLOCK_WORDS * blocks as usize]?;
        let (table, seat) = Table::of_words(alloc, words.as_slice(), &size)?;
        let table = Arc::new(alloc, table)?;
        let hints = Hints::all(alloc, blocks.min(room))?;
        Ok(LeasePass {
            table,
            seat,
            blocks,
            hints,
            alloc,
        })
    }

    /// Keeps words if a block is free as it is met. Each block is met at most once, from the one that this pass gave up last on.
    pub fn try_keep(&mut self, words: &[u64]) -> Try
        requires piece { IsPiece words.now }
        requires room { 0 < (model_of self.old).room }
        ensures view { Tries (size_of self.old).blocks (view_of self.old) (view_of self.new) words.now result }
        ensures model { KeepsTried (model_of self.old) (model_of self.new) words.now result }
        ensures size { size_of self.new ≡ size_of self.old }
    {
        let start = self.hints.next(self.blocks);
        match keep_in(
            &self.table.shared,
            &mut self.seat,
            self.blocks,
            start,
            words,
        ) {
            Some(id) => Try::Kept(id),
            None => Try::NotYet,
        }
    }
}

#[tactic(auto, unfolding(crate::specs::Leases::model_of))]
impl Pass for LeasePass {
    ghost use Rattle.cd_keep.specs.PassModel.{CanJoin, words_of, kept, shared, lapsed, gave_up, child_of, without, joined};
    ghost use Rattle.cd_lease.specs.Steps.{leaving, newcomer, joining};
    ghost use Rattle.cd_lease.specs.Steps.{without as view_without};
    ghost use Rattle.cd_lease.specs.Leases.{model_of, view_of, SharesIn, KeepsAt, held_within_most, most_is_few, words_are_short};

    ghost model = { model_of };

    ghost within = { held_within_most };

    ghost few = { most_is_few };

    ghost short = { words_are_short };

    // It never answers want of memory.
    fn keep<R: Wait>(&mut self, rt: &R, words: &[u64]) -> Result<KeepId, NoMemory>
        requires piece { IsPiece words.now }
        requires room { 0 < (model_of self.old).room }
        ensures done { IsOk result }
        ensures new { IfOk result (λ id. (model_of self.old).known id ≡ None) }
        ensures kept { IfOk result (λ id. model_of self.new ≡ kept (model_of self.old) id words.now) }
        ensures view { IfOk result (λ id. KeepsAt (view_of self.old) (view_of self.new) words.now id) }
        ensures unchanged { OnErr result (model_of self.new ≡ model_of self.old) }
    {
        for _ in rt.forever() {
            if let Try::Kept(id) = self.try_keep(words) {
                return Ok(id);
            }
            thread::yield_now();
        }
        unreachable!()
    }

    fn split(&mut self, room: u32) -> Result<Self, NoMemory>
        requires { room ≤ (model_of self.old).room }
        ensures child { IfOk result (λ child. model_of child ≡ child_of (model_of self.old) room) }
        ensures rest { OnOk result (model_of self.new ≡ without (model_of self.old) room) }
        ensures unchanged { OnErr result (model_of self.new ≡ model_of self.old) }
        ensures child_view { IfOk result (λ child. view_of child ≡ newcomer (view_of self.old).known room) }
        ensures view { OnOk result (view_of self.new ≡ view_without (view_of self.old) room) }
    {
        let table = Arc::try_clone(&self.table)?;
        let mut hints = Hints::none(self.alloc, room)?;
        self.hints.give(&mut hints, room);
        let seat = part(&self.table.shared, &mut self.seat, room);
        Ok(LeasePass {
            table,
            seat,
            blocks: self.blocks,
            hints,
            alloc: self.alloc,
        })
    }

    // Gone comes only where the word that was read here had the serial found, which is past the one asked for.
    fn share(&mut self, seen: KeepId) -> Result<(), GoneNote>
        requires known { IsSome ((model_of self.old).known seen) }
        requires room { 0 < (model_of self.old).room }
        ensures model { MatchResult result (λ _. model_of self.new ≡ shared (model_of self.old) seen) (λ note. model_of self.new ≡ lapsed (model_of self.old) seen note) }
        ensures view { SharesIn (view_of self.old) (view_of self.new) seen result }
    {
        let word = share(&self.table.shared, &mut self.seat, seen);
        match GoneNote::of(seen.serial, serial_part(word)) {
            None => Ok(()),
            Some(note) => {
                give_back(&self.table.shared, &mut self.seat, seen.block);
                Err(note)
            }
        }
    }

    fn word(&mut self, id: KeepId, i: u32) -> u64
        requires held { 0 < (model_of self.old).holds id }
        requires within { i < length (words_of (model_of self.old) id) }
        ensures word { slice_get (words_of (model_of self.old) id) i ≡ Some result }
        ensures same { model_of self.new ≡ model_of self.old }
        ensures view { view_of self.new ≡ view_of self.old }
    {
        read(&self.table.shared, &mut self.seat, id, i as usize)
    }

    fn give_up(&mut self, id: KeepId)
        requires { 0 < (model_of self.old).holds id }
        ensures model { model_of self.new ≡ gave_up (model_of self.old) id }
        ensures view { view_of self.new ≡ leaving (view_of self.old) id }
    {
        let free = let_go(&self.table.shared, &mut self.seat, id);
        self.hints.remember_if(free, id.block);
    }

    fn join(&mut self, child: Self)
        requires { CanJoin (model_of self.old) (model_of child) }
        ensures model { model_of self.new ≡ joined (model_of self.old) (model_of child) }
        ensures view { view_of self.new ≡ joining (view_of self.old) (view_of child) }
    {
        let LeasePass { seat, hints, .. } = child;
        take_back(&self.table.shared, &mut self.seat, seat);
        self.hints.take(hints);
    }
}
