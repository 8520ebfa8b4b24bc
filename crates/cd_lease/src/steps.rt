// Each kind of step on the table of blocks, one function for each, with all that it does to the pass's view.
ghost use Rattle.std.specs.Prelude.{◌≡◌, ◌≢◌, ℕ, ◌+◌, ◌*◌, ◌<◌, ◌≤◌, [], ◌∷◌, None, Some, length, slice_get, slice_index, take};
ghost use Rattle.cd_keep.specs.PassModel.{IsPiece};
ghost use Rattle.cd_lease.specs.Control.{IsOpen, serial_of, users_of};
ghost use Rattle.cd_lease.specs.Views.{times, words_under};
ghost use Rattle.cd_lease.specs.Seats.{IsAt, IsIdle};
ghost use Rattle.cd_lease.specs.Steps.{met, look_of, taking, next_id, growing, holding, piece_of, leaving};

use crate::rule::{
    BLOCK_WORDS, Ending, Leaving, Looking, Place, Reading, SERIAL, Steps, Taking, Writing,
};
use cd_keep::KeepId;

// The control word of a block.
pub(crate) fn look(table: &Steps, seat: &mut Place, block: u32) -> u64
    requires at { IsAt table.now.table_id seat.old.table_id table.now.key }
    requires block { block < table.now.key.blocks }
    ensures at { IsAt table.now.table_id seat.new.table_id table.now.key }
    ensures me { seat.new.me ≡ (met seat.old.me.0 (look_of block result ∷ []), seat.old.me.1) }
{
    table.load::<Looking>(seat, BLOCK_WORDS * block as usize)
}

// The control word of an open block with the next serial and one user.
fn taken(word: u64) -> u64
    requires { IsOpen word }
    ensures serial { serial_of result ≡ serial_of word + 1 }
    ensures user { users_of result ≡ 1 }
{
    word + SERIAL + 1
}

// Takes a block, if its control word is still the one that was met: a filling begins. The word found comes back.
pub(crate) fn take_block(table: &Steps, seat: &mut Place, block: u32, old: u64) -> u64
    requires at { IsAt table.now.table_id seat.old.table_id table.now.key }
    requires block { block < table.now.key.blocks }
    requires idle { IsIdle seat.old.me.0 }
    requires room { 0 < seat.old.me.0.room }
    requires open { IsOpen old }
    ensures at { IsAt table.now.table_id seat.new.table_id table.now.key }
    ensures won { result ≡ old → seat.new.me ≡ (taking seat.old.me.0 (next_id block old), seat.old.me.1) }
    ensures fresh { result ≡ old → words_under seat.old.me.0.known (next_id block old) ≡ None }
    ensures lost { result ≢ old → seat.new.me ≡ (met seat.old.me.0 (look_of block result ∷ []), seat.old.me.1) }
{
    table.compare_exchange::<Taking>(seat, BLOCK_WORDS * block as usize, old, taken(old))
}

// Writes the i-th word of a piece, which is not its last, into the block that is filled with it.
pub(crate) fn write(table: &Steps, seat: &mut Place, id: KeepId, words: &[u64], i: usize)
    requires at { IsAt table.now.table_id seat.old.table_id table.now.key }
    requires block { id.block < table.now.key.blocks }
    requires short { length words.now ≤ 64 }
    requires within { i + 1 < length words.now }
    requires filling { seat.old.me.0.filling ≡ Some (piece_of id (take i words.now)) }
    ensures at { IsAt table.now.table_id seat.new.table_id table.now.key }
    ensures me { seat.new.me ≡ (growing seat.old.me.0 (piece_of id (take (i + 1) words.now)), seat.old.me.1) }
{
    table.store::<Writing>(seat, BLOCK_WORDS * id.block as usize + 1 + i, words[i])
}

// Writes the last word: the filling becomes a hold.
pub(crate) fn finish(table: &Steps, seat: &mut Place, id: KeepId, words: &[u64], i: usize)
    requires at { IsAt table.now.table_id seat.old.table_id table.now.key }
    requires block { id.block < table.now.key.blocks }
    requires short { length words.now ≤ 64 }
    requires last { i + 1 ≡ length words.now }
    requires filling { seat.old.me.0.filling ≡ Some (piece_of id (take i words.now)) }
    ensures at { IsAt table.now.table_id seat.new.table_id table.now.key }
    ensures me { seat.new.me ≡ (holding seat.old.me.0 (piece_of id words.now), seat.old.me.1) }
{
    table.store::<Ending>(seat, BLOCK_WORDS * id.block as usize + 1 + i, words[i])
}

// The i-th word of an id that is held.
pub(crate) fn read(table: &Steps, seat: &mut Place, id: KeepId, i: usize) -> u64
    requires at { IsAt table.now.table_id seat.old.table_id table.now.key }
    requires block { id.block < table.now.key.blocks }
    requires held { 0 < times seat.old.me.0.holds id }
    requires within { i < 64 }
    ensures at { IsAt table.now.table_id seat.new.table_id table.now.key }
    ensures me { seat.new.me ≡ seat.old.me }
    ensures word { (piece : _) → words_under seat.old.me.0.known id ≡ Some piece → i < length piece → result ≡ slice_index piece i }
{
    table.load::<Reading>(seat, BLOCK_WORDS * id.block as usize + 1 + i)
}

// Ends a hold. The control word found comes back.
pub(crate) fn leave(table: &Steps, seat: &mut Place, id: KeepId) -> u64
    requires at { IsAt table.now.table_id seat.old.table_id table.now.key }
    requires block { id.block < table.now.key.blocks }
    requires held { 0 < times seat.old.me.0.holds id }
    ensures at { IsAt table.now.table_id seat.new.table_id table.now.key }
    ensures me { seat.new.me ≡ (leaving seat.old.me.0 id, seat.old.me.1) }
{
    table.fetch_sub::<Leaving>(seat, BLOCK_WORDS * id.block as usize, 1)
}

// Ends a hold, and says whether it was the last use of the block; nothing rests on what it says but where a search begins.
pub(crate) fn let_go(table: &Steps, seat: &mut Place, id: KeepId) -> bool
    requires at { IsAt table.now.table_id seat.old.table_id table.now.key }
    requires block { id.block < table.now.key.blocks }
    requires held { 0 < times seat.old.me.0.holds id }
    ensures at { IsAt table.now.table_id seat.new.table_id table.now.key }
    ensures me { seat.new.me ≡ (leaving seat.old.me.0 id, seat.old.me.1) }
{
    let word = leave(table, seat, id);
    word % SERIAL == 1
}

// Fills a block that was taken: it is held, with these words.
pub(crate) fn fill(table: &Steps, seat: &mut Place, id: KeepId, words: &[u64])
    requires at { IsAt table.now.table_id seat.old.table_id table.now.key }
    requires block { id.block < table.now.key.blocks }
    requires piece { IsPiece words.now }
    requires filling { seat.old.me.0.filling ≡ Some (piece_of id []) }
    ensures at { IsAt table.now.table_id seat.new.table_id table.now.key }
    ensures me { seat.new.me ≡ (holding seat.old.me.0 (piece_of id words.now), seat.old.me.1) }
{
    let last = words.len() - 1;
    for i in 0..last {
        write(table, seat, id, words, i);
    }
    finish(table, seat, id, words, last);
}
