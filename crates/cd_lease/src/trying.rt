// The search for a free block: each block is met once, from one of them on and round.
ghost use Rattle.std.specs.Prelude.{◌≡◌, ◌+◌, ◌/◌, ◌<◌, ◌≤◌, IfSome, MatchBool, MatchOption};
ghost use Rattle.cd_lease.specs.Control.{IsOpen, IsShut};
ghost use Rattle.cd_lease.specs.Seats.{IsAt, IsIdle};
ghost use Rattle.cd_lease.specs.Steps.{id_of};
ghost use Rattle.cd_keep.specs.PassModel.{IsPiece};
ghost use Rattle.cd_lease.specs.Trying.{PassesBy, Finds, PassesAll, FindsAround, NotKept, KeptAs};

use crate::rule::{Place, SERIAL, Steps};
use crate::steps::{fill, look, take_block};
use cd_keep::KeepId;

// Blocks whose serial is this are not taken again.
const LAST_SERIAL: u64 = 1_099_511_627_775;

// Whether a block may be taken from this control word.
fn is_open(word: u64) -> bool
    ensures { MatchBool result (IsOpen word) (IsShut word) }
{
    word % SERIAL == 0 && word / SERIAL < LAST_SERIAL
}

// The serial of a control word.
pub(crate) fn serial_part(word: u64) -> u64
    ensures { result ≡ word / 16777216 }
{
    word / SERIAL
}

// Meets one block, and takes it where it is open: a filling under the next serial begins. The serial comes back.
fn try_block(table: &Steps, seat: &mut Place, block: u32) -> Option<u64>
    requires at { IsAt table.now.table_id seat.old.table_id table.now.key }
    requires block { block < table.now.key.blocks }
    requires idle { IsIdle seat.old.me.0 }
    requires room { 0 < seat.old.me.0.room }
    ensures at { IsAt table.now.table_id seat.new.table_id table.now.key }
    ensures outcome { MatchOption result (PassesBy block (block + 1) seat.old.me seat.new.me) (λ n. Finds block seat.old.me seat.new.me (id_of block n)) }
{
    let word = look(table, seat, block);
    if !is_open(word) {
        return None;
    }
    if take_block(table, seat, block, word) != word {
        return None;
    }
    Some(serial_part(word) + 1)
}

// Meets the blocks from `low` on and below `high` until it has taken one.
fn try_between(table: &Steps, seat: &mut Place, low: u32, high: u32) -> Option<KeepId>
    requires at { IsAt table.now.table_id seat.old.table_id table.now.key }
    requires order { low ≤ high }
    requires within { high ≤ table.now.key.blocks }
    requires idle { IsIdle seat.old.me.0 }
    requires room { 0 < seat.old.me.0.room }
    ensures at { IsAt table.now.table_id seat.new.table_id table.now.key }
    ensures outcome { MatchOption result (PassesBy low high seat.old.me seat.new.me) (λ id. Finds low seat.old.me seat.new.me id) }
    ensures block { IfSome result (λ id. id.block < high) }
{
    for block in low..high {
        if let Some(serial) = try_block(table, seat, block) {
            return Some(KeepId { block, serial });
        }
    }
    None
}

// Meets all blocks, from `start` on and round, until it has taken one.
pub(crate) fn try_around(table: &Steps, seat: &mut Place, blocks: u32, start: u32) -> Option<KeepId>
    requires at { IsAt table.now.table_id seat.old.table_id table.now.key }
    requires blocks { blocks ≡ table.now.key.blocks }
    requires start { start < blocks }
    requires idle { IsIdle seat.old.me.0 }
    requires room { 0 < seat.old.me.0.room }
    ensures at { IsAt table.now.table_id seat.new.table_id table.now.key }
    ensures outcome { MatchOption result (PassesAll blocks seat.old.me seat.new.me) (λ id. FindsAround blocks seat.old.me seat.new.me id) }
    ensures block { MatchOption result (blocks ≡ blocks) (λ id. id.block < blocks) }
{
    if let Some(id) = try_between(table, seat, start, blocks) {
        return Some(id);
    }
    try_between(table, seat, 0, start)
}

// Keeps words in the first block that is free as it is met, from `start` on and round.
pub(crate) fn keep_in(
    table: &Steps,
    seat: &mut Place,
    blocks: u32,
    start: u32,
    words: &[u64],
) -> Option<KeepId>
    requires at { IsAt table.now.table_id seat.old.table_id table.now.key }
    requires blocks { blocks ≡ table.now.key.blocks }
    requires start { start < blocks }
    requires idle { IsIdle seat.old.me.0 }
    requires room { 0 < seat.old.me.0.room }
    requires piece { IsPiece words.now }
    ensures at { IsAt table.now.table_id seat.new.table_id table.now.key }
    ensures bare { seat.new.me.1 ≡ seat.old.me.1 }
    ensures block { MatchOption result (blocks ≡ blocks) (λ id. id.block < blocks) }
    ensures outcome { MatchOption result (NotKept blocks seat.old.me.0 seat.new.me.0) (λ id. KeptAs blocks seat.old.me.0 seat.new.me.0 words.now id) }
{
    let id = try_around(table, seat, blocks, start)?;
    fill(table, seat, id, words);
    Some(id)
}
