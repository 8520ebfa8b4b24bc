// Steps by which holds and room go from pass to pass: share, split, join. What a share asks for, and how much room a split
// gives, a step cannot see: each is a ghost member that the call picks.
ghost use Rattle.std.specs.Prelude.{◌≡◌, ◌≢◌, ℕ, ◌<◌, ◌≤◌, [], None, Some, IsSome, length};
ghost use Rattle.cd_lease.specs.Control.{serial_of};
ghost use Rattle.cd_lease.specs.Views.{words_under};
ghost use Rattle.cd_lease.specs.Seats.{IsAt, IsIdle};
ghost use Rattle.cd_lease.specs.Steps.{sharing, missing, giving_back, newcomer, without, joining};

use crate::rule::{
    Asked, BLOCK_WORDS, Joining, Parting, Place, Portion, Returning, Sharing, Steps,
};
use cd_keep::KeepId;
use std::marker::Brand;

fn share_as<B: Asked>(table: &Steps, seat: &mut Place, id: KeepId) -> u64
    requires asked { (id.block ≡ B.block) × (id.serial ≡ B.serial) }
    requires at { IsAt table.now.table_id seat.old.table_id table.now.key }
    requires block { id.block < table.now.key.blocks }
    requires known { IsSome (words_under seat.old.me.0.known id) }
    requires room { 0 < seat.old.me.0.room }
    requires idle { IsIdle seat.old.me.0 }
    ensures at { IsAt table.now.table_id seat.new.table_id table.now.key }
    ensures held { serial_of result ≡ id.serial → seat.new.me ≡ (sharing seat.old.me.0 id, seat.old.me.1) }
    ensures past { serial_of result ≢ id.serial → id.serial < serial_of result }
    ensures gone { serial_of result ≢ id.serial → seat.new.me ≡ (missing seat.old.me.0 id (serial_of result), seat.old.me.1) }
{
    table.fetch_add::<Sharing<B>>(seat, BLOCK_WORDS * id.block as usize, 1)
}

// Holds an id once more where the word found, which comes back, has its serial. Else the block is tried in vain, and has to
// be given back.
pub(crate) fn share(table: &Steps, seat: &mut Place, id: KeepId) -> u64
    requires at { IsAt table.now.table_id seat.old.table_id table.now.key }
    requires block { id.block < table.now.key.blocks }
    requires known { IsSome (words_under seat.old.me.0.known id) }
    requires room { 0 < seat.old.me.0.room }
    requires idle { IsIdle seat.old.me.0 }
    ensures at { IsAt table.now.table_id seat.new.table_id table.now.key }
    ensures held { serial_of result ≡ id.serial → seat.new.me ≡ (sharing seat.old.me.0 id, seat.old.me.1) }
    ensures past { serial_of result ≢ id.serial → id.serial < serial_of result }
    ensures gone { serial_of result ≢ id.serial → seat.new.me ≡ (missing seat.old.me.0 id (serial_of result), seat.old.me.1) }
{
    share_as::<Brand>(table, seat, id)
}

// Ends the try of a block.
pub(crate) fn give_back(table: &Steps, seat: &mut Place, block: u32)
    requires at { IsAt table.now.table_id seat.old.table_id table.now.key }
    requires block { block < table.now.key.blocks }
    requires tried { seat.old.me.0.trying ≡ Some block }
    ensures at { IsAt table.now.table_id seat.new.table_id table.now.key }
    ensures me { seat.new.me ≡ (giving_back seat.old.me.0, seat.old.me.1) }
{
    table.fetch_sub::<Returning>(seat, BLOCK_WORDS * block as usize, 1);
}

fn part_as<B: Portion>(table: &Steps, seat: &mut Place, room: u32) -> Place
    requires portion { room ≡ B.room }
    requires at { IsAt table.now.table_id seat.old.table_id table.now.key }
    requires some { 0 < table.now.key.blocks }
    requires room { room ≤ seat.old.me.0.room }
    requires idle { IsIdle seat.old.me.0 }
    ensures at { IsAt table.now.table_id seat.new.table_id table.now.key }
    ensures me { seat.new.me ≡ (without seat.old.me.0 room, seat.old.me.1) }
    ensures at_child { IsAt table.now.table_id result.table_id table.now.key }
    ensures child { result.me ≡ (newcomer seat.old.me.0.known room, []) }
{
    table.split_seat::<Parting<B>>(seat)
}

// A seat that knows what this one knows, and takes some of its room.
pub(crate) fn part(table: &Steps, seat: &mut Place, room: u32) -> Place
    requires at { IsAt table.now.table_id seat.old.table_id table.now.key }
    requires some { 0 < table.now.key.blocks }
    requires room { room ≤ seat.old.me.0.room }
    requires idle { IsIdle seat.old.me.0 }
    ensures at { IsAt table.now.table_id seat.new.table_id table.now.key }
    ensures me { seat.new.me ≡ (without seat.old.me.0 room, seat.old.me.1) }
    ensures at_child { IsAt table.now.table_id result.table_id table.now.key }
    ensures child { result.me ≡ (newcomer seat.old.me.0.known room, []) }
{
    part_as::<Brand>(table, seat, room)
}

// Takes back a seat that holds nothing.
pub(crate) fn take_back(table: &Steps, seat: &mut Place, child: Place)
    requires at { IsAt table.now.table_id seat.old.table_id table.now.key }
    requires at_child { child.table_id ≡ table.now.table_id }
    requires some { 0 < table.now.key.blocks }
    requires bare { child.me.1 ≡ [] }
    requires idle { IsIdle child.me.0 }
    requires nothing { length child.me.0.holds ≡ 0 }
    ensures at { IsAt table.now.table_id seat.new.table_id table.now.key }
    ensures me { seat.new.me ≡ (joining seat.old.me.0 child.me.0, seat.old.me.1) }
{
    table.join_seat::<Joining>(seat, child);
}
