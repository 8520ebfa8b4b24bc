// The table of blocks: its size, its rule, and what each kind of step tells.
ghost use Rattle.std.specs.Prelude.{ℕ};

use crate::view::View;
use atomic_table::{Join, Play, Seat, Shared, Split, Table, TableRule};
use std::alloc::Global;
use std::marker::{Brand, PhantomData};

/// How many blocks a table has, and the room of the pass that it was opened with.
#[derive(Debug, Clone, Copy, PartialEq, Eq)]
pub struct Size {
    pub blocks: u32,
    pub most: u32,
}

// A block has a control word, and then 64 words of data.
pub(crate) const BLOCK_WORDS: usize = 65;

// A control word counts users up to this; from it on it counts serials.
pub(crate) const SERIAL: u64 = 16_777_216;

/// The rule of the blocks.
pub struct Leases;

impl TableRule<(), View, Size> for Leases {
    ghost use Rattle.cd_lease.specs.Rule.{Leased};
    ghost use Rattle.cd_lease.specs.Steps.{newcomer};
    ghost use Rattle.std.specs.Prelude.{[]};

    ghost holds = { Leased };

    ghost first = { λ size. newcomer [] size.most };
}

pub(crate) type Blocks = Table<(), View, Size, Leases, Global>;

pub(crate) type Steps = Shared<(), View, Size, Leases>;

pub(crate) type Place = Seat<(), View>;

pub(crate) struct Looking;

impl Play<(), View> for Looking {
    ghost use Rattle.cd_lease.specs.Steps.{Looks};

    ghost then = { Looks };
}

pub(crate) struct Taking;

impl Play<(), View> for Taking {
    ghost use Rattle.cd_lease.specs.Steps.{Takes};

    ghost then = { Takes };
}

pub(crate) struct Writing;

impl Play<(), View> for Writing {
    ghost use Rattle.cd_lease.specs.Steps.{Writes};

    ghost then = { Writes };
}

// The last word of a filling is written.
pub(crate) struct Ending;

impl Play<(), View> for Ending {
    ghost use Rattle.cd_lease.specs.Steps.{Ends};

    ghost then = { Ends };
}

pub(crate) struct Reading;

impl Play<(), View> for Reading {
    ghost use Rattle.cd_lease.specs.Steps.{Reads};

    ghost then = { Reads };
}

pub(crate) struct Leaving;

impl Play<(), View> for Leaving {
    ghost use Rattle.cd_lease.specs.Steps.{Leaves};

    ghost then = { Leaves };
}

/// Which id is asked for at a share.
pub(crate) trait Asked {
    ghost block: { ℕ };

    ghost serial: { ℕ };
}

impl Asked for Brand {
    ghost block = { 0 };

    ghost serial = { 0 };
}

pub(crate) struct Sharing<B: Asked> {
    asked: PhantomData<B>,
}

impl<B: Asked> Play<(), View> for Sharing<B> {
    ghost use Rattle.cd_lease.specs.Steps.{Shares, id_of};

    ghost then = { Shares (id_of B.block B.serial) };
}

// The end of a try.
pub(crate) struct Returning;

impl Play<(), View> for Returning {
    ghost use Rattle.cd_lease.specs.Steps.{Returns};

    ghost then = { Returns };
}

/// The room that a new pass gets.
pub(crate) trait Portion {
    ghost room: { ℕ };
}

impl Portion for Brand {
    ghost room = { 0 };
}

pub(crate) struct Parting<B: Portion> {
    portion: PhantomData<B>,
}

impl<B: Portion> Split<View> for Parting<B> {
    ghost use Rattle.cd_lease.specs.Steps.{newcomer, without};

    ghost left = { λ v. without v B.room };

    ghost right = { λ v. newcomer v.known B.room };
}

pub(crate) struct Joining;

impl Join<View> for Joining {
    ghost use Rattle.cd_lease.specs.Steps.{newcomer, joining};
    ghost use Rattle.std.specs.Prelude.{[]};

    ghost both = { joining };

    ghost spent = { newcomer [] 0 };
}
