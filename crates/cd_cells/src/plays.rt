// What each kind of step tells, and how views are split and joined.
ghost use Rattle.std.specs.Prelude.{ℕ, List, []};

use crate::rule::Shape;
use crate::view::{Cell, View};
use atomic_table::{Join, Play, Split};
use std::marker::{Brand, PhantomData};

pub(crate) struct Turning;

impl<K, T> Play<Option<Cell<K, T>>, View<K>> for Turning {
    ghost use Rattle.cd_cells.specs.Steps.{Turns};

    ghost then = { Turns };
}

pub(crate) struct Posting;

impl<K, T> Play<Option<Cell<K, T>>, View<K>> for Posting {
    ghost use Rattle.cd_cells.specs.Steps.{Posts};

    ghost then = { Posts };
}

pub(crate) struct Claiming;

impl<K, T: Shape<K>> Play<Option<Cell<K, T>>, View<K>> for Claiming {
    ghost use Rattle.cd_cells.specs.Steps.{Claims};

    ghost then = { Claims T.kind };
}

pub(crate) struct GoingToRest;

impl<K, T: Shape<K>> Play<Option<Cell<K, T>>, View<K>> for GoingToRest {
    ghost use Rattle.cd_cells.specs.Steps.{Rests};

    ghost then = { Rests T.kind };
}

pub(crate) struct ArrivingAtRoot;

impl<K, T> Play<Option<Cell<K, T>>, View<K>> for ArrivingAtRoot {
    ghost use Rattle.cd_cells.specs.Steps.{ArrivesAtRoot};

    ghost then = { ArrivesAtRoot };
}

pub(crate) struct Arriving;

impl<K, T: Shape<K>> Play<Option<Cell<K, T>>, View<K>> for Arriving {
    ghost use Rattle.cd_cells.specs.Steps.{Arrives};

    ghost then = { Arrives T.kind };
}

pub(crate) struct TakingMember;

impl<K, T: Shape<K>> Play<Option<Cell<K, T>>, View<K>> for TakingMember {
    ghost use Rattle.cd_cells.specs.Steps.{Takes};

    ghost then = { Takes T.kind };
}

pub(crate) struct Clearing;

impl<K, T> Play<Option<Cell<K, T>>, View<K>> for Clearing {
    ghost use Rattle.cd_cells.specs.Steps.{Clears};

    ghost then = { Clears };
}

pub(crate) struct TakingParent;

impl<K, T: Shape<K>> Play<Option<Cell<K, T>>, View<K>> for TakingParent {
    ghost use Rattle.cd_cells.specs.Steps.{Resumes};

    ghost then = { Resumes T.kind };
}

pub(crate) struct Closing;

impl<K, T: Shape<K>> Play<Option<Cell<K, T>>, View<K>> for Closing {
    ghost use Rattle.cd_cells.specs.Steps.{Closes};

    ghost then = { Closes T.kind };
}

pub(crate) struct Stopping;

impl<K, T> Play<Option<Cell<K, T>>, View<K>> for Stopping {
    ghost use Rattle.cd_cells.specs.Steps.{Stops};

    ghost then = { Stops };
}

pub(crate) struct Looking;

impl<K, T> Play<Option<Cell<K, T>>, View<K>> for Looking {
    ghost use Rattle.cd_cells.specs.Steps.{Looks};

    ghost then = { Looks };
}

/// Which table the first pass is at, as a list of numbers.
pub(crate) trait Room {
    ghost name: { List ℕ };
}

impl Room for Brand {
    ghost name = { [] };
}

pub(crate) struct Learning<B: Room> {
    room: PhantomData<B>,
}

impl<K, T, B: Room> Play<Option<Cell<K, T>>, View<K>> for Learning<B> {
    ghost use Rattle.cd_cells.specs.Steps.{Learns};

    ghost then = { Learns B.name };
}

// A pass is split off.
pub(crate) struct Parting;

impl<K> Split<View<K>> for Parting {
    ghost use Rattle.cd_cells.specs.Views.{newcomer};

    ghost left = { λ v. v };

    ghost right = { λ v. newcomer v.key v.table };
}

/// For which domain a ticket is split off.
pub(crate) trait Destined {
    ghost node: { ℕ };
}

impl Destined for Brand {
    ghost node = { 0 };
}

pub(crate) struct Ticketing<B: Destined> {
    destined: PhantomData<B>,
}

impl<K, B: Destined> Split<View<K>> for Ticketing<B> {
    ghost use Rattle.cd_cells.specs.Listing.{find};
    ghost use Rattle.cd_cells.specs.Views.{naming};
    ghost use Rattle.cd_cells.specs.Steps.{unnaming};

    ghost left = { λ v. unnaming v B.node };

    ghost right = { λ v. naming v.key v.table (find B.node v.named) };
}

pub(crate) struct Joining;

impl<K> Join<View<K>> for Joining {
    ghost use Rattle.std.specs.Prelude.{None};
    ghost use Rattle.cd_cells.specs.Views.{newcomer, joining};

    ghost both = { joining };

    ghost spent = { newcomer None [] };
}
