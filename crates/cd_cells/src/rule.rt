// The table of cells, and its rule.
ghost use Rattle.cd_cells.specs.Kinds.{Kind};

use crate::view::{Cell, View};
use atomic_table::{Seat, Shared, Table, TableRule};
use std::alloc::Global;
use std::marker::PhantomData;

/// The states in the cells. What the rule knows of them depends on what the table is opened for.
pub trait Shape<K>: Sized + Drop {
    ghost kind: { K → Kind Self };
}

/// The rule of the cells.
pub struct Order<T> {
    states: PhantomData<T>,
}

impl<K, T: Shape<K>> TableRule<Option<Cell<K, T>>, View<K>, K> for Order<T> {
    ghost use Rattle.std.specs.Prelude.{Some};
    ghost use Rattle.cd_cells.specs.Rule.{Ordered};
    ghost use Rattle.cd_cells.specs.Views.{first_view};

    ghost holds = { λ key. Ordered (T.kind key) key };

    ghost first = { λ key. first_view (Some key) (T.kind key).root };
}

pub(crate) type Cells<K, T> = Table<Option<Cell<K, T>>, View<K>, K, Order<T>, Global>;

pub(crate) type Steps<K, T> = Shared<Option<Cell<K, T>>, View<K>, K, Order<T>>;

pub(crate) type Place<K, T> = Seat<Option<Cell<K, T>>, View<K>>;
