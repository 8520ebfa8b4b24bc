// Steps that move no domain: a pass and a ticket are split off and taken back; a pass stops and looks. And the opening of a table.
ghost use Rattle.std.specs.Prelude.{◌≡◌, ℕ, ◌%◌, ◌<◌, ◌==◌, [], ◌∷◌, Some, IsTrue};
ghost use Rattle.cd_cells.specs.declared.view.Meeting.{Meeting};
ghost use Rattle.cd_cells.specs.Places.Sort.{turns, names};
ghost use Rattle.cd_cells.specs.Listing.{find};
ghost use Rattle.cd_cells.specs.Views.{tally, name_of, newcomer, naming, joining};
ghost use Rattle.cd_cells.specs.Steps.{with_view, meeting, stopping, unnaming, also_naming};
ghost use Rattle.cd_cells.specs.Seats.{IsAt};

use crate::plays::{Destined, Joining, Looking, Parting, Stopping, Ticketing};
use crate::rule::{Place, Shape, Steps};
use crate::view::View;
use atomic_table::Badge;
use cd_tree::NodeId;
use std::marker::Brand;

// Sets the stop bit.
pub(crate) fn stop<K, T: Shape<K>>(table: &Steps<K, T>, seat: &mut Place<K, T>)
    requires at { IsAt (T.kind table.now.key) table.now.key table.now.table_id seat.old.table_id seat.old.me.0 }
    ensures at { IsAt (T.kind table.now.key) table.now.key table.now.table_id seat.new.table_id seat.new.me.0 }
    ensures me { seat.new.me ≡ with_view seat.old.me (stopping seat.old.me.0) }
{
    table.fetch_or::<Stopping>(seat, 0, 1);
}

fn look<K, T: Shape<K>>(table: &Steps<K, T>, seat: &mut Place<K, T>) -> u64
    requires at { IsAt (T.kind table.now.key) table.now.key table.now.table_id seat.old.table_id seat.old.me.0 }
    ensures at { IsAt (T.kind table.now.key) table.now.key table.now.table_id seat.new.table_id seat.new.me.0 }
    ensures me { seat.new.me ≡ with_view seat.old.me (meeting seat.old.me.0 Meeting.Look 0 result) }
    ensures own { 0 < seat.old.me.0.stops → result % 2 ≡ 1 }
{
    table.load::<Looking>(seat, 0)
}

// Whether the word read had the stop bit. A pass that has stopped finds it.
pub(crate) fn stopped<K, T: Shape<K>>(table: &Steps<K, T>, seat: &mut Place<K, T>) -> bool
    requires at { IsAt (T.kind table.now.key) table.now.key table.now.table_id seat.old.table_id seat.old.me.0 }
    ensures at { IsAt (T.kind table.now.key) table.now.key table.now.table_id seat.new.table_id seat.new.me.0 }
    ensures met { (found : ℕ) × (seat.new.me ≡ with_view seat.old.me (meeting seat.old.me.0 Meeting.Look 0 found)) × (result ≡ (found % 2 == 1)) }
    ensures own { 0 < seat.old.me.0.stops → IsTrue result }
{
    look(table, seat) % 2 == 1
}

// A seat of the same table, with nothing in hand and no right.
pub(crate) fn part<K, T: Shape<K>>(table: &Steps<K, T>, seat: &mut Place<K, T>) -> Place<K, T>
    requires at { IsAt (T.kind table.now.key) table.now.key table.now.table_id seat.old.table_id seat.old.me.0 }
    ensures at { IsAt (T.kind table.now.key) table.now.key table.now.table_id seat.new.table_id seat.new.me.0 }
    ensures me { seat.new.me ≡ seat.old.me }
    ensures at_child { IsAt (T.kind table.now.key) table.now.key table.now.table_id result.table_id result.me.0 }
    ensures child { result.me ≡ (newcomer seat.old.me.0.key seat.old.me.0.table, []) }
{
    table.split_seat::<Parting>(seat)
}

fn ticket_as<K, T: Shape<K>, B: Destined>(
    table: &Steps<K, T>,
    seat: &mut Place<K, T>,
    node: NodeId,
) -> Place<K, T>
    requires destined { node.0 ≡ B.node }
    requires at { IsAt (T.kind table.now.key) table.now.key table.now.table_id seat.old.table_id seat.old.me.0 }
    requires below { node.0 < (T.kind table.now.key).count }
    requires turned { 0 < tally turns node.0 seat.old.me.0 }
    requires named { 0 < tally names node.0 seat.old.me.0 }
    ensures at { IsAt (T.kind table.now.key) table.now.key table.now.table_id seat.new.table_id seat.new.me.0 }
    ensures me { seat.new.me ≡ with_view seat.old.me (unnaming seat.old.me.0 node.0) }
    ensures same { result.table_id ≡ table.now.table_id }
    ensures ticket { result.me ≡ (naming seat.old.me.0.key seat.old.me.0.table (find node.0 seat.old.me.0.named), []) }
{
    table.split_seat::<Ticketing<B>>(seat)
}

// The ticket of a domain that was turned: it takes the name along.
pub(crate) fn ticket<K, T: Shape<K>>(
    table: &Steps<K, T>,
    seat: &mut Place<K, T>,
    node: NodeId,
) -> Place<K, T>
    requires at { IsAt (T.kind table.now.key) table.now.key table.now.table_id seat.old.table_id seat.old.me.0 }
    requires below { node.0 < (T.kind table.now.key).count }
    requires turned { 0 < tally turns node.0 seat.old.me.0 }
    requires named { 0 < tally names node.0 seat.old.me.0 }
    ensures at { IsAt (T.kind table.now.key) table.now.key table.now.table_id seat.new.table_id seat.new.me.0 }
    ensures me { seat.new.me ≡ with_view seat.old.me (unnaming seat.old.me.0 node.0) }
    ensures same { result.table_id ≡ table.now.table_id }
    ensures ticket { result.me ≡ (naming seat.old.me.0.key seat.old.me.0.table (find node.0 seat.old.me.0.named), []) }
{
    ticket_as::<K, T, Brand>(table, seat, node)
}

// Takes back a seat of the same table that has nothing in hand.
pub(crate) fn join<K, T: Shape<K>>(table: &Steps<K, T>, seat: &mut Place<K, T>, child: Place<K, T>)
    requires at { IsAt (T.kind table.now.key) table.now.key table.now.table_id seat.old.table_id seat.old.me.0 }
    requires same { child.table_id ≡ table.now.table_id }
    requires bare { child.me.1 ≡ [] }
    ensures at { IsAt (T.kind table.now.key) table.now.key table.now.table_id seat.new.table_id seat.new.me.0 }
    ensures me { seat.new.me ≡ with_view seat.old.me (joining seat.old.me.0 child.me.0) }
{
    table.join_seat::<Joining>(seat, child);
}

// Takes back the ticket of a domain: the pass names it.
pub(crate) fn join_ticket<K, T: Shape<K>>(
    table: &Steps<K, T>,
    seat: &mut Place<K, T>,
    ticket: Badge<View<K>>,
)
    requires at { IsAt (T.kind table.now.key) table.now.key table.now.table_id seat.old.table_id seat.old.me.0 }
    requires same { name_of ticket.table_id ≡ seat.old.me.0.table }
    requires ticket { (ask : _) × (ticket.views ≡ naming (Some table.now.key) seat.old.me.0.table ask ∷ []) }
    ensures at { IsAt (T.kind table.now.key) table.now.key table.now.table_id seat.new.table_id seat.new.me.0 }
    ensures me { (ask : _) → ticket.views ≡ naming (Some table.now.key) seat.old.me.0.table ask ∷ [] → seat.new.me ≡ with_view seat.old.me (also_naming seat.old.me.0 ask) }
{
    let child = ticket.into_seat();
    join(table, seat, child);
}
