// The steps by which a domain is sent: turn, post, claim; and the one by which it rests at a group.
ghost use Rattle.std.specs.Prelude.{◌≡◌, ◌≢◌, ℕ, ◌<◌, ◌∷◌, None, Some, length, vec_capacity};
ghost use Rattle.atomic_table.specs.Table.{rest};
ghost use Rattle.cd_cells.specs.declared.view.Meeting.{Meeting};
ghost use Rattle.cd_cells.specs.Places.Sort.{rights, turns, holds, names};
ghost use Rattle.cd_cells.specs.Listing.{find};
ghost use Rattle.cd_cells.specs.Views.{tally};
ghost use Rattle.cd_cells.specs.Rule.{Ticketed, IsSpareList};
ghost use Rattle.cd_cells.specs.Steps.{handed, homing, turning, posting, sending, resting, with_view, meeting, Claimed, ClaimedBy};
ghost use Rattle.cd_cells.specs.Seats.{IsAt};

use crate::passing::ticket;
use crate::plays::{Claiming, GoingToRest, Posting, Turning};
use crate::rule::{Place, Shape, Steps};
use crate::view::Cell;
use cd_tree::NodeId;

// Takes a cell in hand that the pass may post.
pub(crate) fn turn<K, T: Shape<K>>(table: &Steps<K, T>, seat: &mut Place<K, T>, node: NodeId)
    requires at { IsAt (T.kind table.now.key) table.now.key table.now.table_id seat.old.table_id seat.old.me.0 }
    requires below { node.0 < (T.kind table.now.key).count }
    requires right { 0 < tally rights node.0 seat.old.me.0 }
    requires named { 0 < tally names node.0 seat.old.me.0 }
    ensures at { IsAt (T.kind table.now.key) table.now.key table.now.table_id seat.new.table_id seat.new.me.0 }
    ensures me { seat.new.me ≡ handed seat.old.me (turning seat.old.me.0 node.0) node.0 None }
{
    table.store::<Turning>(seat, 2 * node.0 as usize + 1, 1)
}

fn post_word<K, T: Shape<K>>(table: &Steps<K, T>, seat: &mut Place<K, T>, node: NodeId)
    requires at { IsAt (T.kind table.now.key) table.now.key table.now.table_id seat.old.table_id seat.old.me.0 }
    requires below { node.0 < (T.kind table.now.key).count }
    requires turned { 0 < tally turns node.0 seat.old.me.0 }
    requires cell { (cell : _) × (seat.old.me.1 ≡ (node.0, Some cell) ∷ rest seat.old.me.1) × (T.kind table.now.key).Ready (find node.0 seat.old.me.0.turns) cell.state × Ticketed table.now.key seat.old.me.0.table (find node.0 seat.old.me.0.turns) cell }
    ensures at { IsAt (T.kind table.now.key) table.now.key table.now.table_id seat.new.table_id seat.new.me.0 }
    ensures me { seat.new.me ≡ homing seat.old.me (posting seat.old.me.0 node.0) }
{
    table.store::<Posting>(seat, 2 * node.0 as usize + 1, 2)
}

// Posts a cell that the pass turned, with a state that is ready and its ticket.
pub(crate) fn post<K, T: Shape<K>>(
    table: &Steps<K, T>,
    seat: &mut Place<K, T>,
    node: NodeId,
    cell: Cell<K, T>,
)
    requires at { IsAt (T.kind table.now.key) table.now.key table.now.table_id seat.old.table_id seat.old.me.0 }
    requires below { node.0 < (T.kind table.now.key).count }
    requires turned { 0 < tally turns node.0 seat.old.me.0 }
    requires hand { seat.old.me.1 ≡ (node.0, None) ∷ rest seat.old.me.1 }
    requires ready { (T.kind table.now.key).Ready (find node.0 seat.old.me.0.turns) cell.state }
    requires ticket { Ticketed table.now.key seat.old.me.0.table (find node.0 seat.old.me.0.turns) cell }
    ensures at { IsAt (T.kind table.now.key) table.now.key table.now.table_id seat.new.table_id seat.new.me.0 }
    ensures me { seat.new.me ≡ homing seat.old.me (posting seat.old.me.0 node.0) }
{
    table.exchange(seat, node.0 as usize, Some(cell));
    post_word(table, seat, node);
}

fn claim_word<K, T: Shape<K>>(table: &Steps<K, T>, seat: &mut Place<K, T>, node: NodeId) -> u64
    requires at { IsAt (T.kind table.now.key) table.now.key table.now.table_id seat.old.table_id seat.old.me.0 }
    requires below { node.0 < (T.kind table.now.key).count }
    ensures at { IsAt (T.kind table.now.key) table.now.key table.now.table_id seat.new.table_id seat.new.me.0 }
    ensures won { result ≡ 2 → (c : _) × Claimed (T.kind table.now.key) table.now.key seat.old.me node.0 seat.new.me c (Some c) }
    ensures lost { result ≢ 2 → seat.new.me ≡ with_view seat.old.me (meeting seat.old.me.0 Meeting.Claim node.0 result) }
{
    table.compare_exchange::<Claiming>(seat, 2 * node.0 as usize + 1, 2, 1)
}

// Takes a cell in hand that is ready. None exactly where its phase word, as the one exchange met it, was not 2.
pub(crate) fn claim<K, T: Shape<K>>(
    table: &Steps<K, T>,
    seat: &mut Place<K, T>,
    node: NodeId,
) -> Option<Cell<K, T>>
    requires at { IsAt (T.kind table.now.key) table.now.key table.now.table_id seat.old.table_id seat.old.me.0 }
    requires below { node.0 < (T.kind table.now.key).count }
    ensures at { IsAt (T.kind table.now.key) table.now.key table.now.table_id seat.new.table_id seat.new.me.0 }
    ensures met { ClaimedBy (T.kind table.now.key) table.now.key seat.old.me node.0 seat.new.me result }
{
    if claim_word(table, seat, node) == 2 {
        table.exchange(seat, node.0 as usize, None)
    } else {
        None
    }
}

fn rest_word<K, T: Shape<K>>(
    table: &Steps<K, T>,
    seat: &mut Place<K, T>,
    node: NodeId,
    members: u64,
)
    requires at { IsAt (T.kind table.now.key) table.now.key table.now.table_id seat.old.table_id seat.old.me.0 }
    requires below { node.0 < (T.kind table.now.key).count }
    requires held { 0 < tally holds node.0 seat.old.me.0 }
    requires cell { (cell : _) × (seat.old.me.1 ≡ (node.0, Some cell) ∷ rest seat.old.me.1) × (T.kind table.now.key).Waits (find node.0 seat.old.me.0.holds) cell.state × Ticketed table.now.key seat.old.me.0.table (find node.0 seat.old.me.0.holds) cell × IsSpareList (length ((T.kind table.now.key).group cell.state)) cell.list.items (vec_capacity cell.list) × (members ≡ length ((T.kind table.now.key).group cell.state)) }
    ensures at { IsAt (T.kind table.now.key) table.now.key table.now.table_id seat.new.table_id seat.new.me.0 }
    ensures me { (d : ℕ) (c : _) → seat.old.me.1 ≡ (d, Some c) ∷ rest seat.old.me.1 → seat.new.me ≡ homing seat.old.me (resting (T.kind table.now.key) seat.old.me.0 d c.state) }
{
    table.store::<GoingToRest>(seat, 2 * node.0 as usize + 2, members)
}

// Brings a cell home whose state waits at a group of so many members, with an empty list that has capacity for them. The pass may
// post each member.
pub(crate) fn rest_at<K, T: Shape<K>>(
    table: &Steps<K, T>,
    seat: &mut Place<K, T>,
    node: NodeId,
    cell: Cell<K, T>,
    members: u64,
)
    requires at { IsAt (T.kind table.now.key) table.now.key table.now.table_id seat.old.table_id seat.old.me.0 }
    requires below { node.0 < (T.kind table.now.key).count }
    requires held { 0 < tally holds node.0 seat.old.me.0 }
    requires hand { seat.old.me.1 ≡ (node.0, None) ∷ rest seat.old.me.1 }
    requires waits { (T.kind table.now.key).Waits (find node.0 seat.old.me.0.holds) cell.state }
    requires ticket { Ticketed table.now.key seat.old.me.0.table (find node.0 seat.old.me.0.holds) cell }
    requires list { IsSpareList (length ((T.kind table.now.key).group cell.state)) cell.list.items (vec_capacity cell.list) }
    requires members { members ≡ length ((T.kind table.now.key).group cell.state) }
    ensures at { IsAt (T.kind table.now.key) table.now.key table.now.table_id seat.new.table_id seat.new.me.0 }
    ensures me { seat.new.me ≡ homing seat.old.me (resting (T.kind table.now.key) seat.old.me.0 node.0 cell.state) }
{
    table.exchange(seat, node.0 as usize, Some(cell));
    rest_word(table, seat, node, members);
}

// Sends a domain that the pass may post, with a state that is ready: turn, ticket, post.
pub(crate) fn send<K, T: Shape<K>>(
    table: &Steps<K, T>,
    seat: &mut Place<K, T>,
    node: NodeId,
    state: T,
    list: Vec<T>,
)
    requires at { IsAt (T.kind table.now.key) table.now.key table.now.table_id seat.old.table_id seat.old.me.0 }
    requires below { node.0 < (T.kind table.now.key).count }
    requires right { 0 < tally rights node.0 seat.old.me.0 }
    requires named { 0 < tally names node.0 seat.old.me.0 }
    requires ready { (T.kind table.now.key).Ready (find node.0 seat.old.me.0.named) state }
    ensures at { IsAt (T.kind table.now.key) table.now.key table.now.table_id seat.new.table_id seat.new.me.0 }
    ensures me { seat.new.me ≡ with_view seat.old.me (sending seat.old.me.0 node.0) }
{
    turn(table, seat, node);
    let place = ticket(table, seat, node);
    let ticket = place.into_badge();
    let cell = Cell {
        state,
        ticket,
        list,
    };
    post(table, seat, node, cell);
}
