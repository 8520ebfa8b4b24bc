// What a pass does with one domain at a time: it takes it up, puts it to rest, and sends it.
ghost use Rattle.std.specs.Prelude.{◌≡◌, ◌<◌, [], ◌++◌, length, vec_capacity, MatchOption};
ghost use Rattle.cd_cells.specs.declared.view.Meeting.{Meeting};
ghost use Rattle.cd_cells.specs.Hands.{Has, HasClaimed, HasMet, MaySend, WaitsInHand, members_asked};
ghost use Rattle.cd_cells.specs.Kinds.{Lawful};
ghost use Rattle.cd_cells.specs.Rule.{IsSpareList};
ghost use Rattle.cd_cells.specs.Steps.{resting, sending};

use crate::rule::{Place, Shape, Steps};
use crate::steps::{claim, rest_at, send};
use crate::view::{Cell, View};
use atomic_table::Badge;
use cd_tree::NodeId;
use std::alloc::Global;

// Takes up a domain that was posted. None exactly where its phase word, as the one exchange met it, was not that of a domain that
// is ready.
pub(crate) fn take_up<K, T: Shape<K>>(
    table: &Steps<K, T>,
    seat: &mut Place<K, T>,
    ticket: &mut Option<Badge<View<K>>>,
    node: NodeId,
) -> Option<T>
    requires below { node.0 < (T.kind table.now.key).count }
    requires free { (may : _) × Has (T.kind table.now.key) table.now.key table.now.table_id seat.old.table_id seat.old.me ticket.old [] may }
    ensures { (may : _) → Has (T.kind table.now.key) table.now.key table.now.table_id seat.old.table_id seat.old.me ticket.old [] may → MatchOption result (HasMet (T.kind table.now.key) table.now.key table.now.table_id seat.new.table_id seat.old.me seat.new.me ticket.new may Meeting.Claim node.0 2) (λ state. HasClaimed (T.kind table.now.key) table.now.key table.now.table_id seat.new.table_id seat.old.me seat.new.me ticket.new may node.0 state) }
{
    match claim(table, seat, node) {
        None => None,
        Some(
            Cell {
                state,
                ticket: own,
                ..
            },
        ) => {
            *ticket = Some(own);
            Some(state)
        }
    }
}

// Brings home a domain in hand that waits at a group of so many members, with an empty list that has capacity for them. The pass
// may post each member then.
pub(crate) fn put_to_rest<K, T: Shape<K>>(
    table: &Steps<K, T>,
    seat: &mut Place<K, T>,
    ticket: &mut Option<Badge<View<K>>>,
    node: NodeId,
    state: T,
    members: u64,
    list: Vec<T>,
)
    requires lawful { Lawful (T.kind table.now.key) }
    requires below { node.0 < (T.kind table.now.key).count }
    requires waits { (ask : _) × (may : _) × WaitsInHand (T.kind table.now.key) table.now.key table.now.table_id seat.old.table_id seat.old.me ticket.old ask may node.0 state }
    requires members { members ≡ length ((T.kind table.now.key).group state) }
    requires list { IsSpareList (length ((T.kind table.now.key).group state)) list.items (vec_capacity list) }
    ensures has { (ask : _) (may : _) → WaitsInHand (T.kind table.now.key) table.now.key table.now.table_id seat.old.table_id seat.old.me ticket.old ask may node.0 state → Has (T.kind table.now.key) table.now.key table.now.table_id seat.new.table_id seat.new.me ticket.new [] (members_asked (T.kind table.now.key) state ++ may) }
    ensures view { seat.new.me.0 ≡ resting (T.kind table.now.key) seat.old.me.0 node.0 state }
{
    match ticket.take() {
        Some(ticket) => rest_at(
            table,
            seat,
            node,
            Cell {
                state,
                ticket,
                list,
            },
            members,
        ),
        None => unreachable!(),
    }
}

// Sends the next domain that the pass may post: its state is ready, and whoever claims it has it.
pub(crate) fn send_next<K, T: Shape<K>>(
    table: &Steps<K, T>,
    seat: &mut Place<K, T>,
    ticket: &Option<Badge<View<K>>>,
    alloc: Global,
    node: NodeId,
    state: T,
)
    requires below { node.0 < (T.kind table.now.key).count }
    requires may { (ask : _) × (hand : _) × (may : _) × MaySend (T.kind table.now.key) table.now.key table.now.table_id seat.old.table_id seat.old.me ticket.now hand ask may node.0 state }
    ensures { (ask : _) (hand : _) (may : _) → MaySend (T.kind table.now.key) table.now.key table.now.table_id seat.old.table_id seat.old.me ticket.now hand ask may node.0 state → Has (T.kind table.now.key) table.now.key table.now.table_id seat.new.table_id seat.new.me ticket.now hand may × (seat.new.me.0 ≡ sending seat.old.me.0 node.0) }
{
    send(table, seat, node, state, Vec::new(alloc));
}
