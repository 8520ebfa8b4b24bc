// Domains that have ended come home; the last of a group takes its members and goes on with their parent.
ghost use Rattle.std.specs.Prelude.{◌≡◌, ◌≢◌, ℕ, ◌<◌, ◌≤◌, ◌+◌, [], ◌++◌, length, map, vec_capacity, MatchOption};
ghost use Rattle.cd_tree.specs.declared.domain.NodeId.{NodeId};
ghost use Rattle.cd_cells.specs.Arrivals.{ArrivedBefore, ArrivedRoot, ArrivesAs};
ghost use Rattle.cd_cells.specs.Gathering.{Gathers, HasGathered};
ghost use Rattle.cd_cells.specs.Hands.{EndedInHand};
ghost use Rattle.cd_cells.specs.Kinds.{Lawful};
ghost use Rattle.cd_cells.specs.Places.Sort.{owes};
ghost use Rattle.cd_cells.specs.Seats.{IsAt};
ghost use Rattle.cd_cells.specs.States.{numbers_of};
ghost use Rattle.cd_cells.specs.Views.{tally};

use crate::arrivals::{arrive, arrive_root, clear, resume, take};
use crate::passing::join_ticket;
use crate::rule::{Place, Shape, Steps};
use crate::view::{Cell, View};
use atomic_table::Badge;
use cd_tree::NodeId;

/// What an arrival came to.
#[derive(Drop)]
pub enum Arrived<T> {
    /// It was the last of its group: the parent is in hand, as it rested, and these are all members, as they arrived, in order.
    Last(T, Vec<T>),
    /// Others of its group have not arrived.
    NotLast,
    /// It was the root.
    Root,
}

// Brings the root home, which is in hand and has ended.
fn root_home<K, T: Shape<K>>(
    table: &Steps<K, T>,
    seat: &mut Place<K, T>,
    ticket: &mut Option<Badge<View<K>>>,
    count: u32,
    node: NodeId,
    list: Vec<T>,
    state: T,
)
    requires count { count ≡ (T.kind table.now.key).count }
    requires root { node.0 ≡ 0 }
    requires ended { (ask : _) × EndedInHand (T.kind table.now.key) table.now.key table.now.table_id seat.old.table_id seat.old.me ticket.old ask [] node.0 state }
    ensures { ArrivedRoot (T.kind table.now.key) table.now.key table.now.table_id seat.new.table_id seat.old.me seat.new.me ticket.new node.0 }
{
    match ticket.take() {
        Some(ticket) => arrive_root(
            table,
            seat,
            count,
            Cell {
                state,
                ticket,
                list,
            },
        ),
        None => unreachable!(),
    }
}

// Brings a member home, which is in hand and has ended. The old count of its parent comes back: it is the last of its group exactly
// where that was 1, and no member is taken then.
fn member_home<K, T: Shape<K>>(
    table: &Steps<K, T>,
    seat: &mut Place<K, T>,
    ticket: &mut Option<Badge<View<K>>>,
    node: NodeId,
    parent: NodeId,
    list: Vec<T>,
    state: T,
) -> u64
    requires lawful { Lawful (T.kind table.now.key) }
    requires above { 0 < node.0 }
    requires below { node.0 < (T.kind table.now.key).count }
    requires parent { parent.0 ≡ (T.kind table.now.key).up node.0 }
    requires ended { (ask : _) × EndedInHand (T.kind table.now.key) table.now.key table.now.table_id seat.old.table_id seat.old.me ticket.old ask [] node.0 state }
    ensures last { result ≡ 1 → Gathers (T.kind table.now.key) table.now.key table.now.table_id seat.new.table_id seat.old.me.0 node.0 seat.new.me ((T.kind table.now.key).siblings node.0) [] }
    ensures more { result ≢ 1 → ArrivedBefore (T.kind table.now.key) table.now.key table.now.table_id seat.new.table_id seat.old.me seat.new.me ticket.new node.0 }
{
    match ticket.take() {
        Some(ticket) => arrive(
            table,
            seat,
            node,
            parent,
            Cell {
                state,
                ticket,
                list,
            },
        ),
        None => unreachable!(),
    }
}

// Takes one member: its ticket is joined, and its cell is empty.
fn gather_one<K, T: Shape<K>>(table: &Steps<K, T>, seat: &mut Place<K, T>, node: NodeId) -> T
    requires at { IsAt (T.kind table.now.key) table.now.key table.now.table_id seat.old.table_id seat.old.me.0 }
    requires below { node.0 < (T.kind table.now.key).count }
    requires owed { 0 < tally owes node.0 seat.old.me.0 }
    ensures at { IsAt (T.kind table.now.key) table.now.key table.now.table_id seat.new.table_id seat.new.me.0 }
    ensures gathered { HasGathered (T.kind table.now.key) seat.old.me seat.new.me node.0 result }
{
    let Cell { state, ticket, .. } = take(table, seat, node);
    join_ticket(table, seat, ticket);
    clear(table, seat, node);
    state
}

// Takes all members of a group, in order.
fn gather<K, T: Shape<K>>(
    table: &Steps<K, T>,
    seat: &mut Place<K, T>,
    room: &mut Vec<T>,
    siblings: &[NodeId],
)
    requires room { length room.old.items + length siblings.now ≤ vec_capacity room.old }
    requires gathers { (old : _) × (node : _) × Gathers (T.kind table.now.key) table.now.key table.now.table_id seat.old.table_id old node seat.old.me (numbers_of siblings.now) room.old.items }
    ensures room { vec_capacity room.new ≡ vec_capacity room.old }
    ensures gathers { (old : _) (node : _) → Gathers (T.kind table.now.key) table.now.key table.now.table_id seat.old.table_id old node seat.old.me (numbers_of siblings.now) room.old.items → Gathers (T.kind table.now.key) table.now.key table.now.table_id seat.new.table_id old node seat.new.me [] room.new.items }
{
    for member in siblings {
        let state = gather_one(table, seat, *member);
        room.push_reserved(state);
    }
}

// Moves all states to the end of a list that has capacity for them.
fn move_all<T>(list: &mut Vec<T>, room: &mut Vec<T>)
    requires { length list.old.items + length room.old.items ≤ vec_capacity list.old }
    ensures items { list.new.items ≡ list.old.items ++ room.old.items }
    ensures room { (room.new.items ≡ []) × (vec_capacity room.new ≡ vec_capacity room.old) }
{
    match list.append(room) {
        Ok(()) => (),
        Err(_) => unreachable!(),
    }
}

// Goes on with the parent when all members are taken.
fn go_on<K, T: Shape<K>>(
    table: &Steps<K, T>,
    seat: &mut Place<K, T>,
    ticket: &mut Option<Badge<View<K>>>,
    room: &mut Vec<T>,
    node: NodeId,
    parent: NodeId,
) -> Arrived<T>
    requires lawful { Lawful (T.kind table.now.key) }
    requires above { 0 < node.0 }
    requires below { node.0 < (T.kind table.now.key).count }
    requires parent { parent.0 ≡ (T.kind table.now.key).up node.0 }
    requires gathers { (old : _) × Gathers (T.kind table.now.key) table.now.key table.now.table_id seat.old.table_id old node.0 seat.old.me [] room.old.items }
    ensures room { (room.new.items ≡ []) × (vec_capacity room.new ≡ vec_capacity room.old) }
    ensures last { (old : _) → Gathers (T.kind table.now.key) table.now.key table.now.table_id seat.old.table_id old.0 node.0 seat.old.me [] room.old.items → ArrivesAs (T.kind table.now.key) table.now.key table.now.table_id seat.new.table_id old seat.new.me ticket.new node.0 result }
{
    let Cell {
        state,
        ticket: own,
        mut list,
    } = resume(table, seat, parent, node);
    *ticket = Some(own);
    move_all(&mut list, room);
    Arrived::Last(state, list)
}

// Brings a domain in hand home that has ended. `siblings` are the members of its group, itself among them, and `room` is an empty
// list with capacity for them.
pub(crate) fn come_home<K, T: Shape<K>>(
    table: &Steps<K, T>,
    seat: &mut Place<K, T>,
    ticket: &mut Option<Badge<View<K>>>,
    room: &mut Vec<T>,
    count: u32,
    node: NodeId,
    parent: Option<NodeId>,
    siblings: &[NodeId],
    state: T,
) -> Arrived<T>
    requires lawful { Lawful (T.kind table.now.key) }
    requires count { count ≡ (T.kind table.now.key).count }
    requires below { node.0 < (T.kind table.now.key).count }
    requires parent { MatchOption parent (node.0 ≡ 0) (λ above. (0 < node.0) × (above.0 ≡ (T.kind table.now.key).up node.0)) }
    requires siblings { 0 < node.0 → map (λ (id : NodeId). id.0) siblings.now ≡ (T.kind table.now.key).siblings node.0 }
    requires room { (room.old.items ≡ []) × (length siblings.now ≤ vec_capacity room.old) }
    requires ended { (ask : _) × EndedInHand (T.kind table.now.key) table.now.key table.now.table_id seat.old.table_id seat.old.me ticket.old ask [] node.0 state }
    ensures room { (room.new.items ≡ []) × (vec_capacity room.new ≡ vec_capacity room.old) }
    ensures arrives { ArrivesAs (T.kind table.now.key) table.now.key table.now.table_id seat.new.table_id seat.old.me seat.new.me ticket.new node.0 result }
{
    let list = Vec::new(*room.allocator());
    match parent {
        None => {
            root_home(table, seat, ticket, count, node, list, state);
            Arrived::Root
        }
        Some(above) => {
            if member_home(table, seat, ticket, node, above, list, state) == 1 {
                gather(table, seat, room, siblings);
                go_on(table, seat, ticket, room, node, above)
            } else {
                Arrived::NotLast
            }
        }
    }
}
