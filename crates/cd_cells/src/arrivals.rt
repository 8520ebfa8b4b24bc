// The steps by which the members of a group, and the root, come back: arrivals, and what the last arriver and the closing pass take.
ghost use Rattle.std.specs.Prelude.{◌≡◌, ◌≢◌, ℕ, ◌<◌, ◌∷◌, None, Some};
ghost use Rattle.atomic_table.specs.Table.{rest};
ghost use Rattle.cd_cells.specs.declared.view.Meeting.{Meeting};
ghost use Rattle.cd_cells.specs.Places.Sort.{holds, lasts, owes, takes, clears, names};
ghost use Rattle.cd_cells.specs.Listing.{often, find};
ghost use Rattle.cd_cells.specs.Kinds.{IsGrouped};
ghost use Rattle.cd_cells.specs.Views.{tally};
ghost use Rattle.cd_cells.specs.Rule.{Ticketed};
ghost use Rattle.cd_cells.specs.Steps.{homing, with_view, meeting, arriving, arriving_last, Taken, clearing, Resumed, Closed, ClosedBy};
ghost use Rattle.cd_cells.specs.Seats.{IsAt};

use crate::plays::{Arriving, ArrivingAtRoot, Clearing, Closing, TakingMember, TakingParent};
use crate::rule::{Place, Shape, Steps};
use crate::view::Cell;
use cd_tree::NodeId;

fn root_word<K, T: Shape<K>>(table: &Steps<K, T>, seat: &mut Place<K, T>, count: u32) -> u64
    requires at { IsAt (T.kind table.now.key) table.now.key table.now.table_id seat.old.table_id seat.old.me.0 }
    requires count { count ≡ (T.kind table.now.key).count }
    requires held { 0 < tally holds 0 seat.old.me.0 }
    requires cell { (cell : _) × (seat.old.me.1 ≡ (0, Some cell) ∷ rest seat.old.me.1) × (T.kind table.now.key).Ended (find 0 seat.old.me.0.holds) cell.state × Ticketed table.now.key seat.old.me.0.table (find 0 seat.old.me.0.holds) cell }
    ensures at { IsAt (T.kind table.now.key) table.now.key table.now.table_id seat.new.table_id seat.new.me.0 }
    ensures me { seat.new.me ≡ homing seat.old.me (meeting (arriving seat.old.me.0 0) Meeting.RootArrival 0 1) }
{
    table.fetch_sub::<ArrivingAtRoot>(seat, 2 * count as usize + 1, 1)
}

// Brings the root home with its end.
pub(crate) fn arrive_root<K, T: Shape<K>>(
    table: &Steps<K, T>,
    seat: &mut Place<K, T>,
    count: u32,
    cell: Cell<K, T>,
)
    requires at { IsAt (T.kind table.now.key) table.now.key table.now.table_id seat.old.table_id seat.old.me.0 }
    requires count { count ≡ (T.kind table.now.key).count }
    requires held { 0 < tally holds 0 seat.old.me.0 }
    requires hand { seat.old.me.1 ≡ (0, None) ∷ rest seat.old.me.1 }
    requires ended { (T.kind table.now.key).Ended (find 0 seat.old.me.0.holds) cell.state }
    requires ticket { Ticketed table.now.key seat.old.me.0.table (find 0 seat.old.me.0.holds) cell }
    ensures at { IsAt (T.kind table.now.key) table.now.key table.now.table_id seat.new.table_id seat.new.me.0 }
    ensures me { seat.new.me ≡ homing seat.old.me (meeting (arriving seat.old.me.0 0) Meeting.RootArrival 0 1) }
{
    table.exchange(seat, 0, Some(cell));
    root_word(table, seat, count);
}

fn arrive_word<K, T: Shape<K>>(
    table: &Steps<K, T>,
    seat: &mut Place<K, T>,
    node: NodeId,
    parent: NodeId,
) -> u64
    requires at { IsAt (T.kind table.now.key) table.now.key table.now.table_id seat.old.table_id seat.old.me.0 }
    requires above { 0 < node.0 }
    requires below { node.0 < (T.kind table.now.key).count }
    requires parent { parent.0 ≡ (T.kind table.now.key).up node.0 }
    requires parent_below { parent.0 < (T.kind table.now.key).count }
    requires held { 0 < tally holds node.0 seat.old.me.0 }
    requires cell { (cell : _) × (seat.old.me.1 ≡ (node.0, Some cell) ∷ rest seat.old.me.1) × (T.kind table.now.key).Ended (find node.0 seat.old.me.0.holds) cell.state × Ticketed table.now.key seat.old.me.0.table (find node.0 seat.old.me.0.holds) cell }
    ensures at { IsAt (T.kind table.now.key) table.now.key table.now.table_id seat.new.table_id seat.new.me.0 }
    ensures last { result ≡ 1 → seat.new.me ≡ homing seat.old.me (meeting (arriving_last (T.kind table.now.key) seat.old.me.0 node.0) Meeting.Arrival parent.0 1) }
    ensures more { result ≢ 1 → seat.new.me ≡ homing seat.old.me (meeting (arriving seat.old.me.0 node.0) Meeting.Arrival parent.0 result) }
    ensures grouped { result ≡ 1 → IsGrouped (T.kind table.now.key) node.0 }
{
    table.fetch_sub::<Arriving>(seat, 2 * parent.0 as usize + 2, 1)
}

// Brings a member home with its end. The old count of its parent comes back: it is the last exactly where that was 1.
pub(crate) fn arrive<K, T: Shape<K>>(
    table: &Steps<K, T>,
    seat: &mut Place<K, T>,
    node: NodeId,
    parent: NodeId,
    cell: Cell<K, T>,
) -> u64
    requires at { IsAt (T.kind table.now.key) table.now.key table.now.table_id seat.old.table_id seat.old.me.0 }
    requires above { 0 < node.0 }
    requires below { node.0 < (T.kind table.now.key).count }
    requires parent { parent.0 ≡ (T.kind table.now.key).up node.0 }
    requires parent_below { parent.0 < (T.kind table.now.key).count }
    requires held { 0 < tally holds node.0 seat.old.me.0 }
    requires hand { seat.old.me.1 ≡ (node.0, None) ∷ rest seat.old.me.1 }
    requires ended { (T.kind table.now.key).Ended (find node.0 seat.old.me.0.holds) cell.state }
    requires ticket { Ticketed table.now.key seat.old.me.0.table (find node.0 seat.old.me.0.holds) cell }
    ensures at { IsAt (T.kind table.now.key) table.now.key table.now.table_id seat.new.table_id seat.new.me.0 }
    ensures last { result ≡ 1 → seat.new.me ≡ homing seat.old.me (meeting (arriving_last (T.kind table.now.key) seat.old.me.0 node.0) Meeting.Arrival parent.0 1) }
    ensures more { result ≢ 1 → seat.new.me ≡ homing seat.old.me (meeting (arriving seat.old.me.0 node.0) Meeting.Arrival parent.0 result) }
    ensures grouped { result ≡ 1 → IsGrouped (T.kind table.now.key) node.0 }
{
    table.exchange(seat, node.0 as usize, Some(cell));
    arrive_word(table, seat, node, parent)
}

fn take_word<K, T: Shape<K>>(table: &Steps<K, T>, seat: &mut Place<K, T>, node: NodeId)
    requires at { IsAt (T.kind table.now.key) table.now.key table.now.table_id seat.old.table_id seat.old.me.0 }
    requires below { node.0 < (T.kind table.now.key).count }
    requires owed { 0 < tally owes node.0 seat.old.me.0 }
    ensures at { IsAt (T.kind table.now.key) table.now.key table.now.table_id seat.new.table_id seat.new.me.0 }
    ensures taken { (c : _) × Taken (T.kind table.now.key) table.now.key seat.old.me node.0 seat.new.me c (Some c) }
{
    table.store::<TakingMember>(seat, 2 * node.0 as usize + 1, 1)
}

// Takes a member that has arrived, when all have.
pub(crate) fn take<K, T: Shape<K>>(
    table: &Steps<K, T>,
    seat: &mut Place<K, T>,
    node: NodeId,
) -> Cell<K, T>
    requires at { IsAt (T.kind table.now.key) table.now.key table.now.table_id seat.old.table_id seat.old.me.0 }
    requires below { node.0 < (T.kind table.now.key).count }
    requires owed { 0 < tally owes node.0 seat.old.me.0 }
    ensures at { IsAt (T.kind table.now.key) table.now.key table.now.table_id seat.new.table_id seat.new.me.0 }
    ensures taken { Taken (T.kind table.now.key) table.now.key seat.old.me node.0 seat.new.me result None }
{
    take_word(table, seat, node);
    match table.exchange(seat, node.0 as usize, None) {
        Some(cell) => cell,
        None => unreachable!(),
    }
}

// Leaves the cell of a member empty that was taken, when the pass has joined its ticket.
pub(crate) fn clear<K, T: Shape<K>>(table: &Steps<K, T>, seat: &mut Place<K, T>, node: NodeId)
    requires at { IsAt (T.kind table.now.key) table.now.key table.now.table_id seat.old.table_id seat.old.me.0 }
    requires below { node.0 < (T.kind table.now.key).count }
    requires hand { seat.old.me.1 ≡ (node.0, None) ∷ rest seat.old.me.1 }
    requires taken { 0 < tally takes node.0 seat.old.me.0 }
    requires named { 0 < tally names node.0 seat.old.me.0 }
    ensures at { IsAt (T.kind table.now.key) table.now.key table.now.table_id seat.new.table_id seat.new.me.0 }
    ensures me { seat.new.me ≡ homing seat.old.me (clearing seat.old.me.0 node.0) }
{
    table.store::<Clearing>(seat, 2 * node.0 as usize + 1, 0)
}

fn resume_word<K, T: Shape<K>>(
    table: &Steps<K, T>,
    seat: &mut Place<K, T>,
    parent: NodeId,
    member: NodeId,
)
    requires at { IsAt (T.kind table.now.key) table.now.key table.now.table_id seat.old.table_id seat.old.me.0 }
    requires above { 0 < member.0 }
    requires below { member.0 < (T.kind table.now.key).count }
    requires parent { (T.kind table.now.key).up member.0 ≡ parent.0 }
    requires parent_below { parent.0 < (T.kind table.now.key).count }
    requires last { 0 < tally lasts parent.0 seat.old.me.0 }
    requires cleared { 0 < tally clears member.0 seat.old.me.0 }
    requires all { (i : ℕ) → 0 < often i ((T.kind table.now.key).siblings member.0) → 0 < tally clears i seat.old.me.0 }
    ensures at { IsAt (T.kind table.now.key) table.now.key table.now.table_id seat.new.table_id seat.new.me.0 }
    ensures resumed { (c : _) × Resumed (T.kind table.now.key) table.now.key seat.old.me parent.0 seat.new.me c (Some c) }
{
    table.store::<TakingParent>(seat, 2 * parent.0 as usize + 1, 1)
}

// Takes the parent of a member, when the pass has cleared all members.
pub(crate) fn resume<K, T: Shape<K>>(
    table: &Steps<K, T>,
    seat: &mut Place<K, T>,
    parent: NodeId,
    member: NodeId,
) -> Cell<K, T>
    requires at { IsAt (T.kind table.now.key) table.now.key table.now.table_id seat.old.table_id seat.old.me.0 }
    requires above { 0 < member.0 }
    requires below { member.0 < (T.kind table.now.key).count }
    requires parent { (T.kind table.now.key).up member.0 ≡ parent.0 }
    requires parent_below { parent.0 < (T.kind table.now.key).count }
    requires last { 0 < tally lasts parent.0 seat.old.me.0 }
    requires cleared { 0 < tally clears member.0 seat.old.me.0 }
    requires all { (i : ℕ) → 0 < often i ((T.kind table.now.key).siblings member.0) → 0 < tally clears i seat.old.me.0 }
    ensures at { IsAt (T.kind table.now.key) table.now.key table.now.table_id seat.new.table_id seat.new.me.0 }
    ensures resumed { Resumed (T.kind table.now.key) table.now.key seat.old.me parent.0 seat.new.me result None }
{
    resume_word(table, seat, parent, member);
    match table.exchange(seat, parent.0 as usize, None) {
        Some(cell) => cell,
        None => unreachable!(),
    }
}

fn close_word<K, T: Shape<K>>(table: &Steps<K, T>, seat: &mut Place<K, T>, count: u32) -> u64
    requires at { IsAt (T.kind table.now.key) table.now.key table.now.table_id seat.old.table_id seat.old.me.0 }
    requires count { count ≡ (T.kind table.now.key).count }
    ensures at { IsAt (T.kind table.now.key) table.now.key table.now.table_id seat.new.table_id seat.new.me.0 }
    ensures won { result ≡ 0 → (c : _) × Closed (T.kind table.now.key) table.now.key seat.old.me seat.new.me c (Some c) }
    ensures lost { result ≢ 0 → seat.new.me ≡ with_view seat.old.me (meeting seat.old.me.0 Meeting.Close 0 result) }
{
    table.compare_exchange::<Closing>(seat, 2 * count as usize + 1, 0, 2)
}

// Takes the root that has arrived. None exactly where the root's own count word, as the one exchange met it, was not 0.
pub(crate) fn close<K, T: Shape<K>>(
    table: &Steps<K, T>,
    seat: &mut Place<K, T>,
    count: u32,
) -> Option<Cell<K, T>>
    requires at { IsAt (T.kind table.now.key) table.now.key table.now.table_id seat.old.table_id seat.old.me.0 }
    requires count { count ≡ (T.kind table.now.key).count }
    ensures at { IsAt (T.kind table.now.key) table.now.key table.now.table_id seat.new.table_id seat.new.me.0 }
    ensures met { ClosedBy (T.kind table.now.key) table.now.key seat.old.me seat.new.me result }
{
    if close_word(table, seat, count) == 0 {
        table.exchange(seat, 0, None)
    } else {
        None
    }
}
