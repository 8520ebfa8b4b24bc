// A pass at the table of cells: the calls by which a worker sends domains, takes them up and brings them home.
ghost use Rattle.std.specs.Prelude.{◌≡◌, ◌==◌, ℕ, ◌%◌, ◌<◌, ◌≤◌, [], ◌∷◌, ◌++◌, length, vec_capacity, IfOk, IsTrue, MatchOption, OnErr};
ghost use Rattle.cd_cells.specs.declared.view.Meeting.{Meeting};
ghost use Rattle.cd_cells.specs.Passes.{Claims, ComesHome, EndsHere, HasClosed, HasPosted, IsSplitOff, Meets, PassHas, PostsNext, SameTable, Stays, WaitsHere, key_of, view_of};
ghost use Rattle.cd_cells.specs.Hands.{members_asked};
ghost use Rattle.cd_cells.specs.Kinds.{Lawful};
ghost use Rattle.cd_cells.specs.Rule.{IsSpareList};
ghost use Rattle.cd_cells.specs.States.{numbers_of};
ghost use Rattle.cd_cells.specs.Steps.{meeting, resting, stopping};
ghost use Rattle.cd_cells.specs.Views.{joining};

use crate::arrivals::close;
use crate::hands::{put_to_rest, send_next, take_up};
use crate::homing::{Arrived, come_home};
use crate::opening::open;
use crate::passing::{join, part, stop, stopped};
use crate::rule::{Cells, Place, Shape};
use crate::view::{Cell, View};
use atomic_table::Badge;
use cd_base::NoMemory;
use cd_tree::NodeId;
use std::alloc::Global;
use std::sync::Arc;

/// A pass at one table of cells, which all passes that were split off from one share. It has at most one domain in hand between
/// two calls.
#[derive(Drop)]
pub struct CellPass<K, T: Shape<K>> {
    table: Arc<Cells<K, T>, Global>,
    seat: Place<K, T>,
    // The ticket of the domain in hand.
    ticket: Option<Badge<View<K>>>,
    // For the members that the last arriver has taken, until it has their parent.
    room: Vec<T>,
    count: u32,
    alloc: Global,
}

impl<K, T: Shape<K>> CellPass<K, T> {
    /// A pass at a new table for so many domains, of which none is sent. It may post the root. `widest` is the number of members of
    /// the largest group.
    pub fn open(
        alloc: Global,
        about: &K,
        count: u32,
        widest: usize,
    ) -> Result<CellPass<K, T>, NoMemory>
        requires lawful { Lawful (T.kind about.now) }
        requires count { count ≡ (T.kind about.now).count }
        requires widest { (m : ℕ) → length ((T.kind about.now).siblings m) ≤ widest }
        ensures key { IfOk result (λ pass. key_of pass ≡ about.now) }
        ensures may { IfOk result (λ pass. PassHas T.kind pass [] ((T.kind about.now).root ∷ [])) }
    {
        let room = Vec::with_capacity(alloc, widest)?;
        let (table, seat) = open(alloc, about, count)?;
        let table = Arc::new(alloc, table)?;
        Ok(CellPass {
            table,
            seat,
            ticket: None,
            room,
            count,
            alloc,
        })
    }

    /// Another pass at the same table, with nothing in hand and nothing to post. After want of memory this pass is unchanged.
    pub fn split(&mut self) -> Result<CellPass<K, T>, NoMemory>
        requires here { (hand : _) × (may : _) × PassHas T.kind self.old hand may }
        ensures same { SameTable self.old self.new }
        ensures stays { (hand : _) (may : _) → PassHas T.kind self.old hand may → Stays T.kind self.old self.new hand may (view_of self.old) }
        ensures child { IfOk result (IsSplitOff T.kind self.old) }
        ensures unchanged { OnErr result (self.new ≡ self.old) }
    {
        let room = Vec::with_capacity(self.alloc, self.room.capacity())?;
        let table = Arc::try_clone(&self.table)?;
        let seat = part(&self.table.shared, &mut self.seat);
        Ok(CellPass {
            table,
            seat,
            ticket: None,
            room,
            count: self.count,
            alloc: self.alloc,
        })
    }

    /// Takes back a pass of the same table that has nothing in hand and nothing to post. It takes no memory.
    pub fn join(&mut self, child: CellPass<K, T>)
        requires here { (hand : _) × (may : _) × PassHas T.kind self.old hand may }
        requires one { SameTable self.old child }
        requires free { PassHas T.kind child [] [] }
        ensures same { SameTable self.old self.new }
        ensures joins { (hand : _) (may : _) → PassHas T.kind self.old hand may → Stays T.kind self.old self.new hand may (joining (view_of self.old) (view_of child)) }
    {
        let CellPass { seat, .. } = child;
        join(&self.table.shared, &mut self.seat, seat);
    }

    /// Takes up a domain that was posted. None exactly where its phase word, as the one exchange met it, was not that of a domain
    /// that is ready. It takes no memory.
    pub fn claim(&mut self, node: NodeId) -> Option<T>
        requires below { node.0 < (T.kind (key_of self.old)).count }
        requires free { (may : _) × PassHas T.kind self.old [] may }
        ensures same { SameTable self.old self.new }
        ensures claims { (may : _) → PassHas T.kind self.old [] may → MatchOption result (Meets T.kind self.old self.new may Meeting.Claim node.0 2) (Claims T.kind self.old self.new may node.0) }
    {
        take_up(&self.table.shared, &mut self.seat, &mut self.ticket, node)
    }

    /// Brings home a domain in hand that waits at a group of so many members, with an empty list that has capacity for them. The
    /// pass may post each member then, with what the state asks of it. It takes no memory.
    pub fn rest(&mut self, node: NodeId, state: T, members: u64, list: Vec<T>)
        requires below { node.0 < (T.kind (key_of self.old)).count }
        requires waits { (ask : _) × (may : _) × WaitsHere T.kind self.old ask may node.0 state }
        requires members { members ≡ length ((T.kind (key_of self.old)).group state) }
        requires list { IsSpareList (length ((T.kind (key_of self.old)).group state)) list.items (vec_capacity list) }
        ensures now { (ask : _) (may : _) → WaitsHere T.kind self.old ask may node.0 state → PassHas T.kind self.new [] (members_asked (T.kind (key_of self.new)) state ++ may) }
        ensures same { SameTable self.old self.new }
        ensures view { view_of self.new ≡ resting (T.kind (key_of self.old)) (view_of self.old) node.0 state }
    {
        put_to_rest(
            &self.table.shared,
            &mut self.seat,
            &mut self.ticket,
            node,
            state,
            members,
            list,
        );
    }

    /// Sends the next domain that the pass may post: its state is ready, and whoever claims it has it. It takes no memory.
    pub fn post(&mut self, node: NodeId, state: T)
        requires below { node.0 < (T.kind (key_of self.old)).count }
        requires may { (hand : _) × (ask : _) × (may : _) × PostsNext T.kind self.old hand ask may node.0 state }
        ensures same { SameTable self.old self.new }
        ensures posts { (hand : _) (ask : _) (may : _) → PostsNext T.kind self.old hand ask may node.0 state → HasPosted T.kind self.old self.new hand may node.0 }
    {
        send_next(
            &self.table.shared,
            &mut self.seat,
            &self.ticket,
            self.alloc,
            node,
            state,
        );
    }

    /// Brings home a domain in hand that has ended. `parent` is its parent, and `siblings` are the members of its group, itself among
    /// them; the root has none of both. Where all have arrived the parent is in hand then, as it rested. It takes no memory.
    pub fn arrive(
        &mut self,
        node: NodeId,
        parent: Option<NodeId>,
        siblings: &[NodeId],
        state: T,
    ) -> Arrived<T>
        requires below { node.0 < (T.kind (key_of self.old)).count }
        requires parent { MatchOption parent (node.0 ≡ 0) (λ above. (0 < node.0) × (above.0 ≡ (T.kind (key_of self.old)).up node.0)) }
        requires siblings { 0 < node.0 → numbers_of siblings.now ≡ (T.kind (key_of self.old)).siblings node.0 }
        requires alone { node.0 ≡ 0 → siblings.now ≡ [] }
        requires ended { (ask : _) × EndsHere T.kind self.old ask node.0 state }
        ensures home { ComesHome T.kind self.old self.new node.0 result }
        ensures same { SameTable self.old self.new }
    {
        come_home(
            &self.table.shared,
            &mut self.seat,
            &mut self.ticket,
            &mut self.room,
            self.count,
            node,
            parent,
            siblings,
            state,
        )
    }

    /// Takes the root that has arrived, with its end. None exactly where the root's own count word, as the one exchange met it, was
    /// not 0. It takes no memory.
    pub fn close(&mut self) -> Option<T>
        requires free { (may : _) × PassHas T.kind self.old [] may }
        ensures same { SameTable self.old self.new }
        ensures closes { (may : _) → PassHas T.kind self.old [] may → MatchOption result (Meets T.kind self.old self.new may Meeting.Close 0 0) (HasClosed T.kind self.old self.new) }
    {
        match close(&self.table.shared, &mut self.seat, self.count) {
            None => None,
            Some(Cell { state, .. }) => Some(state),
        }
    }

    /// Sets the stop bit. It takes no memory.
    pub fn stop(&mut self)
        requires here { (hand : _) × (may : _) × PassHas T.kind self.old hand may }
        ensures same { SameTable self.old self.new }
        ensures stops { (hand : _) (may : _) → PassHas T.kind self.old hand may → Stays T.kind self.old self.new hand may (stopping (view_of self.old)) }
    {
        stop(&self.table.shared, &mut self.seat);
    }

    /// Whether the word read had the stop bit. A pass that has stopped finds it. It takes no memory.
    pub fn stopped(&mut self) -> bool
        requires here { (hand : _) × (may : _) × PassHas T.kind self.old hand may }
        ensures same { SameTable self.old self.new }
        ensures met { (hand : _) (may : _) → PassHas T.kind self.old hand may → (found : ℕ) × Stays T.kind self.old self.new hand may (meeting (view_of self.old) Meeting.Look 0 found) × (result ≡ (found % 2 == 1)) }
        ensures own { 0 < (view_of self.old).stops → IsTrue result }
    {
        stopped(&self.table.shared, &mut self.seat)
    }
}
