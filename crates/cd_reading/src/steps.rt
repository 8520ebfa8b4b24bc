// The steps of a try: how it comes to a point, how it goes on after a group, how it is judged at the end.
ghost use Rattle.std.specs.Prelude.{◌≡◌, ◌==◌, ◌<◌, ℕ, bit_and, bit_or};
ghost use Rattle.cd_tree.specs.KindSets.{no_kinds, kinds_without};
ghost use Rattle.cd_tree.specs.Reading.{Counts, Told, TryEnd, halted, unless_halted, stopped, group_ended, detected};
ghost use Rattle.cd_reading.specs.Ends.{blame_of, try_end, group_end, TryFits, GroupFits};
ghost use Rattle.cd_reading.specs.Steps.{quiet, try_of, went, StepFits};

use crate::ends::{Blamed, Grouped, Tried};
use cd_tree::{Kinds, NodeId};

// The try in hand: its domain, the kinds that this declares, and the number of this begin.
#[derive(Clone, Copy)]
pub(crate) struct Try {
    pub node: NodeId,
    pub detects: Kinds,
    pub begin: u64,
}

// A step of a try: it goes on with notes, or is over.
#[derive(Clone, Copy)]
pub(crate) enum Step {
    On(Kinds),
    Over(Tried),
}

impl Try {
    // The try comes to a point at which faults of these kinds strike.
    pub(crate) fn arrive(&self, halts: Kinds, kinds: Kinds, notes: Kinds) -> Step
        ensures step { (counts : Counts) (next : ℕ → Told TryEnd) → quiet (unless_halted (try_of self.now) (bit_and kinds halts) (bit_or notes kinds) counts next (bit_and kinds halts == no_kinds)) ≡ quiet (went result counts next) }
        ensures fits { (count : ℕ) → self.now.node.0 < count → StepFits count result }
    {
        let halting = kinds.meet(halts);
        if halting.is_none() {
            return Step::On(notes.union(kinds));
        }
        Step::Over(self.halt(halting, notes.union(kinds)))
    }

    // The try ends at a point: it fails where its domain declares all of these halting kinds, else it breaks off.
    fn halt(&self, halting: Kinds, notes: Kinds) -> Tried
        ensures end { (counts : Counts) → quiet (halted (try_of self.now) halting notes counts (kinds_without halting self.now.detects == no_kinds)) ≡ (counts, try_end result) }
        ensures fits { (count : ℕ) → self.now.node.0 < count → TryFits count result }
    {
        let over = halting.without(self.detects);
        if over.is_none() {
            return Tried::Failed(self.blame(notes.meet(self.detects)));
        }
        Tried::Broken(self.blame(halting), over)
    }

    // The try goes on after a group whose members all complete; else it is over.
    pub(crate) fn behind(&self, end: Grouped, notes: Kinds) -> Step
        ensures step { (counts : Counts) (next : ℕ → Counts → Told TryEnd) → quiet (group_ended (try_of self.now) notes counts (group_end end) next) ≡ quiet (went result counts (λ seen. next seen counts)) }
        ensures fits { (count : ℕ) → GroupFits count end → StepFits count result }
    {
        match end {
            Grouped::AllDone(leaks) => Step::On(notes.union(leaks)),
            Grouped::SomeEscalated(cause, over) => Step::Over(self.stop(cause, over)),
        }
    }

    // The try fails where its domain declares all that a group leaves over, else it breaks off.
    fn stop(&self, cause: Blamed, over: Kinds) -> Tried
        ensures end { try_end result ≡ stopped (blame_of cause) (kinds_without over self.now.detects) (kinds_without over self.now.detects == no_kinds) }
        ensures fits { (count : ℕ) → cause.node.0 < count → TryFits count result }
    {
        let left = over.without(self.detects);
        if left.is_none() {
            return Tried::Failed(cause);
        }
        Tried::Broken(cause, left)
    }

    // The declared kinds among the notes are found after the last point.
    pub(crate) fn judge(&self, notes: Kinds) -> Tried
        ensures end { (counts : Counts) → quiet (detected (try_of self.now) notes counts) ≡ (counts, try_end result) }
        ensures fits { (count : ℕ) → self.now.node.0 < count → TryFits count result }
    {
        let found = notes.meet(self.detects);
        if found.is_none() {
            return Tried::Passed(notes);
        }
        Tried::Failed(self.blame(found))
    }

    // This domain, to blame for these kinds.
    fn blame(&self, kinds: Kinds) -> Blamed
        ensures node { result.node ≡ self.now.node }
        ensures kinds { result.kinds ≡ kinds }
    {
        Blamed {
            node: self.node,
            kinds,
        }
    }
}
