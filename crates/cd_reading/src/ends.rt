// How a try, a domain and a group end.
ghost use Rattle.std.specs.Prelude.{◌≡◌, ℕ};
ghost use Rattle.cd_tree.specs.Reading as reading;
ghost use Rattle.cd_tree.specs.Reading.{Blame};
ghost use Rattle.cd_reading.specs.Ends.{try_end, node_end, group_end, last_end, has_failed, groups_joined, alone, TryFits, NodeFits, GroupFits};

use cd_tree::{Kinds, NodeId};

// The domain to blame for a failure, and the kinds that were found in it or that broke it off.
#[derive(Clone, Copy)]
pub(crate) struct Blamed {
    pub node: NodeId,
    pub kinds: Kinds,
}

// How a try ends: it passes with a leak, fails, or breaks off with halting kinds over.
#[derive(Clone, Copy)]
pub(crate) enum Tried {
    Passed(Kinds),
    Failed(Blamed),
    Broken(Blamed, Kinds),
}

// How a domain ends: it completes with a leak, or escalates with halting kinds over.
#[derive(Clone, Copy)]
pub(crate) enum Ended {
    Done(Kinds),
    Escalated(Blamed, Kinds),
}

// How a group ends: all members complete with their leaks, or the first escalation has the cause, and all leave kinds over.
#[derive(Clone, Copy)]
pub(crate) enum Grouped {
    AllDone(Kinds),
    SomeEscalated(Blamed, Kinds),
}

impl Tried {
    // Whether another try follows where one is spare.
    pub(crate) fn is_failed(&self) -> bool
        ensures { result ≡ has_failed (try_end self.now) }
    {
        match *self {
            Tried::Failed(_) => true,
            Tried::Passed(_) | Tried::Broken(_, _) => false,
        }
    }

    // The domain's end where this try is the last.
    pub(crate) fn last(&self) -> Ended
        ensures end { node_end result ≡ last_end (try_end self.now) }
        ensures fits { (count : ℕ) → TryFits count self.now → NodeFits count result }
    {
        match *self {
            Tried::Passed(leak) => Ended::Done(leak),
            Tried::Failed(cause) => Ended::Escalated(cause, Kinds::none()),
            Tried::Broken(cause, over) => Ended::Escalated(cause, over),
        }
    }
}

impl Grouped {
    // This end of some members, with the end of the next member after it.
    pub(crate) fn and(self, end: Ended) -> Grouped
        ensures end { group_end result ≡ groups_joined (group_end self) (alone (node_end end)) }
        ensures fits { (count : ℕ) → GroupFits count self → NodeFits count end → GroupFits count result }
    {
        match self {
            Grouped::AllDone(leaks) => end.behind_leaks(leaks),
            Grouped::SomeEscalated(cause, over) => {
                Grouped::SomeEscalated(cause, end.over_behind(over))
            }
        }
    }
}

impl Ended {
    // The end of a group of which all members before this one complete.
    fn behind_leaks(self, leaks: Kinds) -> Grouped
        ensures end { group_end result ≡ groups_joined (reading.AllDone leaks) (alone (node_end self)) }
        ensures fits { (count : ℕ) → NodeFits count self → GroupFits count result }
    {
        match self {
            Ended::Done(leak) => Grouped::AllDone(leaks.union(leak)),
            Ended::Escalated(cause, over) => Grouped::SomeEscalated(cause, over),
        }
    }

    // What is left over of a group in which a member before this one escalates.
    fn over_behind(self, over: Kinds) -> Kinds
        ensures { (cause : Blame) → reading.SomeEscalated cause result ≡ groups_joined (reading.SomeEscalated cause over) (alone (node_end self)) }
    {
        match self {
            Ended::Done(_) => over,
            Ended::Escalated(_, more) => over.union(more),
        }
    }
}
