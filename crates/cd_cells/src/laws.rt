//! Laws over the rule of the cells, between any two steps of the passes of a table: each is the contract of a function that does
//! nothing.
ghost use Rattle.cd_cells.specs.Laws.{CountsAgree, ClaimedOnce, RootOnce, OneHand, AsksOfParents, LastHasAll};

use crate::rule::Shape;

/// The claims of a domain are its posts, less one exactly where its phase word is 2. Its arrivals are its claims, less one exactly
/// where its cell rests at a group or is in the hand of a pass that claimed it or went on with it.
pub fn counts_agree<K, T: Shape<K>>()
    ensures { CountsAgree T.kind }
{}

/// Arrivals ≤ claims ≤ posts ≤ arrivals + 1: what is posted is claimed at most once, and arrives at most once.
pub fn claimed_at_most_once<K, T: Shape<K>>()
    ensures { ClaimedOnce T.kind }
{}

/// The root is posted once: before, exactly one pass has the right to post it or has it in hand for that, and afterwards none.
pub fn root_is_posted_once<K, T: Shape<K>>()
    ensures { RootOnce T.kind }
{}

/// A cell that is not at home is in the hand of exactly one pass; one that is at home is in none's.
pub fn away_is_in_one_hand<K, T: Shape<K>>()
    ensures { OneHand T.kind }
{}

/// Where a pass names a domain, no other does; the root is named with its ask, and any other with what its parent's state, which
/// is at home and waits, asks of it.
pub fn named_by_parents<K, T: Shape<K>>()
    ensures { AsksOfParents T.kind }
{}

/// Where a pass may take a domain's members, no other may, the domain's count word is 0, and the pass has each of its members: it owes
/// its taking, has it in hand, or has cleared it and names it.
pub fn last_arriver_has_all_members<K, T: Shape<K>>()
    ensures { LastHasAll T.kind }
{}
