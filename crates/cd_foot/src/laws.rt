//! The laws of overlaps, each the contract of a function that does nothing: to call it is to have the law.

ghost use Rattle.cd_foot.specs.Laws.{KindsChangeNoOverlap, FirstOverlapIsOne};
ghost use Rattle.cd_foot.specs.Bounded.{BoundedHasLeast, ReachIsBounded, FirstOverlapIsThere, NoOverlapIsDisjoint};

use cd_tree::laws::each_domain_answers_for_itself;

/// Which kinds a document names, and which of them halt, changes nothing for siblings.
pub fn the_names_of_kinds_change_no_overlap()
    ensures { KindsChangeNoOverlap }
{}

/// A program has one first overlap, or none.
pub fn a_program_has_one_first_overlap()
    ensures { FirstOverlapIsOne }
{}

/// A set of places with a bound has a least place, or it has no place.
pub fn a_bounded_set_has_a_least_place()
    ensures { BoundedHasLeast }
{}

/// What a domain reaches has a bound.
pub fn what_a_domain_reaches_is_bounded()
    ensures { ReachIsBounded }
{}

/// Each program has a first overlap, or none.
pub fn a_program_has_a_first_overlap_or_none()
    ensures { FirstOverlapIsThere }
{
    a_bounded_set_has_a_least_place();
    what_a_domain_reaches_is_bounded();
}

/// A program that has no overlap is disjoint.
pub fn a_program_without_overlaps_is_disjoint()
    ensures { NoOverlapIsDisjoint }
{
    each_domain_answers_for_itself();
}
