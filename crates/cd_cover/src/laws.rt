//! The laws of frames, links and flaws, each the contract of a function that does nothing: to call it is to have the law.

ghost use Rattle.cd_cover.specs.Laws.{FramesGoUp, FramesEnd, LinksLead, KindsChangeNoFlaw, FirstFlawIsOne};
ghost use Rattle.cd_cover.specs.OuterLaws.{SubtreesByPaths, EntriesAreRead, OuterAreThese, OuterAreReferences, OuterInOrder, OuterAscend, OuterOfMembers, OuterLieBelow, FreshOnTheWay, OuterAreFresh};
ghost use Rattle.cd_cover.specs.KeptWords.{WrittenByFirstItems, OuterWordsStay, LinksServeMembers};
ghost use Rattle.cd_cover.specs.PlanLaws.{ReferencesHaveLinks, OnlyReferencesHaveLinks, GroupsNeedWithin, ChildrenNeedWithin};
ghost use Rattle.cd_cover.specs.There.{FirstFlawIsThere};

/// What lies over a domain is its parent and what lies over its parent, up to the root.
pub fn frames_go_up()
    ensures up { FramesGoUp }
    ensures end { FramesEnd }
{}

/// A link leads to an entry that can be referred to and holds the range, of a domain above.
pub fn links_lead_to_what_is_kept()
    ensures { LinksLead }
{}

/// Which kinds a document names, and which of them halt, changes nothing for plans.
pub fn the_names_of_kinds_change_no_flaw()
    ensures { KindsChangeNoFlaw }
{}

/// Each program has a first flaw, or none.
pub fn a_program_has_a_first_flaw_or_none()
    ensures { FirstFlawIsThere }
{}

/// A program has one first flaw, or none.
pub fn a_program_has_one_first_flaw()
    ensures { FirstFlawIsOne }
{}

/// A domain stands in the subtree of another, which is the other and all below it, exactly where the other is on its path; and
/// what its entries preserve the other reads.
pub fn subtrees_are_seen_on_paths()
    ensures paths { SubtreesByPaths }
    ensures entries { EntriesAreRead }
{}

/// The outer references of a domain are the entries of it and of the domains below it whose links lie above it: all of them
/// references, in order domain by domain of its subtree in preorder, and none twice.
pub fn outer_references_lead_out()
    ensures these { OuterAreThese }
    ensures references { OuterAreReferences }
    ensures order { OuterInOrder }
    ensures ascend { OuterAscend }
{}

/// An outer reference of a domain has its link in the parent or is an outer reference of the parent; and where one of the
/// parent's lies in a child, it is one of the child's.
pub fn outer_references_of_members()
    ensures members { OuterOfMembers }
    ensures below { OuterLieBelow }
{}

/// From the link of a reference down to the reference, no domain writes a place of its range before the group in which the
/// reference lies.
pub fn references_are_fresh_on_the_way()
    ensures way { FreshOnTheWay }
    ensures members { OuterAreFresh }
{}

/// Each reference of a plan has a link, a copy or a reference of a domain above that holds its range; no other entry has one.
pub fn references_and_no_others_have_links()
    ensures references { ReferencesHaveLinks }
    ensures only { OnlyReferencesHaveLinks }
{}

/// The entries of a domain and the members of one of its groups together need no more blocks than the domain.
pub fn groups_need_no_more_than_their_domain()
    ensures groups { GroupsNeedWithin }
    ensures children { ChildrenNeedWithin }
{}

/// Where a domain waits for a group, the range of each outer reference of a member has the words with which the domain began.
/// So if these agreed with what the domain's links and its own entries keep, what the links of its members keep is what the
/// members find.
pub fn members_find_what_their_links_keep()
    ensures first { WrittenByFirstItems }
    ensures words { OuterWordsStay }
    ensures links { LinksServeMembers }
{}
