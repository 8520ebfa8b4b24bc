//! The laws of the reading, each the contract of a function that does nothing: to call it is to have the law.

ghost use Rattle.cd_tree.specs.AcceptedLaws.{CountsAreSmall};
ghost use Rattle.cd_tree.specs.Begins.{BeginsFollowFailures, BeginsNumberOn};
ghost use Rattle.cd_tree.specs.CountLaws.{ReadsOwnCounts, ReadsPointsCounts, ReadsMembersCounts, EachIsInOrder, NumbersAreDistinct, CountsGrowByRepeats, CountsDoNotFall, MemberCountsDoNotFall, MembersStayBelow};
ghost use Rattle.cd_tree.specs.FrontLaws.{DomainsTellTheirOwn, FrontsEndThere, ArrivalsAreFronts, FrontsLead, RecordsBegin, FirstPointIsThere, NextPointIsThere, NextTryIsThere, FrontsStand, FrontCountsLieBetween, MemberCountsLieBelow, PassedPointsAreQuiet, NoGroupLeakHalts, MembersLead, WaitingIsQuiet, PassesGroups, StopsAtGroups};
ghost use Rattle.cd_tree.specs.LegalLaws.{LegalPieces, ReadingsSaveAsDeclared, RecordsSaveAsDeclared, LegalFrontsGoOn, LegalFrontsOfRecords, LegalFrontsAreFronts};
ghost use Rattle.cd_tree.specs.Locality.{ColumnIsLocal, OperationsActLocally, DomainsActLocally, AgreementInEntries, BodiesActLocally, ShapesFitInPrograms, CoveredInPrograms, DisjointInPrograms};
ghost use Rattle.cd_tree.specs.FirstItems.{FirstThenRest, EnoughAreAll, OneItemMore, RunComesNext, GroupComesNext, OneItemLess, ItemsBehind, ItemsBefore, BehindIsRun, BehindIsGroup, BehindIsNothing, MembersAreNamed, LengthOfItems, LengthBehind, LengthOfFirst, FirstArePart, BehindArePart, FirstLeaveOthers, FirstKeepWords, FirstKeepAgreement, FirstAgreeInEntries, NextItemAgrees, MembersResume, MembersResumeIn, MembersTouchLess, MembersAreCovered, MembersShapesFit, MembersAreDisjoint};
ghost use Rattle.cd_tree.specs.Absorbing.{AbsorbingIsMeaning, AbsorbingOne, MembersGiveTheirOwn, GroupLeavesOthers, GroupWritesByMembers, OrderDoesNotMatter, ApartIsUnseen};
ghost use Rattle.cd_tree.specs.Laws.{RepeatsAreAtMostStrikes, StrikesAreAtMostEntries, RepeatsAreAtMostEntries, CountsAreAtMostOneMoreThanEntries, NestedViewFollows, NoLeakHalts, FoundAtRoots, FoundInPrograms, PathsDiffer, CoveredReach, ReachIsEntries, DisjointByDomains, CoveredByDomains, DetectableByPaths, NeedIsRoots, ParentsComeFirst, PathsGoDown, WordsStay};
ghost use Rattle.cd_tree.specs.RecordLengths.{EventsGrowByRepeats, WeightsAreSmall, RecordsGrowByEntries, RecordsAreShort};
ghost use Rattle.cd_tree.specs.SliceLaws.{SubtreesAreSlices, SlicesHaveTheirNumbers, MembersAreSlices, ChildrenFillSlices, SlicesEndWithin, ChildrenStand, ChildrenStandOnce, MembersAreChildren};

/// No more tries are repeated than faults strike, and no more faults strike than the script has entries.
pub fn repeats_are_at_most_strikes()
    ensures repeats { RepeatsAreAtMostStrikes }
    ensures strikes { StrikesAreAtMostEntries }
    ensures program { RepeatsAreAtMostEntries }
{}

/// No domain of a program begins more often than once and once more for each entry of the script.
pub fn counts_are_at_most_one_more_than_entries()
    ensures { CountsAreAtMostOneMoreThanEntries }
{}

/// The nested view of a program is what its list of domains says: each domain's members are the domains that its groups
/// name.
pub fn the_nested_view_follows_the_list()
    ensures { NestedViewFollows }
{}

/// A halting kind ends a try at its point, so that no domain completes with one as a leak.
pub fn no_leak_halts()
    ensures { NoLeakHalts }
{}

/// Where each fault's kind is declared by its domain or by one above it, the root finds what comes up to it: it neither
/// leaks nor breaks off.
pub fn declared_kinds_are_found_at_the_root()
    ensures roots { FoundAtRoots }
    ensures programs { FoundInPrograms }
{}

/// No two domains of a program have the same path: so `find` gives a domain back from its `path_text`.
pub fn no_two_domains_share_a_path()
    ensures { PathsDiffer }
{}

/// A domain whose entries cover what its body touches reaches no other place.
pub fn a_covered_domain_reaches_its_entries_alone()
    ensures within { CoveredReach }
    ensures same { ReachIsEntries }
{}

/// Whether siblings are apart, and whether bodies are covered, are questions to each domain by itself.
pub fn each_domain_answers_for_itself()
    ensures disjoint { DisjointByDomains }
    ensures covered { CoveredByDomains }
{}

/// The kinds that a domain's faults may have are those that it and the domains above it declare.
pub fn kinds_are_declared_on_the_path()
    ensures { DetectableByPaths }
{}

/// What serves the root's need serves that of each domain.
pub fn the_root_needs_the_most()
    ensures { NeedIsRoots }
{}

/// Parents stand before their children, and paths go down from parent to child.
pub fn paths_go_from_parent_to_child()
    ensures parents { ParentsComeFirst }
    ensures paths { PathsGoDown }
{}

/// Under an accepted script no domain of a program begins more than 2^32 times.
pub fn accepted_scripts_keep_counts_small()
    ensures { CountsAreSmall }
{}

/// A record has at most as many events as its program weighs, and as many again for each try that was repeated: so a `u64`
/// counts the events of a program under an accepted script.
pub fn records_are_short()
    ensures reading { EventsGrowByRepeats }
    ensures weight { WeightsAreSmall }
    ensures program { RecordsGrowByEntries }
    ensures accepted { RecordsAreShort }
{}

/// The numbers of a domain and of those below it are consecutive: a subtree is a slice of the list of domains.
pub fn subtrees_are_slices()
    ensures slices { SubtreesAreSlices }
    ensures numbers { SlicesHaveTheirNumbers }
    ensures members { MembersAreSlices }
{}

/// The slices of a domain's children follow each other from behind the domain to the end of its own slice.
pub fn children_fill_slices()
    ensures fill { ChildrenFillSlices }
    ensures within { SlicesEndWithin }
{}

/// Each domain but the root stands at one place of its parent's groups and nowhere else, and groups name children alone.
pub fn children_stand_once()
    ensures stand { ChildrenStand }
    ensures once { ChildrenStandOnce }
    ensures children { MembersAreChildren }
{}

/// Computing takes no word away.
pub fn words_stay()
    ensures { WordsStay }
{}

/// Each word that an operation writes comes from a few words of its sources, and an operation changes nothing else. So what
/// agrees on its sources agrees on its destination.
pub fn an_operation_sees_its_sources_alone()
    ensures column { ColumnIsLocal }
    ensures acts { OperationsActLocally }
{}

/// What a domain computes depends on the words that it reads, and it changes no others than those that it writes: so a run
/// that holds the words of a covered domain's entries, and no more, computes the same.
pub fn a_domain_sees_what_it_reads_alone()
    ensures acts { DomainsActLocally }
    ensures entries { AgreementInEntries }
{}

/// The same of a body, as of the items of a domain that are still to come.
pub fn a_body_sees_what_it_reads_alone()
    ensures { BodiesActLocally }
{}

/// Each domain of a program meets what the laws on what domains see ask of it: its shapes are right, and it is covered and
/// disjoint where the program is.
pub fn each_domain_is_as_its_program()
    ensures shapes { ShapesFitInPrograms }
    ensures covered { CoveredInPrograms }
    ensures disjoint { DisjointInPrograms }
{}

/// Behind its first items a body goes on with the rest: so a domain that waits for a group, or goes on behind one, has the
/// words of the items before.
pub fn first_items_and_the_rest_are_all()
    ensures rest { FirstThenRest }
    ensures all { EnoughAreAll }
    ensures more { OneItemMore }
    ensures run { RunComesNext }
    ensures group { GroupComesNext }
    ensures less { OneItemLess }
{}

/// The first items of a body and those behind them are the first and the later items of the list that describes it.
pub fn a_body_follows_its_items()
    ensures behind { ItemsBehind }
    ensures before { ItemsBefore }
    ensures run { BehindIsRun }
    ensures group { BehindIsGroup }
    ensures nothing { BehindIsNothing }
    ensures members { MembersAreNamed }
    ensures length { LengthOfItems }
    ensures left { LengthBehind }
    ensures first { LengthOfFirst }
{}

/// What holds of all items of a body holds of its first items, and of those behind them.
pub fn items_are_part_of_their_body()
    ensures first { FirstArePart }
    ensures behind { BehindArePart }
{}

/// The first items see what they read and change what they write, and no other word.
pub fn first_items_see_what_they_read_alone()
    ensures others { FirstLeaveOthers }
    ensures words { FirstKeepWords }
    ensures agreement { FirstKeepAgreement }
    ensures entries { FirstAgreeInEntries }
    ensures next { NextItemAgrees }
{}

/// What the laws on what domains see ask of a domain holds of the members of its groups, too.
pub fn members_are_as_their_domain()
    ensures touched { MembersTouchLess }
    ensures covered { MembersAreCovered }
    ensures shapes { MembersShapesFit }
    ensures disjoint { MembersAreDisjoint }
{}

/// A domain that waits for a group goes on with what the group's members have written, also where only some places' words
/// are known, as those of its entries.
pub fn members_give_what_a_domain_goes_on_with()
    ensures all { MembersResume }
    ensures places { MembersResumeIn }
{}

/// The words after a group are those before, with what each member gives in the places that it writes.
pub fn absorbing_members_is_their_meaning()
    ensures all { AbsorbingIsMeaning }
    ensures one { AbsorbingOne }
    ensures others { GroupLeavesOthers }
    ensures writes { GroupWritesByMembers }
{}

/// Where members are apart, none sees nor overwrites what another has written: their order does not matter.
pub fn apart_members_come_in_any_order()
    ensures own { MembersGiveTheirOwn }
    ensures order { OrderDoesNotMatter }
    ensures unseen { ApartIsUnseen }
{}

/// Between two begins of a domain its parent began, or its own try failed and it has not ended: a sibling's failure begins
/// nobody else. The second begin has the next number.
pub fn begins_follow_failures()
    ensures failures { BeginsFollowFailures }
    ensures numbers { BeginsNumberOn }
{}

// -- fronts and counts

/// A domain's reading knows no counts but those of the domain and those below it, and leaves the others as they were.
pub fn readings_know_their_own_counts()
    ensures domains { ReadsOwnCounts }
    ensures points { ReadsPointsCounts }
    ensures members { ReadsMembersCounts }
{}

/// The members of a group can be read each by itself, from the counts when all were sent.
pub fn members_are_read_each_by_itself()
    ensures { EachIsInOrder }
{}

/// No number of a program's domains stands twice in one of them.
pub fn numbers_are_distinct()
    ensures { NumbersAreDistinct }
{}

/// A domain begins at most once, and once more for each try that was repeated, for each time that its number stands in the
/// domain that is read; and no count falls.
pub fn counts_grow_by_repeats()
    ensures most { CountsGrowByRepeats }
    ensures least { CountsDoNotFall }
    ensures members { MemberCountsDoNotFall }
{}

/// The counts inside a domain's reading, at its fronts and behind the members of its groups, are not above those after it: a
/// bound on the counts of the whole reading bounds them all.
pub fn counts_inside_stay_below()
    ensures fronts { FrontCountsLieBetween }
    ensures groups { MemberCountsLieBelow }
    ensures members { MembersStayBelow }
{}

/// A front of a domain's reading, with what is left behind it, is the whole reading: so its events are a front of the record.
pub fn the_reading_goes_on_from_each_front()
    ensures leads { FrontsLead }
    ensures events { RecordsBegin }
{}

/// The events in a domain's record are of that domain and of those below it.
pub fn domains_tell_their_own_events()
    ensures { DomainsTellTheirOwn }
{}

/// The arrivals of a domain in its record are its fronts, each of which ends with one.
pub fn arrivals_are_fronts()
    ensures ends { FrontsEndThere }
    ensures arrivals { ArrivalsAreFronts }
{}

/// The first point is there, the next point where the try comes to it, and the next try where it follows.
pub fn a_front_is_where_the_reading_comes()
    ensures first { FirstPointIsThere }
    ensures points { NextPointIsThere }
    ensures tries { NextTryIsThere }
{}

/// Where a front stands: in which try, at which point and with what behind it, and how many tries are to spare.
pub fn fronts_stand_where_they_are()
    ensures { FrontsStand }
{}

/// A try that goes on has noted no halting kind: neither where its domain waits for members, nor from what they leak.
pub fn notes_are_quiet_where_a_try_goes_on()
    ensures waiting { WaitingIsQuiet }
    ensures passing { PassedPointsAreQuiet }
    ensures groups { NoGroupLeakHalts }
{}

/// A domain waits at a front for the members of a group; their end leaves the point behind, or the end of the try.
pub fn the_reading_goes_on_behind_members()
    ensures leads { MembersLead }
    ensures done { PassesGroups }
    ensures escalated { StopsAtGroups }
{}

/// Legal records go together piece by piece.
pub fn legal_records_go_together()
    ensures { LegalPieces }
{}

/// The record of a program saves the entries of its domains as they are declared.
pub fn entries_are_saved_as_they_are_declared()
    ensures domains { ReadingsSaveAsDeclared }
    ensures program { RecordsSaveAsDeclared }
{}

/// A record that is legal for a front of a program's record goes on to one that is legal for the whole: a pattern that does
/// not give the root's words falls at the least place where it does not.
pub fn legal_fronts_go_on()
    ensures events { LegalFrontsGoOn }
    ensures program { LegalFrontsOfRecords }
    ensures fronts { LegalFrontsAreFronts }
{}
