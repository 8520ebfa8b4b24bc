//! Laws of members that come back: they can be taken, and the domain that waited for them stands after its group; and of the root.
ghost use Rattle.cd_core.specs.Returning.{ArrivedCanBeTaken, MembersAnswerStill, MembersCanComeBack};
ghost use Rattle.cd_core.specs.Running.{EndedRootsRan, StartedRootsAnswer};
ghost use Rattle.cd_core.specs.StateLaws.{ResumingStands};

use crate::asking_laws::starting_stands;
use crate::laws_below::laws_below;
use crate::taking_laws::resuming_fits;
use cd_cover::laws as plan_laws;
use cd_tree::laws as tree_laws;

/// A domain that stands waiting stands after its members have come back, each as it was asked for.
pub fn resuming_stands()
    ensures { ResumingStands }
{
    laws_below();
    resuming_fits();
    tree_laws::readings_know_their_own_counts();
    tree_laws::members_are_read_each_by_itself();
    tree_laws::subtrees_are_slices();
    tree_laws::children_stand_once();
    tree_laws::a_body_follows_its_items();
    tree_laws::a_domain_sees_what_it_reads_alone();
    tree_laws::each_domain_is_as_its_program();
    tree_laws::members_are_as_their_domain();
    tree_laws::members_give_what_a_domain_goes_on_with();
    plan_laws::links_lead_to_what_is_kept();
    plan_laws::outer_references_of_members();
    plan_laws::members_find_what_their_links_keep();
    plan_laws::subtrees_are_seen_on_paths();
}

/// The members that a domain sent, each run to its end, can be taken by it, and answer what was asked of them as they were sent.
pub fn members_come_back()
    ensures takes { MembersCanComeBack }
    ensures answers { MembersAnswerStill }
{
    tree_laws::the_nested_view_follows_the_list();
}

/// Members that have ended, each as the domain that waits for them asked, can be taken by it.
pub fn arrived_members_can_be_taken()
    ensures { ArrivedCanBeTaken }
{
    laws_below();
    tree_laws::a_body_follows_its_items();
}

/// The root answers its ask as it is started; where it has ended, as its ask says, the program has run.
pub fn roots_answer_and_have_run()
    ensures start { StartedRootsAnswer }
    ensures end { EndedRootsRan }
{
    laws_below();
    starting_stands();
    tree_laws::a_domain_sees_what_it_reads_alone();
    tree_laws::each_domain_is_as_its_program();
}
