// The laws of lower crates on which the laws of states rest.
ghost use Rattle.cd_core.specs.LawsBelow.{MoreLaws};

use cd_cover::laws as plan_laws;
use cd_tree::laws as tree_laws;
use cd_tries::{keep_laws, try_laws};

/// The laws of lower crates together: to call this is to have them all.
pub(crate) fn laws_below()
    ensures { MoreLaws }
{
    tree_laws::legal_records_go_together();
    tree_laws::a_front_is_where_the_reading_comes();
    tree_laws::fronts_stand_where_they_are();
    tree_laws::counts_inside_stay_below();
    tree_laws::first_items_and_the_rest_are_all();
    tree_laws::an_operation_sees_its_sources_alone();
    try_laws::entries_are_put_back();
    try_laws::a_later_try_makes_entries_present();
    tree_laws::the_reading_goes_on_behind_members();
    tree_laws::the_reading_goes_on_from_each_front();
    tree_laws::the_nested_view_follows_the_list();
    tree_laws::a_covered_domain_reaches_its_entries_alone();
    tree_laws::each_domain_is_as_its_program();
    tree_laws::numbers_are_distinct();
    tree_laws::a_body_follows_its_items();
    tree_laws::kinds_are_declared_on_the_path();
    plan_laws::outer_references_lead_out();
    plan_laws::references_and_no_others_have_links();
    keep_laws::what_is_preserved_is_held();
    keep_laws::keeps_give_what_was_preserved();
    keep_laws::what_is_told_of_entries_is_legal();
    keep_laws::lapses_are_answered();
    try_laws::points_stay_within_entries();
    try_laws::tries_stay_within_entries();
}
