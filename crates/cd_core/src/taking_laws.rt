//! Laws of taking members back: each can be taken when its turn comes, and the domain that waited fits after them.
ghost use Rattle.cd_core.specs.StateLaws.{ResumingFits};
ghost use Rattle.cd_core.specs.TakingBack.{MembersCanBeTaken};

use cd_tree::laws;

/// Members that can be taken from the state as it waits can each be taken when its turn comes: they are apart, and have no
/// more room than they were sent.
pub fn members_can_be_taken()
    ensures { MembersCanBeTaken }
{
    laws::the_nested_view_follows_the_list();
    laws::each_domain_is_as_its_program();
    laws::subtrees_are_slices();
    laws::a_body_follows_its_items();
}

/// A domain that waited fits after its members were taken back: it goes on with all present, or its try is over.
pub fn resuming_fits()
    ensures { ResumingFits }
{
    laws::the_nested_view_follows_the_list();
    laws::each_domain_is_as_its_program();
    laws::subtrees_are_slices();
    laws::a_body_follows_its_items();
}
