//! Laws of sending: the members of the group at which a domain waits can be sent, and all fit then.
ghost use Rattle.cd_core.specs.StateLaws.{GroupsCanBeSent, SendingFits};

use crate::laws_below::laws_below;
use cd_cover::laws as plan_laws;
use cd_tree::laws as tree_laws;

/// The members of the group at which a domain waits can be sent one after another.
pub fn groups_can_be_sent()
    ensures { GroupsCanBeSent }
{
    laws_below();
    tree_laws::each_domain_is_as_its_program();
    tree_laws::children_fill_slices();
    plan_laws::groups_need_no_more_than_their_domain();
}

/// A domain that has sent the members of a group fits, waiting for them, and so does each of them.
pub fn sending_fits()
    ensures { SendingFits }
{
    laws_below();
    tree_laws::each_domain_is_as_its_program();
    tree_laws::children_fill_slices();
    plan_laws::groups_need_no_more_than_their_domain();
    plan_laws::outer_references_lead_out();
    plan_laws::outer_references_of_members();
}
