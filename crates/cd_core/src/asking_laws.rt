//! Laws of asks: the root stands as it is started, and when a domain sends its members each answers what is asked of it.
ghost use Rattle.cd_core.specs.StateLaws.{SendingStands, StartingStands};

use crate::laws_below::laws_below;
use crate::sending_laws::sending_fits;
use crate::trying_laws::starting_fits;
use cd_tree::laws as tree_laws;

/// The root stands ready as it is started, with the words that it was loaded with and nothing begun.
pub fn starting_stands()
    ensures { StartingStands }
{
    starting_fits();
    laws_below();
    tree_laws::accepted_scripts_keep_counts_small();
}

/// A domain that has sent the members of a group stands waiting for them, and each answers what is asked of it.
pub fn sending_stands()
    ensures { SendingStands }
{
    sending_fits();
    laws_below();
    tree_laws::readings_know_their_own_counts();
    tree_laws::counts_inside_stay_below();
    tree_laws::subtrees_are_slices();
    tree_laws::a_body_follows_its_items();
}
