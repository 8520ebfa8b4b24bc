//! Laws of what fits around the tries of a domain: before them, when they are done, at its end, and as the root starts.
ghost use Rattle.cd_core.specs.StateLaws.{CompletingFits, EscalatingFits, StartingFits, TriesCanBeMade, TriesFit};

use crate::laws_below::laws_below;
use cd_tree::laws as tree_laws;

/// A domain that fits and can move can make its tries.
pub fn tries_can_be_made()
    ensures { TriesCanBeMade }
{
    laws_below();
}

/// It fits when they are done, before it sends members or ends.
pub fn tries_fit()
    ensures { TriesFit }
{
    laws_below();
    tree_laws::paths_go_from_parent_to_child();
    tree_laws::subtrees_are_slices();
    tree_laws::children_fill_slices();
}

/// A domain that completes after its tries fits.
pub fn completing_fits()
    ensures { CompletingFits }
{
    laws_below();
}

/// So does one that escalates; a root has put its entries back.
pub fn escalating_fits()
    ensures { EscalatingFits }
{
    laws_below();
}

/// The state with which a root is started fits.
pub fn starting_fits()
    ensures { StartingFits }
{
    laws_below();
}
