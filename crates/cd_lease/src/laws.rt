//! Laws over the rule of the blocks: each is the contract of a function that does nothing.
ghost use Rattle.cd_lease.specs.Laws.{HeldStays};

/// Between any two steps, a block that any pass holds is one that no take wins, has the serial under which it was kept, and
/// begins with the words that were kept.
pub fn held_words_stay()
    ensures { HeldStays }
{}
