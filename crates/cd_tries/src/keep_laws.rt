//! The laws of preserving, each the contract of a function that does nothing: to call it is to have the law.
ghost use Rattle.cd_tries.specs.KeepLaws.{LapsesAreAnswered, PreservedAreGiven, PreservedAreHeld, PreservedIsLegal};

/// After a first try a pass holds what its domain keeps and nothing else, from its own room.
pub fn what_is_preserved_is_held()
    ensures { PreservedAreHeld }
{}

/// Copies and patterns give the words that the machine had, shared pieces those of the link.
pub fn keeps_give_what_was_preserved()
    ensures { PreservedAreGiven }
{}

/// What is told of the entries of a domain as they are preserved is legal.
pub fn what_is_told_of_entries_is_legal()
    ensures { PreservedIsLegal }
{}

/// No more lapses are told of the entries of a domain than its pass gave gone answers.
pub fn lapses_are_answered()
    ensures { LapsesAreAnswered }
{}
