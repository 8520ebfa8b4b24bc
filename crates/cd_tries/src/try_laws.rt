//! Laws of later tries: what is present after them and with which words, and what stays.
ghost use Rattle.cd_tries.specs.TryLaws.{PuttingBack, PointsKeep, TriesKeep, TryingAgainKeeps};

/// Entries that are put back are present, with the words that their keeps give; elsewhere words and presence stay, and the
/// record tells of each entry.
pub fn entries_are_put_back()
    ensures { PuttingBack }
{}

/// The points of a try change words of the domain's entries alone, and leave these present.
pub fn points_stay_within_entries()
    ensures { PointsKeep }
{}

/// So do all tries that follow.
pub fn tries_stay_within_entries()
    ensures { TriesKeep }
{}

/// A later try starts from entries that may be away, and leaves them present.
pub fn a_later_try_makes_entries_present()
    ensures { TryingAgainKeeps }
{}
