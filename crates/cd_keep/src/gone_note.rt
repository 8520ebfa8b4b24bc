// The note of a gone answer.
ghost use Rattle.std.specs.Prelude.{◌≡◌, ◌≢◌, MatchOption};

use std::marker::Model;

/// What a gone answer tells: the serial under which the words were seen, and the one found in its place. The two differ.
#[derive(Debug, Clone, Copy, PartialEq, Eq)]
pub struct GoneNote {
    seen: u64,
    found: u64,
}

impl Model for GoneNote {
    ghost use Rattle.std.specs.Prelude.{ℕ, ◌≢◌};
    ghost use Rattle.cd_keep.specs.GoneNoteModel.{GoneNoteModel};

    ghost Value = { GoneNoteModel };

    ghost view = { λ note. record { seen = note.seen; found = note.found } };

    ghost invariant = { λ note. note.seen ≢ note.found };

    ghost inverse = { λ note. record { seen = note.seen; found = note.found } };
}

impl GoneNote {
    /// The note of two serials; none exactly where they are equal.
    pub fn of(seen: u64, found: u64) -> Option<GoneNote>
        ensures note { MatchOption result (seen ≡ found) (λ note. note ≡ record { seen = seen; found = found }) }
        ensures differ { MatchOption result (seen ≡ found) (λ _. seen ≢ found) }
    {
        if seen == found {
            None
        } else {
            Some(GoneNote { seen, found })
        }
    }

    /// The serial under which the words were seen.
    pub fn seen(&self) -> u64
        ensures value { result ≡ self.now.seen }
        ensures differ { self.now.seen ≢ self.now.found }
    {
        self.seen
    }

    /// The serial that was found.
    pub fn found(&self) -> u64
        ensures value { result ≡ self.now.found }
        ensures differ { self.now.seen ≢ self.now.found }
    {
        self.found
    }
}
