// What a domain keeps of one entry.
ghost use Rattle.std.specs.Prelude.{◌≡◌};
ghost use Rattle.std.specs.Option.{option_copied};
ghost use Rattle.cd_tries.specs.Keeping.{pieces_of};

use cd_base::Items;
use cd_keep::KeepId;

/// Words of a region, from one index up to another, in pieces of 64; the last piece may be shorter. So the piece of an index
/// and the place in it come by arithmetic.
#[derive(Drop)]
pub struct Pieces {
    pub begin: u32,
    pub end: u32,
    pub ids: Items<KeepId>,
}

/// How an entry is kept.
#[derive(Drop)]
pub enum Keep {
    /// By a copy of its words.
    Copied(Pieces),
    /// By pieces of its link.
    Shared(Pieces),
    /// By its pattern alone.
    Pattern,
}

impl Keep {
    /// The pieces that stand for the words; none where a pattern gives them. It takes no memory.
    pub fn pieces(&self) -> Option<&Pieces>
        ensures { option_copied result ≡ pieces_of self.now }
    {
        match self {
            Keep::Copied(pieces) => Some(pieces),
            Keep::Shared(pieces) => Some(pieces),
            Keep::Pattern => None,
        }
    }
}
