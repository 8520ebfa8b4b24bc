//! The limits of texts and of what they describe, as `specs/Limits.antt` has them: of each the most that is taken; and the
//! size of a block.

/// The bytes of a text.
pub const MOST_TEXT: u32 = 1_048_576;

/// The statements of a text, where those in loops count at each turn.
pub const MOST_LINES: u32 = 65_536;

/// The loops that stand inside each other.
pub const MOST_NESTING: u32 = 16;

/// The bytes of a name.
pub const MOST_NAME: u32 = 32;

/// The kinds that a document names.
pub const MOST_KINDS: u32 = 16;

/// The regions of a document.
pub const MOST_REGIONS: u32 = 64;

/// The words of all regions of a document.
pub const MOST_WORDS: u32 = 1_048_576;

/// The faults of a script.
pub const MOST_FAULTS: u32 = 256;

/// The domains of a program.
pub const MOST_DOMAINS: u32 = 2048;

/// The domains that stand inside each other.
pub const MOST_DEPTH: u32 = 16;

/// The items of all domains of a program.
pub const MOST_ITEMS: u32 = 16_384;

/// The entries of all domains of a program.
pub const MOST_PRESERVES: u32 = 16_384;

/// The entries of a domain.
pub const MOST_ENTRIES: u32 = 64;

/// The tries of a domain.
pub const MOST_RETRY: u32 = 100;

/// The members of a group.
pub const MOST_MEMBERS: u32 = 256;

/// The blocks that a program needs.
pub const MOST_NEED: u64 = 65_536;

/// The words of a block.
pub const BLOCK_WORDS: u32 = 64;
