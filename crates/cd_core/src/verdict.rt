// What comes of the tries of a domain.
use cd_tree::{Cause, Kinds};

/// What comes of the tries of a domain.
#[derive(Drop)]
pub enum Verdict {
    /// It waits for the members of the group at a point, and may make so many more tries.
    Waits { spare: u32, point: u32 },
    /// It completes, with the kinds that it leaks.
    Completes(Kinds),
    /// It escalates: why, and the halting kinds that are still to be declared.
    Escalates { cause: Cause, over: Kinds },
}
