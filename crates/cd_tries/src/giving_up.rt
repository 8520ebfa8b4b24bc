// Keeps that are given up.
ghost use Rattle.std.specs.Prelude.{◌≡◌, ◌≤◌, length, take};
ghost use Rattle.cd_keep.specs.declared.keep_id.KeepId.{KeepId as Id};
ghost use Rattle.cd_tries.specs.Keeping.{HoldsThese, all_ids, keep_ids, times_in};
ghost use Rattle.cd_tries.specs.Refilling.{gave_up_each};

use crate::Keep;
use cd_keep::{KeepId, Pass};

/// Gives up what a domain keeps, in order. It takes no memory.
pub fn give_up_all<P: Pass>(keeps: &[Keep], pass: &mut P)
    requires { HoldsThese (P.model pass.old) (all_ids keeps.now) }
    ensures { P.model pass.new ≡ gave_up_each (P.model pass.old) (all_ids keeps.now) }
{
    for keep in keeps {
        give_up_keep(keep, pass);
    }
}

// Gives up what is kept of one entry.
fn give_up_keep<P: Pass>(keep: &Keep, pass: &mut P)
    requires { (id : Id) → times_in id (keep_ids keep.now) ≤ (P.model pass.old).holds id }
    ensures { P.model pass.new ≡ gave_up_each (P.model pass.old) (keep_ids keep.now) }
{
    match keep {
        Keep::Copied(pieces) => give_up_ids(pieces.ids.items(), pass),
        Keep::Shared(pieces) => give_up_ids(pieces.ids.items(), pass),
        Keep::Pattern => {}
    }
}

/// Gives up ids, in order. It takes no memory.
pub fn give_up_ids<P: Pass>(ids: &[KeepId], pass: &mut P)
    requires { (id : Id) → times_in id ids.now ≤ (P.model pass.old).holds id }
    ensures { P.model pass.new ≡ gave_up_each (P.model pass.old) ids.now }
{
    for id in ids {
        pass.give_up(*id);
    }
}

/// Gives up the first of some ids, in order. It takes no memory.
pub(crate) fn give_up_first<P: Pass>(ids: &[KeepId], count: usize, pass: &mut P)
    requires within { count ≤ length ids.now }
    requires holds { (id : Id) → times_in id (take count ids.now) ≤ (P.model pass.old).holds id }
    ensures { P.model pass.new ≡ gave_up_each (P.model pass.old) (take count ids.now) }
{
    give_up_ids(&ids[..count], pass);
}
