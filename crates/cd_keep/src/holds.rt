// What a pass over shared pointers holds, one id for each hold. It has no bytes and stands in proofs alone: words behind
// shared pointers stay for a pass that has seen them, held or not, so no call has to look at a count.
ghost use Rattle.std.specs.Prelude.{◌≡◌, ◌+◌, ◌<◌, ◌∷◌, List, [], length};
ghost use Rattle.std.specs.Borrow.{ftrue};
ghost use Rattle.cd_keep.specs.declared.keep_id.KeepId.{KeepId};
ghost use Rattle.cd_keep.specs.IdsCode.{ids_code};

use crate::KeepId;
use std::marker::Model;

#[derive(Drop)]
pub(crate) struct Holds {
    ghost ids: { List KeepId } by { ids_code },
}

impl Model for Holds {
    ghost also_owns = { λ _. ftrue };
}

// It has no bytes and owns nothing.
unsafe impl Send for Holds {}

// What a call does to the holds of a pass.
#[derive(Clone, Copy)]
enum Change {
    Held(KeepId),
    GaveUp(KeepId),
}

impl Holds {
    ghost use Rattle.cd_keep.specs.Holding.{changed, less, times};
    ghost use Rattle.cd_keep.specs.PassModel.{one_less, one_more};

    pub(crate) fn none() -> Holds
        ensures { result.ids ≡ [] }
    {
        Holds {}
    }

    // One hold more of an id.
    #[inline(always)]
    pub(crate) fn more(&self, id: KeepId) -> Holds
        ensures ids { result.ids ≡ id ∷ self.now.ids }
        ensures counts { times result.ids ≡ one_more (times self.now.ids) id }
        ensures held { length result.ids ≡ length self.now.ids + 1 }
    {
        self.after(&Change::Held(id))
    }

    // One hold less of an id.
    #[inline(always)]
    pub(crate) fn fewer(&self, id: KeepId) -> Holds
        requires { 0 < times self.now.ids id }
        ensures ids { result.ids ≡ less id self.now.ids }
        ensures counts { times result.ids ≡ one_less (times self.now.ids) id }
        ensures held { length result.ids + 1 ≡ length self.now.ids }
    {
        self.after(&Change::GaveUp(id))
    }

    #[inline(always)]
    fn after(&self, _change: &Change) -> Holds
        ensures { result.ids ≡ changed self.now.ids _change.now }
    {
        Holds {}
    }
}
