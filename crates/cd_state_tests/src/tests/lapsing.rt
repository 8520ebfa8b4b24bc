// A pass of the tests that answers Gone.
ghost use Rattle.std.specs.Prelude.{◌≡◌, true, false, None, IfOk};
ghost use Rattle.cd_keep.specs.Arcs.{model_of};
ghost use Rattle.cd_keep.specs.PassModel.{opened};
ghost use Rattle.cd_state_tests.specs.Board.{IsMain, lapsing};

use cd_base::NoMemory;
use cd_keep::{ArcPass, GoneNote, KeepId, Pass};
use std::alloc::Global;
use std::sync::Wait;
use std::test::Fail;

// A pass that answers Gone once, when so many shares were made. One that may, or has, keeps more than half of the room at
// opening: so no two of them are of one opening, and it is not split. The room at opening is the number of its store.
#[derive(Drop)]
pub(crate) struct Lapsing {
    inner: ArcPass,
    may: bool,
    shares: u32,
    answered: Option<KeepId>,
    ghost main: { may ≡ true → IsMain (model_of inner) },
    ghost own: { may ≡ false → answered ≡ None },
}

impl Lapsing {
    // A pass with room for nine holds that answers Gone after so many shares.
    pub(crate) fn after(alloc: Global, shares: u32) -> Result<Lapsing, Fail>
        ensures { IfOk result (λ pass. record (lapsing (model_of pass.inner) pass.answered) { store = (model_of pass.inner).most } ≡ opened 9 9) }
    {
        Ok(Lapsing {
            inner: ArcPass::open(alloc, 9)?,
            may: true,
            shares,
            answered: None,
        })
    }
}

impl Pass for Lapsing {
    ghost use Rattle.cd_keep.specs.Arcs.{model_of, held_within_most, most_is_few, words_are_short};
    ghost use Rattle.cd_state_tests.specs.Board.{lapsing};

    ghost model = { λ pass. record (lapsing (model_of pass.inner) pass.answered) { store = (model_of pass.inner).most } };

    ghost within = { λ pass. held_within_most pass.inner };

    ghost few = { λ pass. most_is_few pass.inner };

    ghost short = { λ pass. words_are_short pass.inner };

    fn keep<R: Wait>(&mut self, rt: &R, words: &[u64]) -> Result<KeepId, NoMemory> {
        self.inner.keep(rt, words)
    }

    fn split(&mut self, room: u32) -> Result<Self, NoMemory> {
        if self.may {
            return Err(NoMemory);
        }
        let inner = self.inner.split(room)?;
        Ok(Lapsing {
            inner,
            may: false,
            shares: 0,
            answered: None,
        })
    }

    fn share(&mut self, seen: KeepId) -> Result<(), GoneNote> {
        if self.may && self.shares == 0 && self.answered.is_none() {
            self.answered = Some(seen);
            return Err(gone());
        }
        self.shares = self.shares.saturating_sub(1);
        self.inner.share(seen)
    }

    fn word(&mut self, id: KeepId, i: u32) -> u64 {
        self.inner.word(id, i)
    }

    fn give_up(&mut self, id: KeepId) {
        self.inner.give_up(id);
    }

    fn join(&mut self, child: Self) {
        let Lapsing {
            inner,
            may,
            shares,
            answered,
        } = child;
        self.inner.join(inner);
        if may {
            self.may = true;
            self.shares = shares;
            self.answered = answered;
        }
    }
}

// The answer: seen as 1, found as 2.
fn gone() -> GoneNote
    ensures { result ≡ record { seen = 1; found = 2 } }
{
    match GoneNote::of(1, 2) {
        Some(note) => note,
        None => unreachable!(),
    }
}
