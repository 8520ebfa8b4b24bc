// The end of a domain: it completes or escalates, and gives up what it keeps.
ghost use Rattle.std.specs.Prelude.{◌≡◌, ◌<◌, ◌^◌, [], length, OnOk, All};
ghost use Rattle.cd_tree.specs.Operations.{IsFull};
ghost use Rattle.cd_tree.specs.declared.event.Event.TheVariants.{Complete};
ghost use Rattle.cd_field.specs.FieldModel.{gone_up, told};
ghost use Rattle.cd_tries.specs.Fitting.{HasWords};
ghost use Rattle.cd_tries.specs.Keeping.{HoldsThese, KeepsFit, all_ids};
ghost use Rattle.cd_tries.specs.Refilling.{gave_up_each};
ghost use Rattle.cd_core.specs.Advancing.{put_back_at_root};
ghost use Rattle.cd_core.specs.StateModel.{state_model};
ghost use Rattle.cd_core.specs.declared.state.Ending.TheVariants.{Done, Escalated};
ghost use Rattle.cd_core.specs.declared.state.Stage.TheVariants.{Ended};

use crate::{Ending, NodeState, Stage};
use cd_base::NoMemory;
use cd_field::Field;
use cd_keep::Pass;
use cd_tree::{Cause, Domain, Kinds};
use cd_tries::{Shelf, give_up_all, refill_all};

impl<F: Field, P: Pass> NodeState<F, P> {
    // The domain completes.
    pub(crate) fn complete(&mut self, leak: Kinds) -> Result<(), NoMemory>
        requires here { (F.model self.old.field).node ≡ self.old.node }
        requires holds { HoldsThese (P.model self.old.pass) (all_ids self.old.keeps) }
        ensures { OnOk result (state_model F.model P.model self.new ≡ record (state_model F.model P.model self.old) { stage = Ended (Done leak); keeps = []; field = told (F.model self.old.field) (Complete self.old.node); pass = gave_up_each (P.model self.old.pass) (all_ids self.old.keeps) }) }
    {
        self.field.complete()?;
        self.end(Ending::Done(leak));
        Ok(())
    }

    // The domain escalates; the root first puts its entries back.
    pub(crate) fn escalate(
        &mut self,
        domain: &Domain,
        cause: Cause,
        over: Kinds,
    ) -> Result<(), NoMemory>
        requires full { All (λ entry. IsFull entry.range) domain.now.entries }
        requires few { length domain.now.entries < 2 ^ 32 }
        requires words { HasWords domain.now.entries (F.model self.old.field) }
        requires keeps { KeepsFit (P.model self.old.pass).known domain.now.entries self.old.keeps }
        requires holds { HoldsThese (P.model self.old.pass) (all_ids self.old.keeps) }
        ensures { OnOk result (state_model F.model P.model self.new ≡ record (state_model F.model P.model self.old) { stage = Ended (Escalated cause over); keeps = []; field = gone_up (put_back_at_root domain.now (P.model self.old.pass).known self.old.keeps (F.model self.old.field)); pass = gave_up_each (P.model self.old.pass) (all_ids self.old.keeps) }) }
    {
        if domain.parent.is_none() {
            refill_all(
                domain.entries.items(),
                self.keeps.keeps(),
                &mut self.field,
                &mut self.pass,
            )?;
        }
        self.field.escalate()?;
        self.end(Ending::Escalated { cause, over });
        Ok(())
    }

    // The domain has ended, and keeps nothing.
    fn end(&mut self, ending: Ending)
        requires holds { HoldsThese (P.model self.old.pass) (all_ids self.old.keeps) }
        ensures { state_model F.model P.model self.new ≡ record (state_model F.model P.model self.old) { stage = Ended ending; keeps = []; pass = gave_up_each (P.model self.old.pass) (all_ids self.old.keeps) } }
    {
        give_up_all(self.keeps.keeps(), &mut self.pass);
        self.keeps = Shelf::empty();
        self.stage = Stage::Ended(ending);
    }
}
