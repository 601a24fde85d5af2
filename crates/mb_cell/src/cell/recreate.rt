//! Applying a restart.
ghost use Rattle.std.specs.Prelude.{◌≡◌, false};
ghost use Rattle.mb_actor.specs.declared.phase.Phase.TheVariants.{Fresh, Broken, Ending};
ghost use Rattle.mb_journal.specs.Aside.{sets_aside};
ghost use Rattle.mb_journal.specs.Identity.{is_guardian};
ghost use Rattle.mb_journal.specs.Lawful.{IsLawful};
ghost use Rattle.mb_journal.specs.Life.{phase as phase_of};
ghost use Rattle.mb_journal.specs.Phase.{phase_is};
ghost use Rattle.mb_cell.specs.CellView.{MayTake, TakesSystem};

use crate::cell::Cell;
use mb_actor::{Actor, Behaviours};
use mb_msg::{Cause, SysMsg};

impl<A: Actor, K: Behaviours> Cell<A, K> {
    /// `Recreate` of an actor that is Live or Broken: it is restarted.
    pub(super) fn apply_recreate(&mut self, number: u64, cause: Cause)
        requires may_take { MayTake self.old number (SysMsg.Recreate cause) }
        requires applied { sets_aside self.old.who self.old.journal (SysMsg.Recreate cause) ≡ false }
        requires an_actor { is_guardian self.old.who ≡ false }
        requires not_fresh { phase_is (phase_of self.old.who self.old.journal) Fresh ≡ false }
        requires not_ending { phase_is (phase_of self.old.who self.old.journal) Ending ≡ false }
        ensures taken { TakesSystem self.old self.new number (SysMsg.Recreate cause) }
        ensures lawful { IsLawful self.new.who (K.gives self.new.who.this.0) self.new.journal }
    {
        let Some(actor) = &mut self.actor else {
            unreachable!();
        };
        let answer = actor.restart(cause, &mut self.outbox);
        let effects = self.outbox.effects();
        self.cell_state
            .recreate(&self.place, cause, answer, effects, number);
        self.journal
            .push_system(number, SysMsg::Recreate(cause), Some(answer), effects);
        self.outbox.settle();
    }

    /// `Resume` of a Broken actor: it is restarted too (this project's own profile).
    pub(super) fn apply_resume_broken(&mut self, number: u64, of_failure: bool)
        requires may_take { MayTake self.old number (SysMsg.Resume of_failure) }
        requires applied { sets_aside self.old.who self.old.journal (SysMsg.Resume of_failure) ≡ false }
        requires an_actor { is_guardian self.old.who ≡ false }
        requires broken { phase_of self.old.who self.old.journal ≡ Broken }
        ensures taken { TakesSystem self.old self.new number (SysMsg.Resume of_failure) }
        ensures lawful { IsLawful self.new.who (K.gives self.new.who.this.0) self.new.journal }
    {
        let Some(actor) = &mut self.actor else {
            unreachable!();
        };
        let answer = actor.restart(Cause::Init, &mut self.outbox);
        let effects = self.outbox.effects();
        self.cell_state
            .recreate(&self.place, Cause::Init, answer, effects, number);
        self.journal.push_system(number, SysMsg::Resume { of_failure }, Some(answer), effects);
        self.outbox.settle();
    }
}
