//! Applying the message with which an actor ends.
ghost use Rattle.std.specs.Prelude.{◌≡◌, ◌&&◌, not, false, true};
ghost use Rattle.mb_actor.specs.declared.phase.Phase.TheVariants.{Live, Ending};
ghost use Rattle.mb_journal.specs.Aside.{sets_aside};
ghost use Rattle.mb_journal.specs.Identity.{is_guardian};
ghost use Rattle.mb_journal.specs.Lawful.{IsLawful, was_live as was_live_at};
ghost use Rattle.mb_journal.specs.Life.{phase as phase_of, children, is_empty, is_alone};
ghost use Rattle.mb_journal.specs.Phase.{phase_is};
ghost use Rattle.mb_cell.specs.CellView.{MayTake, TakesSystem};

use crate::cell::Cell;
use mb_actor::{Actor, Behaviours};
use mb_msg::{ActorId, SysMsg};

impl<A: Actor, K: Behaviours> Cell<A, K> {
    /// `Terminate` of a Live actor without children: its `stop` is called, and it ends.
    pub(super) fn apply_stop(&mut self, number: u64)
        requires may_take { MayTake self.old number SysMsg.Terminate }
        requires applied { sets_aside self.old.who self.old.journal SysMsg.Terminate ≡ false }
        requires an_actor { is_guardian self.old.who ≡ false }
        requires live { phase_of self.old.who self.old.journal ≡ Live }
        requires no_children { is_empty (children self.old.who self.old.journal) ≡ true }
        ensures taken { TakesSystem self.old self.new number SysMsg.Terminate }
        ensures lawful { IsLawful self.new.who (K.gives self.new.who.this.0) self.new.journal }
    {
        let Some(actor) = &mut self.actor else {
            unreachable!();
        };
        actor.stop(&mut self.outbox);
        let effects = self.outbox.effects();
        self.cell_state.end_at_once(&self.place, effects, number);
        self.journal
            .push_system(number, SysMsg::Terminate, None, effects);
        self.outbox.clear();
    }

    /// `Terminate` of another actor without children: it ends (that its `stop` is not called is this project's own
    /// profile).
    pub(super) fn apply_end(&mut self, number: u64)
        requires may_take { MayTake self.old number SysMsg.Terminate }
        requires applied { sets_aside self.old.who self.old.journal SysMsg.Terminate ≡ false }
        requires not_ending { phase_is (phase_of self.old.who self.old.journal) Ending ≡ false }
        requires is_not_live { (not (is_guardian self.old.who) && phase_is (phase_of self.old.who self.old.journal) Live) ≡ false }
        requires no_children { is_empty (children self.old.who self.old.journal) ≡ true }
        ensures taken { TakesSystem self.old self.new number SysMsg.Terminate }
        ensures lawful { IsLawful self.new.who (K.gives self.new.who.this.0) self.new.journal }
    {
        self.cell_state.end_at_once(&self.place, &[], number);
        self.journal
            .push_system(number, SysMsg::Terminate, None, &[]);
    }

    /// `Died` of the last child of an actor that was Live when it was told to end: its `stop` is called, and it ends.
    pub(super) fn apply_last_stop(&mut self, number: u64, id: ActorId)
        requires may_take { MayTake self.old number (SysMsg.Died id) }
        requires applied { sets_aside self.old.who self.old.journal (SysMsg.Died id) ≡ false }
        requires an_actor { is_guardian self.old.who ≡ false }
        requires live { was_live_at self.old.who self.old.journal ≡ true }
        requires last { (phase_is (phase_of self.old.who self.old.journal) Ending && is_alone (children self.old.who self.old.journal) id) ≡ true }
        ensures taken { TakesSystem self.old self.new number (SysMsg.Died id) }
        ensures lawful { IsLawful self.new.who (K.gives self.new.who.this.0) self.new.journal }
    {
        let Some(actor) = &mut self.actor else {
            unreachable!();
        };
        actor.stop(&mut self.outbox);
        let effects = self.outbox.effects();
        self.cell_state.died_last(&self.place, id, effects, number);
        self.journal
            .push_system(number, SysMsg::Died(id), None, effects);
        self.outbox.clear();
    }

    /// `Died` of the last child of another actor that ends.
    pub(super) fn apply_last_end(&mut self, number: u64, id: ActorId)
        requires may_take { MayTake self.old number (SysMsg.Died id) }
        requires applied { sets_aside self.old.who self.old.journal (SysMsg.Died id) ≡ false }
        requires is_not_live { (not (is_guardian self.old.who) && was_live_at self.old.who self.old.journal) ≡ false }
        requires last { (phase_is (phase_of self.old.who self.old.journal) Ending && is_alone (children self.old.who self.old.journal) id) ≡ true }
        ensures taken { TakesSystem self.old self.new number (SysMsg.Died id) }
        ensures lawful { IsLawful self.new.who (K.gives self.new.who.this.0) self.new.journal }
    {
        self.cell_state.died_last(&self.place, id, &[], number);
        self.journal
            .push_system(number, SysMsg::Died(id), None, &[]);
    }
}
