//! Applying `Create`.
ghost use Rattle.std.specs.Prelude.{◌≡◌, false};
ghost use Rattle.mb_actor.specs.declared.phase.Phase.TheVariants.{Fresh};
ghost use Rattle.mb_journal.specs.Lawful.{IsLawful};
ghost use Rattle.mb_journal.specs.Life.{phase as phase_of};
ghost use Rattle.mb_cell.specs.CellView.{MayTake, TakesSystem};

use crate::cell::Cell;
use mb_actor::{Actor, Behaviours};
use mb_msg::SysMsg;

impl<A: Actor, K: Behaviours> Cell<A, K> {
    /// The first `Create`: the actor is started; the guardian, which has none, starts its children.
    pub(super) fn apply_create(&mut self, number: u64)
        requires may_take { MayTake self.old number SysMsg.Create }
        requires fresh { phase_of self.old.who self.old.journal ≡ Fresh }
        ensures taken { TakesSystem self.old self.new number SysMsg.Create }
        ensures lawful { IsLawful self.new.who (K.gives self.new.who.this.0) self.new.journal }
    {
        let Some(actor) = &mut self.actor else {
            self.cell_state.create_guardian(&self.place, number);
            self.journal.push_system(number, SysMsg::Create, None, &[]);
            return;
        };
        let answer = actor.start(&mut self.outbox);
        let effects = self.outbox.effects();
        self.cell_state.create(&self.place, answer, effects, number);
        self.journal
            .push_system(number, SysMsg::Create, Some(answer), effects);
        self.outbox.settle();
    }
}
