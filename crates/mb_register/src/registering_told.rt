//! Registering the actors that a run told something.
ghost use Rattle.std.specs.Prelude.{◌≡◌, ℕ, ◌<◌, ◌≤◌, ◌⊎◌, true, false, Some};
ghost use Rattle.mb_core.specs.Actor.{nothing};
ghost use Rattle.mb_gate.specs.Accessors.{gates_id, pass_id, actors_of, pass_view};
ghost use Rattle.mb_gate.specs.Untouched.{origin_of};
ghost use Rattle.mb_gate.specs.View.{obligation_to};
ghost use Rattle.mb_register.specs.Caller.{OwesForRefusals};
ghost use Rattle.mb_register.specs.ActorSet.{has_actor};
ghost use Rattle.mb_register.specs.Registers.{OnlyReads, RegistersDue, account_of};
ghost use Rattle.mb_register.specs.Told.{GoInOrder, NotesIfDue};
ghost use Rattle.mb_register.specs.Views.{LooksAmong};

use crate::due::can_be_scheduled;
use crate::hint::Hint;
use crate::registrar::Registrar;
use mb_gate::{Gates, MailboxState, RunQueue};
use mb_msg::ActorId;
use std::sync::Wait;

impl<H: MailboxState, W: RunQueue<H>> Registrar<H, W> {
    /// Notes that an actor which a run told something is to be registered, if it has to be given to a worker now
    /// (`Mailbox.canBeScheduledForExecution`). Else it owes the actor nothing: a worker that holds a suspended actor and resumes it
    /// registers it.
    #[inline(always)]
    pub fn note_told(&mut self, gates: &Gates<H>, id: ActorId)
        requires same_gates { pass_id self.old.pass ≡ gates_id gates.now }
        requires present { (id.0 < actors_of gates.now) × (id.0 < 64) }
        ensures only_reads { OnlyReads id.0 self.old.pass self.new.pass }
        ensures noted { (obligation_to id.0 (pass_view self.new.pass) ≡ nothing) ⊎ (has_actor self.new.told.set id.0 ≡ true) }
        ensures kept { (other : ℕ) → has_actor self.old.told.set other ≡ true → has_actor self.new.told.set other ≡ true }
        ensures only { (other : ℕ) → has_actor self.new.told.set other ≡ true → (other ≡ id.0) ⊎ (has_actor self.old.told.set other ≡ true) }
        ensures order { NotesIfDue id (pass_view self.old.pass) (pass_view self.new.pass) self.old.told self.new.told }
        ensures rest { (self.new.run_queue ≡ self.old.run_queue) × (self.new.owed ≡ self.old.owed) }
    {
        if self.told.contains(id) {
            return;
        }
        if !can_be_scheduled(gates, &mut self.pass, id, Hint::Message) {
            return;
        }
        self.told.insert(id);
    }

    /// Registers each actor that a run told something, or sent a system message, and has not registered yet, in the order in which
    /// the run sent to each of them first (`Dispatcher.registerForExecution`; that a run may register them later than it sends is
    /// this project's own profile). `at_run_end` says that the run is over but for that: then a worker's port may keep the first
    /// claim for its worker. A look is owed to an actor whose claim the run queue refuses.
    pub fn register_told<R: Wait>(&mut self, rt: &R, gates: &Gates<H>, at_run_end: bool)
        requires same_gates { (pass_id self.old.pass ≡ gates_id gates.now) × (W.origin self.old.run_queue ≡ Some (origin_of gates.now)) }
        requires present { (id : ℕ) → id < 64 → has_actor self.old.told.set id ≡ true → id < actors_of gates.now }
        ensures registers { RegistersDue W.origin W.pushed W.refused (LooksAmong (has_actor self.old.told.set)) self.old self.new }
        ensures discharged { (id : ℕ) → id < 64 → has_actor self.old.told.set id ≡ true
            → (obligation_to id (pass_view self.new.pass) ≡ nothing) ⊎ (has_actor self.new.owed id ≡ true) }
        ensures beyond { (id : ℕ) → 64 ≤ id → obligation_to id (pass_view self.new.pass) ≡ obligation_to id (pass_view self.old.pass) }
        ensures none_left { (id : ℕ) → id < 64 → has_actor self.new.told.set id ≡ false }
        ensures owed { OwesForRefusals (account_of W.pushed W.refused self.old) (account_of W.pushed W.refused self.new) }
        ensures in_order { GoInOrder self.old.told.order (W.pushed self.old.run_queue) (W.pushed self.new.run_queue) }
    {
        for index in 0..self.told.as_slice().len() {
            let id = self.told.as_slice()[index];
            self.register(rt, gates, id, Hint::None, at_run_end);
        }
        self.told.clear();
    }
}
