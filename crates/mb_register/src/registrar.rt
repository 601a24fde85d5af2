//! The registrar, which gives the claims of actors to the run queue.
ghost use Rattle.std.specs.Prelude.{◌≡◌, ◌⊎◌, ◌<◌, Some, true};
ghost use Rattle.mb_core.specs.Actor.{nothing};
ghost use Rattle.mb_gate.specs.View.{obligation_to};
ghost use Rattle.mb_gate.specs.Accessors.{gates_id, pass_id, actors_of, pass_view};
ghost use Rattle.mb_gate.specs.Untouched.{origin_of};
ghost use Rattle.mb_register.specs.ActorSet.{has_actor};
ghost use Rattle.mb_register.specs.Due.{GotOnlyDue};
ghost use Rattle.mb_register.specs.Registering.{HandsClaimOn, IsRegistered, JoinAsOwed};
ghost use Rattle.mb_register.specs.Registers.{RegistersOne, account_of};

use crate::actor_set::ActorSet;
use crate::due::{can_be_scheduled, take_due_again};
use crate::hint::Hint;
use crate::told::Told;
use crate::untouched::give_home;
use mb_gate::{Gates, MailboxState, Pass, RefusedClaim, RunQueue, ScheduleOutcome};
use mb_msg::ActorId;
use std::sync::Wait;

/// A registrar of actors: a pass of the gates, a port of the run queue, and the actors to which a look is owed since the queue
/// refused their claims.
pub struct Registrar<H, W> {
    /// What it knows and owes.
    pub pass: Pass<H>,
    /// Its port of the run queue.
    pub run_queue: W,
    /// The actors to which it owes a look.
    pub owed: ActorSet,
    /// The actors that a run told something, or sent a system message, and has not registered yet. Between two runs there are none.
    pub told: Told,
}

impl<H: MailboxState, W: RunQueue<H>> Registrar<H, W> {
    /// Gives the actor's claim to the run queue, where the actor has to be given to a worker
    /// (`Dispatcher.registerForExecution`), and answers whether it did. A hint says that the actor has envelopes, or system
    /// work, and saves reading that. It takes the claim only of an actor that it saw to be due. `at_run_end` says that the run of
    /// its worker is over, so that a worker's port may keep the claim: the worker takes one next.
    ///
    /// Where the run queue refuses the claim, the claim goes back, and a look is owed to the actor: it joins the set, and the
    /// pass owes it the look.
    #[inline(always)]
    pub fn register<R: Wait>(
        &mut self,
        rt: &R,
        gates: &Gates<H>,
        id: ActorId,
        hint: Hint,
        at_run_end: bool,
    ) -> bool
        requires same_gates { (pass_id self.old.pass ≡ gates_id gates.now) × (W.origin self.old.run_queue ≡ Some (origin_of gates.now)) }
        requires present { (id.0 < actors_of gates.now) × (id.0 < 64) }
        ensures registers { RegistersOne W.origin id.0 self.old self.new }
        ensures discharged { (obligation_to id.0 (pass_view self.new.pass) ≡ nothing) ⊎ (has_actor self.new.owed id.0 ≡ true) }
        ensures owes { JoinAsOwed self.old.owed self.new.owed (pass_view self.new.pass) }
        ensures registered { IsRegistered id.0 (account_of W.pushed W.refused self.old) (account_of W.pushed W.refused self.new) result }
        ensures handed { HandsClaimOn id.0 (account_of W.pushed W.refused self.old) (account_of W.pushed W.refused self.new)
            (pass_view self.old.pass) (pass_view self.new.pass) result }
        ensures due { GotOnlyDue hint (pass_view self.old.pass) (pass_view self.new.pass) }
    {
        if !can_be_scheduled(gates, &mut self.pass, id, hint) {
            return false;
        }
        self.register_due(rt, gates, id, hint, at_run_end)
    }

    // Gives the claim of an actor that is due to the run queue. It is a function of its own, so that where none is due nothing
    // is called that may wait.
    fn register_due<R: Wait>(
        &mut self,
        rt: &R,
        gates: &Gates<H>,
        id: ActorId,
        hint: Hint,
        at_run_end: bool,
    ) -> bool
        requires same_gates { (pass_id self.old.pass ≡ gates_id gates.now) × (W.origin self.old.run_queue ≡ Some (origin_of gates.now)) }
        requires present { (id.0 < actors_of gates.now) × (id.0 < 64) }
        ensures registers { RegistersOne W.origin id.0 self.old self.new }
        ensures discharged { (obligation_to id.0 (pass_view self.new.pass) ≡ nothing) ⊎ (has_actor self.new.owed id.0 ≡ true) }
        ensures owes { JoinAsOwed self.old.owed self.new.owed (pass_view self.new.pass) }
        ensures registered { IsRegistered id.0 (account_of W.pushed W.refused self.old) (account_of W.pushed W.refused self.new) result }
        ensures handed { HandsClaimOn id.0 (account_of W.pushed W.refused self.old) (account_of W.pushed W.refused self.new)
            (pass_view self.old.pass) (pass_view self.new.pass) result }
    {
        // Each answer is given in its own arm, and the claim is handed on right where it was got: so it stays in registers.
        match gates.try_schedule(&mut self.pass, id) {
            ScheduleOutcome::Got(claim) => match self.run_queue.push(rt, claim, at_run_end) {
                Ok(()) => return true,
                Err(RefusedClaim { claim }) => {
                    give_home(gates, &mut self.pass, claim);
                    self.owed.insert(id);
                    return false;
                }
            },
            ScheduleOutcome::Already => return false,
            ScheduleOutcome::Closed => return false,
            ScheduleOutcome::Lost(_) => return self.register_due_again(
                rt, gates, id, hint, at_run_end,
            ),
        }
    }

    // The same, of an actor whose exchange lost.
    #[cold]
    #[inline(never)]
    fn register_due_again<R: Wait>(
        &mut self,
        rt: &R,
        gates: &Gates<H>,
        id: ActorId,
        hint: Hint,
        at_run_end: bool,
    ) -> bool
        requires same_gates { (pass_id self.old.pass ≡ gates_id gates.now) × (W.origin self.old.run_queue ≡ Some (origin_of gates.now)) }
        requires present { (id.0 < actors_of gates.now) × (id.0 < 64) }
        ensures registers { RegistersOne W.origin id.0 self.old self.new }
        ensures discharged { (obligation_to id.0 (pass_view self.new.pass) ≡ nothing) ⊎ (has_actor self.new.owed id.0 ≡ true) }
        ensures owes { JoinAsOwed self.old.owed self.new.owed (pass_view self.new.pass) }
        ensures registered { IsRegistered id.0 (account_of W.pushed W.refused self.old) (account_of W.pushed W.refused self.new) result }
        ensures handed { HandsClaimOn id.0 (account_of W.pushed W.refused self.old) (account_of W.pushed W.refused self.new)
            (pass_view self.old.pass) (pass_view self.new.pass) result }
    {
        let Some(claim) = take_due_again(rt, gates, &mut self.pass, id, hint) else {
            return false;
        };
        match self.run_queue.push(rt, claim, at_run_end) {
            Ok(()) => true,
            Err(RefusedClaim { claim }) => {
                give_home(gates, &mut self.pass, claim);
                self.owed.insert(id);
                false
            }
        }
    }
}
