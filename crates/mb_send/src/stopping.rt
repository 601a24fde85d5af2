//! Stopping an actor from outside.
ghost use Rattle.std.specs.Prelude.{◌≡◌, ◌⊎◌, ◌+◌, ◌<◌, ◌≤◌, true, vec_len, IfOk, IsErrOf, OnErr, Some};
ghost use Rattle.mb_core.specs.Actor.{nothing};
ghost use Rattle.mb_gate.specs.View.{obligation_to};
ghost use Rattle.mb_gate.specs.Accessors.{gates_id, pass_id, actors_of, pass_view};
ghost use Rattle.mb_send.specs.declared.send_error.SendError.TheVariants as SendError;
ghost use Rattle.mb_gate.specs.Untouched.{origin_of};
ghost use Rattle.mb_register.specs.ActorSet.{has_actor};
ghost use Rattle.mb_send.specs.Answers.{Stops};
ghost use Rattle.mb_send.specs.LeavesSender.{LeavesSender};

use crate::send_error::SendError;
use crate::sender::GatesSender;
use mb_gate::{Gates, MailboxState, RunQueue};
use mb_msg::{ActorId, SysMsg};
use mb_register::Hint;
use mb_syslist::Node;
use std::sync::Wait;

impl<H: MailboxState, W: RunQueue<H>> GatesSender<H, W> {
    /// Sends a Terminate to the actor (`ActorSystem.stop`), which may be the guardian, and registers it. It answers `false` if
    /// the actor's list is ended: then the message went nowhere.
    ///
    /// It answers `NoSuchActor` for a number that no actor has, and else `NoMemory` if memory was refused: then nothing has
    /// changed. The sender still owes every look that it owed, and besides one to this actor, if the run queue refused its
    /// claim. No claim is lost.
    pub fn stop<R: Wait>(
        &mut self,
        rt: &R,
        gates: &Gates<H>,
        id: ActorId,
    ) -> Result<bool, SendError>
        requires same_gates { (pass_id self.old.registrar.pass ≡ gates_id gates.now) × (W.origin self.old.registrar.run_queue ≡ Some (origin_of gates.now)) }
        requires all { (vec_len self.old.sends + 1 ≡ actors_of gates.now) × (actors_of gates.now ≤ 64) }
        ensures refused { OnErr result ((self.new ≡ self.old) × ((IsErrOf result SendError.NoSuchActor × (actors_of gates.now ≤ id.0))
            ⊎ (IsErrOf result SendError.NoMemory × (id.0 < actors_of gates.now)))) }
        ensures stopped { IfOk result (Stops id.0 (pass_view self.old.registrar.pass) (pass_view self.new.registrar.pass)) }
        ensures discharged { IfOk result (λ _. (obligation_to id.0 (pass_view self.new.registrar.pass) ≡ nothing) ⊎ (has_actor self.new.registrar.owed id.0 ≡ true)) }
        ensures leaves { LeavesSender W.origin W.pushed W.refused id.0 self.old self.new }
        ensures same { (self.new.send_log ≡ self.old.send_log) × (self.new.sends ≡ self.old.sends) }
    {
        if id.0 as usize > self.sends.len() {
            return Err(SendError::NoSuchActor);
        }
        let Ok(node) = Node::new(self.alloc, SysMsg::Terminate) else {
            return Err(SendError::NoMemory);
        };
        let Ok(_) = gates.sys_enqueue(rt, &mut self.registrar.pass, id, node) else {
            self.registrar.register(rt, gates, id, Hint::None, false);
            return Ok(false);
        };
        self.registrar.register(rt, gates, id, Hint::System, false);
        Ok(true)
    }
}
