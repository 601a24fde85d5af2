//! The job of a sender in a run.
ghost use Rattle.std.specs.Prelude.{◌≡◌, IfErr, OnErr, OnOk};
ghost use Rattle.mb_dispatch.specs.Claims.{SenderLosesNoClaim};
ghost use Rattle.mb_dispatch.specs.Faults.{BreaksJob};
ghost use Rattle.mb_system.specs.Members.{IsSenderOf};
ghost use Rattle.mb_dispatch.specs.Jobs.{ForgetsNobody};
ghost use Rattle.mb_dispatch.specs.Orders.{HasSentSome};
ghost use Rattle.mb_dispatch.specs.Senders.{CarriesOutAndRetries};

use crate::order::send_all;
use crate::parallel::Task;
use mb_actor::{Actor, Behaviours};
use mb_msg::Order;
use mb_system::{RunError, Sender, System, retry_refused};
use std::sync::Wait;

/// What one sender is to send, in order.
#[derive(Drop)]
pub struct Job<A: Actor, K: Behaviours> {
    /// The sender.
    pub sender: Sender<A, K>,
    /// What it is to send, each as often as it says.
    pub sends: Vec<Order>,
}

impl<A: Actor, K: Behaviours> Task<System<A, K>> for Job<A, K> {
    ghost use Rattle.std.specs.Prelude.{IfErr, OnOk};
    ghost use Rattle.mb_dispatch.specs.Faults.{BreaksJob};
    ghost use Rattle.mb_system.specs.Members.{IsSenderOf};
    ghost use Rattle.mb_dispatch.specs.Jobs.{IsDone, KeepsJob};

    ghost ready = { λ system job. IsSenderOf system.gates job.sender };

    ghost keeps = { λ system old new. KeepsJob system.gates old new };

    ghost done = { λ system old new. IsDone system.gates old new };

    ghost fails = { λ system old new fault. BreaksJob system.gates old.sends.items old.sender new.sender fault };

    /// Sends all, in order, and then registers each actor again to which the sender owes a look. It stops at the first fault, and
    /// what was sent before stays sent. Whatever comes of it, the job is done then, and no claim is lost.
    fn perform<R: Wait>(&mut self, rt: &R, shared: &System<A, K>) -> Result<(), RunError>
        requires ready { IsSenderOf shared.now.gates self.old.sender }
        ensures keeps { KeepsJob shared.now.gates self.old self.new }
        ensures done { OnOk result (IsDone shared.now.gates self.old self.new) }
        ensures fails { IfErr result (BreaksJob shared.now.gates self.old.sends.items self.old.sender self.new.sender) }
    {
        let outcome = send_and_retry(rt, shared, &mut self.sender, &self.sends);
        shared.going.close_job();
        outcome
    }
}

/// Carries out all these orders, as `send_all` does, and then registers each actor again to which the sender owes a look. It stops at the first
/// fault: of `send_all`; or `NoMemory`, where all was sent, and the pool refused a claim again. What was sent before stays sent, and no actor of the
/// sender's set is forgotten. No claim is lost.
pub fn send_and_retry<A: Actor, K: Behaviours, R: Wait>(
    rt: &R,
    system: &System<A, K>,
    sender: &mut Sender<A, K>,
    orders: &[Order],
) -> Result<(), RunError>
    requires same_gates { IsSenderOf system.now.gates sender.old }
    ensures same_gates { IsSenderOf system.now.gates sender.new }
    ensures same_sender { sender.new.send_log.by ≡ sender.old.send_log.by }
    ensures done { OnOk result (CarriesOutAndRetries system.now.gates orders.now sender.old sender.new) }
    ensures still { ForgetsNobody system.now.gates sender.old sender.new }
    ensures claims { SenderLosesNoClaim sender.old sender.new }
    ensures stopped { OnErr result (HasSentSome orders.now sender.old sender.new) }
    ensures fault { IfErr result (BreaksJob system.now.gates orders.now sender.old sender.new) }
{
    send_all(rt, system, sender, orders)?;
    retry_refused(rt, system, sender)
}
