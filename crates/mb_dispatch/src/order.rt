//! Carrying out what a sender outside the actors is to send.
ghost use Rattle.std.specs.Prelude.{[], ◌∷◌, IfErr, OnErr, OnOk};
ghost use Rattle.mb_dispatch.specs.Faults.{BreaksSending, IsRefusedFor, StopsFor};
ghost use Rattle.mb_system.specs.Members.{IsSenderOf};
ghost use Rattle.mb_dispatch.specs.Orders.{HasSent, HasSentUpTo, StopsWithin, order_for};
ghost use Rattle.mb_dispatch.specs.Senders.{CarriesOut, KeepsSender};

use mb_actor::{Actor, Behaviours};
use mb_msg::{ActorId, Order, OrderKind};
use mb_system::{RunError, Sender, System};
use std::sync::Wait;

/// Carries out all these orders, each as often as it says, in their order. It stops at the first fault: `NoSuchActor` or
/// `NoMemory` as a tell or a stop answers it. What was sent before stays sent, and nothing more is sent. Call `retry_refused`
/// then: it looks after the actors to which the sender owes a look. These are those to which it owed one before, and actors
/// whose claims the pool refused. No claim is lost.
pub fn send_all<A: Actor, K: Behaviours, R: Wait>(
    rt: &R,
    system: &System<A, K>,
    sender: &mut Sender<A, K>,
    orders: &[Order],
) -> Result<(), RunError>
    requires same_gates { IsSenderOf system.now.gates sender.old }
    ensures keeps { KeepsSender system.now.gates sender.old sender.new }
    ensures done { OnOk result (CarriesOut system.now.gates orders.now sender.old sender.new) }
    ensures stopped { OnErr result (StopsWithin orders.now sender.old sender.new) }
    ensures fault { IfErr result (BreaksSending system.now.gates orders.now) }
    ensures reason { IfErr result (StopsFor system.now.gates orders.now sender.old sender.new) }
{
    for order in orders {
        send_often(rt, system, sender, *order)?;
    }
    Ok(())
}

// Carries out one order.
fn send_often<A: Actor, K: Behaviours, R: Wait>(
    rt: &R,
    system: &System<A, K>,
    sender: &mut Sender<A, K>,
    order: Order,
) -> Result<(), RunError>
    requires same_gates { IsSenderOf system.now.gates sender.old }
    ensures keeps { KeepsSender system.now.gates sender.old sender.new }
    ensures done { OnOk result (CarriesOut system.now.gates (order ∷ []) sender.old sender.new) }
    ensures stopped { OnErr result (HasSentUpTo [] order sender.old sender.new) }
    ensures fault { IfErr result (BreaksSending system.now.gates (order ∷ [])) }
    ensures reason { IfErr result (IsRefusedFor system.now.gates order.to order.what) }
{
    for _ in 0..order.times {
        send(rt, system, sender, order.to, order.what)?;
    }
    Ok(())
}

// Sends this once.
#[inline(always)]
fn send<A: Actor, K: Behaviours, R: Wait>(
    rt: &R,
    system: &System<A, K>,
    sender: &mut Sender<A, K>,
    to: ActorId,
    what: OrderKind,
) -> Result<(), RunError>
    requires same_gates { IsSenderOf system.now.gates sender.old }
    ensures keeps { KeepsSender system.now.gates sender.old sender.new }
    ensures done { OnOk result (CarriesOut system.now.gates (order_for to what 1 ∷ []) sender.old sender.new) }
    ensures unsent { OnErr result (HasSent [] sender.old sender.new) }
    ensures fault { IfErr result (BreaksSending system.now.gates (order_for to what 1 ∷ [])) }
    ensures reason { IfErr result (IsRefusedFor system.now.gates to what) }
{
    match what {
        OrderKind::Tell(payload) => {
            sender.tell(rt, &system.gates, to, payload)?;
            Ok(())
        }
        OrderKind::Stop => {
            sender.stop(rt, &system.gates, to)?;
            Ok(())
        }
    }
}
