//! One step of a system, by its parts.
ghost use Rattle.std.specs.Prelude.{◌≡◌, ◌≤◌, length, Contains, IsErrOf, OnOk};
ghost use Rattle.mb_world.specs.Choices.{HasLeft};
ghost use Rattle.mb_world.specs.Dispatched.{marks_of};
ghost use Rattle.mb_world.specs.World.{IsAtRest, RunsOnce, SendsOnce};

use crate::dispatcher::Dispatcher;
use crate::numbered_cell::NumberedCell;
use crate::order_queue::OrderQueue;
use crate::running::run_mailbox;
use crate::step_error::StepError;
use mb_actor::{Actor, Behaviours};
use mb_msg::limits::ACTORS;
use mb_msg::{ActorId, Body, Order, OrderKind, SenderId, SysMsg};
use std::alloc::{AllocError, Global};

/// A sender outside sends what is next in its orders, once. The logs of those senders stand behind those of so many actors. It answers
/// `NotPossible` if there is no such sender or all is sent, and `NoMemory` if memory was refused.
pub(crate) fn send_once(
    dispatcher: &mut Dispatcher,
    senders: &mut Vec<OrderQueue>,
    actors: usize,
    sender: u32,
) -> Result<(), StepError>
    requires few { (length senders.old.items ≤ 16) × (actors ≤ 64) }
    ensures sent { OnOk result (SendsOnce senders.old.items senders.new.items sender) }
    ensures refused { IsErrOf result StepError.NotPossible → HasLeft senders.old.items sender → ⊥ }
    ensures as_many { length senders.new.items ≡ length senders.old.items }
    ensures marks { marks_of dispatcher.new.mailboxes.items ≡ marks_of dispatcher.old.mailboxes.items }
    ensures logs { length dispatcher.new.logs.items ≡ length dispatcher.old.logs.items }
{
    let Some(queue) = senders.get_mut(sender as usize) else {
        return Err(StepError::NotPossible);
    };
    let Some(order) = queue.take_next() else {
        return Err(StepError::NotPossible);
    };
    carry_out(
        dispatcher,
        actors + sender as usize,
        SenderId(ACTORS + sender),
        order,
    )?;
    Ok(())
}

/// Carries out an order once. The only error: memory was refused.
fn carry_out(
    dispatcher: &mut Dispatcher,
    log: usize,
    by: SenderId,
    order: Order,
) -> Result<(), AllocError>
    ensures marks { marks_of dispatcher.new.mailboxes.items ≡ marks_of dispatcher.old.mailboxes.items }
    ensures logs { length dispatcher.new.logs.items ≡ length dispatcher.old.logs.items }
{
    match order.what {
        OrderKind::Tell(payload) => dispatcher.tell(log, by, order.to, Body::from(payload)),
        OrderKind::Stop => dispatcher.send_system(order.to, SysMsg::Terminate),
    }
}

/// Runs the mailbox of an actor that is registered for execution, and registers the actor again if that is due. It answers `NotPossible` if the
/// actor is not registered, and else as `run_mailbox` does.
pub(crate) fn run_once<A: Actor, K: Behaviours>(
    alloc: Global,
    cells: &mut Vec<NumberedCell<A, K>>,
    dispatcher: &mut Dispatcher,
    throughput: u32,
    actor: ActorId,
) -> Result<(), StepError>
    requires rest { IsAtRest cells.old.items dispatcher.old.mailboxes.items }
    ensures rest { IsAtRest cells.new.items dispatcher.new.mailboxes.items }
    ensures ran { OnOk result (RunsOnce cells.old.items cells.new.items actor) }
    ensures possible { OnOk result (Contains dispatcher.old.claims.items actor) }
    ensures refused { IsErrOf result StepError.NotPossible → Contains dispatcher.old.claims.items actor → ⊥ }
    ensures as_many { length cells.new.items ≡ length cells.old.items }
    ensures logs { length dispatcher.new.logs.items ≡ length dispatcher.old.logs.items }
{
    let Some(cell) = cells.get_mut(actor.0 as usize) else {
        return Err(StepError::NotPossible);
    };
    if !dispatcher.take_claim(actor) {
        return Err(StepError::NotPossible);
    }
    run_mailbox(alloc, actor, cell, dispatcher, throughput)?;
    dispatcher.release()?;
    Ok(())
}
