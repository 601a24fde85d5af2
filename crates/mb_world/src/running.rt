//! The run of a mailbox.
ghost use Rattle.std.specs.Prelude.{◌≡◌, ◌-◌, ◌<◌, [], length, IfOk, IfSome, IsTrue};
ghost use Rattle.mb_journal.specs.Lawful.{IsNumbered};
ghost use Rattle.mb_world.specs.Dispatched.{marks_of};
ghost use Rattle.mb_world.specs.Running.{IsInRun, LeavesInRun};

use crate::dispatcher::Dispatcher;
use crate::numbered_cell::NumberedCell;
use crate::step_error::RunError;
use mb_actor::{Actor, Behaviours};
use mb_cell::Act;
use mb_msg::{ActorId, SenderId, SysMsg};
use std::alloc::{AllocError, Global};

/// Runs an actor's mailbox (`akka.dispatch.Mailbox.run`): all its system messages, and then at most as many envelopes as `throughput` says (0
/// counts as 1), each followed by all system messages that came.
///
/// It answers `JournalFull` if the journal was full before the next message, or before it asked for one more envelope; and `NoMemory` if memory
/// was refused. The run ends there.
pub(crate) fn run_mailbox<A: Actor, K: Behaviours>(
    alloc: Global,
    actor: ActorId,
    cell: &mut NumberedCell<A, K>,
    dispatcher: &mut Dispatcher,
    throughput: u32,
) -> Result<(), RunError>
    requires run { IsInRun actor cell.old dispatcher.old.mailboxes.items }
    ensures run { LeavesInRun actor cell.old cell.new dispatcher.old.mailboxes.items dispatcher.new.mailboxes.items }
    ensures logs { length dispatcher.new.logs.items ≡ length dispatcher.old.logs.items }
{
    apply_systems(alloc, actor, cell, dispatcher)?;
    for _handled in 0..throughput.max(1) {
        if !handle_next(alloc, actor, cell, dispatcher)? {
            return Ok(());
        }
        apply_systems(alloc, actor, cell, dispatcher)?;
    }
    Ok(())
}

/// Gives the cell all system messages (`Mailbox.processAllSystemMessages`).
fn apply_systems<A: Actor, K: Behaviours>(
    alloc: Global,
    actor: ActorId,
    cell: &mut NumberedCell<A, K>,
    dispatcher: &mut Dispatcher,
) -> Result<(), RunError>
    requires run { IsInRun actor cell.old dispatcher.old.mailboxes.items }
    ensures run { LeavesInRun actor cell.old cell.new dispatcher.old.mailboxes.items dispatcher.new.mailboxes.items }
    ensures logs { length dispatcher.new.logs.items ≡ length dispatcher.old.logs.items }
{
    'messages: while apply_next(alloc, actor, cell, dispatcher)? {}
    Ok(())
}

/// Gives the cell the system message that is next, and carries out its acts; `false` if there is none or the mailbox is closed.
fn apply_next<A: Actor, K: Behaviours>(
    alloc: Global,
    actor: ActorId,
    cell: &mut NumberedCell<A, K>,
    dispatcher: &mut Dispatcher,
) -> Result<bool, RunError>
    requires run { IsInRun actor cell.old dispatcher.old.mailboxes.items }
    ensures run { LeavesInRun actor cell.old cell.new dispatcher.old.mailboxes.items dispatcher.new.mailboxes.items }
    ensures logs { length dispatcher.new.logs.items ≡ length dispatcher.old.logs.items }
    ensures fewer { IfOk result (λ some. IsTrue some →
        cell.new.who.limit - length cell.new.journal < cell.old.who.limit - length cell.old.journal) }
{
    if cell.is_closed() || !has_message(actor, cell, dispatcher) {
        return Ok(false);
    }
    cell.ready()?;
    let Some((number, message)) = next_message(actor, cell, dispatcher) else {
        return Ok(false);
    };
    cell.apply(number, message);
    carry_out(alloc, actor, cell, dispatcher)?;
    Ok(true)
}

/// Whether there is a system message for the cell.
fn has_message<A: Actor, K: Behaviours>(
    actor: ActorId,
    cell: &NumberedCell<A, K>,
    dispatcher: &Dispatcher,
) -> bool {
    cell.cell().next_front().is_some() || dispatcher.has_system(actor)
}

/// Takes out the system message that is next, with its number: one that was set aside and may go now, else the earliest of the list.
fn next_message<A: Actor, K: Behaviours>(
    actor: ActorId,
    cell: &NumberedCell<A, K>,
    dispatcher: &mut Dispatcher,
) -> Option<(u64, SysMsg)>
    ensures numbered { IfSome result (λ next. IsNumbered cell.now.who cell.now.journal next.0 next.1) }
    ensures marks { marks_of dispatcher.new.mailboxes.items ≡ marks_of dispatcher.old.mailboxes.items }
    ensures logs { length dispatcher.new.logs.items ≡ length dispatcher.old.logs.items }
{
    if let Some(front) = cell.cell().next_front() {
        return Some(front);
    }
    let message = dispatcher.next_system(actor)?;
    Some((cell.next_number(), message))
}

/// Gives the cell the next envelope, if it may be handled, and carries out its acts (`Mailbox.processMailbox`); `false` if there is none.
fn handle_next<A: Actor, K: Behaviours>(
    alloc: Global,
    actor: ActorId,
    cell: &mut NumberedCell<A, K>,
    dispatcher: &mut Dispatcher,
) -> Result<bool, RunError>
    requires run { IsInRun actor cell.old dispatcher.old.mailboxes.items }
    ensures run { LeavesInRun actor cell.old cell.new dispatcher.old.mailboxes.items dispatcher.new.mailboxes.items }
    ensures logs { length dispatcher.new.logs.items ≡ length dispatcher.old.logs.items }
{
    if !cell.should_process() {
        return Ok(false);
    }
    cell.ready()?;
    // The guardian is told nothing, and has no actor that could handle it.
    if cell.is_guardian() {
        return Ok(false);
    }
    let Some(envelope) = dispatcher.next_envelope(actor) else {
        return Ok(false);
    };
    cell.handle(envelope);
    carry_out(alloc, actor, cell, dispatcher)?;
    Ok(true)
}

/// Carries out the acts of the last message, in order. The only error: memory was refused for some of them; the others are carried out all the
/// same.
fn carry_out<A: Actor, K: Behaviours>(
    alloc: Global,
    actor: ActorId,
    cell: &mut NumberedCell<A, K>,
    dispatcher: &mut Dispatcher,
) -> Result<(), AllocError>
    ensures carried { cell.new ≡ record cell.old { acts = [] } }
    ensures marks { marks_of dispatcher.new.mailboxes.items ≡ marks_of dispatcher.old.mailboxes.items }
    ensures logs { length dispatcher.new.logs.items ≡ length dispatcher.old.logs.items }
{
    let mut is_carried = true;
    while let Some(act) = cell.next_act() {
        is_carried &= carry(alloc, actor, cell, dispatcher, act).is_ok();
    }
    dispatcher.set_suspended(actor, cell.is_suspended());
    if is_carried { Ok(()) } else { Err(AllocError) }
}

/// Carries out one act. The only error: memory was refused.
fn carry<A: Actor, K: Behaviours>(
    alloc: Global,
    actor: ActorId,
    cell: &mut NumberedCell<A, K>,
    dispatcher: &mut Dispatcher,
    act: Act,
) -> Result<(), AllocError>
    ensures left { cell.new ≡ cell.old }
    ensures marks { marks_of dispatcher.new.mailboxes.items ≡ marks_of dispatcher.old.mailboxes.items }
    ensures logs { length dispatcher.new.logs.items ≡ length dispatcher.old.logs.items }
{
    match act {
        Act::Tell(to, body) => {
            dispatcher.tell(actor.0 as usize, SenderId(u32::from(actor.0)), to, body)
        }
        Act::Sys(to, node) => {
            let message = node.msg();
            cell.keep_node(node);
            dispatcher.send_system(to, message)
        }
        Act::CloseSelf => dispatcher.close(alloc, actor),
        Act::SuspendSelf | Act::ResumeSelf => Ok(()),
    }
}
