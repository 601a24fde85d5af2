//! Which entry sent each system message of an order of entries.
ghost use Rattle.std.specs.Prelude.{ℕ, ◌≡◌, ◌<◌, ◌≤◌, [], IfOk, IfSome, OnOk, get_or, length};
ghost use Rattle.mb_cell.specs.CellView.{CellView};

use crate::merge::{are_kept, is_of_plan};
use crate::place::Place;
use crate::planned_cells::planned_cells;
use crate::replayed_cell::ReplayedCell;
use crate::sent_messages::SentMessages;
use mb_cell::Act;
use mb_journal::Received;
use mb_msg::{ActorId, Plan, SenderOrder, SysMsg};
use mb_report::ActorReport;
use std::alloc::{AllocError, Global};

/// For each place of an order, the place in it of the entry that sent the system message that came: of the entries that sent the same message to the
/// same actor, each is the cause of one, in their order. Of a `Died` that answers a `Watch` or a `Create` that came too late it is the entry that sent
/// that one. A message that was set aside and comes again has the cause that it had. `None` stands for what came from outside the actors, and for
/// envelopes.
///
/// The answer is `None` where these are no entries that cells make in this order, or a journal does not keep its entries. The only error: memory was
/// refused.
pub fn system_causes(
    alloc: Global,
    plan: &Plan,
    sends: &[SenderOrder],
    actors: &[ActorReport],
    order: &[Place],
) -> Result<Option<Vec<Option<usize>>>, AllocError>
    requires few { length actors.now ≤ 64 }
{
    if !is_of_plan(plan, actors) {
        return Ok(None);
    }
    if !are_kept(actors) {
        return Ok(None);
    }
    let mut cells = planned_cells(alloc, plan, actors)?;
    let mut sent = SentMessages::new(alloc, sends)?;
    let mut causes = Vec::new(alloc);
    for place in 0..order.len() {
        let Some(cause) = pass(actors, order[place], place, &mut cells, &mut sent)? else {
            return Ok(None);
        };
        causes.push(cause)?;
    }
    Ok(Some(causes))
}

/// Goes past the entry of this place in an order, which stands at this place of a journal. The answer is where the cause of its system message stands,
/// and `None` where no cell makes the entry. The only error: memory was refused.
fn pass(
    actors: &[ActorReport],
    at: Place,
    place: usize,
    cells: &mut Vec<ReplayedCell<'_>>,
    sent: &mut SentMessages,
) -> Result<Option<Option<usize>>, AllocError>
    requires all_cells { length cells.old.items ≡ length actors.now }
    requires few { length actors.now ≤ 64 }
    requires carried_out { (a : ℕ) (d : CellView) → a < length cells.old.items → (get_or cells.old.items a d).acts ≡ [] }
    ensures as_many { length cells.new.items ≡ length cells.old.items }
    ensures carried_out { IfOk result (λ made. IfSome made (λ cause. (a : ℕ) (d : CellView) → a < length cells.new.items
        → (get_or cells.new.items a d).acts ≡ [])) }
{
    if at.actor >= actors.len() {
        return Ok(None);
    }
    if cells[at.actor].entries() != at.index {
        return Ok(None);
    }
    let journal = &actors[at.actor].journal;
    let Some(entry) = journal.entry(at.index) else {
        return Ok(None);
    };
    let cause = cause_of(cells, at.actor, entry.arrival, sent)?;
    let cell = &mut cells[at.actor];
    if !cell.give(&entry)? {
        return Ok(None);
    }
    note_acts(cell, place, sent)?;
    Ok(Some(cause))
}

/// Where the entry stands that sent what comes to the actor of this number. The only error: memory was refused.
fn cause_of(
    cells: &[ReplayedCell<'_>],
    to: usize,
    arrival: Received,
    sent: &mut SentMessages,
) -> Result<Option<usize>, AllocError>
    requires present { to < length cells.now }
    requires few { length cells.now ≤ 64 }
{
    match arrival {
        Received::System {
            number,
            message,
            ..
        } => Ok(sender_of(cells, to, number, message, sent)),
        Received::SetAside { number, message } => {
            let sender = sender_of(cells, to, number, message, sent);
            sent.set_aside(to as u16, number, message, sender)?;
            Ok(sender)
        }
        Received::Handled { .. } | Received::Dropped { .. } => Ok(None),
    }
}

/// Where the entry stands that sent this message.
fn sender_of(
    cells: &[ReplayedCell<'_>],
    to: usize,
    number: u64,
    message: SysMsg,
    sent: &mut SentMessages,
) -> Option<usize>
    requires present { to < length cells.now }
    requires few { length cells.now ≤ 64 }
{
    let receiver = to as u16;
    if number != cells[to].next_number() {
        return sent.sender_of_aside(receiver, number, message);
    }
    match message {
        SysMsg::Died(ended) => sender_of_died(cells, receiver, ended, sent),
        SysMsg::Create
        | SysMsg::Recreate(_)
        | SysMsg::Suspend
        | SysMsg::Resume { .. }
        | SysMsg::Terminate
        | SysMsg::Watch(_)
        | SysMsg::Unwatch(_)
        | SysMsg::Failed(_, _) => sent.take(receiver, message),
    }
}

/// Where the entry stands that sent the actor of this number word of that end, or what the word answers.
fn sender_of_died(
    cells: &[ReplayedCell<'_>],
    receiver: u16,
    ended: ActorId,
    sent: &mut SentMessages,
) -> Option<usize> {
    if sent.has(receiver, SysMsg::Died(ended)) {
        return sent.take(receiver, SysMsg::Died(ended));
    }
    let watch = SysMsg::Watch(ActorId(receiver));
    if sent.has(ended.0, watch) {
        return sent.take(ended.0, watch);
    }
    if is_parent(cells, ActorId(receiver), ended) {
        return sent.take(ended.0, SysMsg::Create);
    }
    None
}

/// Whether this is the parent of that actor.
fn is_parent(cells: &[ReplayedCell<'_>], parent: ActorId, child: ActorId) -> bool {
    let number = child.0 as usize;
    if number >= cells.len() {
        return false;
    }
    match cells[number].parent() {
        Some(other) => other.0 == parent.0,
        None => false,
    }
}

/// Notes the system messages that the acts of the cell's newest entry send, which stands at this place. The only error: memory was refused.
fn note_acts(
    cell: &mut ReplayedCell<'_>,
    place: usize,
    sent: &mut SentMessages,
) -> Result<(), AllocError>
    ensures { OnOk result (cell.new ≡ record cell.old { acts = [] }) }
{
    while let Some(act) = cell.next_act() {
        note_act(act, place, sent)?;
    }
    Ok(())
}

/// Notes what this act sends, if it sends a system message. The only error: memory was refused.
fn note_act(act: Act, place: usize, sent: &mut SentMessages) -> Result<(), AllocError> {
    match act {
        Act::Sys(to, node) => sent.send(to.0, node.msg(), 1, Some(place)),
        Act::Tell(_, _) | Act::SuspendSelf | Act::ResumeSelf | Act::CloseSelf => Ok(()),
    }
}
