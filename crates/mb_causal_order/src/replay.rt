//! The journals given to cells once more: what the entries so far sent, and what of it came.
ghost use Rattle.std.specs.Prelude.{◌≡◌, ◌+◌, ◌<◌, ◌≤◌, ◌^◌, ◌==◌, ◌&&◌, ◌⊎◌, true, false, ℕ, Bool, List, [], ◌∷◌, IfOk, IfSome, IsTrue, count_by, length, get_or, set, if◌then◌else◌, slice_get, Some};
ghost use Rattle.mb_msg.specs.Limits.{most_entries};
ghost use Rattle.mb_msg.specs.declared.system.SysMsg.{SysMsg as Message};
ghost use Rattle.mb_actor.specs.declared.effect.Effect.{Effect};
ghost use Rattle.mb_journal.specs.Aside.{next_number};
ghost use Rattle.mb_journal.specs.JournalView.{entry_of, entry_with};
ghost use Rattle.mb_build.specs.Planned.{actors_in};
ghost use Rattle.mb_cell.specs.CellView.{CellView};
ghost use Rattle.mb_supervision.specs.ActQueue.{act_of};
ghost use Rattle.mb_causal_order.specs.Replayed.{AnswersByCells, AppliesEntry, CoversByCells, HasNoRow, IsMissing, IsReplayed, IsUnsent, outstanding};
ghost use Rattle.mb_causal_order.specs.Sent.{sent};
ghost use Rattle.mb_causal_order.specs.SystemMessages.{is_of_new, sends, sent_from_outside, stops};

use crate::outstanding::Outstanding;
use crate::planned_cells::planned_cells;
use crate::replayed_cell::ReplayedCell;
use mb_cell::Act;
use mb_journal::{EntryRef, Received};
use mb_msg::{ActorId, OrderKind, Plan, SenderOrder, SysMsg};
use mb_report::ActorReport;
use std::alloc::{AllocError, Global};

/// The cells of all actors, to which the entries so far were given again, and the system messages that these entries sent and that have
/// not come.
#[derive(Drop)]
pub(crate) struct Replay<'a> {
    cells: Vec<ReplayedCell<'a>>,
    outstanding: Outstanding,
}

impl<'a> Replay<'a> {
    /// Before all entries: outstanding is what no entry sends; `None` where that is more than is counted. The only error: memory was refused.
    pub(crate) fn new(
        alloc: Global,
        plan: &Plan,
        sends: &[SenderOrder],
        actors: &'a [ActorReport],
    ) -> Result<Option<Self>, AllocError>
        requires few { length plan.now.actors.items < 64 }
        requires as_many { length actors.now ≡ length plan.now.actors.items + 1 }
        requires limit { plan.now.journal_limit ≤ most_entries }
        ensures as_many { IfOk result (λ made. IfSome made (λ replay. length replay.cells.items ≡ length actors.now)) }
        ensures unstarted { IfOk result (λ made. IfSome made (λ replay. (a : ℕ) (d : CellView) → a < length replay.cells.items →
            IsReplayed (slice_get (actors_in plan.now) a) [] (get_or replay.cells.items a d))) }
        ensures outside { IfOk result (λ made. IfSome made (λ replay. (test : ℕ → Message → Bool) →
            outstanding test replay.outstanding.rows.items ≡ sent_from_outside sends.now test)) }
    {
        let cells = planned_cells(alloc, plan, actors)?;
        let Some(outstanding) = sent_by_outside(alloc, sends)? else {
            return Ok(None);
        };
        Ok(Some(Replay { cells, outstanding }))
    }

    /// How many entries the actor has so far.
    pub(crate) fn entries(&self, actor: usize) -> usize
        requires present { actor < length self.now.cells.items }
        ensures { (d : CellView) → result ≡ length (get_or self.now.cells.items actor d).journal }
    {
        self.cells[actor].entries()
    }

    /// How many envelopes the actor has sent so far, or fewer past `u128::MAX`.
    pub(crate) fn told(&self, actor: usize) -> u128
        requires present { actor < length self.now.cells.items }
        ensures most { (d : CellView) → result ≤ sent (Some (get_or self.now.cells.items actor d).who) (get_or self.now.cells.items actor d).journal }
        ensures least { (d : CellView) → (get_or self.now.cells.items actor d).acts ≡ [] →
            (sent (Some (get_or self.now.cells.items actor d).who) (get_or self.now.cells.items actor d).journal ≤ result) ⊎ (2 ^ 64 ≤ result) }
    {
        self.cells[actor].told()
    }

    /// Whether the system message that comes to the actor was sent; true of one that was set aside before, and of an envelope.
    pub(crate) fn is_sent(&self, to: usize, arrival: Received) -> bool
        requires present { to < length self.now.cells.items }
        requires few { length self.now.cells.items ≤ 64 }
        ensures sent { IsTrue result → (effects : List Effect) (d : CellView) (test : ℕ → Message → Bool) → AnswersByCells self.now.cells.items test →
            (if is_of_new (test to) (get_or self.now.cells.items to d).journal (Some (entry_with arrival effects)) then 1 else 0)
            ≤ outstanding test self.now.outstanding.rows.items }
        ensures unsent { result ≡ false → (effects : List Effect) (d : CellView) →
            IsUnsent self.now.cells.items self.now.outstanding.rows.items to (get_or self.now.cells.items to d).journal (entry_with arrival effects) }
    {
        match arrival {
            Received::System {
                number,
                message,
                ..
            } => self.is_outstanding(to, number, message),
            Received::SetAside { number, message } => self.is_outstanding(to, number, message),
            Received::Handled { .. } | Received::Dropped { .. } => true,
        }
    }

    /// Whether what was sent for this message to the actor, if it is new, is outstanding.
    fn is_outstanding(&self, to: usize, number: u64, message: SysMsg) -> bool
        requires present { to < length self.now.cells.items }
        requires few { length self.now.cells.items ≤ 64 }
        ensures sent { IsTrue result → (d : CellView) (test : ℕ → Message → Bool) → AnswersByCells self.now.cells.items test →
            (if (number == next_number (get_or self.now.cells.items to d).journal) && test to message then 1 else 0)
            ≤ outstanding test self.now.outstanding.rows.items }
        ensures unsent { result ≡ false → (d : CellView) → (number ≡ next_number (get_or self.now.cells.items to d).journal)
            × IsMissing self.now.cells.items self.now.outstanding.rows.items to message }
    {
        if number != self.cells[to].next_number() {
            return true;
        }
        let (whom, sent) = self.sent_for(to, message);
        self.outstanding.has(whom, sent)
    }

    /// What was sent for this message to come to the actor, and to whom: the message itself, but of a Died that is not outstanding the Watch
    /// or the Create that came too late.
    fn sent_for(&self, to: usize, message: SysMsg) -> (u16, SysMsg)
        requires few { to < 64 }
        ensures answers { (test : ℕ → Message → Bool) → AnswersByCells self.now.cells.items test → test to message ≡ true →
            test result.0 result.1 ≡ true }
        ensures covered { (test covering : ℕ → Message → Bool) → CoversByCells self.now.cells.items test covering →
            test result.0 result.1 ≡ true → covering to message ≡ true }
        ensures first { HasNoRow self.now.outstanding.rows.items result.0 result.1 →
            IsMissing self.now.cells.items self.now.outstanding.rows.items to message }
    {
        let receiver = to as u16;
        let SysMsg::Died(ended) = message else {
            return (receiver, message);
        };
        if self.outstanding.has(receiver, message) {
            return (receiver, message);
        }
        let watch = SysMsg::Watch(ActorId(receiver));
        if self.outstanding.has(ended.0, watch) {
            return (ended.0, watch);
        }
        if self.is_parent(ActorId(receiver), ended) {
            return (ended.0, SysMsg::Create);
        }
        (receiver, message)
    }

    /// Whether this is the parent of that actor.
    fn is_parent(&self, parent: ActorId, child: ActorId) -> bool
        ensures parent { IsTrue result → (d : CellView) → (child.0 < length self.now.cells.items)
            × ((get_or self.now.cells.items child.0 d).who.parent ≡ Some parent) }
        ensures other { result ≡ false → (d : CellView) → child.0 < length self.now.cells.items →
            (get_or self.now.cells.items child.0 d).who.parent ≡ Some parent → ⊥ }
    {
        let number = child.0 as usize;
        if number >= self.cells.len() {
            return false;
        }
        match self.cells[number].parent() {
            Some(other) => other.0 == parent.0,
            None => false,
        }
    }

    /// Goes past the next entry of the actor. It answers `false` where its message was not sent, no cell makes this entry, or more messages
    /// are sent than are counted. The only error: memory was refused.
    pub(crate) fn apply(&mut self, actor: usize, entry: &EntryRef<'_>) -> Result<bool, AllocError>
        requires present { actor < length self.old.cells.items }
        requires few { length self.old.cells.items ≤ 64 }
        requires carried_out { (d : CellView) → (get_or self.old.cells.items actor d).acts ≡ [] }
        ensures { IfOk result (λ is_applied. IsTrue is_applied → AppliesEntry actor (entry_of entry.now) self.old.cells.items self.new.cells.items
            self.old.outstanding.rows.items self.new.outstanding.rows.items) }
    {
        if !self.take(actor, entry.arrival) {
            return Ok(false);
        }
        let cell = &mut self.cells[actor];
        if !cell.give(entry)? {
            return Ok(false);
        }
        send_all(cell, &mut self.outstanding)
    }

    /// The system message comes to the actor, if it was sent; other things come too.
    fn take(&mut self, actor: usize, arrival: Received) -> bool
        requires present { actor < length self.old.cells.items }
        requires few { length self.old.cells.items ≤ 64 }
        ensures same { self.new.cells ≡ self.old.cells }
        ensures taken { IsTrue result → (effects : List Effect) (d : CellView) (test : ℕ → Message → Bool) → AnswersByCells self.old.cells.items test →
            outstanding test self.new.outstanding.rows.items
            + (if is_of_new (test actor) (get_or self.old.cells.items actor d).journal (Some (entry_with arrival effects)) then 1 else 0) ≤ outstanding test self.old.outstanding.rows.items }
        ensures kept { IsTrue result → (effects : List Effect) (d : CellView) (test covering : ℕ → Message → Bool) →
            CoversByCells self.old.cells.items test covering → outstanding test self.old.outstanding.rows.items
            ≤ outstanding test self.new.outstanding.rows.items
            + (if is_of_new (covering actor) (get_or self.old.cells.items actor d).journal (Some (entry_with arrival effects)) then 1 else 0) }
    {
        match arrival {
            Received::System {
                number,
                message,
                ..
            } => self.take_message(actor, number, message),
            Received::SetAside { number, message } => self.take_message(actor, number, message),
            Received::Handled { .. } | Received::Dropped { .. } => true,
        }
    }

    /// This message comes to the actor, if it was sent. One that was set aside before was.
    fn take_message(&mut self, actor: usize, number: u64, message: SysMsg) -> bool
        requires present { actor < length self.old.cells.items }
        requires few { length self.old.cells.items ≤ 64 }
        ensures same { self.new.cells ≡ self.old.cells }
        ensures taken { IsTrue result → (d : CellView) (test : ℕ → Message → Bool) → AnswersByCells self.old.cells.items test →
            outstanding test self.new.outstanding.rows.items
            + (if (number == next_number (get_or self.old.cells.items actor d).journal) && test actor message then 1 else 0) ≤ outstanding test self.old.outstanding.rows.items }
        ensures kept { IsTrue result → (d : CellView) (test covering : ℕ → Message → Bool) → CoversByCells self.old.cells.items test covering →
            outstanding test self.old.outstanding.rows.items ≤ outstanding test self.new.outstanding.rows.items
            + (if (number == next_number (get_or self.old.cells.items actor d).journal) && covering actor message then 1 else 0) }
    {
        if number != self.cells[actor].next_number() {
            return true;
        }
        let (whom, sent) = self.sent_for(actor, message);
        self.outstanding.take(whom, sent)
    }
}

/// Carries out the acts of a cell, as far as they send system messages. It answers `false` where these are more than are counted. The only error:
/// memory was refused.
fn send_all(cell: &mut ReplayedCell<'_>, messages: &mut Outstanding) -> Result<bool, AllocError>
    ensures cell { IfOk result (λ fits. IsTrue fits → cell.new ≡ record cell.old { acts = [] }) }
    ensures sent { IfOk result (λ fits. IsTrue fits → (test : ℕ → Message → Bool) → outstanding test messages.new.rows.items
        ≡ outstanding test messages.old.rows.items + count_by (sends test) cell.old.acts) }
{
    while let Some(act) = cell.next_act() {
        if !send(act, messages)? {
            return Ok(false);
        }
    }
    Ok(true)
}

/// Carries out an act, if it sends a system message. It answers `false` where these are more than are counted. The only error: memory was refused.
fn send(act: Act, messages: &mut Outstanding) -> Result<bool, AllocError>
    ensures { IfOk result (λ fits. IsTrue fits → (test : ℕ → Message → Bool) → outstanding test messages.new.rows.items
        ≡ outstanding test messages.old.rows.items + count_by (sends test) (act_of act ∷ [])) }
{
    match act {
        Act::Sys(to, node) => messages.send(to.0, node.msg(), 1),
        Act::Tell(_, _) | Act::SuspendSelf | Act::ResumeSelf | Act::CloseSelf => Ok(true),
    }
}

/// The system messages that no entry sends; `None` where they are more than are counted. The only error: memory was refused.
fn sent_by_outside(alloc: Global, sends: &[SenderOrder]) -> Result<Option<Outstanding>, AllocError>
    ensures { IfOk result (λ made. IfSome made (λ sent. (test : ℕ → Message → Bool) →
        outstanding test sent.rows.items ≡ sent_from_outside sends.now test)) }
{
    let mut outstanding = Outstanding::new(alloc);
    if !outstanding.send(0, SysMsg::Create, 1)? {
        return Ok(None);
    }
    for order in sends {
        if !send_stops(&mut outstanding, order)? {
            return Ok(None);
        }
    }
    Ok(Some(outstanding))
}

/// Sends the stops of an order, if it is one to stop. It answers `false` where these are more than are counted. The only error: memory was
/// refused.
fn send_stops(messages: &mut Outstanding, order: &SenderOrder) -> Result<bool, AllocError>
    ensures { IfOk result (λ fits. IsTrue fits → (test : ℕ → Message → Bool) →
        outstanding test messages.new.rows.items ≡ outstanding test messages.old.rows.items + stops test order.now) }
{
    match order.order.what {
        OrderKind::Stop => messages.send(
            order.order.to.0,
            SysMsg::Terminate,
            order.order.times as u64,
        ),
        OrderKind::Tell(_) => Ok(true),
    }
}
