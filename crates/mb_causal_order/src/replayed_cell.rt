//! The cell of an actor whose journal is replayed.
ghost use Rattle.std.specs.Prelude.{◌≡◌, ◌≤◌, ◌^◌, ◌⊎◌, ◌++◌, [], ◌∷◌, IfNone, IfOk, List, IsTrue, length, map, option_to_list, Some};
ghost use Rattle.mb_journal.specs.Aside.{next_number};
ghost use Rattle.mb_journal.specs.Entry.{Entry};
ghost use Rattle.mb_journal.specs.JournalView.{entry_of};
ghost use Rattle.mb_supervision.specs.ActQueue.{act_of};
ghost use Rattle.mb_cell.specs.CellView.{with_entry};
ghost use Rattle.mb_causal_order.specs.Replayed.{AddsEntry};
ghost use Rattle.mb_causal_order.specs.Sent.{sent};

use crate::journal_actor::{JournalActor, Unstated};
use mb_actor::{Answer, Effect, Phase};
use mb_cell::{Act, Cell};
use mb_journal::{EntryRef, Journal, ReadyError, Received};
use mb_msg::{ActorId, Envelope, SysMsg};
use mb_status::Status;
use std::alloc::AllocError;
use std::marker::Model;

/// A cell that is given again what came to an actor, entry by entry, and in which the actor answers as its journal records.
#[derive(Drop)]
pub(crate) struct ReplayedCell<'a> {
    cell: Cell<JournalActor<'a>, Unstated>,
    this: u16,
    /// The number of the next new system message.
    next: u64,
    /// How many envelopes the actor has sent, or fewer past `u128::MAX`.
    told: u128,
}

impl<'a> Model for ReplayedCell<'a> {
    ghost use Rattle.std.specs.Prelude.{◌≡◌, ◌≤◌, ◌+◌, ◌^◌, ◌⊎◌, count_by, Some};
    ghost use Rattle.mb_journal.specs.Aside.{next_number as number_of_next};
    ghost use Rattle.mb_cell.specs.CellView.{CellView};
    ghost use Rattle.mb_causal_order.specs.Sent.{is_tell, sent as sent_by};

    ghost Value = { CellView };

    ghost view = { λ s. s.cell };

    ghost invariant = { λ s. (s.next ≡ number_of_next s.cell.journal) × (s.cell.who.this.0 ≡ s.this)
        × (s.told + count_by is_tell s.cell.acts ≤ sent_by (Some s.cell.who) s.cell.journal)
        × ((sent_by (Some s.cell.who) s.cell.journal ≤ s.told + count_by is_tell s.cell.acts) ⊎ (2 ^ 64 ≤ s.told)) };
}

impl<'a> ReplayedCell<'a> {
    /// This cell of the actor of this number, to which nothing has come yet.
    #[tactic(auto, unfolding(mb_journal::specs::Aside::next_number, crate::specs::Sent::sent))]
    pub(crate) fn new(cell: Cell<JournalActor<'a>, Unstated>, this: u16) -> Self
        requires unused { cell.journal ≡ [] }
        requires carried_out { cell.acts ≡ [] }
        requires numbered { cell.who.this.0 ≡ this }
        ensures { result ≡ cell.entry }
    {
        ReplayedCell {
            cell,
            this,
            next: 0,
            told: 0,
        }
    }

    /// How many entries it has.
    pub(crate) fn entries(&self) -> usize
        ensures { result ≡ length self.now.journal }
    {
        self.cell.journal().len()
    }

    /// How many envelopes the actor has sent, or fewer past `u128::MAX`.
    pub(crate) fn told(&self) -> u128
        ensures most { result ≤ sent (Some self.now.who) self.now.journal }
        ensures least { self.now.acts ≡ [] → (sent (Some self.now.who) self.now.journal ≤ result) ⊎ (2 ^ 64 ≤ result) }
    {
        self.told
    }

    /// The number of the next new system message.
    pub(crate) fn next_number(&self) -> u64
        ensures { result ≡ next_number self.now.journal }
    {
        self.next
    }

    /// The actor's parent; the guardian has none.
    pub(crate) fn parent(&self) -> Option<ActorId>
        ensures { result ≡ self.now.who.parent }
    {
        self.cell.parent()
    }

    /// Takes out the earliest act that is still to be carried out.
    pub(crate) fn next_act(&mut self) -> Option<Act>
        ensures taken { self.old.acts ≡ map act_of (option_to_list result) ++ self.new.acts }
        ensures none { IfNone result (self.old.acts ≡ []) }
        ensures rest { self.new ≡ record self.old { acts = self.new.acts } }
    {
        let act = self.cell.next_act();
        if let Some(Act::Tell(_, _)) = &act {
            self.told = self.told.saturating_add(1);
        }
        act
    }

    /// Gives it what came by this entry, and answers whether it made the same entry of it. The only error: memory was refused.
    pub(crate) fn give(&mut self, entry: &EntryRef<'_>) -> Result<bool, AllocError>
        requires carried_out { self.old.acts ≡ [] }
        ensures { IfOk result (λ is_same. IsTrue is_same → self.new ≡ with_entry self.old (entry_of entry.now)) }
    {
        match self.cell.ready() {
            Ok(()) => {}
            Err(ReadyError::JournalFull) => return Ok(false),
            Err(ReadyError::NoMemory) => return Err(AllocError),
        }
        if !self.take(entry.arrival) {
            return Ok(false);
        }
        Ok(is_newest(self.cell.journal(), entry))
    }

    /// Gives it what came, if such a thing can come next.
    fn take(&mut self, arrival: Received) -> bool
        requires ready { IsTrue self.old.is_ready }
        requires carried_out { self.old.acts ≡ [] }
        ensures { IsTrue result → AddsEntry self.old self.new }
    {
        match arrival {
            Received::Handled {
                envelope,
                reading,
                ..
            } => self.take_envelope(envelope, reading),
            Received::System {
                number,
                message,
                ..
            } => self.take_system(number, message),
            Received::SetAside { number, message } => self.take_system(number, message),
            Received::Dropped { envelope } => self.take_envelope(envelope, 0),
        }
    }

    /// Gives it a system message: the next new one, or one that was set aside and is due.
    fn take_system(&mut self, number: u64, message: SysMsg) -> bool
        requires ready { IsTrue self.old.is_ready }
        requires carried_out { self.old.acts ≡ [] }
        ensures { IsTrue result → AddsEntry self.old self.new }
    {
        if let Phase::Ended = self.cell.phase() {
            return false;
        }
        if number == self.next && number < u64::MAX {
            self.cell.apply_system(number, message);
            self.next = number + 1;
            return true;
        }
        self.take_front(number, message)
    }

    /// Gives it a system message that was set aside, if it is this one that is due.
    fn take_front(&mut self, number: u64, message: SysMsg) -> bool
        requires ready { IsTrue self.old.is_ready }
        requires carried_out { self.old.acts ≡ [] }
        ensures { IsTrue result → AddsEntry self.old self.new }
    {
        if let Phase::Ended = self.cell.phase() {
            return false;
        }
        let Some((due, waiting)) = self.cell.next_front() else {
            return false;
        };
        if due != number || waiting != message || due >= self.next {
            return false;
        }
        self.cell.apply_system(due, waiting);
        true
    }

    /// Gives it an envelope that came at this reading of the status, if its actor may handle it then.
    fn take_envelope(&mut self, envelope: Envelope, reading: u64) -> bool
        requires ready { IsTrue self.old.is_ready }
        requires carried_out { self.old.acts ≡ [] }
        ensures { IsTrue result → AddsEntry self.old self.new }
    {
        let Some(status) = Status::of(reading) else {
            return false;
        };
        if envelope.to.0 != self.this || self.cell.parent().is_none() {
            return false;
        }
        if !status.should_process() || status.count() != self.cell.count() {
            return false;
        }
        let Phase::Live = self.cell.phase() else {
            return false;
        };
        self.cell.apply_envelope(status, envelope);
        self.cell.forget_room();
        true
    }
}

/// Whether this is the newest entry of the journal.
fn is_newest(journal: &Journal, entry: &EntryRef<'_>) -> bool
    ensures { IsTrue result → (e : Entry) (before : List Entry) → journal.now.entries ≡ e ∷ before → e ≡ entry_of entry.now }
{
    let entries = journal.len();
    if entries == 0 {
        return false;
    }
    let Some(newest) = journal.entry(entries - 1) else {
        return false;
    };
    is_same_arrival(newest.arrival, entry.arrival)
        && are_same_effects(newest.effects, entry.effects)
}

fn is_same_arrival(left: Received, right: Received) -> bool
    ensures { IsTrue result → left ≡ right }
{
    match (left, right) {
        (
            Received::Handled {
                answer,
                envelope,
                reading,
            },
            Received::Handled {
                answer: other_answer,
                envelope: other_envelope,
                reading: other_reading,
            },
        ) => is_same_answer(answer, other_answer)
            && is_same_envelope(envelope, other_envelope)
            && reading == other_reading,
        (
            Received::System {
                answer,
                number,
                message,
            },
            Received::System {
                answer: other_answer,
                number: other_number,
                message: other_message,
            },
        ) => is_same_answer(answer, other_answer)
            && number == other_number
            && is_same_message(message, other_message),
        (
            Received::SetAside { number, message },
            Received::SetAside {
                number: other_number,
                message: other_message,
            },
        ) => number == other_number && is_same_message(message, other_message),
        (
            Received::Dropped { envelope },
            Received::Dropped {
                envelope: other_envelope,
            },
        ) => is_same_envelope(envelope, other_envelope),
        _ => false,
    }
}

fn is_same_answer(left: Option<Answer>, right: Option<Answer>) -> bool
    ensures { IsTrue result → left ≡ right }
{
    left == right
}

fn is_same_envelope(left: Envelope, right: Envelope) -> bool
    ensures { IsTrue result → left ≡ right }
{
    left == right
}

fn is_same_message(left: SysMsg, right: SysMsg) -> bool
    ensures { IsTrue result → left ≡ right }
{
    left == right
}

fn is_same_effect(left: Effect, right: Effect) -> bool
    ensures { IsTrue result → left ≡ right }
{
    left == right
}

fn are_same_effects(left: &[Effect], right: &[Effect]) -> bool
    ensures { IsTrue result → left.now ≡ right.now }
{
    if left.len() != right.len() {
        return false;
    }
    for index in 0..left.len() {
        if !is_same_effect(left[index], right[index]) {
            return false;
        }
    }
    true
}
