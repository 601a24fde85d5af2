//! Applying an envelope that the actor handles.
ghost use Rattle.std.specs.Prelude.{◌≡◌, ◌-◌, ◌<◌, ◌≤◌, ◌^◌, [], ◌∷◌, ◌++◌, false, true, drop, length, IsTrue, Some};
ghost use Rattle.std.specs.List.{list_all};
ghost use Rattle.mb_status.specs.Mailbox.{word_of};
ghost use Rattle.mb_actor.specs.Held.{CanHold};
ghost use Rattle.mb_actor.specs.OutboxView.{is_tell};
ghost use Rattle.mb_journal.specs.Acts.{stop_acts};
ghost use Rattle.mb_journal.specs.Entry.Entry.{Handled};
ghost use Rattle.mb_journal.specs.Entry.Outcome.{Applied};
ghost use Rattle.mb_journal.specs.Incarnation.{body_messages};
ghost use Rattle.mb_journal.specs.Lawful.{IsExpected, IsLawful, envelope_call};
ghost use Rattle.mb_supervision.specs.ActorIdentity.{identity_at};
ghost use Rattle.mb_supervision.specs.Rows.{handled};
ghost use Rattle.mb_cell.specs.MayHandle.{MayHandle};
ghost use Rattle.mb_cell.specs.CellView.{TakesEnvelope};

use crate::cell::Cell;
use mb_actor::{Actor, Answer, Behaviours, Call, Message, Outbox};
use mb_journal::Journal;
use mb_msg::Envelope;
use mb_status::Status;
use mb_supervision::{ActorIdentity, CellState};

impl<A: Actor, K: Behaviours> Cell<A, K> {
    /// An envelope for the actor itself: its `receive` is called.
    // Inlined into the run, so that what was taken stays in registers.
    #[inline(always)]
    pub(super) fn apply_message(&mut self, reading: Status, envelope: Envelope, message: Message)
        requires may_handle { MayHandle self.old envelope (word_of reading) }
        requires calls { envelope_call envelope.body ≡ Some (Call.Receive message) }
        requires carries { body_messages envelope.body ≡ message ∷ [] }
        requires expected { IsExpected self.old.who self.old.journal envelope.body }
        ensures taken { TakesEnvelope self.old self.new envelope (word_of reading) }
        ensures lawful { IsLawful self.new.who (K.gives self.new.who.this.0) self.new.journal }
    {
        let Some(actor) = &mut self.actor else {
            unreachable!();
        };
        let answer = actor.receive(&message, &mut self.outbox);
        self.unsent = handle(
            &mut self.cell_state,
            &mut self.journal,
            &self.place,
            reading.word(),
            envelope,
            answer,
            &self.outbox,
        );
        self.outbox.settle();
    }
}

/// Adds the entry of an envelope with this reading, this answer and the effects in the outbox, and does to the state of a cell what it
/// asks for.
///
/// It answers how many effects, which are tells, are left: all of them, or none. The cell sends them from its journal. Where all are left,
/// no room but that of the entry was used.
#[inline(always)]
fn handle(
    cell_state: &mut CellState,
    journal: &mut Journal,
    place: &ActorIdentity,
    reading: u64,
    envelope: Envelope,
    answer: Answer,
    outbox: &Outbox,
) -> usize
    requires ready { IsTrue cell_state.old.is_ready × IsTrue journal.old.is_ready }
    requires carried_out { cell_state.old.acts ≡ [] }
    requires below_bound { cell_state.old.count < 2 ^ 60 }
    ensures within { result ≤ length outbox.now.effects }
    ensures tells { 0 < result → list_all is_tell outbox.now.effects ≡ true }
    ensures held { CanHold outbox.now }
    ensures handled { record cell_state.new {
      acts = stop_acts (drop (length outbox.now.effects - result) outbox.now.effects) ++ cell_state.new.acts;
      is_ready = false;
    } ≡ handled (identity_at place.now) envelope.body (Some answer) outbox.now.effects cell_state.old }
    ensures added { journal.new ≡ record journal.old {
      entries = Handled envelope reading (Applied (Some answer) outbox.now.effects) ∷ journal.old.entries;
      is_ready = journal.new.is_ready;
    } }
    ensures within_limit { length journal.new.entries ≤ journal.new.limit }
    ensures room { IsTrue journal.new.is_ready → IsTrue cell_state.new.is_ready }
{
    let effects = outbox.effects();
    if outbox.has_only_tells() && CellState::is_unchanged_by(envelope.body, Some(answer)) {
        journal.push_handled(envelope, reading, Some(answer), effects);
        return effects.len();
    }
    cell_state.handle(place, envelope.body, Some(answer), effects);
    journal.push_handled(envelope, reading, Some(answer), effects);
    journal.forget_room();
    0
}
