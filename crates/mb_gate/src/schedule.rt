//! A try to schedule an actor, which gives its claim.
ghost use Rattle.std.specs.Prelude.{◌≡◌, ◌≢◌, ◌<◌, [], None, true};
ghost use Rattle.mb_status.specs.Mailbox.{Mailbox, word_of};
ghost use Rattle.mb_gate.specs.View.{without_claim};
ghost use Rattle.mb_gate.specs.Rule.{is_some_item};
ghost use Rattle.mb_gate.specs.Claims.{is_busy};
ghost use Rattle.mb_gate.specs.TableSteps.{Won, HasRead};
ghost use Rattle.mb_gate.specs.FreeHome.{FreeIsFold};
ghost use Rattle.mb_gate.specs.Tries.{BecomesScheduled, IsClaimOf, IsExchanged, IsSplitOff, IsTried, WonClaim};
ghost use Rattle.mb_gate.specs.Accessors.{gates_id, pass_id, claim_id, actors_of, first_home, pass_view};
ghost use Rattle.mb_gate.specs.declared.slot.Slot.TheVariants.{First};
ghost use Rattle.std.specs.declared.snapshot.Snapshot.{Snapshot};

use crate::claim::Claim;
use crate::gates::Gates;
use crate::gates_rule::{Schedule, SplitClaim};
use crate::layout::{CELL, STATUS, slot_index, word_index};
use crate::mailbox_state::MailboxState;
use crate::pass::Pass;
use crate::seat_view::SeatView;
use crate::sent_system_log::SentSystemLog;
use crate::slot::Slot;
use atomic_table::Seat;
use mb_msg::ActorId;
use mb_status::Status;
use std::mem;
use std::snapshot::Snapshot;

/// What a try to schedule an actor came to (`Mailbox.setAsScheduled`, which answers whether it won).
pub enum ScheduleOutcome<H> {
    /// The claim is the caller's.
    Got(Claim<H>),
    /// There is a claim of the actor already.
    Already,
    /// The actor's mailbox is closed.
    Closed,
    /// Another step came between: the status that the exchange found.
    Lost(Status),
}

impl<H: MailboxState> Gates<H> {
    /// Tries to schedule the actor, and takes its cell where it wins (`Mailbox.setAsScheduled`).
    ///
    /// It reads the status, and answers `Closed` or `Already` where the status says that. Else it exchanges the word that it
    /// read, and answers `Lost` with the status that it found where another step came between.
    pub fn try_schedule(&self, pass: &mut Pass<H>, id: ActorId) -> ScheduleOutcome<H>
        requires same_gates { pass_id pass.old ≡ gates_id self.now }
        requires present { id.0 < actors_of self.now }
        ensures same_gates { (pass_id pass.new ≡ pass_id pass.old) × IsClaimOf (gates_id self.now) result }
        ensures answer { (seen : Mailbox) × IsTried (H.is_of (first_home self.now)) H.facts id.0 (pass_view pass.old) (pass_view pass.new) seen result }
        ensures free_is_fold { FreeIsFold (H.is_of (first_home self.now)) H.facts id.0 result }
    {
        let seen = self.status(pass, id);
        if seen.closed() {
            return ScheduleOutcome::Closed;
        }
        match seen.with_scheduled() {
            Some(status) => self.exchange_status(pass, id, seen, status),
            None => ScheduleOutcome::Already,
        }
    }

    fn exchange_status(
        &self,
        pass: &mut Pass<H>,
        id: ActorId,
        seen: Status,
        status: Status,
    ) -> ScheduleOutcome<H>
        requires same_gates { pass_id pass.old ≡ gates_id self.now }
        requires present { id.0 < actors_of self.now }
        requires scheduled { BecomesScheduled seen status }
        ensures same_gates { (pass_id pass.new ≡ pass_id pass.old) × IsClaimOf (gates_id self.now) result }
        ensures answer { IsExchanged (H.is_of (first_home self.now)) H.facts id.0 (pass_view pass.old) (pass_view pass.new) seen result }
    {
        let old = seen.word();
        let found = self.exchange_word(&mut pass.seat, id, seen, status);
        if found == old {
            return ScheduleOutcome::Got(self.claim(&mut pass.seat, id, status));
        }
        match Status::of(found) {
            Some(found) => ScheduleOutcome::Lost(found),
            None => unreachable!(),
        }
    }

    // The exchange of the actor's status word: the word that it found. Where it wins, the seat has the claim and the cell.
    fn exchange_word(
        &self,
        seat: &mut Seat<Slot<H>, SeatView>,
        id: ActorId,
        old: Status,
        new: Status,
    ) -> u64
        requires same_gates { seat.old.table_id ≡ gates_id self.now }
        requires present { id.0 < actors_of self.now }
        requires scheduled { BecomesScheduled old new }
        requires no_claim { seat.old.me.0.claim ≡ None }
        requires share { is_some_item seat.old.me.0.share ≡ true }
        ensures same_gates { seat.new.table_id ≡ seat.old.table_id }
        ensures won { result ≡ word_of old → Won (H.is_of (first_home self.now)) H.facts id.0 result seat.old.me seat.new.me }
        ensures lost { result ≢ word_of old → HasRead id.0 result seat.old.me seat.new.me }
    {
        let before = old.word();
        let after = new.word();
        let note = self.first_note();
        let index = word_index(id, STATUS);
        self.table
            .shared
            .compare_exchange_with::<Schedule>(seat, index, before, after, &note)
    }

    /// What the step that schedules gets as an argument: a snapshot of the home with which the first actor began.
    fn first_note(&self) -> Slot<H>
        ensures { (first : Snapshot (Snapshot H)) × (result ≡ First first) × (first.value ≡ self.now.table.shared.key.first) }
    {
        Slot::First(Snapshot::of(&self.first))
    }

    /// Gives the claim a seat of its own, with the cell.
    fn claim(&self, seat: &mut Seat<Slot<H>, SeatView>, id: ActorId, status: Status) -> Claim<H>
        requires same_gates { seat.old.table_id ≡ gates_id self.now }
        requires present { id.0 < actors_of self.now }
        requires busy { is_busy (word_of status) ≡ true }
        requires won { WonClaim H.facts id.0 status seat.old.me }
        ensures same_gates { (seat.new.table_id ≡ seat.old.table_id) × (claim_id result ≡ seat.old.table_id) }
        ensures rest { seat.new.me ≡ (without_claim seat.old.me.0, []) }
        ensures split_off { IsSplitOff id.0 status seat.old.me result }
    {
        let rest = self.table.shared.split_seat::<SplitClaim>(seat);
        let mut mine = mem::replace(seat, rest);
        let slot = slot_index(id, CELL);
        match self.table.shared.exchange(&mut mine, slot, Slot::Empty) {
            Slot::Home(home) => Claim {
                home,
                actor: id,
                status,
                seat: mine,
                sent_log: SentSystemLog::new(),
            },
            _ => unreachable!(),
        }
    }
}
