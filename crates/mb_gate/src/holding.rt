//! What the holder of a claim does to its actor's status, and how it gives the cell back.
ghost use Rattle.std.specs.Prelude.{◌≡◌, ◌<◌, [], ◌∷◌, None, not, true};
ghost use Rattle.mb_status.specs.Mailbox.{most_suspensions, should_process, suspend, resume, closed_mailbox, word_of};
ghost use Rattle.mb_ghost.specs.Layout.{slot_at};
ghost use Rattle.mb_gate.specs.View.{idling, taking_in};
ghost use Rattle.mb_gate.specs.TableSteps.{IsHolderChange};
ghost use Rattle.mb_gate.specs.Claims.{held_in, is_busy, MayGoHome, IsReadyToRelease, Idled};
ghost use Rattle.mb_gate.specs.ClaimSteps.{ChangesStatus};
ghost use Rattle.mb_gate.specs.Returned.{GoesOn};
ghost use Rattle.mb_gate.specs.Rule.{is_some_item};
ghost use Rattle.mb_gate.specs.SentSystem.{HasSentDueSince};
ghost use Rattle.mb_ghost.specs.Seen.{Each};
ghost use Rattle.mb_gate.specs.Accessors.{gates_id, pass_id, claim_id, actors_of, first_home, pass_view};
ghost use Rattle.mb_gate.specs.Accessors.{claim_view, held_actor, status_of, taken_with, recorded_by};
ghost use Rattle.mb_gate.specs.declared.slot.Slot.TheVariants.{Empty, Home};

use crate::claim::Claim;
use crate::gates::Gates;
use crate::gates_rule::{Idle, TakeIn, Write};
use crate::layout::{CELL, FLAG, STATUS, slot_index, word_index};
use crate::mailbox_state::MailboxState;
use crate::pass::Pass;
use crate::seat_view::SeatView;
use crate::slot::Slot;
use atomic_table::Seat;
use mb_msg::ActorId;
use mb_status::Status;
use std::mem;

impl<H: MailboxState> Gates<H> {
    /// Suspends the claim's actor once more, and answers whether it was not suspended before (`Mailbox.suspend`).
    /// A closed mailbox stays as it is, with the answer `false`.
    pub fn suspend(&self, claim: &mut Claim<H>) -> bool
        requires same_gates { claim_id claim.old ≡ gates_id self.now }
        requires present { held_actor claim.old < actors_of self.now }
        requires within_limit { (status_of claim.old).count < most_suspensions }
        ensures written { ChangesStatus claim.old claim.new (suspend (status_of claim.old)) }
        ensures first { result ≡ should_process (status_of claim.old) }
    {
        let mut status = claim.status;
        let first = status.suspend();
        self.write(claim, status);
        first
    }

    /// Undoes one suspension of the claim's actor where there is one, and answers whether none is left
    /// (`Mailbox.resume`). A closed mailbox stays as it is, with the answer `false`.
    pub fn resume(&self, claim: &mut Claim<H>) -> bool
        requires same_gates { claim_id claim.old ≡ gates_id self.now }
        requires present { held_actor claim.old < actors_of self.now }
        ensures written { ChangesStatus claim.old claim.new (resume (status_of claim.old)) }
        ensures last { result ≡ should_process (status_of claim.new) }
    {
        let mut status = claim.status;
        let last = status.resume();
        self.write(claim, status);
        last
    }

    /// Closes the mailbox of the claim's actor for good, and answers `false` if it was closed already
    /// (`Mailbox.becomeClosed`).
    pub fn close_mailbox(&self, claim: &mut Claim<H>) -> bool
        requires same_gates { claim_id claim.old ≡ gates_id self.now }
        requires present { held_actor claim.old < actors_of self.now }
        ensures written { ChangesStatus claim.old claim.new closed_mailbox }
        ensures first { result ≡ not (status_of claim.old).closed }
    {
        let mut status = claim.status;
        let first = status.close();
        self.write(claim, status);
        first
    }

    // A plain store is enough: no other seat changes the word of an actor that is held.
    fn write(&self, claim: &mut Claim<H>, status: Status)
        requires same_gates { claim_id claim.old ≡ gates_id self.now }
        requires present { held_actor claim.old < actors_of self.now }
        requires busy { is_busy (word_of status) ≡ true }
        requires closed { (status_of claim.old).closed ≡ true → word_of status ≡ 1 }
        requires changes { IsHolderChange (status_of claim.old) status }
        ensures written { ChangesStatus claim.old claim.new status }
    {
        let index = word_index(claim.actor, STATUS);
        self.table
            .shared
            .store::<Write>(&mut claim.seat, index, status.word());
        claim.status = status;
    }

    /// Gives the claim's cell back (`Mailbox.setAsIdle`). An open actor can then be scheduled again, a closed one never.
    ///
    /// What it asks for: the cell is the actor's own; its journal extends the one that was taken; its status is the word of its
    /// journal; it knows how many messages the list gave, and each that it says the list gave is one that the list gave; each
    /// actor that it says is closed is known to be; the new journal entries have had their system messages sent; and, unless
    /// the actor is open and its last drain gave something, nothing is left beside the cell. Afterwards the pass has seen the
    /// journal, and owes the actor a look at both its queues. The journal that was taken goes on from each that the pass had
    /// seen of the actor.
    pub fn release(&self, claim: Claim<H>, pass: &mut Pass<H>)
        requires same_gates { (claim_id claim ≡ gates_id self.now) × (pass_id pass.old ≡ gates_id self.now) }
        requires present { held_actor claim < actors_of self.now }
        requires may_go_home { MayGoHome (H.is_of (first_home self.now)) H.facts (held_actor claim) (status_of claim) (held_in (claim_view claim))
            (taking_in (claim_view claim) (pass_view pass.old)) claim.home }
        requires told { HasSentDueSince (H.who claim.home) (held_actor claim) (status_of claim).closed (H.facts claim.home).journal
            (taken_with claim) (recorded_by claim) }
        ensures same_gates { pass_id pass.new ≡ pass_id pass.old }
        ensures known { pass_view pass.new ≡ idling (held_actor claim) (H.facts claim.home).journal (taking_in (claim_view claim) (pass_view pass.old)) }
        ensures goes_on { Each (GoesOn (held_actor claim) (taken_with claim)) (pass_view pass.old).log }
    {
        let Claim {
            home,
            actor,
            status,
            seat,
            sent_log: _,
        } = claim;
        self.take_in(&mut pass.seat, seat);
        self.put_back(&mut pass.seat, actor, CELL, Slot::Home(home));
        self.idle(&mut pass.seat, actor, status);
    }

    // The claim's seat takes the place of the pass's, with all that the pass knows.
    fn take_in(&self, seat: &mut Seat<Slot<H>, SeatView>, mine: Seat<Slot<H>, SeatView>)
        requires same_gates { (seat.old.table_id ≡ gates_id self.now) × (mine.table_id ≡ gates_id self.now) }
        requires nothing { (seat.old.me.1 ≡ []) × (seat.old.me.0.claim ≡ None) × (seat.old.me.0.list ≡ None) }
        requires share { is_some_item seat.old.me.0.share ≡ true }
        ensures same_gates { seat.new.table_id ≡ gates_id self.now }
        ensures known { seat.new.me ≡ (taking_in mine.me.0 seat.old.me.0, mine.me.1) }
    {
        let pass = mem::replace(seat, mine);
        self.table.shared.join_seat::<TakeIn>(seat, pass);
    }

    // The step that shows that the cell is in its slot: a store of the status word or, of a closed actor, of the flag beside
    // it.
    fn idle(&self, seat: &mut Seat<Slot<H>, SeatView>, actor: ActorId, status: Status)
        requires same_gates { seat.old.table_id ≡ gates_id self.now }
        requires present { actor.0 < actors_of self.now }
        requires ready { IsReadyToRelease (H.is_of (first_home self.now)) H.facts actor.0 status seat.old.me }
        ensures same_gates { seat.new.table_id ≡ seat.old.table_id }
        ensures idle { Idled H.facts actor.0 seat.old.me seat.new.me }
    {
        if status.closed() {
            let flag = word_index(actor, FLAG);
            self.table.shared.store::<Idle>(seat, flag, 1);
            return;
        }
        let index = word_index(actor, STATUS);
        self.table
            .shared
            .store::<Idle>(seat, index, status.idle().word());
    }
}
