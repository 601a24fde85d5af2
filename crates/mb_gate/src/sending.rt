//! The waiting count: how many envelopes were counted before they are queued, and not taken yet.
ghost use Rattle.std.specs.Prelude.{◌≡◌, ◌<◌, IsTrue, true};
ghost use Rattle.mb_gate.specs.Rule.{is_some_item};
ghost use Rattle.mb_gate.specs.View.{obligation_to, sending, unsending, counting_off};
ghost use Rattle.mb_gate.specs.Lists.{HasClaim};
ghost use Rattle.mb_gate.specs.Accessors.{gates_id, pass_id, claim_id, actors_of, pass_view, claim_view, held_actor, status_of, SameTaken};

use crate::claim::Claim;
use crate::gates::Gates;
use crate::gates_rule::{CountSent, CountTaken, UncountSent};
use crate::layout::{WAITING, word_index};
use crate::mailbox_state::MailboxState;
use crate::pass::Pass;
use crate::seat_view::SeatView;
use crate::slot::Slot;
use atomic_table::Seat;
use mb_msg::ActorId;

impl<H: MailboxState> Gates<H> {
    /// Counts an envelope that is about to be queued. From now on the pass owes the actor a look. (This project's own profile:
    /// Akka keeps no count, and `akka.dispatch.Mailbox.hasMessages` asks the queue.)
    pub fn note_sent(&self, pass: &mut Pass<H>, id: ActorId)
        requires same_gates { pass_id pass.old ≡ gates_id self.now }
        requires present { id.0 < actors_of self.now }
        ensures same_gates { pass_id pass.new ≡ pass_id pass.old }
        ensures known { pass_view pass.new ≡ sending id.0 1 (pass_view pass.old) }
    {
        self.count_on(&mut pass.seat, id);
    }

    fn count_on(&self, seat: &mut Seat<Slot<H>, SeatView>, id: ActorId)
        requires same_gates { seat.old.table_id ≡ gates_id self.now }
        requires present { id.0 < actors_of self.now }
        requires share { is_some_item seat.old.me.0.share ≡ true }
        ensures same_gates { seat.new.table_id ≡ seat.old.table_id }
        ensures known { seat.new.me ≡ (sending id.0 1 seat.old.me.0, seat.old.me.1) }
    {
        self.table
            .shared
            .fetch_add::<CountSent>(seat, word_index(id, WAITING), 1);
    }

    /// Takes back what `note_sent` counted, since the queue refused the envelope (this project's own profile).
    pub fn note_unsent(&self, pass: &mut Pass<H>, id: ActorId)
        requires same_gates { pass_id pass.old ≡ gates_id self.now }
        requires present { id.0 < actors_of self.now }
        requires sending { IsTrue (obligation_to id.0 (pass_view pass.old)).sending }
        ensures same_gates { pass_id pass.new ≡ pass_id pass.old }
        ensures known { pass_view pass.new ≡ unsending id.0 1 (pass_view pass.old) }
    {
        self.count_back(&mut pass.seat, id);
    }

    fn count_back(&self, seat: &mut Seat<Slot<H>, SeatView>, id: ActorId)
        requires same_gates { seat.old.table_id ≡ gates_id self.now }
        requires present { id.0 < actors_of self.now }
        requires share { is_some_item seat.old.me.0.share ≡ true }
        ensures same_gates { seat.new.table_id ≡ seat.old.table_id }
        ensures known { seat.new.me ≡ (unsending id.0 1 seat.old.me.0, seat.old.me.1) }
    {
        self.table
            .shared
            .fetch_sub::<UncountSent>(seat, word_index(id, WAITING), 1);
    }

    /// Counts an envelope of the claim's actor as taken (this project's own profile).
    pub fn note_taken(&self, claim: &mut Claim<H>)
        requires same_gates { claim_id claim.old ≡ gates_id self.now }
        requires present { held_actor claim.old < actors_of self.now }
        ensures same_gates { claim_id claim.new ≡ claim_id claim.old }
        ensures known { claim_view claim.new ≡ counting_off (held_actor claim.old) 1 (claim_view claim.old) }
        ensures actor { held_actor claim.new ≡ held_actor claim.old }
        ensures same { (status_of claim.new ≡ status_of claim.old) × (claim.new.home ≡ claim.old.home) }
        ensures taken { SameTaken claim.old claim.new }
    {
        self.count_off(&mut claim.seat, claim.actor);
    }

    fn count_off(&self, seat: &mut Seat<Slot<H>, SeatView>, id: ActorId)
        requires same_gates { seat.old.table_id ≡ gates_id self.now }
        requires present { id.0 < actors_of self.now }
        requires holder { HasClaim id.0 seat.old.me }
        ensures same_gates { seat.new.table_id ≡ seat.old.table_id }
        ensures known { seat.new.me ≡ (counting_off id.0 1 seat.old.me.0, seat.old.me.1) }
    {
        self.table
            .shared
            .fetch_sub::<CountTaken>(seat, word_index(id, WAITING), 1);
    }
}
