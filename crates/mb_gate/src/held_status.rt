//! The load of a status by who holds the actor.
ghost use Rattle.std.specs.Prelude.{◌≡◌, ◌<◌};
ghost use Rattle.mb_status.specs.Mailbox.{word_of};
ghost use Rattle.mb_gate.specs.View.{reading_held};
ghost use Rattle.mb_gate.specs.Claims.{held_in};
ghost use Rattle.mb_gate.specs.Lists.{HasClaim};
ghost use Rattle.mb_gate.specs.Accessors.{gates_id, claim_id, actors_of, claim_view, held_actor, status_of, SameTaken};

use crate::claim::Claim;
use crate::gates::Gates;
use crate::gates_rule::ReadHeld;
use crate::layout::{STATUS, word_index};
use crate::mailbox_state::MailboxState;
use crate::seat_view::SeatView;
use crate::slot::Slot;
use atomic_table::Seat;
use mb_msg::ActorId;
use mb_status::Status;

impl<H: MailboxState> Gates<H> {
    /// Loads the status of the claim's actor (`Mailbox.currentStatus`, as `Mailbox.shouldProcessMessage` reads it). It is the
    /// one that the claim knows, since no other seat changes it; the load stands in what the claim saw.
    #[inline]
    pub fn held_status(&self, claim: &mut Claim<H>) -> Status
        requires same_gates { claim_id claim.old ≡ gates_id self.now }
        requires present { held_actor claim.old < actors_of self.now }
        ensures same_gates { (claim_id claim.new ≡ claim_id claim.old) × (held_actor claim.new ≡ held_actor claim.old) }
        ensures status { result ≡ status_of claim.old }
        ensures known { claim_view claim.new ≡ reading_held (held_actor claim.old) (word_of result) (claim_view claim.old) }
        ensures same { (status_of claim.new ≡ status_of claim.old) × (claim.new.home ≡ claim.old.home) }
        ensures taken { SameTaken claim.old claim.new }
    {
        let word = self.read_held(&mut claim.seat, claim.actor);
        prove!(word == claim.status.word());
        Status::from_word(word)
    }

    fn read_held(&self, seat: &mut Seat<Slot<H>, SeatView>, id: ActorId) -> u64
        requires same_gates { seat.old.table_id ≡ gates_id self.now }
        requires present { id.0 < actors_of self.now }
        requires holder { HasClaim id.0 seat.old.me }
        ensures same_gates { seat.new.table_id ≡ seat.old.table_id }
        ensures word { result ≡ (held_in seat.old.me.0).word }
        ensures known { seat.new.me ≡ (reading_held id.0 result seat.old.me.0, seat.old.me.1) }
    {
        self.table
            .shared
            .load::<ReadHeld>(seat, word_index(id, STATUS))
    }
}
