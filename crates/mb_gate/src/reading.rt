//! The loads: of a status, of a waiting count, and of a list's gate.
ghost use Rattle.std.specs.Prelude.{◌≡◌, ◌<◌};
ghost use Rattle.mb_status.specs.Mailbox.{word_of};
ghost use Rattle.mb_gate.specs.View.{reading, counting, looking};
ghost use Rattle.mb_gate.specs.ClaimCounts.{IsOwnBalance};
ghost use Rattle.mb_gate.specs.TableSteps.{StaysClosed};
ghost use Rattle.mb_gate.specs.Accessors.{gates_id, pass_id, claim_id, actors_of, pass_view, claim_view, held_actor, status_of};

use crate::claim::Claim;
use crate::gates::Gates;
use crate::gates_rule::{Read, ReadGate, ReadWaiting};
use crate::layout::{GATE, STATUS, WAITING, word_index};
use crate::list_word::ListWord;
use crate::mailbox_state::MailboxState;
use crate::pass::Pass;
use crate::seat_view::SeatView;
use crate::slot::Slot;
use atomic_table::Seat;
use mb_msg::ActorId;
use mb_status::Status;

impl<H: MailboxState> Gates<H> {
    /// How many actors there are (this project's own profile).
    pub fn actors(&self) -> usize
        ensures { result ≡ actors_of self.now }
    {
        self.actors
    }

    /// Reads the actor's status (`Mailbox.currentStatus`).
    ///
    /// It answers closed where the pass has seen the actor closed.
    pub fn status(&self, pass: &mut Pass<H>, id: ActorId) -> Status
        requires same_gates { pass_id pass.old ≡ gates_id self.now }
        requires present { id.0 < actors_of self.now }
        ensures same_gates { pass_id pass.new ≡ pass_id pass.old }
        ensures known { pass_view pass.new ≡ reading id.0 (word_of result) (pass_view pass.old) }
        ensures closed { StaysClosed id.0 (word_of result) (pass_view pass.old) }
    {
        self.read(&mut pass.seat, id)
    }

    fn read(&self, seat: &mut Seat<Slot<H>, SeatView>, id: ActorId) -> Status
        requires same_gates { seat.old.table_id ≡ gates_id self.now }
        requires present { id.0 < actors_of self.now }
        ensures same_gates { seat.new.table_id ≡ seat.old.table_id }
        ensures known { seat.new.me ≡ (reading id.0 (word_of result) seat.old.me.0, seat.old.me.1) }
        ensures closed { StaysClosed id.0 (word_of result) seat.old.me.0 }
    {
        let word = self.table.shared.load::<Read>(seat, word_index(id, STATUS));
        Status::from_word(word)
    }

    /// Reads how many envelopes are counted as waiting, modulo 2^64 (this project's own profile: Akka asks the queue). A pass
    /// that has taken in all others reads what it counted as sent less what it took back and counted as taken, where no claim
    /// of the actor is out.
    pub fn waiting(&self, pass: &mut Pass<H>, id: ActorId) -> u64
        requires same_gates { pass_id pass.old ≡ gates_id self.now }
        requires present { id.0 < actors_of self.now }
        ensures same_gates { pass_id pass.new ≡ pass_id pass.old }
        ensures known { pass_view pass.new ≡ counting id.0 result (pass_view pass.old) }
        ensures own_balance { IsOwnBalance id.0 result (pass_view pass.old) }
    {
        self.count(&mut pass.seat, id)
    }

    fn count(&self, seat: &mut Seat<Slot<H>, SeatView>, id: ActorId) -> u64
        requires same_gates { seat.old.table_id ≡ gates_id self.now }
        requires present { id.0 < actors_of self.now }
        ensures same_gates { seat.new.table_id ≡ seat.old.table_id }
        ensures known { seat.new.me ≡ (counting id.0 result seat.old.me.0, seat.old.me.1) }
        ensures own_balance { IsOwnBalance id.0 result seat.old.me.0 }
    {
        self.table
            .shared
            .load::<ReadWaiting>(seat, word_index(id, WAITING))
    }

    /// Whether something is listed, or the last drain gave something, which may lie beside the cell still
    /// (`hasSystemMessages`). One load.
    pub fn has_system(&self, pass: &mut Pass<H>, id: ActorId) -> bool
        requires same_gates { pass_id pass.old ≡ gates_id self.now }
        requires present { id.0 < actors_of self.now }
        ensures same_gates { pass_id pass.new ≡ pass_id pass.old }
        ensures known { pass_view pass.new ≡ looking id.0 result (pass_view pass.old) }
    {
        self.look(&mut pass.seat, id)
    }

    fn look(&self, seat: &mut Seat<Slot<H>, SeatView>, id: ActorId) -> bool
        requires same_gates { seat.old.table_id ≡ gates_id self.now }
        requires present { id.0 < actors_of self.now }
        ensures same_gates { seat.new.table_id ≡ seat.old.table_id }
        ensures known { seat.new.me ≡ (looking id.0 result seat.old.me.0, seat.old.me.1) }
    {
        let bits = self
            .table
            .shared
            .load::<ReadGate>(seat, word_index(id, GATE));
        ListWord::of(bits).shows_work()
    }
}
