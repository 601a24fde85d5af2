//! The claim of an actor: the right to run its mailbox.
ghost use Rattle.std.specs.Prelude.{◌≡◌, [], ◌∷◌, None, Some, true};
ghost use Rattle.mb_status.specs.Mailbox.{word_of};
ghost use Rattle.mb_ghost.specs.Layout.{slot_at};
ghost use Rattle.mb_gate.specs.Claims.{held_in, is_busy};
ghost use Rattle.mb_gate.specs.declared.slot.Slot.TheVariants.{Empty};

use crate::seat_view::SeatView;
use crate::sent_system_log::SentSystemLog;
use crate::slot::Slot;
use atomic_table::Seat;
use mb_msg::ActorId;
use mb_status::Status;

/// The one claim of an actor that is scheduled: its cell, and what is kept beside it. It has to be given back
/// (`Gates::release`): nobody can drop it. One that is as it was taken may go into a run queue (`PooledClaim`).
/// (This project's own profile: `akka.dispatch.Dispatcher.registerForExecution` hands the mailbox itself to an executor.)
pub struct Claim<H> {
    /// The cell, and what is kept beside it.
    pub home: H,
    /// The actor that the claim is of.
    pub(crate) actor: ActorId,
    /// The actor's status, as its word says.
    pub(crate) status: Status,
    /// The seat at the gates' table that has the cell out.
    pub(crate) seat: Seat<Slot<H>, SeatView>,
    /// The system messages that were sent in its run, for proofs alone.
    pub(crate) sent_log: SentSystemLog,
    ghost has: { seat.me.0.claim ≡ Some (held_in seat.me.0) },
    ghost of: { (held_in seat.me.0).actor ≡ actor.0 },
    ghost word: { (held_in seat.me.0).word ≡ word_of status },
    ghost busy: { is_busy (word_of status) ≡ true },
    ghost no_list: { seat.me.0.list ≡ None },
    ghost carries: { seat.me.1 ≡ (slot_at actor.0 0, Empty) ∷ [] },
}

impl<H> Claim<H> {
    /// The actor that the claim is of (`akka.dispatch.Mailbox.actor`).
    pub fn actor(&self) -> ActorId
        ensures { result.0 ≡ self.now.actor.0 }
    {
        self.actor
    }

    /// The actor's status, which no other seat changes (`akka.dispatch.Mailbox.currentStatus`).
    pub fn status(&self) -> Status
        ensures { result ≡ self.now.status }
    {
        self.status
    }
}
