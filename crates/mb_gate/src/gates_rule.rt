//! The rule of the gates' table, and its steps: each says what the seat that makes it knows afterwards.
ghost use Rattle.mb_ghost.specs.Ruled.{Ruled};
ghost use Rattle.mb_gate.specs.View.{alone, blank, claim_alone, without_claim, copied, halving, split_off, taking_over, taking_in};
ghost use Rattle.mb_gate.specs.Rule.{word_offset, slot_offset, Fact};
ghost use Rattle.mb_gate.specs.TableSteps.{Reads, ReadsHeld, Writes, CountsSent, UncountsSent, CountsTaken, ReadsWaiting, ReadsGate};
ghost use Rattle.mb_gate.specs.TableSteps.{LocksList, Enlists, Refuses, Drains, Ends, ChecksDrained, Schedules, Idles};

use crate::gates_key::GatesKey;
use crate::mailbox_state::MailboxState;
use crate::seat_view::SeatView;
use crate::slot::Slot;
use atomic_table::{Join, Play, Split, TableRule};
use std::marker::PhantomData;

/// The rule of the gates' table (this project's own profile, as are its steps; the steps of a mailbox are in
/// `akka.dispatch.Mailbox`).
pub struct GatesRule<H> {
    resident: PhantomData<H>,
}

impl<H: MailboxState> TableRule<Slot<H>, SeatView, GatesKey<H>> for GatesRule<H> {
    ghost holds = { λ key. Ruled word_offset slot_offset key.actors
        (Fact (H.is_of key.first.value) H.facts key.actors) };

    ghost first = { λ _. alone };
}

/// A load of a status word. The seat knows what it found: the closed word, if it had seen the actor closed.
pub struct Read;

impl<H> Play<Slot<H>, SeatView> for Read {
    ghost then = { Reads };
}

/// The holder's load of its actor's status word. It finds the word that the claim knows.
pub struct ReadHeld;

impl<H> Play<Slot<H>, SeatView> for ReadHeld {
    ghost then = { ReadsHeld };
}

/// The holder's store of its actor's status word: it suspends, resumes or closes the mailbox.
pub struct Write;

impl<H> Play<Slot<H>, SeatView> for Write {
    ghost then = { Writes };
}

/// The exchange that schedules an actor. If it wins, the seat has the claim and carries the cell; if it loses, the seat knows
/// the word that it found.
pub struct Schedule;

impl<H: MailboxState> Play<Slot<H>, SeatView> for Schedule {
    ghost then = { Schedules H.is_of H.facts };
}

/// The holder's store that gives the cell back: of the status word or, of a closed actor, of its flag.
pub struct Idle;

impl<H: MailboxState> Play<Slot<H>, SeatView> for Idle {
    ghost then = { Idles H.facts };
}

/// The addition that counts an envelope as waiting, before it is queued.
pub struct CountSent;

impl<H> Play<Slot<H>, SeatView> for CountSent {
    ghost then = { CountsSent };
}

/// The subtraction that takes back what was counted for an envelope that was refused.
pub struct UncountSent;

impl<H> Play<Slot<H>, SeatView> for UncountSent {
    ghost then = { UncountsSent };
}

/// The holder's subtraction for an envelope that it took.
pub struct CountTaken;

impl<H> Play<Slot<H>, SeatView> for CountTaken {
    ghost then = { CountsTaken };
}

/// A load of the waiting count. The seat knows how many it found, and the only seat also that this is what it counted itself.
pub struct ReadWaiting;

impl<H> Play<Slot<H>, SeatView> for ReadWaiting {
    ghost then = { ReadsWaiting };
}

/// A load of a list's gate. The seat knows whether it showed system work.
pub struct ReadGate;

impl<H> Play<Slot<H>, SeatView> for ReadGate {
    ghost then = { ReadsGate };
}

/// The exchange that takes a list out by its gate. If it wins, the seat carries the list and knows what was listed; if it
/// loses, it knows nothing more.
pub struct LockList;

impl<H> Play<Slot<H>, SeatView> for LockList {
    ghost then = { LocksList };
}

/// The store that puts a list back with one message more, which is the last in it.
pub struct Enlist;

impl<H> Play<Slot<H>, SeatView> for Enlist {
    ghost then = { Enlists };
}

/// The exchange of a gate's word for itself. It shows that a message found the list ended, so that the actor had been held.
pub struct Refuse;

impl<H> Play<Slot<H>, SeatView> for Refuse {
    ghost then = { Refuses };
}

/// The holder's store that puts a list back from which it took out all that was listed.
pub struct Drain;

impl<H> Play<Slot<H>, SeatView> for Drain {
    ghost then = { Drains };
}

/// The holder's store that puts back a list which it emptied and ended for good.
pub struct End;

impl<H> Play<Slot<H>, SeatView> for End {
    ghost then = { Ends };
}

/// The holder's load of its list's gate. Where nothing is listed and the last drain gave nothing, this counts as a drain that
/// gives nothing, else as a look that found work.
pub struct CheckDrained;

impl<H> Play<Slot<H>, SeatView> for CheckDrained {
    ghost then = { ChecksDrained };
}

/// A split after which the claim's seat has the claim alone, and the pass's seat all else.
pub struct SplitClaim;

impl Split<SeatView> for SplitClaim {
    ghost left = { claim_alone };

    ghost right = { without_claim };
}

/// A split after which both know and owe what the one did. The first keeps the account of what it counted.
pub struct SplitCopy;

impl Split<SeatView> for SplitCopy {
    ghost left = { halving };

    ghost right = { copied };
}

/// A split after which the left knows nothing, and the right all that the one did.
pub struct SplitNew;

impl Split<SeatView> for SplitNew {
    ghost left = { split_off };

    ghost right = { halving };
}

/// A join by which a claim's seat takes in a whole pass.
pub struct TakeIn;

impl Join<SeatView> for TakeIn {
    ghost both = { taking_in };

    ghost spent = { blank };
}

/// A join by which a pass takes over what another seat has seen and what it owes.
pub struct TakeOver;

impl Join<SeatView> for TakeOver {
    ghost both = { taking_over };

    ghost spent = { blank };
}
