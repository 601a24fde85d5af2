//! Two claims at hand are of two actors.
ghost use Rattle.std.specs.Prelude.{◌≡◌, ◌≢◌, ◌<◌};
ghost use Rattle.mb_gate.specs.View.{blank};
ghost use Rattle.mb_gate.specs.TwoClaims.{moved_out, moved_in, twice_claimed, NeverHappens};
ghost use Rattle.mb_gate.specs.Accessors.{gates_id, claim_id, actors_of, held_actor};

use crate::claim::Claim;
use crate::gates::Gates;
use crate::layout::{STATUS, word_index};
use crate::mailbox_state::MailboxState;
use crate::seat_view::SeatView;
use crate::slot::Slot;
use atomic_table::{Join, Play, Split};

/// A split after which another seat has the whole view.
pub struct MoveView;

impl Split<SeatView> for MoveView {
    ghost left = { moved_out };

    ghost right = { moved_in };
}

/// A join of two claims of one actor, which no state allows.
pub struct JoinClaims;

impl Join<SeatView> for JoinClaims {
    ghost both = { twice_claimed };

    ghost spent = { blank };
}

/// A load that no state allows.
pub struct Refute;

impl<H> Play<Slot<H>, SeatView> for Refute {
    ghost then = { NeverHappens };
}

impl<H: MailboxState> Gates<H> {
    /// Tells that two claims at hand are of two actors, since at most one worker holds an actor. Both come back as they were
    /// (this project's own profile). It takes no step, but compares the two numbers.
    pub fn tell_apart(&self, one: Claim<H>, other: Claim<H>) -> (Claim<H>, Claim<H>)
        requires same_gates { (claim_id one ≡ gates_id self.now) × (claim_id other ≡ gates_id self.now) }
        requires present { held_actor one < actors_of self.now }
        ensures two { held_actor one ≢ held_actor other }
        ensures same { (result.0 ≡ one) × (result.1 ≡ other) }
    {
        if one.actor.0 == other.actor.0 {
            self.refute(one, other);
            unreachable!();
        }
        (one, other)
    }

    // What two claims of one actor lead to, which is why there are no two. The second claim's view goes to a seat that has
    // nothing out, and this seat is joined with the first. The rule has one holder of each actor, so that no state allows the
    // join, nor a load after it.
    fn refute(&self, one: Claim<H>, other: Claim<H>)
        requires same_gates { (claim_id one ≡ gates_id self.now) × (claim_id other ≡ gates_id self.now) }
        requires present { held_actor one < actors_of self.now }
        requires same_actor { held_actor one ≡ held_actor other }
        ensures never { ⊥ }
    {
        let Claim {
            home: _,
            actor,
            status: _,
            mut seat,
            sent_log: _,
        } = one;
        let Claim {
            home: _,
            actor: _,
            status: _,
            seat: mut second,
            sent_log: _,
        } = other;
        let whole = self.table.shared.split_seat::<MoveView>(&mut second);
        self.table.shared.join_seat::<JoinClaims>(&mut seat, whole);
        let index = word_index(actor, STATUS);
        self.table.shared.load::<Refute>(&mut seat, index);
    }
}
