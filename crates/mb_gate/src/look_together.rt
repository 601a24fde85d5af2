//! A look by two passes together, and whether an actor's claim is out.
ghost use Rattle.std.specs.Prelude.{◌≡◌, ◌<◌, ℕ, [], None, true};
ghost use Rattle.mb_status.specs.Mailbox.{Mailbox, mailbox_of};
ghost use Rattle.mb_gate.specs.View.{View, blank};
ghost use Rattle.mb_gate.specs.Rule.{is_some_item};
ghost use Rattle.mb_gate.specs.Together.{together, came_back, NoClaimIsOut, ShowsOwnClaim, ReadsOwnClaim, ReadsFlag};
ghost use Rattle.mb_gate.specs.Looks.{MayLook, LeavesPass, HasLooked};
ghost use Rattle.mb_gate.specs.Accessors.{gates_id, pass_id, actors_of, pass_view};

use crate::exclusive::MoveView;
use crate::gates::Gates;
use crate::layout::{FLAG, STATUS, word_index};
use crate::mailbox_state::MailboxState;
use crate::pass::Pass;
use crate::seat_view::SeatView;
use crate::slot::Slot;
use atomic_table::{Join, Play, Seat, Split};
use mb_msg::ActorId;
use mb_status::Status;
use std::marker::{Brand, PhantomData};
use std::snapshot::Snapshot;

/// A join after which one seat has all that two had, with what each of them sent.
pub struct JoinBoth;

impl Join<SeatView> for JoinBoth {
    ghost both = { together };

    ghost spent = { blank };
}

/// What two seats knew before one of them had all of it. The caller chooses it.
pub trait Halves {
    // what the first knew
    ghost first: { View };

    // what the second knew
    ghost second: { View };
}

impl Halves for Brand {
    ghost first = { blank };

    ghost second = { blank };
}

/// A split after which each of two seats has what it had before one of them had all of it.
pub struct Undo<S>(PhantomData<S>);

impl<S: Halves> Split<SeatView> for Undo<S> {
    ghost left = { λ _. S.first };

    ghost right = { λ _. S.second };
}

/// A join by which a seat that knows nothing has another's view.
pub struct ComeBack;

impl Join<SeatView> for ComeBack {
    ghost both = { came_back };

    ghost spent = { blank };
}

/// A load of a status word that leaves what the seat knows as it was. The only pass learns whether a claim of an open actor is out.
pub struct ReadOwnClaim;

impl<H> Play<Slot<H>, SeatView> for ReadOwnClaim {
    ghost then = { ReadsOwnClaim };
}

/// A load of the flag of a closed actor that leaves what the seat knows as it was. The only pass learns that no claim is out, where it
/// is set.
pub struct ReadFlag;

impl<H> Play<Slot<H>, SeatView> for ReadFlag {
    ghost then = { ReadsFlag };
}

impl<H: MailboxState> Gates<H> {
    /// Calls this with a pass that has all that the two know and owe, and gives its answer. Afterwards both are as they were (this
    /// project's own profile).
    pub fn look_together<F: FnMut(&mut Pass<H>) -> bool>(
        &self,
        pass: &mut Pass<H>,
        other: &mut Pass<H>,
        look: &mut F,
    ) -> bool
        requires same_gates { (pass_id pass.old ≡ gates_id self.now) × (pass_id other.old ≡ gates_id self.now) }
        requires may { MayLook F.FnMut look.old (gates_id self.now) (together (pass_view pass.old) (pass_view other.old)) }
        requires leaves { LeavesPass F.FnMut look.old }
        ensures same { (pass.new ≡ pass.old) × (other.new ≡ other.old) }
        ensures looked { HasLooked F.FnMut look.old (gates_id self.now) (together (pass_view pass.old) (pass_view other.old)) result look.new }
    {
        let first = Snapshot::of(pass);
        let second = Snapshot::of(other);
        let view = self.table.shared.split_seat::<MoveView>(&mut other.seat);
        self.table
            .shared
            .join_seat::<JoinBoth>(&mut pass.seat, view);
        let answer = look(pass);
        let view = self.part::<Brand>(&mut pass.seat, &first, &second);
        self.table
            .shared
            .join_seat::<ComeBack>(&mut other.seat, view);
        answer
    }

    // A seat that has all that two had has what the first had, and another what the second had.
    fn part<S: Halves>(
        &self,
        seat: &mut Seat<Slot<H>, SeatView>,
        first: &Snapshot<Pass<H>>,
        second: &Snapshot<Pass<H>>,
    ) -> Seat<Slot<H>, SeatView>
        requires same_gates { seat.old.table_id ≡ gates_id self.now }
        requires first { S.first ≡ pass_view first.now.value }
        requires second { S.second ≡ pass_view second.now.value }
        requires known { seat.old.me.0 ≡ together (pass_view first.now.value) (pass_view second.now.value) }
        ensures same_gates { (seat.new.table_id ≡ seat.old.table_id) × (seat.new.id ≡ seat.old.id) × (result.table_id ≡ seat.old.table_id) }
        ensures known { (seat.new.me ≡ (pass_view first.now.value, seat.old.me.1)) × (result.me ≡ (pass_view second.now.value, [])) }
    {
        self.table.shared.split_seat::<Undo<S>>(seat)
    }

    /// Whether no claim of the actor is out: it is not scheduled and, if it is closed, its cell was given back for good. What it
    /// answers is known of a pass that has taken in all others, or looks with all others together (this project's own profile).
    pub fn is_given_back(&self, pass: &mut Pass<H>, id: ActorId) -> bool
        requires same_gates { pass_id pass.old ≡ gates_id self.now }
        requires present { id.0 < actors_of self.now }
        ensures same { pass.new ≡ pass.old }
        ensures back { result ≡ true → NoClaimIsOut id.0 (pass_view pass.old) }
    {
        let status = self.own_claim(&mut pass.seat, id);
        if status.closed() {
            return self.flag(&mut pass.seat, id) == 1;
        }
        !status.scheduled()
    }

    fn own_claim(&self, seat: &mut Seat<Slot<H>, SeatView>, id: ActorId) -> Status
        requires same_gates { seat.old.table_id ≡ gates_id self.now }
        requires present { id.0 < actors_of self.now }
        ensures same { seat.new ≡ seat.old }
        ensures own_claim { ShowsOwnClaim id.0 result seat.old.me.0 }
    {
        let word = self
            .table
            .shared
            .load::<ReadOwnClaim>(seat, word_index(id, STATUS));
        Status::from_word(word)
    }

    fn flag(&self, seat: &mut Seat<Slot<H>, SeatView>, id: ActorId) -> u64
        requires same_gates { seat.old.table_id ≡ gates_id self.now }
        requires present { id.0 < actors_of self.now }
        ensures same { seat.new ≡ seat.old }
        ensures back { result ≡ 1 → NoClaimIsOut id.0 seat.old.me.0 }
    {
        self.table
            .shared
            .load::<ReadFlag>(seat, word_index(id, FLAG))
    }

    /// Whether no claim of any actor is out, as `is_given_back` tells of each.
    pub fn are_given_back(&self, pass: &mut Pass<H>) -> bool
        requires same_gates { pass_id pass.old ≡ gates_id self.now }
        ensures same { pass.new ≡ pass.old }
        ensures back { result ≡ true → (id : ℕ) → id < actors_of self.now → NoClaimIsOut id (pass_view pass.old) }
    {
        for number in 0..self.actors {
            if !self.is_given_back(pass, ActorId(number as u16)) {
                return false;
            }
        }
        true
    }
}
