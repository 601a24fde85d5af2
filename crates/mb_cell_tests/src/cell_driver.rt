//! Driving a cell: it is given messages one by one, and what it makes of each is compared with a table.

ghost use Rattle.std.specs.Prelude.{◌≡◌, ◌<◌, ◌≤◌, [], true, length};
ghost use Rattle.std.specs.List.{All};
ghost use Rattle.mb_msg.specs.Limits.{most_actors};
ghost use Rattle.mb_actor.specs.Behaviour.{AllowsSame};

use crate::seen::{Given, are_aside, is_act, is_entry, is_numbered, is_standing};
use crate::words::{body_of, system_of};
use mb_actor::{Actor, Behaviours, Phase};
use mb_cell::Cell;
use mb_journal::{Journal, ReadyError};
use mb_msg::{ActorId, Body, Envelope, JournalMode, SenderId, Strategy, SysMsg};
use mb_status::Status;
use std::alloc::{AllocError, Global};
use std::marker::Model;
use std::process::Abort;

/// A cell, with the number of the next system message.
#[derive(Drop)]
pub(crate) struct CellDriver<A: Actor, K: Behaviours> {
    cell: Cell<A, K>,
    next: u64,
    this: u16,
    is_guardian: bool,
    was_refused: bool,
}

impl<A: Actor, K: Behaviours> Model for CellDriver<A, K> {
    ghost use Rattle.std.specs.Prelude.{◌≡◌};
    ghost use Rattle.mb_journal.specs.Aside.{next_number};
    ghost use Rattle.mb_cell.specs.CellView.{CellView};

    ghost Value = { CellView };

    ghost view = { λ s. s.cell };

    ghost use Rattle.mb_journal.specs.Identity.{is_guardian as is_the_guardian};

    ghost invariant = { λ s.
        (s.next ≡ next_number s.cell.journal) × (s.cell.who.this.0 ≡ s.this)
        × (is_the_guardian s.cell.who ≡ s.is_guardian) };
}

impl<A: Actor, K: Behaviours> CellDriver<A, K> {
    /// The cell of an actor that is not started yet.
    #[tactic(auto, unfolding(mb_journal::specs::Aside::next_number))]
    pub(crate) fn of(
        alloc: Global,
        this: u16,
        parent: u16,
        actor: A,
        prepared: Vec<ActorId>,
        strategy: Strategy,
        mode: JournalMode,
        limit: u32,
    ) -> Result<Self, AllocError>
        requires within_limit { length prepared.items ≤ most_actors }
        requires numbered { All (λ x. x.0 < most_actors) prepared.items }
        requires unused { A.content actor ≡ A.after actor [] }
        requires behaves { A.after actor ≡ K.after this }
        requires allows { AllowsSame (A.gives actor) (K.gives this) }
    {
        let cell = Cell::new(
            alloc,
            ActorId(this),
            64,
            Some(ActorId(parent)),
            Some(actor),
            prepared,
            strategy,
            mode,
            limit as u64,
        )?;
        Ok(CellDriver {
            cell,
            next: 0,
            this,
            is_guardian: false,
            was_refused: false,
        })
    }

    #[tactic(auto, unfolding(mb_journal::specs::Aside::next_number))]
    pub(crate) fn of_guardian(
        alloc: Global,
        prepared: Vec<ActorId>,
        strategy: Strategy,
        mode: JournalMode,
        limit: u32,
    ) -> Result<Self, AllocError>
        requires within_limit { length prepared.items ≤ most_actors }
        requires numbered { All (λ x. x.0 < most_actors) prepared.items }
    {
        let cell = Cell::new(
            alloc,
            ActorId(0),
            64,
            None,
            None,
            prepared,
            strategy,
            mode,
            limit as u64,
        )?;
        Ok(CellDriver {
            cell,
            next: 0,
            this: 0,
            is_guardian: true,
            was_refused: false,
        })
    }

    /// Whether nothing came to the cell yet: its actor is not started, and suspended once.
    pub(crate) fn is_fresh(&self) -> bool {
        matches!(self.cell.phase(), Phase::Fresh) && self.cell.count() == 1
    }

    /// The journal so far.
    pub(crate) fn journal(&self) -> &Journal {
        self.cell.journal()
    }

    /// Whether a `ready` was refused memory so far.
    pub(crate) fn was_refused(&self) -> bool {
        self.was_refused
    }

    /// Gives the cell the message of this case. The answer names what differs from the case, and is empty where nothing
    /// does. Compared are the entry, the acts, the actor's standing, and what is set aside.
    pub(crate) fn other_than<R: Abort>(&mut self, rt: &R, case: &str) -> &'static str {
        let mut columns = case.split(" | ");
        let given = self.give(rt, columns.next().unwrap_or(""));
        if !is_entry(self.cell.journal(), given, columns.next().unwrap_or("")) {
            return "entry";
        }
        if !are_acts(&mut self.cell, columns.next().unwrap_or("")) {
            return "act";
        }
        let (_, phase, count, state) = standing(&self.cell);
        if !is_standing(phase, count, state, columns.next().unwrap_or("")) {
            return "standing";
        }
        if !are_aside(self.cell.aside(), columns.next().unwrap_or("")) || columns.next().is_some() {
            return "message aside";
        }
        ""
    }

    fn give<R: Abort>(&mut self, rt: &R, message: &str) -> Given {
        if self.cell.journal().is_full() {
            return self.refused(rt);
        }
        if let Some(due) = message.strip_prefix("front ") {
            return self.front(rt, due);
        }
        if let Some(body) = body_of(message) {
            return self.envelope(rt, body);
        }
        self.system(rt, system_of(message).expect(rt, "a message"))
    }

    /// Asks for room in a full journal: it is refused, and the journal is as it was.
    fn refused<R: Abort>(&mut self, rt: &R) -> Given {
        let entries = self.cell.journal().len();
        let answer = self.cell.ready();
        assert!(rt; matches!(answer, Err(ReadyError::JournalFull)));
        assert!(rt; self.cell.journal().len() == entries);
        Given::Refused
    }

    /// Gives the cell the next system message.
    fn system<R: Abort>(&mut self, rt: &R, message: SysMsg) -> Given {
        self.was_refused |= make_ready(rt, &mut self.cell);
        assert!(rt; !matches!(self.cell.phase(), Phase::Ended));
        assert!(rt; self.next < 1000);
        let number = self.next;
        self.cell.apply_system(number, message);
        self.next = number + 1;
        Given::System(number, message)
    }

    /// Gives it again the message that is due before all others, which has to be this one.
    fn front<R: Abort>(&mut self, rt: &R, due: &str) -> Given {
        self.was_refused |= make_ready(rt, &mut self.cell);
        assert!(rt; !matches!(self.cell.phase(), Phase::Ended));
        let (number, message) = self.cell.next_front().expect(rt, "a message that waits");
        assert!(rt; is_numbered(number, message, due));
        assert!(rt; number < self.next);
        self.cell.apply_system(number, message);
        Given::System(number, message)
    }

    /// Gives it an envelope with this body.
    fn envelope<R: Abort>(&mut self, rt: &R, body: Body) -> Given {
        self.was_refused |= make_ready(rt, &mut self.cell);
        assert!(rt; matches!(self.cell.phase(), Phase::Live));
        assert!(rt; self.cell.count() == 0);
        assert!(rt; !self.is_guardian);
        let reading = Status::of(0).expect(rt, "a valid word");
        let envelope = Envelope {
            by: SenderId(64),
            number: 0,
            to: ActorId(self.this),
            body,
        };
        self.cell.apply_envelope(reading, envelope);
        Given::Envelope(envelope)
    }
}

/// Makes room for a message, where no act is left of the last. Where memory is refused, the cell is as before, and the
/// same call succeeds when there is memory. Answers whether memory was refused.
fn make_ready<R: Abort, A: Actor, K: Behaviours>(rt: &R, cell: &mut Cell<A, K>) -> bool
    ensures { cell.new ≡ record cell.old { acts = []; is_ready = true } }
{
    assert!(rt; cell.next_act().is_none(), "an act that is left");
    let before = standing(cell);
    if let Err(error) = cell.ready() {
        assert!(rt; matches!(error, ReadyError::NoMemory));
        assert!(rt; standing(cell) == before, "the cell is as before");
        cell.ready().expect(rt, "there is memory again");
        return true;
    }
    false
}

/// How many entries a cell's journal has, and its phase, count of suspensions and content.
fn standing<A: Actor, K: Behaviours>(cell: &Cell<A, K>) -> (usize, Phase, u64, Option<i64>) {
    (
        cell.journal().len(),
        cell.phase(),
        cell.count(),
        cell.state(),
    )
}

/// Whether the cell's acts are these, in order, and no more; `-` is none.
fn are_acts<A: Actor, K: Behaviours>(cell: &mut Cell<A, K>, text: &str) -> bool
    ensures rest { cell.new ≡ record cell.old { acts = cell.new.acts } }
{
    if text == "-" {
        return cell.next_act().is_none();
    }
    let mut items = text.split(", ");
    for _ in 0..1000u32 {
        let Some(act) = cell.next_act() else {
            break;
        };
        if !is_act(act, items.next().unwrap_or("")) {
            return false;
        }
    }
    items.next().is_none()
}
