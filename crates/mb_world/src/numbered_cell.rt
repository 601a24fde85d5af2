//! A cell with the number of its next system message.
ghost use Rattle.std.specs.Prelude.{◌≡◌, ◌==◌, ◌+◌, ◌^◌, if◌then◌else◌, ◌<◌, ◌≤◌, [], false, length, IsTrue, IfNone, OnOk, OnSome};
ghost use Rattle.mb_msg.specs.Limits.{most_entries};
ghost use Rattle.mb_actor.specs.declared.phase.Phase.TheVariants.{Live};
ghost use Rattle.mb_journal.specs.Aside.{next_number as next_number_of};
ghost use Rattle.mb_journal.specs.Identity.{is_guardian as is_the_guardian};
ghost use Rattle.mb_journal.specs.Lawful.{IsLawful, IsNumbered};
ghost use Rattle.mb_journal.specs.Life.{closed, phase as phase_of};
ghost use Rattle.mb_journal.specs.Suspension.{count as count_of};
ghost use Rattle.mb_cell.specs.CellView.{TakesSystem, TakesEnvelope};
ghost use Rattle.mb_world.specs.Numbered.{HasRoom};

use mb_actor::{Actor, Behaviours, Phase};
use mb_cell::{Act, Cell, CellParts};
use mb_journal::ReadyError;
use mb_msg::{ActorId, Envelope, SysMsg};
use mb_status::Status;
use mb_syslist::Node;
use std::marker::Model;

/// The status of a mailbox that is neither closed nor scheduled nor suspended.
const OPEN: u64 = 0;

/// The cell of an actor, with the number of its next new system message.
#[derive(Drop)]
pub(crate) struct NumberedCell<A: Actor, K: Behaviours> {
    cell: Cell<A, K>,
    next: u64,
    /// How many messages were set aside when the actor ended.
    aside_dead: u64,
}

impl<A: Actor, K: Behaviours> Model for NumberedCell<A, K> {
    ghost use Rattle.std.specs.Prelude.{◌≡◌, ◌≤◌};
    ghost use Rattle.mb_msg.specs.Limits.{most_entries};
    ghost use Rattle.mb_journal.specs.Aside.{next_number};
    ghost use Rattle.mb_cell.specs.CellView.{CellView};

    ghost Value = { CellView };

    ghost view = { λ n. n.cell };

    ghost invariant = { λ n. (n.next ≡ next_number n.cell.journal) × (n.cell.who.limit ≤ most_entries) };
}

impl<A: Actor, K: Behaviours> NumberedCell<A, K> {
    /// A cell to which nothing came yet.
    #[tactic(auto, unfolding(mb_journal::specs::Aside::next_number))]
    pub(crate) fn new(cell: Cell<A, K>) -> Self
        requires fresh { cell.journal ≡ [] }
        requires limit { cell.who.limit ≤ most_entries }
        ensures { result ≡ cell }
    {
        NumberedCell {
            cell,
            next: 0,
            aside_dead: 0,
        }
    }

    /// The cell.
    pub(crate) fn cell(&self) -> &Cell<A, K>
        ensures { result.now ≡ self.now }
    {
        &self.cell
    }

    /// Makes room for one message (`Cell::ready`).
    pub(crate) fn ready(&mut self) -> Result<(), ReadyError>
        ensures room { OnOk result (HasRoom self.new) }
        ensures same { self.new ≡ record self.old { is_ready = self.new.is_ready } }
    {
        self.cell.ready()
    }

    /// Whether the actor has ended.
    pub(crate) fn is_closed(&self) -> bool
        ensures { result ≡ closed self.now.who self.now.journal }
    {
        matches!(self.cell.phase(), Phase::Ended)
    }

    /// Whether the actor's mailbox is suspended.
    pub(crate) fn is_suspended(&self) -> bool {
        self.cell.count() > 0
    }

    /// Whether envelopes may be handled (`Mailbox.shouldProcessMessage`).
    pub(crate) fn should_process(&self) -> bool
        ensures live { IsTrue result → phase_of self.now.who self.now.journal ≡ Live }
        ensures resumed { IsTrue result → count_of self.now.who self.now.journal ≡ 0 }
    {
        matches!(self.cell.phase(), Phase::Live) && self.cell.count() == 0
    }

    /// Whether it is the guardian's cell, which has no actor.
    pub(crate) fn is_guardian(&self) -> bool
        ensures { result ≡ is_the_guardian self.now.who }
    {
        self.cell.parent().is_none()
    }

    /// The number of the next new system message.
    pub(crate) fn next_number(&self) -> u64
        ensures { result ≡ next_number_of self.now.journal }
    {
        self.next
    }

    /// Gives the cell a system message: the next new one, or the one that was set aside and is due before all others.
    pub(crate) fn apply(&mut self, number: u64, message: SysMsg)
        requires room { HasRoom self.old }
        requires carried_out { self.old.acts ≡ [] }
        requires not_ended { closed self.old.who self.old.journal ≡ false }
        requires numbered { IsNumbered self.old.who self.old.journal number message }
        ensures { TakesSystem self.old self.new number message }
    {
        let aside = self.cell.aside().len() as u64;
        self.cell.apply_system(number, message);
        self.aside_dead = dead_aside(self.cell.phase(), aside, self.aside_dead);
        self.next = next_after(self.next, number);
    }

    /// Gives the cell an envelope.
    pub(crate) fn handle(&mut self, envelope: Envelope)
        requires room { HasRoom self.old }
        requires carried_out { self.old.acts ≡ [] }
        requires an_actor { is_the_guardian self.old.who ≡ false }
        requires addressed { envelope.to ≡ self.old.who.this }
        requires live { phase_of self.old.who self.old.journal ≡ Live }
        requires resumed { count_of self.old.who self.old.journal ≡ 0 }
        ensures { TakesEnvelope self.old self.new envelope 0 }
    {
        self.cell.apply_envelope(Status::from_word(OPEN), envelope);
    }

    /// Takes out the earliest act of the last message that is still to be carried out.
    pub(crate) fn next_act(&mut self) -> Option<Act>
        ensures fewer { OnSome result (length self.new.acts < length self.old.acts) }
        ensures none { IfNone result (self.new ≡ record self.old { acts = [] }) }
        ensures rest { self.new ≡ record self.old { acts = self.new.acts } }
    {
        self.cell.next_act()
    }

    /// Keeps the node of an act that was carried out.
    pub(crate) fn keep_node(&mut self, node: Node)
        ensures { self.new ≡ self.old }
    {
        self.cell.keep_node(node);
    }

    /// The cell's journal and what is set aside, and how many messages were set aside when the actor ended.
    pub(crate) fn into_parts(self) -> (CellParts, u64)
        ensures journal { result.0.journal.entries ≡ self.journal }
        ensures lawful { IsLawful self.who (K.gives self.who.this.0) self.journal }
    {
        let NumberedCell {
            cell,
            next: _,
            aside_dead,
        } = self;
        (cell.into_parts(), aside_dead)
    }
}

/// How many messages that were set aside are dead: these, if the actor ended, else as many as before.
fn dead_aside(phase: Phase, aside: u64, before: u64) -> u64 {
    match phase {
        Phase::Ended => aside,
        Phase::Fresh | Phase::Live | Phase::Broken | Phase::Ending => before,
    }
}

/// The number of the next new system message after one of this number, where it was `next` before.
fn next_after(next: u64, number: u64) -> u64
    requires { next < 2 ^ 63 }
    ensures { result ≡ (if number == next then number + 1 else next) }
{
    if number == next { number + 1 } else { next }
}
