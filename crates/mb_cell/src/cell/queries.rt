//! The questions about a cell that decide which rule a message follows.

ghost use Rattle.std.specs.Prelude.{◌≡◌, false, IsTrue};
ghost use Rattle.mb_actor.specs.ActorList.{has as holds};
ghost use Rattle.mb_actor.specs.declared.phase.Phase.TheVariants.{Fresh, Live, Broken, Ending};
ghost use Rattle.mb_journal.specs.Aside.{sets_aside};
ghost use Rattle.mb_journal.specs.Identity.{is_guardian as is_the_guardian};
ghost use Rattle.mb_journal.specs.Lawful.{was_live as was_live_at};
ghost use Rattle.mb_journal.specs.Life.{phase as phase_of, children, is_empty, is_alone};
ghost use Rattle.mb_journal.specs.Phase.{phase_is};

use crate::cell::Cell;
use mb_actor::{Actor, Behaviours, Phase};
use mb_msg::{ActorId, SysMsg};

impl<A: Actor, K: Behaviours> Cell<A, K> {
    pub(super) fn is_guardian(&self) -> bool
        ensures { result ≡ is_the_guardian self.now.who }
    {
        self.place.parent.is_none()
    }

    /// Whether the actor was not started yet.
    pub(super) fn is_fresh(&self) -> bool
        ensures { result ≡ phase_is (phase_of self.now.who self.now.journal) Fresh }
    {
        matches!(self.cell_state.phase(), Phase::Fresh)
    }

    /// Whether the actor was started and handles messages.
    pub(super) fn is_live(&self) -> bool
        ensures { result ≡ phase_is (phase_of self.now.who self.now.journal) Live }
    {
        matches!(self.cell_state.phase(), Phase::Live)
    }

    /// Whether the last start or restart of the actor failed; the guardian has none that can fail.
    pub(super) fn is_broken(&self) -> bool
        ensures value { result ≡ phase_is (phase_of self.now.who self.now.journal) Broken }
        ensures an_actor { IsTrue result → is_the_guardian self.now.who ≡ false }
    {
        matches!(self.cell_state.phase(), Phase::Broken)
    }

    /// Whether the actor waits for the end of its children.
    pub(super) fn is_ending(&self) -> bool
        ensures { result ≡ phase_is (phase_of self.now.who self.now.journal) Ending }
    {
        matches!(self.cell_state.phase(), Phase::Ending)
    }

    /// Whether the actor was Live when it was told to end.
    pub(super) fn was_live(&self) -> bool
        ensures { result ≡ was_live_at self.now.who self.now.journal }
    {
        self.cell_state.was_live()
    }

    pub(super) fn is_childless(&self) -> bool
        ensures { result ≡ is_empty (children self.now.who self.now.journal) }
    {
        self.cell_state.is_childless()
    }

    /// Whether this is a child of the actor.
    pub(super) fn has_child(&self, id: ActorId) -> bool
        ensures { result ≡ holds (children self.now.who self.now.journal) id }
    {
        self.cell_state.has_child(id)
    }

    /// Whether this is the one child that is left to the actor.
    pub(super) fn is_last_child(&self, id: ActorId) -> bool
        ensures { result ≡ is_alone (children self.now.who self.now.journal) id }
    {
        self.cell_state.is_last_child(id)
    }

    /// Whether a message that comes now is set aside.
    pub(super) fn waits(&self, message: SysMsg) -> bool
        ensures { result ≡ sets_aside self.now.who self.now.journal message }
    {
        match message {
            SysMsg::Failed(_, _) => self.is_ending() || (!self.is_fresh() && self.count() > 0),
            SysMsg::Recreate(_) | SysMsg::Suspend | SysMsg::Resume { .. } => self.is_ending(),
            SysMsg::Create
            | SysMsg::Terminate
            | SysMsg::Watch(_)
            | SysMsg::Unwatch(_)
            | SysMsg::Died(_) => false,
        }
    }
}
