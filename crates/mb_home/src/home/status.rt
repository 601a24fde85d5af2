//! The mailbox's status by a home's journal.

ghost use Rattle.std.specs.Prelude.{◌≡◌, ◌≤◌, false, IsTrue};
ghost use Rattle.mb_status.specs.Mailbox.{most_suspensions};
ghost use Rattle.mb_actor.specs.declared.phase.Phase.TheVariants.{Ended};
ghost use Rattle.mb_journal.specs.Phase.{phase_is};
ghost use Rattle.mb_home.specs.AtHome.{mailbox_at};

use super::Home;
use mb_actor::{Actor, Behaviours, Phase};
use mb_status::Status;

impl<A: Actor, K: Behaviours> Home<A, K> {
    /// The status that the journal says: closed or not, how often suspended, and not scheduled.
    pub(crate) fn own_status(&self) -> Status
        ensures { result ≡ mailbox_at self.now.cell.who self.now.cell.journal }
    {
        // Its contract shows that the journal is lawful, so that its suspensions fit a status.
        let _ = self.cell.journal();
        status_of(has_ended(self.cell.phase()), self.cell.count())
    }
}

/// Whether this is the last phase.
fn has_ended(phase: Phase) -> bool
    ensures { result ≡ phase_is phase Ended }
{
    match phase {
        Phase::Ended => true,
        Phase::Fresh | Phase::Live | Phase::Broken | Phase::Ending => false,
    }
}

/// The status of a mailbox that is closed or not, suspended so often, and not scheduled.
#[tactic(auto, using(crate::proofs::StatusLemmas::word_valid, crate::proofs::StatusLemmas::word_open))]
fn status_of(is_closed: bool, count: u64) -> Status
    requires within_limit { count ≤ most_suspensions }
    requires none { IsTrue is_closed → count ≡ 0 }
    ensures { result ≡ record { closed = is_closed; scheduled = false; count = count } }
{
    let word = if is_closed { 1 } else { 4 * count };
    match Status::of(word) {
        Some(status) => status,
        None => unreachable!(),
    }
}
