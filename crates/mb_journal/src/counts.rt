//! How many entries of some kinds a journal has.
ghost use Rattle.std.specs.Prelude.{◌≡◌, ◌+◌, ◌-◌, ◌<◌, ◌^◌, List, if◌then◌else◌};
ghost use Rattle.mb_actor.specs.declared.effect.Effect.{Effect};
ghost use Rattle.mb_journal.specs.Counts.{asks_for_restart, tells_of_envelope, tells_of_restart};
ghost use Rattle.mb_journal.specs.JournalView.{entry_with};

use crate::entry::Received;
use mb_msg::SysMsg;

/// How many entries are of envelopes, and how many of restarts. The journal keeps them, so that nobody has to read its entries for them.
#[derive(Clone, Copy)]
pub(crate) struct Counts {
    pub(crate) envelopes: usize,
    pub(crate) restarts: usize,
}

impl Counts {
    /// Those of a journal without entries.
    pub(crate) fn none() -> Counts
        ensures { result ≡ record { envelopes = 0; restarts = 0 } }
    {
        Counts {
            envelopes: 0,
            restarts: 0,
        }
    }

    /// Counts an entry more, of what came.
    #[inline(always)]
    pub(crate) fn add(&mut self, arrival: &Received)
        requires { (self.old.envelopes < 2 ^ 64 - 1) × (self.old.restarts < 2 ^ 64 - 1) }
        ensures envelopes { (effects : List Effect) →
            self.new.envelopes ≡ self.old.envelopes + (if tells_of_envelope (entry_with arrival.now effects) then 1 else 0) }
        ensures restarts { (effects : List Effect) →
            self.new.restarts ≡ self.old.restarts + (if tells_of_restart (entry_with arrival.now effects) then 1 else 0) }
    {
        match arrival {
            Received::Handled { .. } | Received::Dropped { .. } => self.envelopes += 1,
            Received::System {
                answer: Some(_),
                number: _,
                message,
            } => {
                if asks_for_restart(*message) {
                    self.restarts += 1;
                }
            }
            _ => {}
        }
    }
}

/// Whether this system message can restart an actor.
fn asks_for_restart(message: SysMsg) -> bool
    ensures { result ≡ asks_for_restart message }
{
    match message {
        SysMsg::Recreate(_) | SysMsg::Resume { .. } => true,
        _ => false,
    }
}
