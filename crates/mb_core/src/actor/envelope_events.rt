//! The steps on the waiting number and on the envelopes.
ghost use Rattle.std.specs.Prelude.{◌≡◌, ◌<◌, [], ◌∷◌, ◌++◌, length, OnOk};
ghost use Rattle.mb_core.specs.declared.event.Step.TheVariants.{Sent, Unsent, Taken, Count, Take};
ghost use Rattle.mb_core.specs.Run.{Change, IsCarriedOut};

use crate::actor::ActorState;
use crate::wake_obligation::WakeObligation;
use mb_msg::Envelope;
use std::alloc::AllocError;

impl ActorState {
    /// `Sent`: one more is counted as waiting, and the party owes the actor for it as `sending`.
    pub(super) fn count_sent(&mut self, party: usize)
        requires { party < length self.old.owed }
        ensures { Change self.old party Sent self.new }
    {
        self.waiting = self.waiting.wrapping_add(1);
        let obligation = self.obligation(party);
        self.owe(
            party,
            WakeObligation {
                sending: true,
                ..obligation
            },
        );
    }

    /// `Unsent`: one less is counted, and what the party owed as `sending` it owes as `message`. Refused where it owed
    /// no `sending`.
    pub(super) fn count_unsent(&mut self, party: usize) -> bool
        requires { party < length self.old.owed }
        ensures { IsCarriedOut self.old party Unsent self.new result }
    {
        let obligation = self.obligation(party);
        if !obligation.sending {
            return false;
        }
        self.waiting = self.waiting.wrapping_sub(1);
        self.owe(
            party,
            WakeObligation {
                message: true,
                sending: false,
                ..obligation
            },
        );
        true
    }

    /// `Taken`: one less is counted, for an envelope that the holder took. Refused to all others.
    pub(super) fn count_taken(&mut self, party: usize) -> bool
        ensures { IsCarriedOut self.old party Taken self.new result }
    {
        if !self.is_held_by(party) {
            return false;
        }
        self.waiting = self.waiting.wrapping_sub(1);
        true
    }

    /// `Count`: where none is counted the party owes no `message` any more.
    pub(super) fn read_count(&mut self, party: usize)
        requires { party < length self.old.owed }
        ensures { Change self.old party Count self.new }
    {
        if self.waiting == 0 {
            let obligation = self.obligation(party);
            self.owe(
                party,
                WakeObligation {
                    message: false,
                    ..obligation
                },
            );
        }
    }

    /// `Push`: the envelope is the last of the queue.
    pub(super) fn push(&mut self, envelope: Envelope) -> Result<(), AllocError>
        ensures { OnOk result (self.new ≡ record self.old { envelopes = self.old.envelopes ++ envelope ∷ [] }) }
    {
        self.envelopes.push(envelope)?;
        Ok(())
    }

    /// `Take`: the envelope at this index leaves the queue. Refused to all but the holder, and where there is none.
    pub(super) fn take(&mut self, party: usize, place: usize) -> bool
        ensures { IsCarriedOut self.old party (Take place) self.new result }
    {
        if !self.is_held_by(party) || place >= self.envelopes.len() {
            return false;
        }
        self.envelopes.remove(place);
        true
    }
}
