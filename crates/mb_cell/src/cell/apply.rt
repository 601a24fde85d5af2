//! Applying an envelope: which rule it follows.

ghost use Rattle.std.specs.Prelude.{◌≡◌};
ghost use Rattle.mb_status.specs.Mailbox.{word_of};
ghost use Rattle.mb_journal.specs.Lawful.{IsLawful};
ghost use Rattle.mb_cell.specs.ByNewest.{EnvelopeByNewest};
ghost use Rattle.mb_cell.specs.MayHandle.{MayHandle};
ghost use Rattle.mb_cell.specs.CellView.{TakesEnvelope};

use crate::cell::Cell;
use mb_actor::{Actor, Behaviours, Message};
use mb_msg::{Body, Envelope};
use mb_status::Status;

impl<A: Actor, K: Behaviours> Cell<A, K> {
    /// Applies an envelope: the actor handles it, or its cell does. `reading` is the status by which the caller knows
    /// that envelopes may be handled. This takes no memory.
    pub fn apply_envelope(&mut self, reading: Status, envelope: Envelope)
        requires may_handle { MayHandle self.old envelope (word_of reading) }
        ensures taken { TakesEnvelope self.old self.new envelope (word_of reading) }
        ensures lawful { IsLawful self.new.who (K.gives self.new.who.this.0) self.new.journal }
        ensures by_newest { EnvelopeByNewest self.old self.new envelope.body }
    {
        match envelope.body {
            Body::User { kind, value } => {
                self.apply_message(reading, envelope, Message::User { kind, value });
            }
            Body::Control { kind, value } => {
                self.apply_message(reading, envelope, Message::Control { kind, value });
            }
            Body::PoisonPill => self.apply_poison_pill(reading, envelope),
            Body::Kill => self.apply_kill(reading, envelope),
            Body::Terminated(id) => {
                if self.cell_state.is_due(id) {
                    self.apply_message(reading, envelope, Message::Terminated(id));
                } else {
                    self.drop_envelope(reading, envelope);
                }
            }
        }
    }
}
