//! Applying an envelope that the cell handles, without a call of the actor (`ActorCell.autoReceiveMessage`).
ghost use Rattle.std.specs.Prelude.{◌≡◌};
ghost use Rattle.mb_status.specs.Mailbox.{word_of};
ghost use Rattle.mb_journal.specs.Lawful.{IsLawful, IsUnexpected};
ghost use Rattle.mb_cell.specs.MayHandle.{MayHandle};
ghost use Rattle.mb_cell.specs.CellView.{TakesEnvelope};

use crate::cell::Cell;
use mb_actor::{Actor, Behaviours};
use mb_msg::{Body, Envelope};
use mb_status::Status;

impl<A: Actor, K: Behaviours> Cell<A, K> {
    /// `Kill`: the actor fails.
    pub(super) fn apply_kill(&mut self, reading: Status, envelope: Envelope)
        requires may_handle { MayHandle self.old envelope (word_of reading) }
        requires kill { envelope.body ≡ Body.Kill }
        ensures taken { TakesEnvelope self.old self.new envelope (word_of reading) }
        ensures lawful { IsLawful self.new.who (K.gives self.new.who.this.0) self.new.journal }
    {
        self.cell_state
            .handle(&self.place, envelope.body, None, &[]);
        self.journal
            .push_handled(envelope, reading.word(), None, &[]);
        self.journal.forget_room();
    }

    /// `PoisonPill`: the actor is told to end.
    pub(super) fn apply_poison_pill(&mut self, reading: Status, envelope: Envelope)
        requires may_handle { MayHandle self.old envelope (word_of reading) }
        requires poison { envelope.body ≡ Body.PoisonPill }
        ensures taken { TakesEnvelope self.old self.new envelope (word_of reading) }
        ensures lawful { IsLawful self.new.who (K.gives self.new.who.this.0) self.new.journal }
    {
        self.cell_state.poison(&self.place);
        self.journal
            .push_handled(envelope, reading.word(), None, &[]);
        self.journal.forget_room();
    }

    /// A Terminated that the actor is not to be told: the envelope is dropped.
    pub(super) fn drop_envelope(&mut self, reading: Status, envelope: Envelope)
        requires may_handle { MayHandle self.old envelope (word_of reading) }
        requires unexpected { IsUnexpected self.old.who self.old.journal envelope.body }
        ensures taken { TakesEnvelope self.old self.new envelope (word_of reading) }
        ensures lawful { IsLawful self.new.who (K.gives self.new.who.this.0) self.new.journal }
    {
        let _reading = reading;
        self.cell_state.discard();
        self.journal.push_dropped(envelope);
    }
}
