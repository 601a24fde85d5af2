//! Sending the envelopes that an actor tells.
ghost use Rattle.std.specs.Prelude.{◌≡◌, ◌<◌, [], ◌∷◌, MatchOption};
ghost use Rattle.mb_journal.specs.Acts.Act.{Tell};
ghost use Rattle.mb_gate.specs.Accessors.{actors_of, gates_id, pass_view, pass_id};
ghost use Rattle.mb_gate.specs.View.{reading};
ghost use Rattle.mb_home.specs.AgreesWithJournal.{AgreesWithJournal};
ghost use Rattle.mb_register.specs.Views.{GotAndGaveBack};
ghost use Rattle.mb_mailbox.specs.Emptied.{IsCleared};
ghost use Rattle.mb_mailbox.specs.RunSends.{SendsDue};
ghost use Rattle.mb_mailbox.specs.RunState.{run_state};
ghost use Rattle.mb_mailbox.specs.InRun.{ActsAdvance, InActs};
ghost use Rattle.mb_mailbox.specs.Sending.{HintTells, IsSentOrDead, TellsClosed};

use mb_actor::{Actor, Behaviours};
use mb_gate::{Claim, Gates, Pass, RunQueue};
use mb_home::BoxedHome;
use mb_msg::{ActorId, Body};
use mb_register::{Hint, Registrar};
use std::sync::Wait;

/// Sends what the claim's actor tells: reads the receiver's status, counts the envelope, queues it, and notes that the receiver is
/// to be registered, if it is due. If the receiver was read as closed, or its queue refused the envelope, that is a dead letter.
#[inline(always)]
pub(crate) fn tell<A: Actor, K: Behaviours, W: RunQueue<BoxedHome<A, K>>, R: Wait>(
    rt: &R,
    gates: &Gates<BoxedHome<A, K>>,
    registrar: &mut Registrar<BoxedHome<A, K>, W>,
    claim: &mut Claim<BoxedHome<A, K>>,
    to: ActorId,
    body: Body,
)
    requires in_acts { InActs K.gives W.origin gates.now (Tell to body ∷ claim.old.home.value.cell.acts) registrar.old claim.old }
    ensures in_acts { InActs K.gives W.origin gates.now claim.new.home.value.cell.acts registrar.new claim.new }
    ensures left { claim.new.home.value.cell ≡ record claim.old.home.value.cell { is_ready = claim.new.home.value.cell.is_ready } }
    ensures advances { ActsAdvance W.pushed W.refused registrar.old registrar.new claim.old claim.new }
    ensures cleared { IsCleared (run_state claim.old) (run_state claim.new) }
    ensures told { IsSentOrDead to body (pass_view registrar.old.pass) (pass_view registrar.new.pass) claim.old.home.value claim.new.home.value }
    ensures due { SendsDue [] [] (run_state claim.old) (run_state claim.new) }
{
    let Some(_hint) = send(rt, gates, &mut registrar.pass, &mut claim.home, to, body) else {
        return;
    };
    registrar.note_told(gates, to);
}

/// Reads the receiver's status, counts the envelope and queues it. `None` where the receiver was read closed, and else what the
/// receiver is to be registered with: a hint where the envelope was queued, and none where the queue refused it, so that it is a
/// dead letter.
///
/// A sender outside the actors counts its envelopes in the same way (`counts` of `mb_register`; `Sender::put` of `mb_send`). Those are
/// two functions, since they know different things: a run reads the status right before it counts, and its actor's home numbers
/// the envelope and keeps it; a sender outside goes by a ticket, which may be older, and its send log numbers and keeps it.
#[inline(always)]
fn send<A: Actor, K: Behaviours, R: Wait>(
    rt: &R,
    gates: &Gates<BoxedHome<A, K>>,
    pass: &mut Pass<BoxedHome<A, K>>,
    home: &mut BoxedHome<A, K>,
    to: ActorId,
    body: Body,
) -> Option<Hint>
    requires same_gates { pass_id pass.old ≡ gates_id gates.now }
    requires present { to.0 < actors_of gates.now }
    requires settled { AgreesWithJournal (K.gives home.old.value.cell.who.this.0) (Tell to body ∷ home.old.value.cell.acts) home.old.value }
    ensures same_gates { pass_id pass.new ≡ pass_id pass.old }
    ensures settled { AgreesWithJournal (K.gives home.new.value.cell.who.this.0) home.new.value.cell.acts home.new.value }
    ensures same { home.new.value ≡ record home.old.value {
      cell = record home.old.value.cell { is_ready = home.new.value.cell.is_ready };
      sends = home.new.value.sends;
      sent = home.new.value.sent;
      dead = home.new.value.dead;
      room = home.new.value.room;
    } }
    ensures told { MatchOption result
        (TellsClosed to body (pass_view pass.old) (pass_view pass.new) home.old.value home.new.value × (pass_view pass.new ≡ reading to.0 1 (pass_view pass.old)))
        (λ hint. HintTells hint to body (pass_view pass.old) (pass_view pass.new) home.old.value home.new.value) }
    ensures claims { GotAndGaveBack [] [] (pass_view pass.old) (pass_view pass.new) }
{
    let status = gates.status(pass, to);
    if status.closed() {
        home.record_closed_receiver(to, body);
        return None;
    }
    let envelope = home.next_envelope(to, body);
    gates.note_sent(pass, to);
    match home.push(rt, &envelope) {
        Ok(()) => Some(Hint::Message),
        Err(_) => {
            gates.note_unsent(pass, to);
            Some(Hint::None)
        }
    }
}
