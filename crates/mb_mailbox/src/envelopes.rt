//! Handling envelopes, up to the throughput.
ghost use Rattle.std.specs.Prelude.{◌≡◌, ◌≤◌, IfOk};
ghost use Rattle.mb_journal.specs.Run.{most_envelopes};
ghost use Rattle.mb_mailbox.specs.RunState.{run_state};
ghost use Rattle.mb_mailbox.specs.InRun.{InRun, Advances, StopsRun};
ghost use Rattle.mb_mailbox.specs.Ran.{EndsBlock, HasStopped};

use crate::acts::carry_out;
use crate::systems::{apply_all, has_no_system_work};
use crate::turn::Turn;
use mb_actor::{Actor, Behaviours};
use mb_gate::{Claim, Gates, RunQueue};
use mb_home::BoxedHome;
use mb_journal::ReadyError;
use mb_register::Registrar;
use std::sync::Wait;

/// Gives the cell at most as many envelopes as the throughput says (`Mailbox.processMailbox`; 0 counts as 1), each where the
/// status that stands then is open and not suspended, and after each all system messages.
pub(crate) fn apply_envelopes<A: Actor, K: Behaviours, W: RunQueue<BoxedHome<A, K>>, R: Wait>(
    rt: &R,
    gates: &Gates<BoxedHome<A, K>>,
    registrar: &mut Registrar<BoxedHome<A, K>, W>,
    throughput: u32,
    claim: &mut Claim<BoxedHome<A, K>>,
    turn: &mut Turn,
) -> Result<(), ReadyError>
    requires in_run { InRun K.gives W.origin gates.now registrar.old claim.old turn.old }
    requires none_taken { turn.old.envelopes ≡ 0 }
    requires whole { EndsBlock (run_state claim.old) }
    ensures in_run { InRun K.gives W.origin gates.now registrar.new claim.new turn.new }
    ensures advances { Advances W.pushed W.refused result registrar.old registrar.new claim.old claim.new }
    ensures stops { StopsRun result claim.new }
    ensures within_limit { turn.new.envelopes ≤ most_envelopes throughput }
    ensures ended { IfOk result (λ _. HasStopped claim.old.home.value.take (run_state claim.new) throughput turn.new.envelopes) }
{
    for _handled in 0..throughput.max(1) {
        let status = gates.held_status(claim);
        if !status.should_process() {
            return Ok(());
        }
        claim.home.ready()?;
        let Some(envelope) = claim.home.take.take(rt) else {
            return Ok(());
        };
        // Counted before the actor is called, since a locked step waits until all that was written before it is out.
        gates.note_taken(claim);
        claim.home.cell.apply_envelope(status, envelope);
        turn.envelopes += 1;
        carry_out(rt, gates, registrar, claim)?;
        if has_no_system_work(gates, claim) {
            continue;
        }
        apply_all(rt, gates, registrar, claim, turn)?;
    }
    Ok(())
}
