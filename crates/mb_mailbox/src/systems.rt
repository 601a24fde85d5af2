//! Applying system messages, until none is left.
ghost use Rattle.std.specs.Prelude.{◌≡◌, ◌≢◌, ◌+◌, [], true, false, MatchBool, OnOk};
ghost use Rattle.mb_gate.specs.Accessors.{status_of};
ghost use Rattle.mb_home.specs.Steps.{HasNext, HasNoBacklog};
ghost use Rattle.mb_mailbox.specs.Emptied.{IsCleared};
ghost use Rattle.mb_mailbox.specs.RunSends.{SendsDue};
ghost use Rattle.mb_mailbox.specs.RunState.{run_state};
ghost use Rattle.mb_mailbox.specs.InRun.{InRun, Advances, IsBetweenMessages, KeepsCell, StopsRun};
ghost use Rattle.mb_mailbox.specs.Ran.{EndsBlock, IsDrained};
ghost use Rattle.mb_mailbox.specs.Running.{BacklogAgrees};

use crate::acts::carry_out;
use crate::turn::Turn;
use mb_actor::{Actor, Behaviours};
use mb_gate::{Claim, Gates, RunQueue};
use mb_home::BoxedHome;
use mb_journal::ReadyError;
use mb_register::Registrar;
use std::sync::Wait;

/// Gives the cell all system messages (`Mailbox.processAllSystemMessages`): those that go in front, then those that were
/// drained, the earliest first; where none is left it drains again, until that gives nothing or the mailbox is closed.
#[inline(always)]
pub(crate) fn apply_systems<A: Actor, K: Behaviours, W: RunQueue<BoxedHome<A, K>>, R: Wait>(
    rt: &R,
    gates: &Gates<BoxedHome<A, K>>,
    registrar: &mut Registrar<BoxedHome<A, K>, W>,
    claim: &mut Claim<BoxedHome<A, K>>,
    turn: &mut Turn,
) -> Result<(), ReadyError>
    requires in_run { InRun K.gives W.origin gates.now registrar.old claim.old turn.old }
    ensures in_run { InRun K.gives W.origin gates.now registrar.new claim.new turn.new }
    ensures advances { Advances W.pushed W.refused result registrar.old registrar.new claim.old claim.new }
    ensures stops { StopsRun result claim.new }
    ensures envelopes { turn.new.envelopes ≡ turn.old.envelopes }
    ensures whole { OnOk result (EndsBlock (run_state claim.new)) }
{
    if has_no_system_work(gates, claim) {
        return Ok(());
    }
    apply_all(rt, gates, registrar, claim, turn)
}

/// Whether the mailbox is open and has no system work: no message that was set aside goes before others, none is left of what
/// was drained, and to drain again gives nothing. It is a function of its own, so that in this case nothing is called that may
/// wait.
#[inline(always)]
pub(crate) fn has_no_system_work<A: Actor, K: Behaviours>(
    gates: &Gates<BoxedHome<A, K>>,
    claim: &mut Claim<BoxedHome<A, K>>,
) -> bool
    requires between { IsBetweenMessages K.gives gates.now claim.old }
    ensures keeps { KeepsCell K.gives gates.now [] claim.old claim.new }
    ensures backlog { BacklogAgrees (run_state claim.new) }
    ensures cleared { IsCleared (run_state claim.old) (run_state claim.new) }
    ensures drained { result ≡ true → IsDrained (run_state claim.new) }
    ensures due { SendsDue [] [] (run_state claim.old) (run_state claim.new) }
{
    if claim.status().closed() || claim.home.has_next() {
        return false;
    }
    if gates.sys_is_drained(claim) {
        return true;
    }
    false
}

/// As `apply_systems`, one message after the other.
pub(crate) fn apply_all<A: Actor, K: Behaviours, W: RunQueue<BoxedHome<A, K>>, R: Wait>(
    rt: &R,
    gates: &Gates<BoxedHome<A, K>>,
    registrar: &mut Registrar<BoxedHome<A, K>, W>,
    claim: &mut Claim<BoxedHome<A, K>>,
    turn: &mut Turn,
) -> Result<(), ReadyError>
    requires in_run { InRun K.gives W.origin gates.now registrar.old claim.old turn.old }
    ensures in_run { InRun K.gives W.origin gates.now registrar.new claim.new turn.new }
    ensures advances { Advances W.pushed W.refused result registrar.old registrar.new claim.old claim.new }
    ensures stops { StopsRun result claim.new }
    ensures envelopes { turn.new.envelopes ≡ turn.old.envelopes }
    ensures whole { OnOk result (EndsBlock (run_state claim.new)) }
{
    for _ in rt.forever() {
        if claim.status().closed() {
            return Ok(());
        }
        if claim.home.has_next() {
            apply_one(rt, gates, registrar, claim, turn)?;
            continue;
        }
        if !drain(rt, gates, claim) {
            return Ok(());
        }
    }
    unreachable!()
}

// Gives the cell the system message that is next, and carries out its acts.
fn apply_one<A: Actor, K: Behaviours, W: RunQueue<BoxedHome<A, K>>, R: Wait>(
    rt: &R,
    gates: &Gates<BoxedHome<A, K>>,
    registrar: &mut Registrar<BoxedHome<A, K>, W>,
    claim: &mut Claim<BoxedHome<A, K>>,
    turn: &mut Turn,
) -> Result<(), ReadyError>
    requires in_run { InRun K.gives W.origin gates.now registrar.old claim.old turn.old }
    requires due { HasNext claim.old.home.value }
    requires not_closed { (status_of claim.old).closed ≡ false }
    ensures in_run { InRun K.gives W.origin gates.now registrar.new claim.new turn.new }
    ensures advances { Advances W.pushed W.refused result registrar.old registrar.new claim.old claim.new }
    ensures stops { StopsRun result claim.new }
    ensures envelopes { turn.new.envelopes ≡ turn.old.envelopes }
    ensures applied { OnOk result (turn.new.system ≡ turn.old.system + 1) }
{
    claim.home.ready()?;
    claim.home.apply_next();
    turn.system += 1;
    carry_out(rt, gates, registrar, claim)
}

// Drains the list where nothing is left of the last drain, and answers whether it gave something.
fn drain<A: Actor, K: Behaviours, R: Wait>(
    rt: &R,
    gates: &Gates<BoxedHome<A, K>>,
    claim: &mut Claim<BoxedHome<A, K>>,
) -> bool
    requires no_backlog { HasNoBacklog claim.old.home.value }
    requires not_closed { (status_of claim.old).closed ≡ false }
    requires between { IsBetweenMessages K.gives gates.now claim.old }
    ensures keeps { KeepsCell K.gives gates.now [] claim.old claim.new }
    ensures backlog { BacklogAgrees (run_state claim.new) }
    ensures cleared { IsCleared (run_state claim.old) (run_state claim.new) }
    ensures gave { MatchBool result (claim.new.home.value.rest ≢ []) (IsDrained (run_state claim.new)) }
    ensures due { SendsDue [] [] (run_state claim.old) (run_state claim.new) }
{
    let drained = gates.sys_drain(rt, claim);
    if drained.is_empty() {
        return false;
    }
    claim.home.keep(drained);
    true
}
