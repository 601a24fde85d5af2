//! The run of a mailbox, from its claim to its result.
ghost use Rattle.std.specs.Prelude.{◌≡◌, ◌≤◌, ◌<◌, ℕ, false, length, IfOk, Some};
ghost use Rattle.mb_journal.specs.Run.{most_envelopes};
ghost use Rattle.mb_gate.specs.Accessors.{actors_of, first_home, pass_view, held_actor};
ghost use Rattle.mb_gate.specs.Untouched.{origin_of};
ghost use Rattle.mb_register.specs.Caller.{IsRegistrarOf, caller_of, LeavesCaller};
ghost use Rattle.mb_register.specs.ActorSet.{has_actor};
ghost use Rattle.mb_home.specs.Fresh.{IsFreshClaim};
ghost use Rattle.mb_mailbox.specs.RunRegistrar.{IsRunRegistrarOf, LeavesTelling};
ghost use Rattle.mb_mailbox.specs.RunState.{run_state};
ghost use Rattle.mb_mailbox.specs.InRun.{InRun, Advances, StopsRun};
ghost use Rattle.mb_mailbox.specs.Ran.{AnswersRun, GivesActorBack, HasStopped};

use crate::envelopes::apply_envelopes;
use crate::registering::register_told;
use crate::systems::apply_systems;
use crate::turn::Turn;
use mb_actor::{Actor, Behaviours};
use mb_gate::{Claim, Gates, RunQueue};
use mb_home::BoxedHome;
use mb_journal::ReadyError;
use mb_register::{Hint, Registrar};
use std::sync::Wait;

/// Runs the mailbox of the claim's actor: all its system messages, and then at most as many envelopes as `throughput` says (0
/// counts as 1), each followed by all system messages that came. Whom the run told something, or sent a system message, is registered
/// at once where a worker waits for a claim, and else at the end of the run, in the order of what was sent (this project's own
/// profile: in Akka each message that is sent registers its receiver). Then the cell is given back, and its actor is registered again
/// if it has to be given to a worker: so it goes behind those.
///
/// It answers `JournalFull` if the journal was full before the next message, or before it asked for one more envelope; else
/// `NoMemory` if memory was refused then, or for an envelope of an actor that ended. The run ends there: what was drained stays
/// beside the cell, and no envelope was taken for it.
pub fn run_mailbox<A: Actor, K: Behaviours, W: RunQueue<BoxedHome<A, K>>, R: Wait>(
    rt: &R,
    gates: &Gates<BoxedHome<A, K>>,
    registrar: &mut Registrar<BoxedHome<A, K>, W>,
    throughput: u32,
    claim: Claim<BoxedHome<A, K>>,
) -> Result<Turn, ReadyError>
    requires same_gates { IsRegistrarOf W.origin gates.now registrar.old }
    requires untouched { IsFreshClaim K.gives (Some (origin_of gates.now)) claim }
    requires same_count { length (first_home gates.now).value.directory ≡ actors_of gates.now }
    ensures same_gates { IsRegistrarOf W.origin gates.now registrar.new }
    ensures caller_advances { LeavesCaller (caller_of W.pushed W.refused registrar.old) (caller_of W.pushed W.refused registrar.new) }
    ensures back { GivesActorBack (held_actor claim) (caller_of W.pushed W.refused registrar.old) (caller_of W.pushed W.refused registrar.new) }
    ensures answer { AnswersRun throughput claim (pass_view registrar.old.pass) (pass_view registrar.new.pass) result }
{
    registrar.told.clear();
    run_and_release(rt, gates, registrar, throughput, claim)
}

// The run itself, of a registrar that has nobody to register yet.
fn run_and_release<A: Actor, K: Behaviours, W: RunQueue<BoxedHome<A, K>>, R: Wait>(
    rt: &R,
    gates: &Gates<BoxedHome<A, K>>,
    registrar: &mut Registrar<BoxedHome<A, K>, W>,
    throughput: u32,
    claim: Claim<BoxedHome<A, K>>,
) -> Result<Turn, ReadyError>
    requires same_gates { IsRunRegistrarOf W.origin gates.now registrar.old }
    requires untouched { IsFreshClaim K.gives (Some (origin_of gates.now)) claim }
    requires same_count { length (first_home gates.now).value.directory ≡ actors_of gates.now }
    ensures same_gates { IsRunRegistrarOf W.origin gates.now registrar.new }
    ensures caller_advances { LeavesTelling (caller_of W.pushed W.refused registrar.old) (caller_of W.pushed W.refused registrar.new) }
    ensures none_left { (id : ℕ) → id < 64 → has_actor registrar.new.told.set id ≡ false }
    ensures back { GivesActorBack (held_actor claim) (caller_of W.pushed W.refused registrar.old) (caller_of W.pushed W.refused registrar.new) }
    ensures answer { AnswersRun throughput claim (pass_view registrar.old.pass) (pass_view registrar.new.pass) result }
{
    let mut claim = claim;
    let actor = claim.actor();
    let mut turn = Turn {
        actor,
        system: 0,
        envelopes: 0,
    };
    let outcome = run_claim(rt, gates, registrar, throughput, &mut claim, &mut turn);
    gates.release(claim, &mut registrar.pass);
    registrar.register(rt, gates, actor, Hint::None, true);
    match outcome {
        Ok(()) => Ok(turn),
        Err(fault) => Err(fault),
    }
}

// The steps of the run before the claim goes back. At their end all whom the run told something, or sent a system message, are
// registered.
fn run_claim<A: Actor, K: Behaviours, W: RunQueue<BoxedHome<A, K>>, R: Wait>(
    rt: &R,
    gates: &Gates<BoxedHome<A, K>>,
    registrar: &mut Registrar<BoxedHome<A, K>, W>,
    throughput: u32,
    claim: &mut Claim<BoxedHome<A, K>>,
    turn: &mut Turn,
) -> Result<(), ReadyError>
    requires in_run { InRun K.gives W.origin gates.now registrar.old claim.old turn.old }
    requires none_taken { turn.old.envelopes ≡ 0 }
    ensures in_run { InRun K.gives W.origin gates.now registrar.new claim.new turn.new }
    ensures advances { Advances W.pushed W.refused result registrar.old registrar.new claim.old claim.new }
    ensures stops { StopsRun result claim.new }
    ensures within_limit { turn.new.envelopes ≤ most_envelopes throughput }
    ensures ended { IfOk result (λ _. HasStopped claim.old.home.value.take (run_state claim.new) throughput turn.new.envelopes) }
    ensures none_left { (id : ℕ) → id < 64 → has_actor registrar.new.told.set id ≡ false }
{
    let outcome = apply_all(rt, gates, registrar, throughput, claim, turn);
    if registrar.told.is_empty() {
        return outcome;
    }
    register_told(rt, gates, registrar, true);
    outcome
}

// All system messages, and then envelopes.
fn apply_all<A: Actor, K: Behaviours, W: RunQueue<BoxedHome<A, K>>, R: Wait>(
    rt: &R,
    gates: &Gates<BoxedHome<A, K>>,
    registrar: &mut Registrar<BoxedHome<A, K>, W>,
    throughput: u32,
    claim: &mut Claim<BoxedHome<A, K>>,
    turn: &mut Turn,
) -> Result<(), ReadyError>
    requires in_run { InRun K.gives W.origin gates.now registrar.old claim.old turn.old }
    requires none_taken { turn.old.envelopes ≡ 0 }
    ensures in_run { InRun K.gives W.origin gates.now registrar.new claim.new turn.new }
    ensures advances { Advances W.pushed W.refused result registrar.old registrar.new claim.old claim.new }
    ensures stops { StopsRun result claim.new }
    ensures within_limit { turn.new.envelopes ≤ most_envelopes throughput }
    ensures ended { IfOk result (λ _. HasStopped claim.old.home.value.take (run_state claim.new) throughput turn.new.envelopes) }
{
    apply_systems(rt, gates, registrar, claim, turn)?;
    apply_envelopes(rt, gates, registrar, throughput, claim, turn)
}
