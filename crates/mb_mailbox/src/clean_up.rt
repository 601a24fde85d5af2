//! What becomes of messages that are left when an actor ends (`Mailbox.cleanUp`).
ghost use Rattle.std.specs.Prelude.{◌≡◌, [], List, OnOk};
ghost use Rattle.mb_gate.specs.Accessors.{claim_view, held_actor, given_to};
ghost use Rattle.mb_gate.specs.View.{Observation};
ghost use Rattle.mb_home.specs.AtHome.{given_of};
ghost use Rattle.mb_gate.specs.Untouched.{origin_of};
ghost use Rattle.mb_mailbox.specs.OnlyDrained.{WasEnded};
ghost use Rattle.mb_mailbox.specs.Emptied.{FindsNoMore};
ghost use Rattle.mb_mailbox.specs.RunSends.{SendsAndAnswers, SendsDue, TakesSystemsIn};
ghost use Rattle.mb_mailbox.specs.RunState.{run_state};
ghost use Rattle.mb_mailbox.specs.Running.{IsRunning};
ghost use Rattle.mb_mailbox.specs.CleaningUp.{HasDroppedAll, InCleanUp};
ghost use Rattle.mb_mailbox.specs.InRun.{ActsAdvance, InActs, KeepsCell};

use crate::sending_system::answer;
use mb_actor::{Actor, Behaviours};
use mb_gate::{Claim, Gates, RunQueue};
use mb_home::BoxedHome;
use mb_register::Registrar;
use std::alloc::AllocError;
use std::sync::Wait;

/// Cleans up after the claim's actor, whose mailbox is closed: ends its list; drops what was drained and not applied, and then
/// what was left in the list; and takes out its envelopes one by one, which are dead letters then. It answers `AllocError` if
/// a place for one was refused: then the rest stays queued.
pub(crate) fn clean_up<A: Actor, K: Behaviours, W: RunQueue<BoxedHome<A, K>>, R: Wait>(
    rt: &R,
    gates: &Gates<BoxedHome<A, K>>,
    registrar: &mut Registrar<BoxedHome<A, K>, W>,
    claim: &mut Claim<BoxedHome<A, K>>,
) -> Result<(), AllocError>
    requires in_clean_up { InCleanUp K.gives W.origin gates.now registrar.old claim.old }
    requires count { given_of claim.old.home.value ≡ given_to claim.old }
    ensures in_acts { InActs K.gives W.origin gates.now claim.new.home.value.cell.acts registrar.new claim.new }
    ensures left { claim.new.home.value.cell ≡ claim.old.home.value.cell }
    ensures advances { ActsAdvance W.pushed W.refused registrar.old registrar.new claim.old claim.new }
    ensures emptied { OnOk result (FindsNoMore claim.old.home.value.take claim.new.home.value.take) }
    ensures due { SendsDue [] [] (run_state claim.old) (run_state claim.new) }
{
    let listed = gates.sys_close(rt, claim);
    drop_systems(rt, gates, registrar, claim);
    claim.home.keep(listed);
    drop_systems(rt, gates, registrar, claim);
    clean_envelopes(rt, gates, claim)
}

// Drops what was drained and not applied. Who waits for an answer is told that this actor has ended.
fn drop_systems<A: Actor, K: Behaviours, W: RunQueue<BoxedHome<A, K>>, R: Wait>(
    rt: &R,
    gates: &Gates<BoxedHome<A, K>>,
    registrar: &mut Registrar<BoxedHome<A, K>, W>,
    claim: &mut Claim<BoxedHome<A, K>>,
)
    requires in_clean_up { InCleanUp K.gives W.origin gates.now registrar.old claim.old }
    ensures in_clean_up { InCleanUp K.gives W.origin gates.now registrar.new claim.new }
    ensures none { claim.new.home.value.rest ≡ [] }
    ensures given { (given_of claim.new.home.value ≡ given_of claim.old.home.value) × (given_to claim.new ≡ given_to claim.old) }
    ensures left { claim.new.home.value.cell ≡ claim.old.home.value.cell }
    ensures log { (claim_view claim.new).log ≡ (claim_view claim.old).log }
    ensures advances { ActsAdvance W.pushed W.refused registrar.old registrar.new claim.old claim.new }
    ensures answers { SendsAndAnswers [] claim.old.home.value.rest (run_state claim.old) (run_state claim.new) }
{
    let actor = claim.actor();
    let parent = claim.home.parent();
    while let Some((_, node)) = claim.home.drop_next() {
        answer(rt, gates, registrar, claim, parent, actor, node);
    }
}

// Takes out the envelopes that are still queued.
fn clean_envelopes<A: Actor, K: Behaviours, R: Wait>(
    rt: &R,
    gates: &Gates<BoxedHome<A, K>>,
    claim: &mut Claim<BoxedHome<A, K>>,
) -> Result<(), AllocError>
    requires dropped { HasDroppedAll claim.old }
    requires ended { WasEnded (held_actor claim.old) (claim_view claim.old).log }
    requires running { (seen : List Observation) × IsRunning K.gives (origin_of gates.now) claim.old.home.value.cell.acts seen (run_state claim.old) }
    ensures keeps { KeepsCell K.gives gates.now claim.old.home.value.cell.acts claim.old claim.new }
    ensures dropped { HasDroppedAll claim.new }
    ensures given { (given_of claim.new.home.value ≡ given_of claim.old.home.value) × (given_to claim.new ≡ given_to claim.old) }
    ensures emptied { OnOk result (FindsNoMore claim.old.home.value.take claim.new.home.value.take) }
    ensures takes { TakesSystemsIn [] [] (run_state claim.old) (run_state claim.new) }
{
    for _ in rt.forever() {
        if !claim.home.clean_next(rt)? {
            return Ok(());
        }
        gates.note_taken(claim);
    }
    unreachable!()
}
