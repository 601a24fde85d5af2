//! Carrying out the acts that a message asks for.
ghost use Rattle.std.specs.Prelude.{◌≡◌, ◌≢◌, [], ◌∷◌, true, false, IsErrOf, OnErr, OnOk};
ghost use Rattle.mb_msg.specs.declared.envelope.Body.{Body};
ghost use Rattle.mb_msg.specs.declared.id.ActorId.{ActorId};
ghost use Rattle.mb_supervision.specs.ActQueue.{act_of};
ghost use Rattle.mb_supervision.specs.declared.act.Act.TheVariants.{Tell};
ghost use Rattle.mb_journal.specs.Acts.Act.{CloseSelf};
ghost use Rattle.mb_journal.specs.Life.{closed};
ghost use Rattle.mb_gate.specs.SentSystem.{messages_of};
ghost use Rattle.mb_mailbox.specs.Emptied.{FindsNoMore, IsCleared};
ghost use Rattle.mb_mailbox.specs.RunSends.{SendsDue};
ghost use Rattle.mb_mailbox.specs.RunState.{run_state};
ghost use Rattle.mb_mailbox.specs.InRun.{ActsAdvance, InActs};

use crate::clean_up::clean_up;
use crate::registering::{register_if_awaited, register_told};
use crate::sending_system::send_system;
use crate::telling::tell;
use mb_actor::{Actor, Behaviours};
use mb_cell::Act;
use mb_gate::{Claim, Gates, RunQueue};
use mb_home::BoxedHome;
use mb_journal::ReadyError;
use mb_register::Registrar;
use std::alloc::AllocError;
use std::sync::Wait;

/// Carries out the acts of the last message, in order. After each, and once where there is none, whom the run told something, or sent a
/// system message, is registered if a worker waits for a claim. It answers `NoMemory` if a place for an envelope of an actor that ended was refused;
/// the other acts are carried out all the same.
#[inline(always)]
pub(crate) fn carry_out<A: Actor, K: Behaviours, W: RunQueue<BoxedHome<A, K>>, R: Wait>(
    rt: &R,
    gates: &Gates<BoxedHome<A, K>>,
    registrar: &mut Registrar<BoxedHome<A, K>, W>,
    claim: &mut Claim<BoxedHome<A, K>>,
) -> Result<(), ReadyError>
    requires in_acts { InActs K.gives W.origin gates.now claim.old.home.value.cell.acts registrar.old claim.old }
    ensures in_acts { InActs K.gives W.origin gates.now [] registrar.new claim.new }
    ensures carried_out { claim.new.home.value.cell.acts ≡ [] }
    ensures advances { ActsAdvance W.pushed W.refused registrar.old registrar.new claim.old claim.new }
    ensures cleared { OnOk result (IsCleared (run_state claim.old) (run_state claim.new)) }
    ensures refused { OnErr result (IsErrOf result ReadyError.NoMemory) }
    ensures ended { OnErr result (closed claim.new.home.value.cell.who claim.new.home.value.cell.journal ≡ true) }
    ensures due { SendsDue (messages_of claim.old.home.value.cell.acts) [] (run_state claim.old) (run_state claim.new) }
{
    let mut is_clean = true;
    let mut has_looked = false;
    while let Some(act) = claim.home.cell.next_act() {
        has_looked = true;
        match act {
            Act::Tell(to, body) => {
                tell(rt, gates, registrar, claim, to, body);
                register_if_awaited(rt, gates, registrar);
            }
            other => {
                is_clean &= carry(rt, gates, registrar, claim, other).is_ok();
                register_if_awaited(rt, gates, registrar);
            }
        }
    }
    if has_looked || registrar.told.is_empty() || !gates.idle_workers().is_any() {
        return answer_of(is_clean);
    }
    register_told(rt, gates, registrar, false);
    answer_of(is_clean)
}

fn answer_of(is_clean: bool) -> Result<(), ReadyError>
    ensures refused { OnErr result (IsErrOf result ReadyError.NoMemory) }
    ensures clean { OnOk result (is_clean ≡ true) }
    ensures not_clean { OnErr result (is_clean ≡ false) }
{
    if is_clean {
        Ok(())
    } else {
        Err(ReadyError::NoMemory)
    }
}

// Carries out one act that is no tell.
#[inline(always)]
fn carry<A: Actor, K: Behaviours, W: RunQueue<BoxedHome<A, K>>, R: Wait>(
    rt: &R,
    gates: &Gates<BoxedHome<A, K>>,
    registrar: &mut Registrar<BoxedHome<A, K>, W>,
    claim: &mut Claim<BoxedHome<A, K>>,
    act: Act,
) -> Result<(), AllocError>
    requires in_acts { InActs K.gives W.origin gates.now (act_of act ∷ claim.old.home.value.cell.acts) registrar.old claim.old }
    requires no_tell { (to : ActorId) (body : Body) → act ≢ Tell to body }
    ensures in_acts { InActs K.gives W.origin gates.now claim.new.home.value.cell.acts registrar.new claim.new }
    ensures left { claim.new.home.value.cell.acts ≡ claim.old.home.value.cell.acts }
    ensures advances { ActsAdvance W.pushed W.refused registrar.old registrar.new claim.old claim.new }
    ensures cleared { OnOk result (IsCleared (run_state claim.old) (run_state claim.new)) }
    ensures ended { OnErr result (closed claim.new.home.value.cell.who claim.new.home.value.cell.journal ≡ true) }
    ensures due { SendsDue (messages_of (act_of act ∷ [])) [] (run_state claim.old) (run_state claim.new) }
{
    match act {
        Act::Tell(_, _) => unreachable!(),
        Act::Sys(to, node) => {
            send_system(rt, gates, registrar, claim, to, node);
            Ok(())
        }
        Act::SuspendSelf => {
            gates.suspend(claim);
            Ok(())
        }
        Act::ResumeSelf => {
            gates.resume(claim);
            Ok(())
        }
        Act::CloseSelf => close(rt, gates, registrar, claim),
    }
}

// Closes the mailbox for good, and cleans up. It happens once in an actor's life.
#[cold]
#[inline(never)]
fn close<A: Actor, K: Behaviours, W: RunQueue<BoxedHome<A, K>>, R: Wait>(
    rt: &R,
    gates: &Gates<BoxedHome<A, K>>,
    registrar: &mut Registrar<BoxedHome<A, K>, W>,
    claim: &mut Claim<BoxedHome<A, K>>,
) -> Result<(), AllocError>
    requires in_acts { InActs K.gives W.origin gates.now (CloseSelf ∷ claim.old.home.value.cell.acts) registrar.old claim.old }
    ensures in_acts { InActs K.gives W.origin gates.now claim.new.home.value.cell.acts registrar.new claim.new }
    ensures left { claim.new.home.value.cell.acts ≡ claim.old.home.value.cell.acts }
    ensures advances { ActsAdvance W.pushed W.refused registrar.old registrar.new claim.old claim.new }
    ensures emptied { OnOk result (FindsNoMore claim.old.home.value.take claim.new.home.value.take) }
    ensures ended { closed claim.new.home.value.cell.who claim.new.home.value.cell.journal ≡ true }
    ensures due { SendsDue [] [] (run_state claim.old) (run_state claim.new) }
{
    gates.close_mailbox(claim);
    clean_up(rt, gates, registrar, claim)
}
