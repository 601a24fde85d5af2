//! Registering whom a run told something, or sent a system message.
ghost use Rattle.std.specs.Prelude.{◌≡◌, ℕ, ◌<◌, false};
ghost use Rattle.mb_gate.specs.Accessors.{pass_view};
ghost use Rattle.mb_register.specs.Caller.{caller_of, CallerAdvances};
ghost use Rattle.mb_register.specs.ActorSet.{has_actor};
ghost use Rattle.mb_register.specs.Told.{GoInOrder};
ghost use Rattle.mb_register.specs.Views.{LooksAmong};
ghost use Rattle.mb_mailbox.specs.RunRegistrar.{IsRunRegistrarOf};

use mb_actor::{Actor, Behaviours};
use mb_gate::{Gates, RunQueue};
use mb_home::BoxedHome;
use mb_register::Registrar;
use std::sync::Wait;

/// Registers whom the run told something, or sent a system message, where a worker waits for a claim. Else they wait, for the next act
/// or for the end of the run: then no other worker begins with one of them before it has all that this run sends it.
#[inline(always)]
pub(crate) fn register_if_awaited<A: Actor, K: Behaviours, W: RunQueue<BoxedHome<A, K>>, R: Wait>(
    rt: &R,
    gates: &Gates<BoxedHome<A, K>>,
    registrar: &mut Registrar<BoxedHome<A, K>, W>,
)
    requires same_gates { IsRunRegistrarOf W.origin gates.now registrar.old }
    ensures same_gates { IsRunRegistrarOf W.origin gates.now registrar.new }
    ensures caller_advances { CallerAdvances (caller_of W.pushed W.refused registrar.old) (caller_of W.pushed W.refused registrar.new) }
    ensures looks { LooksAmong (has_actor registrar.old.told.set) (pass_view registrar.old.pass) (pass_view registrar.new.pass) }
{
    // It follows an act, which is mostly a tell: so whether a worker waits is asked first.
    if gates.idle_workers().is_any() && !registrar.told.is_empty() {
        register_told(rt, gates, registrar, false);
    }
}

/// Registers whom the run told something, or sent a system message, and has not registered yet, in order. `at_run_end` says that the
/// run is over but for that.
// Not inlined, so that the run of an actor that tells nothing has less to do.
#[inline(never)]
pub(crate) fn register_told<A: Actor, K: Behaviours, W: RunQueue<BoxedHome<A, K>>, R: Wait>(
    rt: &R,
    gates: &Gates<BoxedHome<A, K>>,
    registrar: &mut Registrar<BoxedHome<A, K>, W>,
    at_run_end: bool,
)
    requires same_gates { IsRunRegistrarOf W.origin gates.now registrar.old }
    ensures same_gates { IsRunRegistrarOf W.origin gates.now registrar.new }
    ensures caller_advances { CallerAdvances (caller_of W.pushed W.refused registrar.old) (caller_of W.pushed W.refused registrar.new) }
    ensures looks { LooksAmong (has_actor registrar.old.told.set) (pass_view registrar.old.pass) (pass_view registrar.new.pass) }
    ensures in_order { GoInOrder registrar.old.told.order (W.pushed registrar.old.run_queue) (W.pushed registrar.new.run_queue) }
    ensures none_left { (id : ℕ) → id < 64 → has_actor registrar.new.told.set id ≡ false }
{
    registrar.register_told(rt, gates, at_run_end);
}
