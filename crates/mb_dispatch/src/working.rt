//! A worker beside others.
ghost use Rattle.std.specs.Prelude.{◌≡◌, ◌<◌, ℕ, false, IfErr, IfNone, IfOk, IfSome, MatchResult, OnOk, Some, option_to_list};
ghost use Rattle.mb_gate.specs.Accessors.{actors_of, pass_view};
ghost use Rattle.mb_gate.specs.Untouched.{origin_of};
ghost use Rattle.mb_home.specs.Fresh.{IsFreshClaim};
ghost use Rattle.mb_pool.specs.Places.{gates_of};
ghost use Rattle.mb_register.specs.ActorSet.{has_actor};
ghost use Rattle.mb_system.specs.Obligations.{KeepsObligations};
ghost use Rattle.mb_system.specs.Members.{IsHandleOf, IsSameHandle, handle_caller};
ghost use Rattle.mb_system.specs.OnlyLooks.{OnlyLooks};
ghost use Rattle.mb_dispatch.specs.Claims.{RunsEachClaim, RunsEachClaimBut};
ghost use Rattle.mb_dispatch.specs.Faults.{BreaksWork, HasWorked};
ghost use Rattle.mb_dispatch.specs.Found.{FoundPoolEmpty};
ghost use Rattle.mb_dispatch.specs.Working.{KeepsHandle};

use crate::parallel::Task;
use crossbeam_utils::Backoff;
use mb_actor::{Actor, Behaviours};
use mb_gate::Claim;
use mb_home::BoxedHome;
use mb_mailbox::run_mailbox;
use mb_system::{RunActivity, RunError, System, WorkerHandle};
use std::sync::Wait;

/// Takes and runs claims until it finds none while no job of a run is open and no worker counts as busy. It owes no looks then, and
/// its last look for a claim found the pool empty. All that it does is to run mailboxes, by the system's throughput, and to look at
/// actors. No claim is lost: it runs each claim that it takes, and each that it gets goes into the run queue or, where the queue
/// refuses it, back to its actor.
///
/// It stops at the first error: `JournalFull` or `NoMemory` as a run of a mailbox answers it, and `NoMemory` if the run queue
/// refused a claim again. What was done stays done, and nothing that was owed is forgotten.
pub fn work<A: Actor, K: Behaviours, R: Wait>(
    rt: &R,
    system: &System<A, K>,
    handle: &mut WorkerHandle<A, K>,
) -> Result<(), RunError>
    requires same_gates { IsHandleOf system.now.gates handle.old.registrar }
    ensures keeps { KeepsHandle K.gives system.now handle.old handle.new }
    ensures done { OnOk result (HasWorked K.gives system.now (pass_view handle.old.registrar.pass) handle.new) }
    ensures fault { IfErr result (BreaksWork K.gives system.now (pass_view handle.old.registrar.pass) handle.new) }
{
    system.going.enter();
    let outcome = work_on(rt, system, handle);
    system.going.leave();
    outcome
}

// The worker counts as busy at the beginning and at the end.
fn work_on<A: Actor, K: Behaviours, R: Wait>(
    rt: &R,
    system: &System<A, K>,
    handle: &mut WorkerHandle<A, K>,
) -> Result<(), RunError>
    requires same_gates { IsHandleOf system.now.gates handle.old.registrar }
    ensures keeps { KeepsHandle K.gives system.now handle.old handle.new }
    ensures done { OnOk result (HasWorked K.gives system.now (pass_view handle.old.registrar.pass) handle.new) }
    ensures fault { IfErr result (BreaksWork K.gives system.now (pass_view handle.old.registrar.pass) handle.new) }
{
    for _ in rt.forever() {
        // Tried first, so that a claim which is there is run from registers.
        if let Some(claim) = handle.try_take() {
            let registrar = &mut handle.registrar;
            run_mailbox(rt, &system.gates, registrar, system.throughput, claim)?;
            continue;
        }
        let Some(claim) = next_claim(rt, system, handle)? else {
            return Ok(());
        };
        let registrar = &mut handle.registrar;
        run_mailbox(rt, &system.gates, registrar, system.throughput, claim)?;
    }
    unreachable!()
}

// The next claim of the pool. Where the pool gives none, the handle first looks after the actors to which it owes a look, and then
// waits for a claim, and counts as waiting for so long; the answer is `None` if none will come.
fn next_claim<A: Actor, K: Behaviours, R: Wait>(
    rt: &R,
    system: &System<A, K>,
    handle: &mut WorkerHandle<A, K>,
) -> Result<Option<Claim<BoxedHome<A, K>>>, RunError>
    requires same_gates { IsHandleOf system.now.gates handle.old.registrar }
    ensures same_handle { IsSameHandle system.now.gates handle.old handle.new }
    ensures untouched { IfOk result (λ next. IfSome next (IsFreshClaim K.gives (Some (origin_of system.now.gates)))) }
    ensures none { IfOk result (λ next. IfNone next (((id : ℕ) → id < actors_of system.now.gates → has_actor handle.new.registrar.owed id ≡ false)
        × FoundPoolEmpty K.gives handle.new)) }
    ensures obligations { KeepsObligations (actors_of system.now.gates) (handle_caller handle.old.registrar) (handle_caller handle.new.registrar) }
    ensures claims { MatchResult result (λ next. RunsEachClaimBut (option_to_list next) handle.old handle.new) (λ _. RunsEachClaim handle.old handle.new) }
    ensures looks { OnlyLooks (pass_view handle.old.registrar.pass) (pass_view handle.new.registrar.pass) }
    ensures fault { IfErr result (BreaksWork K.gives system.now (pass_view handle.old.registrar.pass) handle.new) }
{
    if let Some(claim) = handle.take(rt) {
        return Ok(Some(claim));
    }
    handle.retry_refused(rt, system)?;
    system.gates.idle_workers().wait_begins();
    let next = wait(rt, &system.going, handle);
    system.gates.idle_workers().wait_ends();
    Ok(next)
}

// Waits for a claim; or finds that none will come.
fn wait<A: Actor, K: Behaviours, R: Wait>(
    rt: &R,
    going: &RunActivity,
    handle: &mut WorkerHandle<A, K>,
) -> Option<Claim<BoxedHome<A, K>>>
    ensures untouched { IfSome result (IsFreshClaim K.gives (gates_of handle.old.registrar.run_queue.handle)) }
    ensures empty { IfNone result (FoundPoolEmpty K.gives handle.new) }
    ensures same { (handle.new.registrar.pass ≡ handle.old.registrar.pass) × (handle.new.registrar.owed ≡ handle.old.registrar.owed)
        × (gates_of handle.new.registrar.run_queue.handle ≡ gates_of handle.old.registrar.run_queue.handle) × (handle.new.number ≡ handle.old.number) }
    ensures claims { RunsEachClaimBut (option_to_list result) handle.old handle.new }
{
    going.leave();
    let backoff = Backoff::new();
    for _ in rt.forever() {
        // Read before the take: once it is over nobody brings a claim but a worker that has one. Read after it, a claim that was pushed
        // between the two would be left.
        // Asked only after a while: another worker that has just taken a claim counts as busy only after that.
        let is_over = backoff.is_completed() && going.is_over();
        if let Some(claim) = handle.take(rt) {
            going.enter();
            return Some(claim);
        }
        if is_over {
            // since `work` counts this worker off once more
            going.enter();
            return None;
        }
        backoff.snooze();
    }
    unreachable!()
}

impl<A: Actor, K: Behaviours> Task<System<A, K>> for WorkerHandle<A, K> {
    ghost use Rattle.std.specs.Prelude.{IfErr, OnOk};
    ghost use Rattle.mb_gate.specs.Accessors.{pass_view};
    ghost use Rattle.mb_system.specs.Members.{IsHandleOf};
    ghost use Rattle.mb_dispatch.specs.Faults.{BreaksWork, HasWorked};
    ghost use Rattle.mb_dispatch.specs.Working.{KeepsHandle};

    ghost ready = { λ system handle. IsHandleOf system.gates handle.registrar };

    ghost keeps = { λ system old new. KeepsHandle K.gives system old new };

    ghost done = { λ system old new. HasWorked K.gives system (pass_view old.registrar.pass) new };

    ghost fails = { λ system old new fault. BreaksWork K.gives system (pass_view old.registrar.pass) new fault };

    fn perform<R: Wait>(&mut self, rt: &R, shared: &System<A, K>) -> Result<(), RunError>
        requires ready { IsHandleOf shared.now.gates self.old.registrar }
        ensures keeps { KeepsHandle K.gives shared.now self.old self.new }
        ensures done { OnOk result (HasWorked K.gives shared.now (pass_view self.old.registrar.pass) self.new) }
        ensures fails { IfErr result (BreaksWork K.gives shared.now (pass_view self.old.registrar.pass) self.new) }
    {
        work(rt, shared, self)
    }
}
