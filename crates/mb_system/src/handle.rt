//! The handle of a worker in a system.
ghost use Rattle.std.specs.Prelude.{◌≡◌, ◌++◌, [], All, IfNone, IfSome, IsErrOf, MatchResult, OnErr, OnOk, map, option_to_list};
ghost use Rattle.mb_gate.specs.Accessors.{actors_of, pass_view};
ghost use Rattle.mb_pool.specs.Places.{gates_of, ports_of};
ghost use Rattle.mb_pool.specs.Moves.{WasEmpty};
ghost use Rattle.mb_pool.specs.WorkerPorts.{TakesClaim};
ghost use Rattle.mb_register.specs.Caller.{LeavesCaller};
ghost use Rattle.mb_home.specs.Fresh.{IsFreshClaim};
ghost use Rattle.mb_register.specs.Registering.{StopsAt};
ghost use Rattle.mb_system.specs.Obligations.{AreDischargedOrOwed, ForgetsNothing, HasRetried};
ghost use Rattle.mb_system.specs.Members.{claims_taken, handle_caller, IsHandleOf, IsSameHandle};
ghost use Rattle.mb_system.specs.OnlyLooks.{LooksForWork};
ghost use Rattle.mb_system.specs.Registered.{AreRegistered};

use crate::failure::RunError;
use crate::kept_parts::pass_of;
use crate::system::System;
use mb_actor::{Actor, Behaviours};
use mb_gate::{Claim, MailboxState, Pass};
use mb_ghost::Log;
use mb_home::BoxedHome;
use mb_msg::ActorId;
use mb_pool::WorkerPort;
use mb_register::{Hint, Registrar};
use std::snapshot::Snapshot;
use std::sync::Wait;

/// The handle of a worker in a system: its port of the run queue, what it knows of the actors, and to which actors it owes a look.
/// A thread of its own may have it.
pub struct WorkerHandle<A: Actor, K: Behaviours> {
    /// Its number among the system's handles, from 0 on.
    pub number: u32,
    /// What it knows of the actors, its port of the run queue, and the actors to which it owes a look.
    pub registrar: Registrar<BoxedHome<A, K>, WorkerPort<BoxedHome<A, K>>>,
    /// The claims that it took out of its port, in order, for proofs alone.
    pub taken: Log<Snapshot<Claim<BoxedHome<A, K>>>>,
}

impl<A: Actor, K: Behaviours> Drop for WorkerHandle<A, K> {
    fn drop(self) {
        let _ = self.into_pass();
    }
}

impl<A: Actor, K: Behaviours> WorkerHandle<A, K> {
    /// What the handle knows. Its port of the run queue is dropped.
    pub fn into_pass(self) -> Pass<BoxedHome<A, K>>
        ensures { result ≡ self.registrar.pass }
    {
        let WorkerHandle {
            number: _,
            registrar,
            taken: _,
        } = self;
        pass_of(registrar)
    }

    /// Registers all actors, each once, in the order of their numbers. Each is owed nothing then, or is in the set of actors that
    /// it owes a look.
    pub fn register_all<R: Wait>(&mut self, rt: &R, system: &System<A, K>)
        requires same_gates { IsHandleOf system.now.gates self.old.registrar }
        ensures same_handle { IsSameHandle system.now.gates self.old self.new }
        ensures leaves { LeavesCaller (handle_caller self.old.registrar) (handle_caller self.new.registrar) }
        ensures looks_for_work { LooksForWork (pass_view self.old.registrar.pass) (pass_view self.new.registrar.pass) }
        ensures discharged { AreDischargedOrOwed (actors_of system.now.gates) (handle_caller self.new.registrar) }
        ensures registered { AreRegistered (handle_caller self.old.registrar) (actors_of system.now.gates) (handle_caller self.new.registrar) }
        ensures log { self.new.taken ≡ self.old.taken }
    {
        for number in 0..system.gates.actors() {
            let id = ActorId(number as u16);
            self.registrar
                .register(rt, &system.gates, id, Hint::None, false);
        }
    }

    /// Takes the claim that its port keeps, or else the claim of an actor out of the pool, as it was pushed, and no other: the first
    /// of the first place that has one. The actor's mailbox is to be run. It answers `None` only if none is kept and each place in
    /// which it looks was empty at some moment; then the handle is as it was.
    #[inline(always)]
    pub fn take<R: Wait>(&mut self, rt: &R) -> Option<Claim<BoxedHome<A, K>>>
        ensures untouched { IfSome result (IsFreshClaim K.gives (gates_of self.old.registrar.run_queue.handle)) }
        ensures taken { IfSome result (λ claim. TakesClaim (IsFreshClaim K.gives) self.old.registrar.run_queue claim self.new.registrar.run_queue) }
        ensures none { IfNone result ((self.new ≡ self.old) × (self.old.registrar.run_queue.next ≡ [])
            × All (WasEmpty (IsFreshClaim K.gives)) (ports_of self.old.registrar.run_queue.handle)) }
        ensures same { (self.new.registrar.pass ≡ self.old.registrar.pass) × (self.new.registrar.owed ≡ self.old.registrar.owed)
            × (gates_of self.new.registrar.run_queue.handle ≡ gates_of self.old.registrar.run_queue.handle) × (self.new.number ≡ self.old.number) }
        ensures log { claims_taken self.new ≡ claims_taken self.old ++ option_to_list result }
        ensures account { (handle_caller self.new.registrar).account ≡ (handle_caller self.old.registrar).account }
    {
        let next = self.registrar.run_queue.take(rt);
        note_taken(&mut self.taken, &next);
        next
    }

    /// Takes the claim that its port keeps, or else the claim of an actor out of the pool by one attempt, as it was pushed, and no
    /// other: the first of the first place in which the handle looks. The actor's mailbox is to be run. It answers `None` if none is
    /// kept and that place was empty, or another thread was in the way; then the handle is as it was. It does not wait.
    #[inline(always)]
    pub fn try_take(&mut self) -> Option<Claim<BoxedHome<A, K>>>
        ensures untouched { IfSome result (IsFreshClaim K.gives (gates_of self.old.registrar.run_queue.handle)) }
        ensures taken { IfSome result (λ claim. TakesClaim (IsFreshClaim K.gives) self.old.registrar.run_queue claim self.new.registrar.run_queue) }
        ensures none { IfNone result ((self.new ≡ self.old) × (self.old.registrar.run_queue.next ≡ [])) }
        ensures same { (self.new.registrar.pass ≡ self.old.registrar.pass) × (self.new.registrar.owed ≡ self.old.registrar.owed)
            × (gates_of self.new.registrar.run_queue.handle ≡ gates_of self.old.registrar.run_queue.handle) × (self.new.number ≡ self.old.number) }
        ensures log { claims_taken self.new ≡ claims_taken self.old ++ option_to_list result }
        ensures account { (handle_caller self.new.registrar).account ≡ (handle_caller self.old.registrar).account }
    {
        let next = self.registrar.run_queue.try_take();
        note_taken(&mut self.taken, &next);
        next
    }

    /// Registers each actor again to which the handle owes a look.
    ///
    /// It answers `NoMemory` only if the run queue refused a claim again: then a look is still owed to that actor and to those
    /// after it. Whatever is answered, nothing that was owed is forgotten.
    pub fn retry_refused<R: Wait>(&mut self, rt: &R, system: &System<A, K>) -> Result<(), RunError>
        requires same_gates { IsHandleOf system.now.gates self.old.registrar }
        ensures same_handle { IsSameHandle system.now.gates self.old self.new }
        ensures retried { OnOk result (HasRetried (actors_of system.now.gates) (handle_caller self.old.registrar) (handle_caller self.new.registrar)) }
        ensures forgets_nothing { ForgetsNothing (actors_of system.now.gates) (handle_caller self.old.registrar) (handle_caller self.new.registrar) }
        ensures stops { MatchResult result
            (λ _. (handle_caller self.new.registrar).account.refused ≡ (handle_caller self.old.registrar).account.refused)
            (λ _. StopsAt (handle_caller self.old.registrar).account (handle_caller self.new.registrar).account) }
        ensures refused { OnErr result (IsErrOf result RunError.NoMemory) }
        ensures looks_for_work { LooksForWork (pass_view self.old.registrar.pass) (pass_view self.new.registrar.pass) }
        ensures log { self.new.taken ≡ self.old.taken }
    {
        self.registrar.retry_refused(rt, &system.gates)?;
        Ok(())
    }
}

// For proofs alone: adds the claim that was taken, if there is one.
#[inline(always)]
fn note_taken<H: MailboxState>(taken: &mut Log<Snapshot<Claim<H>>>, next: &Option<Claim<H>>)
    ensures log { map (λ claim. claim.value) taken.new ≡ map (λ claim. claim.value) taken.old ++ option_to_list next.now }
    ensures none { IfNone next.now (taken.new ≡ taken.old) }
{
    if let Some(claim) = next {
        taken.add(Snapshot::of(claim));
    }
}
