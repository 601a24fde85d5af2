//! What the handle of a worker is called for.
ghost use Rattle.std.specs.Prelude.{◌≡◌, ◌<◌, All, length};
ghost use Rattle.mb_system.specs.Members.{AreHandlesOf, IsHandleOf, IsSenderOf};

use mb_actor::{Actor, Behaviours};
use mb_dispatch::{
    RunError, Sender, System, Turn, Turns, WorkerHandle, run_mailbox, run_quietly, work,
};
use mb_msg::{ActorId, JournalMode};
use mb_register::Hint;
use std::sync::Wait;

/// What a handle is to do.
#[derive(Clone, Copy)]
pub enum HandleCall {
    /// It runs claims on this thread until none is there.
    RunQuietly,
    /// It registers an actor.
    Register(ActorId),
    /// It takes a claim and runs its mailbox.
    Turn,
    /// It works until there is no claim.
    Work,
}

/// What it answers.
#[derive(Drop)]
pub enum HandleAnswer {
    /// What each run did.
    Turns(Result<Turns, RunError>),
    /// Whether the actor's claim went into the pool.
    Registered(bool),
    /// What the run did.
    Turned(Turn),
    /// Whether it worked to the end.
    Worked(Result<(), RunError>),
}

/// Calls the first handle. Nothing where there is no such actor, where there is no claim to take, or where the run of its mailbox is broken
/// off.
pub(crate) fn call_handle<A: Actor, K: Behaviours, R: Wait>(
    rt: &R,
    system: &System<A, K>,
    handles: &mut [WorkerHandle<A, K>],
    senders: &mut [Sender<A, K>],
    call: HandleCall,
) -> Option<HandleAnswer>
    requires handles { AreHandlesOf system.now.gates handles.old }
    requires senders { All (λ s. IsSenderOf system.now.gates s) senders.old }
    requires not_empty { 0 < length handles.old }
    ensures handles { AreHandlesOf system.now.gates handles.new }
    ensures senders { senders.new ≡ senders.old }
{
    match call {
        HandleCall::RunQuietly => Some(HandleAnswer::Turns(run_quietly(
            rt,
            system,
            handles,
            senders,
            JournalMode::Kept,
        ))),
        HandleCall::Register(id) => register(rt, system, &mut handles[0], id),
        HandleCall::Turn => match run_next(rt, system, &mut handles[0]) {
            Some(turn) => Some(HandleAnswer::Turned(turn)),
            None => None,
        },
        HandleCall::Work => Some(HandleAnswer::Worked(work(rt, system, &mut handles[0]))),
    }
}

// Registers an actor, where there is one.
fn register<A: Actor, K: Behaviours, R: Wait>(
    rt: &R,
    system: &System<A, K>,
    handle: &mut WorkerHandle<A, K>,
    id: ActorId,
) -> Option<HandleAnswer>
    requires same_gates { IsHandleOf system.now.gates handle.old.registrar }
    ensures same_gates { IsHandleOf system.now.gates handle.new.registrar }
{
    if id.0 as usize >= system.gates.actors() {
        return None;
    }
    let registrar = &mut handle.registrar;
    let is_pushed = registrar.register(rt, &system.gates, id, Hint::None, false);
    Some(HandleAnswer::Registered(is_pushed))
}

// Takes a claim and runs its mailbox.
fn run_next<A: Actor, K: Behaviours, R: Wait>(
    rt: &R,
    system: &System<A, K>,
    handle: &mut WorkerHandle<A, K>,
) -> Option<Turn>
    requires same_gates { IsHandleOf system.now.gates handle.old.registrar }
    ensures same_gates { IsHandleOf system.now.gates handle.new.registrar }
{
    match handle.take(rt) {
        Some(claim) => {
            let registrar = &mut handle.registrar;
            run_mailbox(rt, &system.gates, registrar, system.throughput, claim).ok()
        }
        None => None,
    }
}
