//! What is left of a run that was broken off.
ghost use Rattle.std.specs.Prelude.{◌≡◌, ◌≢◌, ◌⊎◌, ◌<◌, ◌≤◌, IfSome, None, Some, false, length, slice_get};
ghost use Rattle.std.specs.List.{position_from};
ghost use Rattle.mb_gate.specs.Accessors.{actors_of};
ghost use Rattle.mb_system.specs.declared.failure.RunError.TheVariants.{JournalFull, NoSuchActor};
ghost use Rattle.heddleorange.specs.GivesBack.{GivesNothingBack, tells_of_nothing_done};
ghost use Rattle.heddleorange.specs.Remains.{HasOwnHandles, IsBrokenOff, IsToldAs, LackOne, SawFull, ShowFull, is_full};

use crate::error::Error;
use crate::failed_run::FailedRun;
use crate::names::Names;
use mb_actor::{Actor, Behaviours};
use mb_msg::ActorId;
use mb_shutdown::{Mismatch, UnfinishedActor, unfinished_actors};
use mb_system::{Built, RunError};
use std::sync::Wait;

/// What is left of the actors of a system whose run was broken off for this reason, and the error that tells of it. This is the limit of
/// its journals.
pub(crate) fn broken_off<A: Actor, K: Behaviours, R: Wait>(
    rt: &R,
    built: Built<A, K>,
    fault: RunError,
    limit: u64,
) -> FailedRun<A>
    requires own_handles { HasOwnHandles built }
    requires somebody { fault ≢ NoSuchActor }
    requires full { fault ≡ JournalFull → SawFull (actors_of built.system.gates) limit built.handles.items }
    ensures left { IsBrokenOff K.gives built fault limit result }
    ensures back { GivesNothingBack result }
{
    let alloc = built.system.alloc;
    match unfinished_actors(rt, built) {
        Ok(actors) => {
            let error = error_of(fault, limit, &actors);
            FailedRun {
                error,
                actors,
                untouched: None,
                names: Names::new(alloc),
            }
        }
        Err(_) => FailedRun::without_actors(alloc, Error::NoMemory),
    }
}

// The error that tells of this reason, by what is left.
fn error_of(fault: RunError, limit: u64, actors: &[Option<UnfinishedActor>]) -> Error
    requires few { length actors.now ≤ 64 }
    requires somebody { fault ≢ NoSuchActor }
    requires full { fault ≡ JournalFull → ShowFull limit actors.now ⊎ LackOne actors.now }
    ensures told { IsToldAs fault limit actors.now result }
    ensures begun { tells_of_nothing_done result ≡ false }
{
    match fault {
        RunError::NoMemory => Error::NoMemoryInRun,
        RunError::NoSuchActor => unreachable!(),
        RunError::JournalFull => match first_full(limit, actors) {
            Some(number) => Error::JournalFull(ActorId(number as u16)),
            None => Error::Mismatch(Mismatch::Held(missing(actors))),
        },
    }
}

// The number of the first of these journals that has at least so many entries.
fn first_full(limit: u64, actors: &[Option<UnfinishedActor>]) -> Option<usize>
    ensures first { result ≡ position_from (is_full limit) 0 actors.now }
    ensures within { IfSome result (λ number. number < length actors.now) }
{
    actors.iter().position(|actor| is_full(limit, actor))
}

// Whether this one has so many.
fn is_full(limit: u64, actor: &Option<UnfinishedActor>) -> bool
    ensures { result ≡ is_full limit actor.now }
{
    match actor {
        Some(actor) => actor.journal.len() as u64 >= limit,
        None => false,
    }
}

// The first actor of which nothing is left. There is one.
fn missing(actors: &[Option<UnfinishedActor>]) -> ActorId
    requires few { length actors.now ≤ 64 }
    requires one { LackOne actors.now }
    ensures { slice_get actors.now result.0 ≡ Some None }
{
    for number in 0..actors.len() {
        if actors[number].is_none() {
            return ActorId(number as u16);
        }
    }
    unreachable!()
}
