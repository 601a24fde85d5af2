//! Ending a system, with a report or the reason why there is none.
ghost use Rattle.std.specs.Prelude.{◌≡◌, ◌<◌, ◌≤◌, [], All, IfErr, IfOk, IfSome, MatchOption, length, vec_capacity};
ghost use Rattle.mb_gate.specs.Accessors.{actors_of};
ghost use Rattle.mb_shutdown.specs.Rooms.{AreCounted, HasOnlyCounted, IsRoom, counted_in};
ghost use Rattle.mb_shutdown.specs.Headline.{Headline};
ghost use Rattle.mb_shutdown.specs.Idle.{WereReadIdle};
ghost use Rattle.mb_system.specs.Belonging.{BelongsTogether};
ghost use Rattle.mb_system.specs.Members.{IsHandleOf};
ghost use Rattle.mb_shutdown.specs.Belonging.{HasRead, AllFoundIdle};
ghost use Rattle.mb_shutdown.specs.Refused.{DisagreesIfSaid, FindsBusy, IsComplete, IsRefusal};
ghost use Rattle.mb_shutdown.specs.Reported.{AddsUp, IsReportOnSystem};

use crate::finished_sender::FinishedSender;
use crate::gather::gather;
use crate::idle::first_busy;
use crate::mismatch::Mismatch;
use crate::missing::missing;
use crate::report::build_report;
use crate::room::{Room, make_room};
use mb_actor::{Actor, Behaviours};
use mb_msg::ActorId;
use mb_report::Report;
use mb_system::Built;
use std::sync::Wait;

/// Why there is no report.
#[derive(Drop)]
pub enum FinishError<A: Actor, K: Behaviours> {
    /// The handle of this worker is missing. All comes back.
    MissingHandle(u32, Built<A, K>),
    /// This sender is missing, counted from 0. All comes back.
    MissingSender(u32, Built<A, K>),
    /// This actor is scheduled, or has something to run. All comes back.
    NotQuiet(ActorId, Built<A, K>),
    /// Memory was refused. All comes back.
    NoMemory(Built<A, K>),
    /// Something does not agree. Nothing comes back.
    Mismatch(Mismatch),
}

/// Ends the system: the report of what became of each actor, the guardian first, and of each envelope. (This project's own
/// profile: Akka's `ActorSystem.terminate` stops the actors, and reports nothing of them.)
///
/// It answers the least number of a worker whose handle is missing; else that of a sender that is missing; else the least actor
/// that is scheduled or has something to run; else `NoMemory` if memory was refused. In these cases all comes back, and the
/// call may be made again. Else it answers what does not agree, and nothing comes back.
pub fn finish<A: Actor, K: Behaviours, R: Wait>(
    rt: &R,
    built: Built<A, K>,
) -> Result<Report, FinishError<A, K>>
    requires together { BelongsTogether built }
    ensures report { IfOk result (IsReportOnSystem K.after K.gives built) }
    ensures headline { IfOk result (Headline K.after K.gives built) }
    ensures all_idle { IfOk result (λ _. IsComplete built × AllFoundIdle built) }
    ensures adds_up { IfOk result (AddsUp K.gives built) }
    ensures refused { IfErr result (IsRefusal built) }
    ensures disagreement { IfErr result (DisagreesIfSaid K.gives built) }
{
    if let Some(number) = missing(built.system.workers, &built.handles) {
        return Err(FinishError::MissingHandle(number, built));
    }
    if let Some(number) = missing(built.system.senders, &built.senders) {
        return Err(FinishError::MissingSender(number, built));
    }
    let mut built = built;
    if let Some(id) = first_busy_of(&mut built) {
        return Err(FinishError::NotQuiet(id, built));
    }
    let Some((room, mut outside)) = room_of(&mut built) else {
        return Err(FinishError::NoMemory(built));
    };
    let (gates, pass) = gather(built, &mut outside);
    match build_report(rt, gates, pass, outside, room) {
        Ok(report) => Ok(report),
        Err(mismatch) => Err(FinishError::Mismatch(mismatch)),
    }
}

// The least actor that is scheduled or has something to run.
fn first_busy_of<A: Actor, K: Behaviours>(built: &mut Built<A, K>) -> Option<ActorId>
    requires same_gates { All (λ e. IsHandleOf built.old.system.gates e.registrar) built.old.handles.items }
    requires not_empty { 0 < length built.old.handles.items }
    ensures { MatchOption result (HasRead (WereReadIdle 0 (actors_of built.old.system.gates)) built.old built.new)
        (λ id. (id.0 < actors_of built.old.system.gates) × HasRead (FindsBusy id.0) built.old built.new) }
{
    let system = &built.system;
    first_busy(&system.gates, &mut built.handles[0].registrar.pass)
}

// All the memory that is needed.
fn room_of<A: Actor, K: Behaviours>(
    built: &mut Built<A, K>,
) -> Option<(Room<A, K>, Vec<FinishedSender>)>
    requires same_gates { All (λ e. IsHandleOf built.old.system.gates e.registrar) built.old.handles.items }
    requires not_empty { 0 < length built.old.handles.items }
    requires within_limit { length built.old.senders.items ≤ 16 }
    ensures read { HasRead HasOnlyCounted built.old built.new }
    ensures room { IfSome result (λ made. IsRoom (actors_of built.old.system.gates) (length built.old.senders.items) made.0
        × (made.1.items ≡ []) × (length built.old.senders.items ≤ vec_capacity made.1)) }
    ensures waiting { IfSome result (λ made. HasRead (λ _ after. AreCounted after.log (counted_in made.0)) built.old built.new) }
{
    let system = &built.system;
    let senders = built.senders.len();
    let room = make_room(
        system.alloc,
        &system.gates,
        &mut built.handles[0].registrar.pass,
        senders,
    );
    let (Ok(room), Ok(outside)) = (room, Vec::with_capacity(system.alloc, senders)) else {
        return None;
    };
    Some((room, outside))
}
