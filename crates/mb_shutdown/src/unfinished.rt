//! What is left of the actors of a run that was broken off.
ghost use Rattle.std.specs.Prelude.{◌≡◌, ◌<◌, ◌≤◌, [], All, IfOk, length, vec_capacity};
ghost use Rattle.std.specs.List.{AllZip};
ghost use Rattle.mb_gate.specs.Accessors.{gates_id, pass_id, pass_view};
ghost use Rattle.mb_gate.specs.Rule.{IsPart};
ghost use Rattle.mb_shutdown.specs.Unfinished.{AreUnfinished, GivesBack, HaveGivenBack, ShowsCellNow, ShowsHome};
ghost use Rattle.mb_system.specs.Members.{AreHandlesOf, IsHandleOf};

use mb_actor::{Actor, Behaviours, Phase};
use mb_gate::{Gates, Pass, ReturnedActor};
use mb_home::{BoxedHome, HomeParts};
use mb_journal::Journal;
use mb_msg::SysMsg;
use mb_system::{Built, System, WorkerHandle};
use std::alloc::AllocError;
use std::sync::Wait;

/// What is left of an actor of a run that was broken off.
#[derive(Drop)]
pub struct UnfinishedActor {
    /// The phase of its life.
    pub phase: Phase,
    /// How many suspensions keep its envelopes waiting: 0 once it is closed.
    pub count: u64,
    /// What came to it and what became of it.
    pub journal: Journal,
    /// The system messages that are set aside, with their numbers.
    pub aside: Vec<(u64, SysMsg)>,
}

/// Ends a system whose run was broken off, by its workers' handles: what is left of each actor, the guardian first, and `None` for
/// one of which a claim is out. Claims that are still in the pool go back to their actors first. Senders may be missing. (This
/// project's own profile: Akka shows nothing of an actor system that was broken off.)
///
/// The only error: memory was refused. The system is dropped then.
pub fn unfinished_actors<A: Actor, K: Behaviours, R: Wait>(
    rt: &R,
    built: Built<A, K>,
) -> Result<Vec<Option<UnfinishedActor>>, AllocError>
    requires same_gates { AreHandlesOf built.system.gates built.handles.items }
    requires not_empty { 0 < length built.handles.items }
    ensures { IfOk result (λ actors. AreUnfinished K.gives built actors.items) }
{
    let alloc = built.system.alloc;
    let actors = built.system.gates.actors();
    let homes = Vec::with_capacity(alloc, actors)?;
    let room = Vec::with_capacity(alloc, actors)?;
    let Built {
        system,
        handles,
        senders: _,
    } = built;
    let System {
        gates,
        pool: _,
        going: _,
        workers: _,
        senders: _,
        throughput: _,
        alloc: _,
    } = system;
    let pass = give_all_back(rt, &gates, handles);
    let all = gates.finish(pass, homes);
    Ok(show_all(all, room))
}

// What all these handles know, once each claim that they find went back to its actor.
fn give_all_back<A: Actor, K: Behaviours, R: Wait>(
    rt: &R,
    gates: &Gates<BoxedHome<A, K>>,
    handles: Vec<WorkerHandle<A, K>>,
) -> Pass<BoxedHome<A, K>>
    requires same_gates { AreHandlesOf gates.now handles.items }
    requires not_empty { 0 < length handles.items }
    ensures same_gates { pass_id result ≡ gates_id gates.now }
    ensures seen { All (λ e. IsPart (pass_view e.registrar.pass).log (pass_view result).log) handles.items }
    ensures back { HaveGivenBack K.gives handles.items (pass_view result) }
{
    let mut handles = handles.into_iter();
    let Some(first) = handles.next() else {
        unreachable!()
    };
    let mut pass = give_back(rt, gates, first);
    for handle in handles {
        let other = give_back(rt, gates, handle);
        gates.absorb(&mut pass, other);
    }
    pass
}

// What this handle knows, once each claim that it finds went back to its actor.
fn give_back<A: Actor, K: Behaviours, R: Wait>(
    rt: &R,
    gates: &Gates<BoxedHome<A, K>>,
    handle: WorkerHandle<A, K>,
) -> Pass<BoxedHome<A, K>>
    requires same_gates { IsHandleOf gates.now handle.registrar }
    ensures same_gates { pass_id result ≡ gates_id gates.now }
    ensures seen { IsPart (pass_view handle.registrar.pass).log (pass_view result).log }
    ensures back { GivesBack K.gives handle.registrar.run_queue (pass_view handle.registrar.pass) (pass_view result) }
{
    let mut handle = handle;
    for _ in rt.forever() {
        let Some(claim) = handle.take(rt) else {
            return handle.into_pass();
        };
        gates.release(claim, &mut handle.registrar.pass);
    }
    unreachable!()
}

// What each of these homes shows.
fn show_all<A: Actor, K: Behaviours>(
    all: Vec<Option<ReturnedActor<BoxedHome<A, K>>>>,
    room: Vec<Option<UnfinishedActor>>,
) -> Vec<Option<UnfinishedActor>>
    requires room { (room.items ≡ []) × (length all.items ≤ vec_capacity room) }
    ensures { AllZip ShowsHome all.items result.items }
{
    let mut actors = room;
    for left in all {
        actors.push_reserved(shown(left));
    }
    actors
}

// What this home shows, if it came back.
fn shown<A: Actor, K: Behaviours>(
    left: Option<ReturnedActor<BoxedHome<A, K>>>,
) -> Option<UnfinishedActor>
    ensures { ShowsHome left result }
{
    match left {
        Some(returned) => Some(unfinished_actor(returned)),
        None => None,
    }
}

fn unfinished_actor<A: Actor, K: Behaviours>(
    returned: ReturnedActor<BoxedHome<A, K>>,
) -> UnfinishedActor
    ensures { ShowsCellNow returned.home.value.cell result }
{
    let ReturnedActor {
        home,
        given: _,
        listed: _,
    } = returned;
    let HomeParts {
        cell,
        take: _,
        sends: _,
        sent: _,
        dead: _,
        cleaned: _,
        dead_system: _,
    } = Box::into_inner(home).into_parts();
    let phase = cell.phase();
    let count = cell.count();
    let parts = cell.into_parts();
    UnfinishedActor {
        phase,
        count,
        journal: parts.journal,
        aside: parts.aside,
    }
}
