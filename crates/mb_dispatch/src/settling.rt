//! How a run comes to rest: what a last look finds is run.
ghost use Rattle.std.specs.Prelude.{◌≡◌, ◌++◌, All, OnOk, map};
ghost use Rattle.mb_gate.specs.Accessors.{pass_view};
ghost use Rattle.mb_system.specs.Members.{AreHandlesOf, IsSenderOf, OweNobody};
ghost use Rattle.mb_dispatch.specs.AtRest.{IsAtRest};
ghost use Rattle.mb_dispatch.specs.Faults.{BreaksWork, HasWorked};
ghost use Rattle.mb_dispatch.specs.Found.{AllFoundPoolEmpty};
ghost use Rattle.mb_dispatch.specs.Jobs.{AreJobsOf};
ghost use Rattle.mb_dispatch.specs.Parallel.{HaveEnded};
ghost use Rattle.mb_dispatch.specs.Working.{KeepsHandle};

use crate::job::Job;
use crate::last_look::is_settled;
use crate::working::work;
use mb_actor::{Actor, Behaviours};
use mb_system::{RunError, Sender, System, WorkerHandle};
use std::sync::Wait;

/// Looks whether any claim is out, by all that these handles, the senders of these jobs and these senders know together, and has the first
/// handle run what there is, on this thread, until no claim is out.
pub(crate) fn settle<A: Actor, K: Behaviours, R: Wait>(
    rt: &R,
    system: &System<A, K>,
    handles: &mut [WorkerHandle<A, K>],
    jobs: &mut [Job<A, K>],
    senders: &mut [Sender<A, K>],
) -> Result<(), RunError>
    requires handles { AreHandlesOf system.now.gates handles.old }
    requires jobs { AreJobsOf system.now.gates jobs.old }
    requires senders { All (λ s. IsSenderOf system.now.gates s) senders.old }
    requires worked { OweNobody system.now.gates handles.old × AllFoundPoolEmpty K.gives handles.old }
    ensures others { (jobs.new ≡ jobs.old) × (senders.new ≡ senders.old) }
    ensures ended { HaveEnded (KeepsHandle K.gives system.now) (λ o n. HasWorked K.gives system.now (pass_view o.registrar.pass) n)
        (λ o n. BreaksWork K.gives system.now (pass_view o.registrar.pass) n) handles.old handles.new result }
    ensures at_rest { OnOk result (IsAtRest system.now handles.new (map (λ job. job.sender) jobs.new ++ senders.new)) }
{
    for _ in rt.forever() {
        if is_settled(system, handles, jobs, senders) {
            return Ok(());
        }
        work_by_first(rt, system, handles)?;
    }
    unreachable!()
}

// The first handle takes and runs claims until it finds none.
fn work_by_first<A: Actor, K: Behaviours, R: Wait>(
    rt: &R,
    system: &System<A, K>,
    handles: &mut [WorkerHandle<A, K>],
) -> Result<(), RunError>
    requires handles { AreHandlesOf system.now.gates handles.old }
    requires worked { OweNobody system.now.gates handles.old × AllFoundPoolEmpty K.gives handles.old }
    ensures { HaveEnded (KeepsHandle K.gives system.now) (λ o n. HasWorked K.gives system.now (pass_view o.registrar.pass) n)
        (λ o n. BreaksWork K.gives system.now (pass_view o.registrar.pass) n) handles.old handles.new result }
{
    let [first, ..] = handles else {
        return Ok(());
    };
    work(rt, system, first)
}
