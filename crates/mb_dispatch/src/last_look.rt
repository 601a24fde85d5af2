//! A look by all that took part in a run, whether any claim is out.
ghost use Rattle.std.specs.Prelude.{◌≡◌, ◌<◌, ◌⊎◌, ◌++◌, ℕ, All, length, map, true};
ghost use Rattle.mb_gate.specs.Accessors.{actors_of, gates_id, pass_id, pass_view};
ghost use Rattle.mb_gate.specs.Together.{NoClaimIsOut, together};
ghost use Rattle.mb_system.specs.Members.{AreHandlesOf, IsHandleOf, IsSenderOf};
ghost use Rattle.mb_dispatch.specs.AtRest.{IsAtRest, NoClaimIsLeft, all_together, views_of, views_of_jobs, views_of_senders};
ghost use Rattle.mb_dispatch.specs.Jobs.{AreJobsOf};

use crate::at_first::at_first;
use crate::job::Job;
use mb_actor::{Actor, Behaviours};
use mb_gate::{Gates, Pass};
use mb_home::BoxedHome;
use mb_system::{Sender, System, WorkerHandle};

/// Whether no claim is out, by all that these handles, the senders of these jobs and these senders know together. Where a handle or a sender of the system is
/// missing, nobody can tell, and the answer is yes.
pub(crate) fn is_settled<A: Actor, K: Behaviours>(
    system: &System<A, K>,
    handles: &mut [WorkerHandle<A, K>],
    jobs: &mut [Job<A, K>],
    senders: &mut [Sender<A, K>],
) -> bool
    requires handles { AreHandlesOf system.now.gates handles.old }
    requires jobs { AreJobsOf system.now.gates jobs.old }
    requires senders { All (λ s. IsSenderOf system.now.gates s) senders.old }
    ensures same { (handles.new ≡ handles.old) × (jobs.new ≡ jobs.old) × (senders.new ≡ senders.old) }
    ensures at_rest { result ≡ true → IsAtRest system.now handles.old (map (λ job. job.sender) jobs.old ++ senders.old) }
{
    if handles.len() != system.workers as usize
        || jobs.len() + senders.len() != system.senders as usize
    {
        return true;
    }
    look_by_all(&system.gates, handles, jobs, senders, false)
}

// Whether no claim is out, by all that these handles, the senders of these jobs and these senders know together. If the others are to look first, without
// the first handle, the answer is no.
//
// Nobody asks for that. It makes a cycle of these calls, in which the prover compares fewer types. Outside of a cycle it meets its step limit
// at a call of `at_first` with workers' handles.
#[cycle(all)]
fn look_by_all<A: Actor, K: Behaviours>(
    gates: &Gates<BoxedHome<A, K>>,
    handles: &mut [WorkerHandle<A, K>],
    jobs: &mut [Job<A, K>],
    senders: &mut [Sender<A, K>],
    others_first: bool,
) -> bool
    requires handles { AreHandlesOf gates.now handles.old }
    requires jobs { AreJobsOf gates.now jobs.old }
    requires senders { All (λ s. IsSenderOf gates.now s) senders.old }
    ensures same { (handles.new ≡ handles.old) × (jobs.new ≡ jobs.old) × (senders.new ≡ senders.old) }
    ensures back { result ≡ true → (length handles.old ≡ 0) ⊎ NoClaimIsLeft (actors_of gates.now) (views_of handles.old jobs.old senders.old) }
{
    let looked = at_first(
        handles,
        &mut |first: &mut WorkerHandle<A, K>, others: &mut [WorkerHandle<A, K>]| -> bool
            requires { IsHandleOf gates.now first.old.registrar × AreHandlesOf gates.now others.old × AreJobsOf gates.now jobs.now × All (λ s. IsSenderOf gates.now s) senders.now }
            ensures { (first.new ≡ first.old) × (others.new ≡ others.old) × (jobs.exit.now ≡ jobs.entry.now)
                × (senders.exit.now ≡ senders.entry.now)
                × (result ≡ true → (id : ℕ) → id < actors_of gates.entry.now
                → NoClaimIsOut id (all_together (pass_view first.old.registrar.pass) (views_of others.old jobs.entry.now senders.entry.now))) }
        { look_from(gates, first, others, jobs, senders, others_first) },
    );
    let Some(answer) = looked else {
        return true;
    };
    answer
}

#[cycle(all)]
fn look_from<A: Actor, K: Behaviours>(
    gates: &Gates<BoxedHome<A, K>>,
    first: &mut WorkerHandle<A, K>,
    others: &mut [WorkerHandle<A, K>],
    jobs: &mut [Job<A, K>],
    senders: &mut [Sender<A, K>],
    others_first: bool,
) -> bool
    requires first { IsHandleOf gates.now first.old.registrar }
    requires handles { AreHandlesOf gates.now others.old }
    requires jobs { AreJobsOf gates.now jobs.old }
    requires senders { All (λ s. IsSenderOf gates.now s) senders.old }
    ensures same { (first.new ≡ first.old) × (others.new ≡ others.old) × (jobs.new ≡ jobs.old) × (senders.new ≡ senders.old) }
    ensures back { result ≡ true → (id : ℕ) → id < actors_of gates.now
        → NoClaimIsOut id (all_together (pass_view first.old.registrar.pass) (views_of others.old jobs.old senders.old)) }
{
    if others_first {
        look_by_all(gates, others, jobs, senders, false);
        return false;
    }
    look_with_handles(gates, &mut first.registrar.pass, others, jobs, senders)
}

// Whether no claim is out, by all that the pass, these handles, the senders of these jobs and these senders know together.
#[cycle(handles)]
fn look_with_handles<A: Actor, K: Behaviours>(
    gates: &Gates<BoxedHome<A, K>>,
    pass: &mut Pass<BoxedHome<A, K>>,
    handles: &mut [WorkerHandle<A, K>],
    jobs: &mut [Job<A, K>],
    senders: &mut [Sender<A, K>],
) -> bool
    requires same_gates { pass_id pass.old ≡ gates_id gates.now }
    requires handles { AreHandlesOf gates.now handles.old }
    requires jobs { AreJobsOf gates.now jobs.old }
    requires senders { All (λ s. IsSenderOf gates.now s) senders.old }
    ensures same { (pass.new ≡ pass.old) × (handles.new ≡ handles.old) × (jobs.new ≡ jobs.old) × (senders.new ≡ senders.old) }
    ensures back { result ≡ true → (id : ℕ) → id < actors_of gates.now
        → NoClaimIsOut id (all_together (pass_view pass.old) (views_of handles.old jobs.old senders.old)) }
{
    let looked = at_first(
        handles,
        &mut |handle: &mut WorkerHandle<A, K>, others: &mut [WorkerHandle<A, K>]| -> bool
            requires { (pass_id pass.now ≡ gates_id gates.now) × IsHandleOf gates.now handle.old.registrar
                × AreHandlesOf gates.now others.old × AreJobsOf gates.now jobs.now × All (λ s. IsSenderOf gates.now s) senders.now }
            ensures { (pass.exit.now ≡ pass.entry.now) × (handle.new ≡ handle.old) × (others.new ≡ others.old) × (jobs.exit.now ≡ jobs.entry.now)
                × (senders.exit.now ≡ senders.entry.now)
                × (result ≡ true → (id : ℕ) → id < actors_of gates.entry.now
                → NoClaimIsOut id (all_together (together (pass_view pass.entry.now) (pass_view handle.old.registrar.pass)) (views_of others.old jobs.entry.now senders.entry.now))) }
        { look_with_handle(gates, pass, handle, others, jobs, senders) },
    );
    let Some(answer) = looked else {
        return look_with_jobs(gates, pass, jobs, senders);
    };
    answer
}

#[cycle(handles)]
fn look_with_handle<A: Actor, K: Behaviours>(
    gates: &Gates<BoxedHome<A, K>>,
    pass: &mut Pass<BoxedHome<A, K>>,
    handle: &mut WorkerHandle<A, K>,
    others: &mut [WorkerHandle<A, K>],
    jobs: &mut [Job<A, K>],
    senders: &mut [Sender<A, K>],
) -> bool
    requires same_gates { pass_id pass.old ≡ gates_id gates.now }
    requires handle { IsHandleOf gates.now handle.old.registrar }
    requires handles { AreHandlesOf gates.now others.old }
    requires jobs { AreJobsOf gates.now jobs.old }
    requires senders { All (λ s. IsSenderOf gates.now s) senders.old }
    ensures same { (pass.new ≡ pass.old) × (handle.new ≡ handle.old) × (others.new ≡ others.old) × (jobs.new ≡ jobs.old) × (senders.new ≡ senders.old) }
    ensures back { result ≡ true → (id : ℕ) → id < actors_of gates.now
        → NoClaimIsOut id (all_together (together (pass_view pass.old) (pass_view handle.old.registrar.pass)) (views_of others.old jobs.old senders.old)) }
{
    gates.look_together(
        pass,
        &mut handle.registrar.pass,
        &mut |all: &mut Pass<BoxedHome<A, K>>| -> bool
            requires { (pass_id all.old ≡ gates_id gates.now) × AreHandlesOf gates.now others.now × AreJobsOf gates.now jobs.now × All (λ s. IsSenderOf gates.now s) senders.now }
            ensures { (all.new ≡ all.old) × (others.exit.now ≡ others.entry.now) × (jobs.exit.now ≡ jobs.entry.now)
                × (senders.exit.now ≡ senders.entry.now)
                × (result ≡ true → (id : ℕ) → id < actors_of gates.entry.now
                → NoClaimIsOut id (all_together (pass_view all.old) (views_of others.entry.now jobs.entry.now senders.entry.now))) }
        { look_with_handles(gates, all, others, jobs, senders) },
    )
}

// Whether no claim is out, by all that the pass, the senders of these jobs and these senders know together.
#[cycle(jobs)]
fn look_with_jobs<A: Actor, K: Behaviours>(
    gates: &Gates<BoxedHome<A, K>>,
    pass: &mut Pass<BoxedHome<A, K>>,
    jobs: &mut [Job<A, K>],
    senders: &mut [Sender<A, K>],
) -> bool
    requires same_gates { pass_id pass.old ≡ gates_id gates.now }
    requires jobs { AreJobsOf gates.now jobs.old }
    requires senders { All (λ s. IsSenderOf gates.now s) senders.old }
    ensures same { (pass.new ≡ pass.old) × (jobs.new ≡ jobs.old) × (senders.new ≡ senders.old) }
    ensures back { result ≡ true → (id : ℕ) → id < actors_of gates.now
        → NoClaimIsOut id (all_together (pass_view pass.old) (views_of_jobs jobs.old ++ views_of_senders senders.old)) }
{
    let looked = at_first(
        jobs,
        &mut |job: &mut Job<A, K>, others: &mut [Job<A, K>]| -> bool
            requires { (pass_id pass.now ≡ gates_id gates.now) × IsSenderOf gates.now job.old.sender
                × AreJobsOf gates.now others.old × All (λ s. IsSenderOf gates.now s) senders.now }
            ensures { (pass.exit.now ≡ pass.entry.now) × (job.new ≡ job.old) × (others.new ≡ others.old)
                × (senders.exit.now ≡ senders.entry.now)
                × (result ≡ true → (id : ℕ) → id < actors_of gates.entry.now
                → NoClaimIsOut id (all_together (together (pass_view pass.entry.now) (pass_view job.old.sender.registrar.pass)) (views_of_jobs others.old ++ views_of_senders senders.entry.now))) }
        { look_with_job(gates, pass, job, others, senders) },
    );
    let Some(answer) = looked else {
        return look_with_senders(gates, pass, senders);
    };
    answer
}

#[cycle(jobs)]
fn look_with_job<A: Actor, K: Behaviours>(
    gates: &Gates<BoxedHome<A, K>>,
    pass: &mut Pass<BoxedHome<A, K>>,
    job: &mut Job<A, K>,
    others: &mut [Job<A, K>],
    senders: &mut [Sender<A, K>],
) -> bool
    requires same_gates { pass_id pass.old ≡ gates_id gates.now }
    requires job { IsSenderOf gates.now job.old.sender }
    requires jobs { AreJobsOf gates.now others.old }
    requires senders { All (λ s. IsSenderOf gates.now s) senders.old }
    ensures same { (pass.new ≡ pass.old) × (job.new ≡ job.old) × (others.new ≡ others.old) × (senders.new ≡ senders.old) }
    ensures back { result ≡ true → (id : ℕ) → id < actors_of gates.now
        → NoClaimIsOut id (all_together (together (pass_view pass.old) (pass_view job.old.sender.registrar.pass)) (views_of_jobs others.old ++ views_of_senders senders.old)) }
{
    gates.look_together(
        pass,
        &mut job.sender.registrar.pass,
        &mut |all: &mut Pass<BoxedHome<A, K>>| -> bool
            requires { (pass_id all.old ≡ gates_id gates.now) × AreJobsOf gates.now others.now × All (λ s. IsSenderOf gates.now s) senders.now }
            ensures { (all.new ≡ all.old) × (others.exit.now ≡ others.entry.now) × (senders.exit.now ≡ senders.entry.now)
                × (result ≡ true → (id : ℕ) → id < actors_of gates.entry.now
                → NoClaimIsOut id (all_together (pass_view all.old) (views_of_jobs others.entry.now ++ views_of_senders senders.entry.now))) }
        { look_with_jobs(gates, all, others, senders) },
    )
}

// Whether no claim is out, by all that the pass and these senders know together.
#[cycle(senders)]
fn look_with_senders<A: Actor, K: Behaviours>(
    gates: &Gates<BoxedHome<A, K>>,
    pass: &mut Pass<BoxedHome<A, K>>,
    senders: &mut [Sender<A, K>],
) -> bool
    requires same_gates { pass_id pass.old ≡ gates_id gates.now }
    requires senders { All (λ s. IsSenderOf gates.now s) senders.old }
    ensures same { (pass.new ≡ pass.old) × (senders.new ≡ senders.old) }
    ensures back { result ≡ true → (id : ℕ) → id < actors_of gates.now
        → NoClaimIsOut id (all_together (pass_view pass.old) (views_of_senders senders.old)) }
{
    let looked = at_first(
        senders,
        &mut |sender: &mut Sender<A, K>, others: &mut [Sender<A, K>]| -> bool
            requires { (pass_id pass.now ≡ gates_id gates.now) × IsSenderOf gates.now sender.old
                × All (λ s. IsSenderOf gates.now s) others.old }
            ensures { (pass.exit.now ≡ pass.entry.now) × (sender.new ≡ sender.old) × (others.new ≡ others.old)
                × (result ≡ true → (id : ℕ) → id < actors_of gates.entry.now
                → NoClaimIsOut id (all_together (together (pass_view pass.entry.now) (pass_view sender.old.registrar.pass)) (views_of_senders others.old))) }
        { look_with_sender(gates, pass, sender, others) },
    );
    let Some(answer) = looked else {
        return gates.are_given_back(pass);
    };
    answer
}

#[cycle(senders)]
fn look_with_sender<A: Actor, K: Behaviours>(
    gates: &Gates<BoxedHome<A, K>>,
    pass: &mut Pass<BoxedHome<A, K>>,
    sender: &mut Sender<A, K>,
    others: &mut [Sender<A, K>],
) -> bool
    requires same_gates { pass_id pass.old ≡ gates_id gates.now }
    requires sender { IsSenderOf gates.now sender.old }
    requires senders { All (λ s. IsSenderOf gates.now s) others.old }
    ensures same { (pass.new ≡ pass.old) × (sender.new ≡ sender.old) × (others.new ≡ others.old) }
    ensures back { result ≡ true → (id : ℕ) → id < actors_of gates.now
        → NoClaimIsOut id (all_together (together (pass_view pass.old) (pass_view sender.old.registrar.pass)) (views_of_senders others.old)) }
{
    gates.look_together(
        pass,
        &mut sender.registrar.pass,
        &mut |all: &mut Pass<BoxedHome<A, K>>| -> bool
            requires { (pass_id all.old ≡ gates_id gates.now) × All (λ s. IsSenderOf gates.now s) others.now }
            ensures { (all.new ≡ all.old) × (others.exit.now ≡ others.entry.now)
                × (result ≡ true → (id : ℕ) → id < actors_of gates.entry.now
                → NoClaimIsOut id (all_together (pass_view all.old) (views_of_senders others.entry.now))) }
        { look_with_senders(gates, all, others) },
    )
}
