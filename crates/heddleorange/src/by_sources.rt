//! A run whose senders take their orders from sources, on as many threads as there are workers.
ghost use Rattle.std.specs.Prelude.{◌≡◌, ℤ, pos, [], All, IfErr, IfOk, List, OnOk, Option, length};
ghost use Rattle.std.specs.List.{AllZip};
ghost use Rattle.mb_actor.specs.declared.message.Message.{Message};
ghost use Rattle.mb_actor.specs.declared.message.Message.TheVariants.{Terminated};
ghost use Rattle.mb_msg.specs.declared.id.ActorId.{ActorId as Id};
ghost use Rattle.mb_quantity.specs.Quantity.{AllConserve, Holding};
ghost use Rattle.mb_source.specs.Given.{Gave, GaveAll};
ghost use Rattle.heddleorange.specs.Conservation.{IsConserved};
ghost use Rattle.heddleorange.specs.FromSources.{orders_given};
ghost use Rattle.heddleorange.specs.GivesNoReport.{GivesNoReport};
ghost use Rattle.heddleorange.specs.ReportsRun.{ReportsRun};
ghost use Rattle.heddleorange.specs.WholeRun.{gives_at};

use crate::failed_run::FailedRun;
use crate::named_report::NamedReport;
use crate::new_system::NewSystem;
use crate::planned_system::PlannedSystem;
use crate::run_from::{run_here_from, run_on_threads_from};
use mb_actor::Actor;
use mb_source::{RecordedSource, Source};
use std::alloc::Global;
use std::sync::Wait;
use std::thread::Threads;

impl<A: Actor + Send> PlannedSystem<A> {
    /// Runs it while its senders take their orders from these sources: on this thread if it has one worker, as `run_here_from` does, and else
    /// with workers and senders on threads of their own, as `run_on_threads_from` does. Both promise the same, and conserve what the actors
    /// conserve.
    pub fn run_from<S: Source + Send, R: Threads + Wait + Sync>(
        self,
        rt: &R,
        alloc: Global,
        sources: &mut [RecordedSource<S>],
    ) -> Result<NamedReport, FailedRun<A>>
        requires unused { All (λ actor. A.content actor ≡ A.after actor []) self.actors.items }
        ensures report { IfOk result (λ done. ReportsRun A.after A.gives self.plan self.actors.items
            (orders_given (length self.actors.items) sources.old sources.new) done.report) }
        ensures failure { IfErr result (GivesNoReport (gives_at self.actors.items A.gives) self.plan self.actors.items self.names.texts.items
            (orders_given (length self.actors.items) sources.old sources.new)) }
        ensures gave { AllZip (Gave S.gives S.takes_back (length self.actors.items)) sources.old sources.new }
        ensures gave_all { OnOk result (AllZip (GaveAll S.gives S.takes_back (length self.actors.items)) sources.old sources.new) }
        ensures names { IfOk result (λ done. done.names.texts.items ≡ self.names.texts.items) }
        ensures conserved { (worth : Message → ℤ) (holdings : List (Option Holding)) → ((ended : Id) → worth (Terminated ended) ≡ pos 0)
            → AllConserve A.after A.gives worth holdings self.actors.items
            → IfOk result (λ done. IsConserved worth holdings (orders_given (length self.actors.items) sources.old sources.new) done.report) }
    {
        let PlannedSystem {
            plan,
            actors,
            names,
        } = self;
        if plan.workers == 1 {
            return match run_here_from::<A, S, R>(rt, alloc, plan, actors, sources) {
                Ok(report) => Ok(NamedReport { report, names }),
                Err(failed) => Err(failed.with_names(names)),
            };
        }
        match run_on_threads_from::<A, S, R>(rt, alloc, plan, actors, sources) {
            Ok(report) => Ok(NamedReport { report, names }),
            Err(failed) => Err(failed.with_names(names)),
        }
    }
}

impl<A: Actor + Send> NewSystem<A> {
    /// Runs it while its senders take their orders from these sources, as `PlannedSystem::run_from` does.
    pub fn run_from<S: Source + Send, R: Threads + Wait + Sync>(
        self,
        rt: &R,
        alloc: Global,
        sources: &mut [RecordedSource<S>],
    ) -> Result<NamedReport, FailedRun<A>>
        ensures report { IfOk result (λ done. ReportsRun A.after A.gives self.system.plan self.system.actors.items
            (orders_given (length self.system.actors.items) sources.old sources.new) done.report) }
        ensures failure { IfErr result (GivesNoReport (gives_at self.system.actors.items A.gives) self.system.plan self.system.actors.items self.system.names.texts.items
            (orders_given (length self.system.actors.items) sources.old sources.new)) }
        ensures gave { AllZip (Gave S.gives S.takes_back (length self.system.actors.items)) sources.old sources.new }
        ensures gave_all { OnOk result (AllZip (GaveAll S.gives S.takes_back (length self.system.actors.items)) sources.old sources.new) }
        ensures names { IfOk result (λ done. done.names.texts.items ≡ self.system.names.texts.items) }
        ensures conserved { (worth : Message → ℤ) (holdings : List (Option Holding)) → ((ended : Id) → worth (Terminated ended) ≡ pos 0)
            → AllConserve A.after A.gives worth holdings self.system.actors.items
            → IfOk result (λ done. IsConserved worth holdings (orders_given (length self.system.actors.items) sources.old sources.new) done.report) }
    {
        let NewSystem { system } = self;
        system.run_from(rt, alloc, sources)
    }
}
