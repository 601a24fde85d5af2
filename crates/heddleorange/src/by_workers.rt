//! A run on as many threads as there are workers.
ghost use Rattle.std.specs.Prelude.{◌≡◌, ℤ, pos, [], All, IfErr, IfOk, List, Option, map};
ghost use Rattle.mb_actor.specs.declared.message.Message.{Message};
ghost use Rattle.mb_actor.specs.declared.message.Message.TheVariants.{Terminated};
ghost use Rattle.mb_msg.specs.declared.id.ActorId.{ActorId as Id};
ghost use Rattle.mb_quantity.specs.Quantity.{AllConserve, Holding};
ghost use Rattle.heddleorange.specs.Conservation.{IsConserved};
ghost use Rattle.heddleorange.specs.GivesNoReport.{GivesNoReport};
ghost use Rattle.heddleorange.specs.ReportsRun.{ReportsRun};
ghost use Rattle.heddleorange.specs.WholeRun.{gives_at};

use crate::failed_run::FailedRun;
use crate::named_report::NamedReport;
use crate::planned_system::PlannedSystem;
use mb_actor::Actor;
use mb_msg::Order;
use std::alloc::Global;
use std::sync::Wait;
use std::thread::Threads;

impl<A: Actor + Send> PlannedSystem<A> {
    /// Runs it on this thread if it has one worker, as `run_here` does, and else with workers and senders on threads of their own,
    /// as `run_on_threads` does. Both promise the same, and conserve what the actors conserve.
    pub fn run<R: Threads + Wait + Sync>(
        self,
        rt: &R,
        alloc: Global,
        sends: &[Vec<Order>],
    ) -> Result<NamedReport, FailedRun<A>>
        requires unused { All (λ actor. A.content actor ≡ A.after actor []) self.actors.items }
        ensures report { IfOk result (λ done. ReportsRun A.after A.gives self.plan self.actors.items
            (map (λ orders. orders.items) sends.now) done.report) }
        ensures failure { IfErr result (GivesNoReport (gives_at self.actors.items A.gives) self.plan self.actors.items self.names.texts.items
            (map (λ orders. orders.items) sends.now)) }
        ensures names { IfOk result (λ done. done.names.texts.items ≡ self.names.texts.items) }
        ensures conserved { (worth : Message → ℤ) (holdings : List (Option Holding)) → ((ended : Id) → worth (Terminated ended) ≡ pos 0)
            → AllConserve A.after A.gives worth holdings self.actors.items → IfOk result (λ done. IsConserved worth holdings (map (λ orders. orders.items) sends.now) done.report) }
    {
        let workers = self.plan.workers;
        if workers == 1 {
            self.run_here(rt, alloc, sends)
        } else {
            self.run_on_threads(rt, alloc, sends)
        }
    }
}
