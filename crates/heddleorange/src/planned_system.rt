//! A plan and its actors, added together.
ghost use Rattle.std.specs.Prelude.{◌≡◌, [], All, IfErr, IfOk, length, map};
ghost use Rattle.heddleorange.specs.GivesNoReport.{GivesNoReport};
ghost use Rattle.heddleorange.specs.ReportsRun.{ReportsRun};
ghost use Rattle.heddleorange.specs.Settings.{HasSettings};
ghost use Rattle.heddleorange.specs.WholeRun.{gives_at};

use crate::failed_run::FailedRun;
use crate::named_report::NamedReport;
use crate::names::Names;
use crate::run::{run_here, run_on_threads};
use mb_actor::Actor;
use mb_msg::{JournalMode, Order, Plan, PoolKind};
use std::alloc::Global;
use std::sync::Wait;
use std::thread::Threads;

/// What a plan says beside its actors.
#[derive(Clone, Copy, Debug)]
pub struct Settings {
    /// How many envelopes a run of a mailbox handles at most; 0 counts as 1 (Akka's `throughput`).
    pub throughput: u32,
    /// How many workers run mailboxes, from 1 to 16.
    pub workers: u32,
    /// How the workers share the work.
    pub pool: PoolKind,
    /// How many senders outside the actors there are, up to 16.
    pub senders: u32,
    /// What the journal of each actor keeps.
    pub journal: JournalMode,
    /// How many entries the journal of each actor may have, from 1 to 2^56.
    pub journal_limit: u64,
}

/// Five envelopes in a run of a mailbox (as Akka's default dispatcher), one worker, one queue, one sender outside, and journals that
/// keep all their entries, up to a million.
pub const SETTINGS: Settings = Settings {
    throughput: 5,
    workers: 1,
    pool: PoolKind::Shared,
    senders: 1,
    journal: JournalMode::Kept,
    journal_limit: 1_000_000,
};

/// A plan and the actors that it plans, which are added together. So there are as many of one as of the other, each actor with
/// its own plan.
///
/// The actors are of one type, which may be `Box<dyn Actor + Send>`.
#[derive(Drop)]
pub struct PlannedSystem<A: Drop> {
    /// The plan: the first actor that was added has number 1.
    pub plan: Plan,
    /// The actors, in the order of their numbers from 1 on.
    pub actors: Vec<A>,
    /// The names of the actors.
    pub names: Names,
    /// As many actors are planned as there are.
    pub ghost as_planned: { length plan.actors.items ≡ length actors.items },
    /// Each actor has a name.
    pub ghost as_named: { length names.texts.items ≡ length actors.items },
}

impl<A: Actor> PlannedSystem<A> {
    /// A system of these settings, without an actor beside the guardian. This takes no memory.
    pub fn new(alloc: Global, settings: Settings) -> Self
        ensures actors { result.actors.items ≡ [] }
        ensures planned { result.plan.actors.items ≡ [] }
        ensures named { result.names.texts.items ≡ [] }
        ensures settings { HasSettings settings result.plan }
        ensures unused { All (λ actor. A.content actor ≡ A.after actor []) result.actors.items }
    {
        let Settings {
            throughput,
            workers,
            pool,
            senders,
            journal,
            journal_limit,
        } = settings;
        PlannedSystem {
            plan: Plan {
                throughput,
                workers,
                pool,
                senders,
                journal,
                journal_limit,
                actors: Vec::new(alloc),
            },
            actors: Vec::new(alloc),
            names: Names::new(alloc),
        }
    }

    /// Runs it on this thread, as `run_here` does.
    pub fn run_here<R: Wait>(
        self,
        rt: &R,
        alloc: Global,
        sends: &[Vec<Order>],
    ) -> Result<NamedReport, FailedRun<A>>
        requires unused { All (λ actor. A.content actor ≡ A.after actor []) self.actors.items }
        ensures report { IfOk result (λ done. ReportsRun A.after A.gives self.plan self.actors.items
            (map (λ orders. orders.items) sends.now) done.report) }
        ensures failure { IfErr result (GivesNoReport (gives_at self.actors.items A.gives) self.plan self.actors.items self.names.texts.items
            (map (λ orders. orders.items) sends.now)) }
        ensures names { IfOk result (λ done. done.names.texts.items ≡ self.names.texts.items) }
    {
        let PlannedSystem {
            plan,
            actors,
            names,
        } = self;
        match run_here::<A, R>(rt, alloc, plan, actors, sends) {
            Ok(report) => Ok(NamedReport { report, names }),
            Err(failed) => Err(failed.with_names(names)),
        }
    }
}

impl<A: Actor + Send> PlannedSystem<A> {
    /// Runs it with workers and senders on threads of their own, as `run_on_threads` does.
    pub fn run_on_threads<R: Threads + Wait + Sync>(
        self,
        rt: &R,
        alloc: Global,
        sends: &[Vec<Order>],
    ) -> Result<NamedReport, FailedRun<A>>
        requires unused { All (λ actor. A.content actor ≡ A.after actor []) self.actors.items }
        ensures report { IfOk result (λ done. ReportsRun A.after A.gives self.plan self.actors.items
            (map (λ orders. orders.items) sends.now) done.report) }
        ensures failure { IfErr result (GivesNoReport (gives_at self.actors.items A.gives) self.plan self.actors.items self.names.texts.items
            (map (λ orders. orders.items) sends.now)) }
        ensures names { IfOk result (λ done. done.names.texts.items ≡ self.names.texts.items) }
    {
        let PlannedSystem {
            plan,
            actors,
            names,
        } = self;
        match run_on_threads::<A, R>(rt, alloc, plan, actors, sends) {
            Ok(report) => Ok(NamedReport { report, names }),
            Err(failed) => Err(failed.with_names(names)),
        }
    }
}
