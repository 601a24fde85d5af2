//! A planned system all of whose actors are new.
ghost use Rattle.std.specs.Prelude.{◌≡◌, ◌⊎◌, ◌+◌, ◌<◌, ◌≤◌, ◌↔◌, ℤ, pos, [], All, IfErr, IfOk, IsErrOf, None, Some, List, OnErr, OnOk, Option, length, map};
ghost use Rattle.mb_actor.specs.declared.message.Message.{Message};
ghost use Rattle.mb_actor.specs.declared.message.Message.TheVariants.{Terminated};
ghost use Rattle.mb_msg.specs.declared.id.ActorId.{ActorId as Id};
ghost use Rattle.mb_quantity.specs.Quantity.{AllConserve, Holding};
ghost use Rattle.mb_build.specs.declared.check.PlanError.TheVariants.{Actors, Parent};
ghost use Rattle.heddleorange.specs.Added.{Adds, AddsNothing, RefusesPlace};
ghost use Rattle.heddleorange.specs.AddedAll.{AreAdded, first_taken, names_behind};
ghost use Rattle.heddleorange.specs.Conservation.{IsConserved};
ghost use Rattle.heddleorange.specs.GivesNoReport.{GivesNoReport};
ghost use Rattle.heddleorange.specs.Names.{name_by_default, number_of, texts_of};
ghost use Rattle.heddleorange.specs.ReportsRun.{ReportsRun};
ghost use Rattle.heddleorange.specs.Settings.{HasSettings};
ghost use Rattle.heddleorange.specs.WholeRun.{gives_at};
ghost use Rattle.heddleorange.specs.declared.error.Error.TheVariants.{BadPlan, NameTaken, NoMemory};

use crate::error::Error;
use crate::failed_run::FailedRun;
use crate::named_report::NamedReport;
use crate::planned_system::{PlannedSystem, Settings};
use crate::unused::Unused;
use mb_actor::Actor;
use mb_msg::{ActorId, ActorPlan, Order};
use std::alloc::Global;
use std::sync::Wait;
use std::thread::Threads;

/// A planned system to whose actors no message has come. That is known by its type: neither `add` nor `run` asks for it, so all its
/// actors may be made and added in one function. A system of `Box<dyn Actor + Send>` has to be a `PlannedSystem`.
#[derive(Drop)]
pub struct NewSystem<A: Actor> {
    /// The system.
    pub system: PlannedSystem<A>,
    /// No message came to any of its actors.
    pub ghost unused: { All (λ actor. A.content actor ≡ A.after actor []) system.actors.items },
}

impl<A: Actor> NewSystem<A> {
    /// A system of these settings, without an actor beside the guardian, as `PlannedSystem::new` makes it.
    pub fn new(alloc: Global, settings: Settings) -> Self
        ensures actors { result.system.actors.items ≡ [] }
        ensures planned { result.system.plan.actors.items ≡ [] }
        ensures named { result.system.names.texts.items ≡ [] }
        ensures settings { HasSettings settings result.system.plan }
    {
        NewSystem {
            system: PlannedSystem::new(alloc, settings),
        }
    }

    /// Adds an actor with its plan, as `PlannedSystem::add` does.
    pub fn add(&mut self, plan: ActorPlan, actor: Unused<A>) -> Result<ActorId, Error>
        ensures added { IfOk result (λ id. Adds self.old.system plan actor.actor (name_by_default (length self.old.system.actors.items + 1)) id self.new.system) }
        ensures unchanged { OnErr result (AddsNothing self.old.system self.new.system) }
        ensures settings { self.new.system.plan ≡ record self.old.system.plan { actors = self.new.system.plan.actors } }
        ensures refused { RefusesPlace (length self.old.system.actors.items) plan.parent result }
        ensures errors { IfErr result (λ error. (error ≡ BadPlan Actors) ⊎ ((id : Id) × (error ≡ BadPlan (Parent id))) ⊎ (error ≡ NoMemory)) }
    {
        let Unused { actor } = actor;
        self.system.add(plan, actor)
    }

    /// Adds an actor with its plan under this name, as `PlannedSystem::add_named` does.
    pub fn add_named(
        &mut self,
        name: &str,
        plan: ActorPlan,
        actor: Unused<A>,
    ) -> Result<ActorId, Error>
        ensures added { IfOk result (λ id. Adds self.old.system plan actor.actor name.now id self.new.system) }
        ensures unchanged { OnErr result (AddsNothing self.old.system self.new.system) }
        ensures settings { self.new.system.plan ≡ record self.old.system.plan { actors = self.new.system.plan.actors } }
        ensures refused { RefusesPlace (length self.old.system.actors.items) plan.parent result }
        ensures taken { (id : Id) → IsErrOf result (NameTaken id) ↔ ((length self.old.system.actors.items < 63)
            × (plan.parent.0 ≤ length self.old.system.actors.items) × (number_of self.old.system.names.texts.items name.now ≡ Some id.0)) }
        ensures errors { IfErr result (λ error. (error ≡ BadPlan Actors) ⊎ ((id : Id) × (error ≡ BadPlan (Parent id))) ⊎ (error ≡ NoMemory)
            ⊎ ((id : Id) × (error ≡ NameTaken id))) }
    {
        let Unused { actor } = actor;
        self.system.add_named(name, plan, actor)
    }

    /// Adds these actors with their plans, in order: all of them, or none. Their names are `$` and their numbers, as `add` gives them.
    ///
    /// It answers the error of the first actor that `add` refuses: `BadPlan(Actors)` if there are 63 actors before it; else
    /// `BadPlan(Parent)` with its own number if its parent is neither the guardian nor an earlier actor; else `NoMemory` if memory was
    /// refused. All these plans and actors are dropped then.
    pub fn add_all(&mut self, actors: Vec<(ActorPlan, Unused<A>)>) -> Result<(), Error>
        ensures added { AreAdded self.old.system (map (λ given. given.0) actors.items) (map (λ given. given.1.actor) actors.items)
            (names_behind (length self.old.system.actors.items) (map (λ given. given.0) actors.items)) result self.new.system }
        ensures errors { IfErr result (λ error. (error ≡ BadPlan Actors) ⊎ ((id : Id) × (error ≡ BadPlan (Parent id))) ⊎ (error ≡ NoMemory)) }
    {
        let there = self.system.actors.len();
        for (plan, actor) in actors {
            if let Err(error) = self.add(plan, actor) {
                self.system.keep_first(there);
                return Err(error);
            }
        }
        Ok(())
    }

    /// Adds these actors with their plans under these names, in order: all of them, or none, as `add_all` does. It also answers the
    /// `NameTaken` with which `add_named` refuses one of them: an actor that was there has its name, or an earlier one of these.
    pub fn add_all_named(&mut self, actors: Vec<(&str, ActorPlan, Unused<A>)>) -> Result<(), Error>
        ensures added { AreAdded self.old.system (map (λ given. given.1) actors.entry.items) (map (λ given. given.2.actor) actors.entry.items)
            (map (λ given. given.0.now) actors.entry.items) result self.new.system }
        ensures free { OnOk result (first_taken (texts_of self.old.system.names.texts.items) (map (λ given. given.0.now) actors.entry.items) ≡ None) }
        ensures taken { (id : Id) → IsErrOf result (NameTaken id)
            → first_taken (texts_of self.old.system.names.texts.items) (map (λ given. given.0.now) actors.entry.items) ≡ Some id.0 }
        ensures errors { IfErr result (λ error. (error ≡ BadPlan Actors) ⊎ ((id : Id) × (error ≡ BadPlan (Parent id))) ⊎ (error ≡ NoMemory)
            ⊎ ((id : Id) × (error ≡ NameTaken id))) }
    {
        let before = self.system.actors.len();
        for (name, plan, actor) in actors {
            if let Err(error) = self.add_named(name, plan, actor) {
                self.system.keep_first(before);
                return Err(error);
            }
        }
        Ok(())
    }
}

impl<A: Actor + Send> NewSystem<A> {
    /// Runs it, as `PlannedSystem::run` does: on this thread if it has one worker, and else with workers and senders on threads of
    /// their own.
    pub fn run<R: Threads + Wait + Sync>(
        self,
        rt: &R,
        alloc: Global,
        sends: &[Vec<Order>],
    ) -> Result<NamedReport, FailedRun<A>>
        ensures report { IfOk result (λ done. ReportsRun A.after A.gives self.system.plan self.system.actors.items
            (map (λ orders. orders.items) sends.now) done.report) }
        ensures failure { IfErr result (GivesNoReport (gives_at self.system.actors.items A.gives) self.system.plan self.system.actors.items self.system.names.texts.items
            (map (λ orders. orders.items) sends.now)) }
        ensures names { IfOk result (λ done. done.names.texts.items ≡ self.system.names.texts.items) }
        ensures conserved { (worth : Message → ℤ) (holdings : List (Option Holding)) → ((ended : Id) → worth (Terminated ended) ≡ pos 0)
            → AllConserve A.after A.gives worth holdings self.system.actors.items → IfOk result (λ done. IsConserved worth holdings (map (λ orders. orders.items) sends.now) done.report) }
    {
        let NewSystem { system } = self;
        system.run(rt, alloc, sends)
    }
}
