//! Adding actors to a planned system.
ghost use Rattle.std.specs.Prelude.{◌≡◌, ◌⊎◌, ◌+◌, ◌<◌, ◌≤◌, ◌↔◌, [], ◌∷◌, ◌++◌, All, IfErr, IfOk, IsErrOf, IsTrue, OnErr, OnOk, Some, length, string_bytes, take, vec_capacity};
ghost use Rattle.mb_build.specs.declared.check.PlanError.TheVariants.{Actors, Parent};
ghost use Rattle.mb_msg.specs.declared.id.ActorId.{ActorId as Id};
ghost use Rattle.heddleorange.specs.Added.{Adds, AddsNothing, RefusesPlace};
ghost use Rattle.heddleorange.specs.Names.{name_by_default, number_of};
ghost use Rattle.heddleorange.specs.declared.error.Error.TheVariants.{BadPlan, NameTaken, NoMemory};

use crate::error::Error;
use crate::planned_system::PlannedSystem;
use mb_actor::Actor;
use mb_build::PlanError;
use mb_msg::limits::ACTORS;
use mb_msg::{ActorId, ActorPlan};
use std::alloc::AllocError;

impl<A: Actor> PlannedSystem<A> {
    /// Adds an actor with its plan, and answers its number: the first has number 1. No message may have come to the actor yet. Its
    /// name is `$` and its number. (Akka, too, makes such a name of a `$` and a number.)
    ///
    /// It answers `BadPlan(Actors)` if there are 63 actors; else `BadPlan(Parent)` with the actor's own number if its parent is
    /// neither the guardian nor one of the actors that are there; else `NoMemory` if memory was refused. The plan and the actor are
    /// dropped then, and nothing has been added. (That there is such a parent is this project's own profile: in Akka it is the
    /// parent's own context that makes the child, by `actorOf`.)
    pub fn add(&mut self, plan: ActorPlan, actor: A) -> Result<ActorId, Error>
        requires unused { A.content actor ≡ A.after actor [] }
        ensures added { IfOk result (λ id. Adds self.old plan actor (name_by_default (length self.old.actors.items + 1)) id self.new) }
        ensures unchanged { OnErr result (AddsNothing self.old self.new) }
        ensures settings { self.new.plan ≡ record self.old.plan { actors = self.new.plan.actors } }
        ensures refused { RefusesPlace (length self.old.actors.items) plan.parent result }
        ensures errors { IfErr result (λ error. (error ≡ BadPlan Actors) ⊎ ((id : Id) × (error ≡ BadPlan (Parent id))) ⊎ (error ≡ NoMemory)) }
        ensures unused { All (λ actor. A.content actor ≡ A.after actor []) self.old.actors.items
            → All (λ actor. A.content actor ≡ A.after actor []) self.new.actors.items }
    {
        self.check_place(plan.parent)?;
        let name = self.default_name()?;
        self.push(name, plan, actor)
    }

    /// Adds an actor with its plan under this name, and answers its number, as `add` does.
    ///
    /// If there is room for it, its parent is there, and an actor has this name already, it answers `NameTaken` with that actor's
    /// number. (In Akka `actorOf` throws an `InvalidActorNameException` then. There a name has to differ from those of its siblings,
    /// and not every text is one. This project's own profile: any text is, and it has to differ from the names of all actors that
    /// are there.)
    pub fn add_named(&mut self, name: &str, plan: ActorPlan, actor: A) -> Result<ActorId, Error>
        requires unused { A.content actor ≡ A.after actor [] }
        ensures added { IfOk result (λ id. Adds self.old plan actor name.now id self.new) }
        ensures unchanged { OnErr result (AddsNothing self.old self.new) }
        ensures settings { self.new.plan ≡ record self.old.plan { actors = self.new.plan.actors } }
        ensures refused { RefusesPlace (length self.old.actors.items) plan.parent result }
        ensures taken { (id : Id) → IsErrOf result (NameTaken id) ↔ ((length self.old.actors.items < 63)
            × (plan.parent.0 ≤ length self.old.actors.items) × (number_of self.old.names.texts.items name.now ≡ Some id.0)) }
        ensures errors { IfErr result (λ error. (error ≡ BadPlan Actors) ⊎ ((id : Id) × (error ≡ BadPlan (Parent id))) ⊎ (error ≡ NoMemory)
            ⊎ ((id : Id) × (error ≡ NameTaken id))) }
        ensures unused { All (λ actor. A.content actor ≡ A.after actor []) self.old.actors.items
            → All (λ actor. A.content actor ≡ A.after actor []) self.new.actors.items }
    {
        self.check_place(plan.parent)?;
        let name = self.free_name(name)?;
        self.push(name, plan, actor)
    }

    // Whether there is room for one actor more, and its parent is there.
    fn check_place(&self, parent: ActorId) -> Result<(), Error>
        ensures fits { OnOk result ((length self.now.actors.items < 63) × (parent.0 ≤ length self.now.actors.items)) }
        ensures refused { RefusesPlace (length self.now.actors.items) parent result }
        ensures errors { IfErr result (λ error. (error ≡ BadPlan Actors) ⊎ ((id : Id) × (error ≡ BadPlan (Parent id)))) }
    {
        if self.is_full() {
            return Err(Error::BadPlan(PlanError::Actors));
        }
        let own = ActorId(self.actors.len() as u16 + 1);
        if parent.0 >= own.0 {
            return Err(Error::BadPlan(PlanError::Parent(own)));
        }
        Ok(())
    }

    // The next actor's name, if it comes without one. The only error: memory was refused.
    fn default_name(&self) -> Result<String, Error>
        ensures named { IfOk result (λ name. string_bytes name ≡ name_by_default (length self.now.actors.items + 1)) }
        ensures error { IfErr result (λ error. error ≡ NoMemory) }
    {
        let number = self.actors.len() + 1;
        let alloc = *self.actors.allocator();
        let Ok(name) = format!(in alloc; "${number}") else {
            return Err(Error::NoMemory);
        };
        Ok(name)
    }

    // This name for the next actor, if no actor has it.
    fn free_name(&self, name: &str) -> Result<String, Error>
        ensures named { IfOk result (λ free. string_bytes free ≡ name.now) }
        ensures taken { (id : Id) → IsErrOf result (NameTaken id) ↔ (number_of self.now.names.texts.items name.now ≡ Some id.0) }
        ensures errors { IfErr result (λ error. (error ≡ NoMemory) ⊎ ((id : Id) × (error ≡ NameTaken id))) }
    {
        if let Some(holder) = self.names.id_of(name) {
            return Err(Error::NameTaken(holder));
        }
        let Ok(name) = String::from_str(*self.actors.allocator(), name) else {
            return Err(Error::NoMemory);
        };
        Ok(name)
    }

    // Whether there are as many actors as there may be.
    fn is_full(&self) -> bool
        ensures { IsTrue result ↔ (63 ≤ length self.now.actors.items) }
    {
        self.actors.len() + 1 >= ACTORS as usize
    }

    // Adds an actor with its plan and its name. The only error: memory was refused.
    fn push(&mut self, name: String, plan: ActorPlan, actor: A) -> Result<ActorId, Error>
        requires not_full { length self.old.actors.items < 63 }
        ensures added { IfOk result (λ id. Adds self.old plan actor (string_bytes name) id self.new) }
        ensures named { OnOk result (self.new.names.texts.items ≡ self.old.names.texts.items ++ name ∷ []) }
        ensures unchanged { OnErr result (AddsNothing self.old self.new) }
        ensures settings { self.new.plan ≡ record self.old.plan { actors = self.new.plan.actors } }
        ensures error { IfErr result (λ error. error ≡ NoMemory) }
    {
        self.reserve_one()?;
        self.plan.actors.push_reserved(plan);
        self.actors.push_reserved(actor);
        self.names.texts.push_reserved(name);
        Ok(ActorId(self.actors.len() as u16))
    }

    // Makes room for one actor more, with its plan and its name.
    fn reserve_one(&mut self) -> Result<(), AllocError>
        ensures room { OnOk result ((length self.new.plan.actors.items < vec_capacity self.new.plan.actors)
            × (length self.new.actors.items < vec_capacity self.new.actors) × (length self.new.names.texts.items < vec_capacity self.new.names.texts)) }
        ensures same { (self.new.actors.items ≡ self.old.actors.items) × (self.new.names.texts.items ≡ self.old.names.texts.items) }
        ensures settings { self.new.plan ≡ record self.old.plan { actors = self.new.plan.actors } }
        ensures planned { self.new.plan.actors.items ≡ self.old.plan.actors.items }
    {
        self.plan.actors.reserve(1)?;
        self.actors.reserve(1)?;
        self.names.texts.reserve(1)
    }

    // Takes away all actors but the first so many, with their plans and names.
    pub(crate) fn keep_first(&mut self, number: usize)
        ensures actors { self.new.actors.items ≡ take number self.old.actors.items }
        ensures planned { self.new.plan.actors.items ≡ take number self.old.plan.actors.items }
        ensures named { self.new.names.texts.items ≡ take number self.old.names.texts.items }
        ensures settings { self.new.plan ≡ record self.old.plan { actors = self.new.plan.actors } }
    {
        self.plan.actors.truncate(number);
        self.actors.truncate(number);
        self.names.texts.truncate(number);
    }
}
