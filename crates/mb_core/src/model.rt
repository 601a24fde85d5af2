//! The state of the machine.
ghost use Rattle.std.specs.Prelude.{◌≡◌, ◌↔◌, IsTrue, All, IsSome, IfOk, IfSome};
ghost use Rattle.mb_core.specs.Actor.{obligation_between};
ghost use Rattle.mb_core.specs.Run.{IsMade, can_start, start};

use crate::actor::ActorState;
use crate::event::Event;
use crate::wake_obligation::WakeObligation;
use mb_msg::ActorId;
use mb_status::Status;
use std::alloc::{AllocError, Global};

/// A state of the machine: its actors, by their numbers.
#[derive(Debug, Drop)]
pub struct Model {
    actors: Vec<ActorState>,
}

impl std::marker::Model for Model {
    ghost use Rattle.std.specs.Prelude.{List};
    ghost use Rattle.mb_core.specs.Actor.{MachineActor};

    ghost Value = { List MachineActor };

    ghost view = { λ m. m.actors.items };
}

impl Model {
    /// The actors, by their numbers.
    pub fn actors(&self) -> &[ActorState]
        ensures { result.now ≡ self.now }
    {
        self.actors.as_slice()
    }

    /// What this party owes that actor; `None` where either does not exist.
    pub fn obligation(&self, party: usize, actor: ActorId) -> Option<WakeObligation>
        ensures { result ≡ obligation_between self.now party actor.0 }
    {
        let state = self.actors.get(actor.0 as usize)?;
        state.owed().get(party).copied()
    }

    /// The state in which a run begins, from these status words and with this many parties; `None` where a word is not
    /// valid, or is scheduled.
    pub(crate) fn start(
        alloc: Global,
        words: &[u64],
        parties: usize,
    ) -> Result<Option<Model>, AllocError>
        ensures starts { IfOk result (λ model. IsSome model ↔ All (λ word. IsTrue (can_start word)) words.now) }
        ensures at_start { IfOk result (λ model. IfSome model (λ m. m ≡ start words.now parties)) }
    {
        let mut actors = Vec::with_capacity(alloc, words.len())?;
        for word in words {
            let Some(status) = Status::of(*word) else {
                return Ok(None);
            };
            if status.scheduled() {
                return Ok(None);
            }
            actors.push(ActorState::start(alloc, parties, status)?)?;
        }
        Ok(Some(Model { actors }))
    }

    /// Carries out an event, or answers `false` where its actor or party does not exist or the step is not allowed;
    /// nothing is said of the model then.
    pub(crate) fn make(&mut self, alloc: Global, event: &Event) -> Result<bool, AllocError>
        ensures { IfOk result (IsMade self.old event.now self.new) }
    {
        let number = event.actor.0 as usize;
        if number >= self.actors.len() {
            return Ok(false);
        }
        let actor = &mut self.actors[number];
        if event.party >= actor.owed().len() {
            return Ok(false);
        }
        actor.carry_out(alloc, event.party, &event.step)
    }
}
