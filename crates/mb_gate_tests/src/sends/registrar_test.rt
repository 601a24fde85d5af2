//! The gates of three actors with a registrar. Their calls have no preconditions: the type says that all fits together.
ghost use Rattle.std.specs.Prelude.{◌≡◌, ◌<◌};
ghost use Rattle.mb_gate.specs.Accessors.{gates_id, pass_id, actors_of};
ghost use Rattle.mb_gate.specs.Untouched.{origin_of};

use crate::sends::desk::{OpenHome, gates_of_three};
use crate::sends::one_place::OnePlace;
use crate::sends::registering::SendStep;
use mb_gate::Gates;
use mb_msg::ActorId;
use mb_register::{ActorSet, Hint, Registrar, Told};
use std::alloc::Global;
use std::sync::Wait;
use std::test::Fail;

/// The gates of three actors, and a registrar whose run queue has one place.
pub struct RegistrarTest {
    gates: Gates<OpenHome>,
    registrar: Registrar<OpenHome, OnePlace>,
    ghost three: { actors_of gates ≡ 3 },
    ghost same_gates: { pass_id registrar.pass ≡ gates_id gates },
    ghost run_queue: { origin_of registrar.run_queue.gates.value ≡ origin_of gates },
}

impl Drop for RegistrarTest {
    fn drop(self) {
        let RegistrarTest {
            gates: _,
            registrar,
        } = self;
        let Registrar {
            pass: _,
            run_queue: _,
            owed: _,
            told: _,
        } = registrar;
    }
}

impl RegistrarTest {
    /// Three actors with nothing to do. No look is owed.
    pub fn new(alloc: Global) -> Result<Self, Fail> {
        let (gates, pass) = gates_of_three(alloc)?;
        let run_queue = OnePlace::new(&gates);
        let registrar = Registrar {
            pass,
            run_queue,
            owed: ActorSet::none(),
            told: Told::none(),
        };
        Ok(RegistrarTest { gates, registrar })
    }

    /// Whether the call of the step has its answer.
    pub fn answers<R: Wait>(&mut self, rt: &R, step: SendStep) -> bool {
        match step {
            SendStep::Register(actor, hint, is_pushed) => {
                self.register(rt, actor.id(), hint) == is_pushed
            }
            SendStep::Count(actor) => {
                self.gates.note_sent(&mut self.registrar.pass, actor.id());
                true
            }
            SendStep::Owes(actor, has_actor) => self.registrar.owed.contains(actor.id())
                == has_actor,
            SendStep::OwesNobody(is_so) => self.registrar.owed.is_empty() == is_so,
            SendStep::Pay(is_paid) => self.registrar.retry_refused(rt, &self.gates).is_ok()
                == is_paid,
            SendStep::Take(id) => self.registrar.run_queue.take() == id,
        }
    }

    fn register<R: Wait>(&mut self, rt: &R, id: ActorId, hint: Hint) -> bool
        requires present { id.0 < 3 }
    {
        self.registrar.register(rt, &self.gates, id, hint, false)
    }
}
