//! The gates of one actor with two passes. Their calls have no preconditions: the type says that the passes are of the gates.
ghost use Rattle.std.specs.Prelude.{◌≡◌};
ghost use Rattle.mb_gate.specs.Accessors.{gates_id, pass_id, actors_of};

use crate::fresh_claim::FreshClaim;
use crate::holding::Holding;
use crate::steps::PassStep;
use crate::test_home::{TestHome, gates_of_one};
use crate::tries::Miss;
use crate::{calls, tries};
use mb_gate::{Gates, Pass, ReturnedActor};
use std::alloc::Global;
use std::process::Abort;
use std::sync::Wait;
use std::test::Fail;

/// The gates of one actor, and two passes of them.
#[derive(Drop)]
pub struct Single {
    pub(crate) gates: Gates<TestHome>,
    pub(crate) pass: Pass<TestHome>,
    pub(crate) other: Pass<TestHome>,
    ghost same_gates: { (pass_id pass ≡ gates_id gates) × (pass_id other ≡ gates_id gates) },
    ghost one: { actors_of gates ≡ 1 },
}

impl Single {
    /// The gates of an actor that is not started.
    pub fn new(alloc: Global) -> Result<Self, Fail> {
        let (gates, mut pass) = gates_of_one(alloc)?;
        let other = calls::second(&gates, &mut pass);
        Ok(Single { gates, pass, other })
    }

    /// Whether the call of the step has its answer.
    pub fn answers<R: Wait>(&mut self, rt: &R, alloc: Global, step: PassStep) -> bool
        ensures same { (gates_id self.new.gates ≡ gates_id self.old.gates) × (actors_of self.new.gates ≡ actors_of self.old.gates) }
    {
        match step {
            PassStep::NoteSent => {
                calls::note_sent(&self.gates, &mut self.pass);
                true
            }
            PassStep::NoteRefused => {
                calls::note_refused(&self.gates, &mut self.pass);
                true
            }
            PassStep::IsHeld => matches!(
                tries::missed(&self.gates, &mut self.other),
                Some(Miss::Already)
            ),
            PassStep::IsClosed => matches!(
                tries::missed(&self.gates, &mut self.other),
                Some(Miss::Closed)
            ),
            PassStep::Enqueue(message, number) => {
                let message = message.of_system();
                calls::enqueue(rt, alloc, &self.gates, &mut self.pass, message) == number
            }
            read => self.shows(read),
        }
    }

    /// Whether what is read of the actor is as the step says.
    fn shows(&mut self, step: PassStep) -> bool
        ensures same { (gates_id self.new.gates ≡ gates_id self.old.gates) × (actors_of self.new.gates ≡ actors_of self.old.gates) }
    {
        match step {
            PassStep::Word(word) => calls::word(&self.gates, &mut self.pass) == word,
            PassStep::OtherWord(word) => calls::word(&self.gates, &mut self.other) == word,
            PassStep::Waiting(count) => calls::waiting(&self.gates, &mut self.pass) == count,
            PassStep::HasSystem(is_there) => {
                calls::has_system(&self.gates, &mut self.pass) == is_there
            }
            _ => false,
        }
    }

    /// Gets a claim of the actor.
    pub fn got<R: Abort>(self, rt: &R) -> Holding {
        let Single {
            gates,
            mut pass,
            other,
        } = self;
        let claim = tries::got(rt, &gates, &mut pass);
        Holding {
            single: Single { gates, pass, other },
            shift: FreshClaim { claim },
        }
    }

    /// What is left of the actor while it is held, by a claim that is as it was taken.
    pub fn left_while_held(self, alloc: Global) -> Result<Option<(u64, u64)>, Fail> {
        let Single {
            gates,
            mut pass,
            other,
        } = self;
        let Some(held) = tries::pooled(&gates, &mut pass) else {
            return Err(Fail::from("it was not got"));
        };
        let left = Single { gates, pass, other }.left(alloc);
        drop(held);
        left
    }

    /// What is left of the actor once one pass took over the other: its status word, and how many messages its list gave;
    /// `None` where a claim has it.
    pub fn left(self, alloc: Global) -> Result<Option<(u64, u64)>, Fail> {
        let Single {
            gates,
            mut pass,
            other,
        } = self;
        gates.absorb(&mut pass, other);
        let room = Vec::with_capacity(alloc, 1)?;
        let mut left = gates.finish(pass, room);
        match left.pop() {
            Some(
                Some(
                    ReturnedActor {
                        home,
                        given,
                        listed: _,
                    },
                ),
            ) => Ok(Some((home.status.word(), given))),
            Some(None) => Ok(None),
            None => Err(Fail::from("nothing of the actor")),
        }
    }
}
