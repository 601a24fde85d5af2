//! The steps that are possible.
ghost use Rattle.std.specs.Prelude.{◌≡◌, ◌≤◌, ◌++◌, length, map, IfOk};
ghost use Rattle.mb_world.specs.Choices.{AreChoices, AreSends};
ghost use Rattle.mb_world.specs.declared.choice.Choice.TheVariants.{Run};

use crate::choice::Choice;
use crate::order_queue::OrderQueue;
use crate::world::World;
use mb_actor::{Actor, Behaviours};
use mb_msg::ActorId;
use std::alloc::{AllocError, Global};
use std::collections::VecDeque;

impl<A: Actor, K: Behaviours> World<A, K> {
    /// The steps that are possible now: first a send of each sender outside that has something left to send, by number, and then a run of each
    /// actor that is registered for execution, in the order in which they were. The only error: memory was refused.
    pub fn choices(&self, alloc: Global) -> Result<Vec<Choice>, AllocError>
        ensures { IfOk result (λ choices. AreChoices self.now choices.items) }
    {
        let mut choices = sends_of(alloc, &self.senders)?;
        add_runs(&mut choices, &self.dispatcher.claims)?;
        Ok(choices)
    }
}

/// A send of each of these senders that has something left to send. The only error: memory was refused.
fn sends_of(alloc: Global, senders: &[OrderQueue]) -> Result<Vec<Choice>, AllocError>
    requires { length senders.now ≤ 16 }
    ensures { IfOk result (λ choices. AreSends senders.now choices.items) }
{
    let mut choices = Vec::new(alloc);
    for number in 0..senders.len() {
        if !senders[number].is_done() {
            choices.push(Choice::Send(number as u32))?;
        }
    }
    Ok(choices)
}

/// Adds a run of each of these actors. The only error: memory was refused.
fn add_runs(choices: &mut Vec<Choice>, actors: &VecDeque<ActorId>) -> Result<(), AllocError>
    ensures { IfOk result (λ _. choices.new.items ≡ choices.old.items ++ map Run actors.now.items) }
{
    for place in 0..actors.len() {
        if let Some(actor) = actors.get(place) {
            choices.push(Choice::Run(*actor))?;
        }
    }
    Ok(())
}
