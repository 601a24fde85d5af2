//! An actor that does random things, and shows the sum of the values of kind 1 that it received.
ghost use Rattle.std.specs.Prelude.{◌≡◌, pos, All, IfOk};

use crate::random::Random;
use crate::test_actor::{ADD, with};
use mb_actor::{Actor, Answer, CallPermit, Message, Outbox};
use mb_msg::{ActorId, Cause};
use std::alloc::{AllocError, Global};

/// The greatest kind of message. Messages of a kind above 1 make a random actor do something. The messages that it
/// sends then are of the next lower kind, so that each run ends.
pub const GREATEST: u32 = 4;

/// An actor that chooses at random what it does.
#[derive(Drop)]
pub struct RandomActor {
    /// The random numbers by which it chooses.
    pub dice: Random,
    /// How many actors there are.
    pub actors: u16,
    /// The sum that it shows.
    pub sum: i64,
}

impl Actor for RandomActor {
    ghost use Rattle.mb_testkit.specs.Sum.{sum_of};

    ghost after = { λ _. sum_of };

    ghost content = { λ gambler. gambler.sum };

    ghost gives = { λ _ _ _. Unit {0} };

    fn start(&mut self, out: &mut Outbox, _: CallPermit) -> Answer {
        self.sum = 0;
        spawn_all(self.actors, out);
        act(&mut self.dice, self.actors, ADD, out);
        fail_once_in(20, &mut self.dice)
    }

    fn receive(&mut self, message: &Message, out: &mut Outbox, _: CallPermit) -> Answer {
        self.sum = with(self.sum, message);
        match *message {
            Message::User { kind, .. } => hear(&mut self.dice, self.actors, kind, out),
            Message::Control { kind, .. } => hear(&mut self.dice, self.actors, kind, out),
            Message::Terminated(_) => leave_once_in(3, &mut self.dice),
        }
    }

    fn restart(&mut self, _cause: Cause, out: &mut Outbox, _: CallPermit) -> Answer {
        self.sum = 0;
        act(&mut self.dice, self.actors, ADD, out);
        fail_once_in(20, &mut self.dice)
    }

    fn stop(&mut self, out: &mut Outbox, _: CallPermit) {
        act(&mut self.dice, self.actors, ADD, out);
    }

    fn state(&self) -> i64 {
        self.sum
    }
}

/// Starts all children that the actor has.
fn spawn_all(actors: u16, out: &mut Outbox)
    ensures actors { out.new.actors ≡ out.old.actors }
    ensures unspawned { out.new.unspawned ≡ out.old.unspawned }
{
    for number in 1..=actors {
        let _refused = out.spawn(ActorId(number));
    }
}

/// Does what a message of this kind makes a random actor do, and answers.
fn hear(dice: &mut Random, actors: u16, kind: u32, out: &mut Outbox) -> Answer
    ensures actors { out.new.actors ≡ out.old.actors }
    ensures unspawned { out.new.unspawned ≡ out.old.unspawned }
{
    if kind == ADD {
        return Answer::Handled;
    }
    let less = kind.saturating_sub(1);
    act(dice, actors, less, out);
    act(dice, actors, less, out);
    fail_once_in(3, dice)
}

/// Asks for one effect; a message that is sent is of this kind.
fn act(dice: &mut Random, actors: u16, kind: u32, out: &mut Outbox)
    ensures actors { out.new.actors ≡ out.old.actors }
    ensures unspawned { out.new.unspawned ≡ out.old.unspawned }
{
    let who = dice.actor_between(1, actors);
    let value = i64::from(dice.number_between(0, 99));
    let _refused = match dice.number_between(1, 20) {
        1 => out.stop(who),
        2..=5 => out.watch(who),
        6..=7 => out.unwatch(who),
        8..=11 => out.control(who, kind, value),
        _ => out.tell(who, kind, value),
    };
}

fn fail_once_in(sides: u32, dice: &mut Random) -> Answer {
    if dice.is_one_of(sides) {
        Answer::Failed(4)
    } else {
        Answer::Handled
    }
}

fn leave_once_in(sides: u32, dice: &mut Random) -> Answer {
    if dice.is_one_of(sides) {
        Answer::Unhandled
    } else {
        Answer::Handled
    }
}

/// Random actors to which nothing came yet.
pub fn random_actors(alloc: Global, seed: u64, actors: u16) -> Result<Vec<RandomActor>, AllocError>
    ensures { IfOk result (λ random_actors. All (λ gambler. gambler.sum ≡ pos 0) random_actors.items) }
{
    let mut random_actors = Vec::new(alloc);
    for number in 1..=actors {
        random_actors.push(RandomActor {
            dice: Random::new(seed.wrapping_mul(64).wrapping_add(u64::from(number))),
            actors,
            sum: 0,
        })?;
    }
    Ok(random_actors)
}
