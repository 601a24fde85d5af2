//! A system that waits to be followed.
ghost use Rattle.std.specs.Prelude.{◌≡◌};
ghost use Rattle.mb_world.specs.Alike.{IsAlike};
ghost use Rattle.mb_explore.specs.Search.{GoesOn, IsMet};

use mb_actor::{Actor, Behaviours};
use mb_world::{Choice, World};
use std::marker::Model;

/// A system in which a step is possible, and what leads there.
#[derive(Drop)]
pub(crate) struct Waiting<A: Actor, K: Behaviours> {
    world: World<A, K>,
    /// The shortest order of steps that was found and leads to such a system.
    schedule: Vec<Choice>,
    /// How many orders were found that do.
    orders: u64,
}

impl<A: Actor, K: Behaviours> Model for Waiting<A, K> {
    ghost use Rattle.mb_explore.specs.Search.{GoesOn, Spot};

    ghost Value = { Spot };

    ghost view = { λ w. (w.schedule.items, w.world) };

    ghost invariant = { λ w. GoesOn w.world };
}

/// What a system that waited is.
#[derive(Drop)]
pub(crate) struct WaitingParts<A: Actor, K: Behaviours> {
    pub(crate) world: World<A, K>,
    pub(crate) schedule: Vec<Choice>,
    pub(crate) orders: u64,
}

impl<A: Actor, K: Behaviours> Waiting<A, K> {
    /// This system waits, to which so many orders lead, and this is the shortest of them.
    pub(crate) fn new(world: World<A, K>, schedule: Vec<Choice>, orders: u64) -> Self
        requires { GoesOn world }
        ensures { result ≡ (schedule.items, world) }
    {
        Waiting {
            world,
            schedule,
            orders,
        }
    }

    /// The system.
    pub(crate) fn world(&self) -> &World<A, K>
        ensures { result.now ≡ self.now.1 }
    {
        &self.world
    }

    /// So many more orders lead to a system that is alike, and this is the shortest of them.
    pub(crate) fn meet(&mut self, world: World<A, K>, schedule: Vec<Choice>, orders: u64)
        requires goes_on { GoesOn world }
        ensures { IsMet self.old self.new (schedule.items, world) }
    {
        self.orders = self.orders.saturating_add(orders);
        if schedule.len() < self.schedule.len() {
            self.world = world;
            self.schedule = schedule;
        }
    }

    /// The system, the shortest order that leads there, and how many do.
    pub(crate) fn into_parts(self) -> WaitingParts<A, K>
        ensures parts { (result.schedule.items ≡ self.0) × (result.world ≡ self.1) }
        ensures goes_on { GoesOn result.world }
    {
        let Waiting {
            world,
            schedule,
            orders,
        } = self;
        WaitingParts {
            world,
            schedule,
            orders,
        }
    }
}
