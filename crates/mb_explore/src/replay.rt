//! Making steps from the beginning on.
ghost use Rattle.std.specs.Prelude.{◌≡◌, ℕ, IfOk};
ghost use Rattle.mb_actor.specs.Behaviour.{AllowsSame};
ghost use Rattle.mb_world.specs.World.{IsStart, WorldView};
ghost use Rattle.mb_explore.specs.Orders.{LeadsTo};

use crate::explore_error::ExploreError;
use crate::setup::{Setup, SystemParts};
use mb_actor::{Actor, Behaviours};
use mb_world::{Choice, World};
use std::alloc::Global;

/// A new system after these steps.
pub(crate) fn replay<A: Actor, K: Behaviours, S: Setup<A>>(
    alloc: Global,
    setup: &S,
    schedule: &[Choice],
) -> Result<World<A, K>, ExploreError>
    requires after { K.after ≡ S.after setup.now }
    requires gives { (n : ℕ) → AllowsSame (S.gives setup.now n) (K.gives n) }
    ensures { IfOk result (λ last. (first : WorldView) × IsStart (S.count setup.now) (S.orders setup.now) first
        × LeadsTo first schedule.now last) }
{
    let mut world = begin(alloc, setup)?;
    for choice in schedule {
        world.step(alloc, *choice)?;
    }
    Ok(world)
}

/// A new system, in which the actors are registered for execution that have something to do. Its errors are those of its parts.
pub(crate) fn begin<A: Actor, K: Behaviours, S: Setup<A>>(
    alloc: Global,
    setup: &S,
) -> Result<World<A, K>, ExploreError>
    requires after { K.after ≡ S.after setup.now }
    requires gives { (n : ℕ) → AllowsSame (S.gives setup.now n) (K.gives n) }
    ensures { IfOk result (IsStart (S.count setup.now) (S.orders setup.now)) }
{
    let SystemParts {
        plan,
        actors,
        orders,
    } = setup.parts(alloc)?;
    let mut world = World::new(alloc, plan, actors, &orders)?;
    world.register_all()?;
    Ok(world)
}
