//! The report after an order of steps.
ghost use Rattle.std.specs.Prelude.{◌≡◌, ◌<◌, ℕ, length, map, slice_index_or, string_bytes, Contains, IfOk, MatchOption};
ghost use Rattle.mb_actor.specs.Behaviour.{AllowsSame};
ghost use Rattle.mb_world.specs.World.{IsStart};
ghost use Rattle.mb_explore.specs.Replayed.{IsReplayed};

use crate::explore_error::ExploreError;
use crate::follow::text_at_end;
use crate::replay::begin;
use crate::setup::Setup;
use mb_actor::{Actor, Behaviours};
use mb_world::{Choice, World};
use std::alloc::Global;
use std::marker::Brand;

/// What an order of steps leads to.
#[derive(Drop)]
pub struct Replayed {
    /// The text of the report after the steps that were made.
    pub text: String,
    /// How many of the steps were made: all, or those before the first that was not possible.
    pub made: usize,
    /// The steps that are possible then.
    pub choices: Vec<Choice>,
}

/// Makes these steps in a new system, up to the first that is not possible, and gives the report then. The actors other than the guardian have
/// these names. It answers as `explore` does.
pub fn replay_report<A: Actor, S: Setup<A>>(
    alloc: Global,
    setup: &S,
    names: &[String],
    schedule: &[Choice],
) -> Result<Replayed, ExploreError>
    ensures { IfOk result (IsReplayed (IsStart (S.count setup.now) (S.orders setup.now)) (S.after setup.now) (S.gives setup.now)
        (map string_bytes names.now) schedule.now) }
{
    replay_as::<A, Brand, S>(alloc, setup, names, schedule)
}

/// `replay_report`, where it is known what the actor of each number does.
fn replay_as<A: Actor, K: Behaviours, S: Setup<A>>(
    alloc: Global,
    setup: &S,
    names: &[String],
    schedule: &[Choice],
) -> Result<Replayed, ExploreError>
    requires after { K.after ≡ S.after setup.now }
    requires gives { (n : ℕ) → AllowsSame (S.gives setup.now n) (K.gives n) }
    ensures { IfOk result (IsReplayed (IsStart (S.count setup.now) (S.orders setup.now)) K.after K.gives (map string_bytes names.now) schedule.now) }
{
    let mut world: World<A, K> = begin(alloc, setup)?;
    for place in 0..schedule.len() {
        let choice = schedule[place];
        let choices = world.choices(alloc)?;
        let Some(_listed) = place_in(&choices, choice) else {
            let text = text_at_end(alloc, world, names)?;
            return Ok(Replayed {
                text,
                made: place,
                choices,
            });
        };
        world.step(alloc, choice)?;
    }
    let choices = world.choices(alloc)?;
    let text = text_at_end(alloc, world, names)?;
    Ok(Replayed {
        text,
        made: schedule.len(),
        choices,
    })
}

/// Where a step stands among these.
fn place_in(choices: &[Choice], choice: Choice) -> Option<usize>
    ensures { MatchOption result (Contains choices.now choice → ⊥)
        (λ place. (place < length choices.now) × (slice_index_or choices.now place choice ≡ choice)) }
{
    for place in 0..choices.len() {
        if choices[place] == choice {
            return Some(place);
        }
    }
    None
}
