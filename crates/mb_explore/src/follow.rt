//! Following a system by each step that is possible.
ghost use Rattle.std.specs.Prelude.{◌≡◌, ℕ, ◌∷◌, ◌++◌, [], length, map, string_bytes, IfOk};
ghost use Rattle.std.specs.List.{All};
ghost use Rattle.mb_actor.specs.Behaviour.{AllowsSame};
ghost use Rattle.mb_world.specs.World.{IsStart};
ghost use Rattle.mb_explore.specs.Added.{found_of};
ghost use Rattle.mb_explore.specs.Outcomes.{AreFound};
ghost use Rattle.mb_explore.specs.Search.{Follows, IsMadeAfter, IsSeen, IsSettled};
ghost use Rattle.mb_explore.specs.Ways.{AllEndFrom, IsToldOf};

use crate::explore_error::ExploreError;
use crate::frontier::Frontier;
use crate::outcome::Outcome;
use crate::outcomes::add;
use crate::replay::replay;
use crate::setup::Setup;
use crate::waiting::{Waiting, WaitingParts};
use mb_actor::{Actor, Behaviours};
use mb_report::report_text;
use mb_world::{Choice, World};
use std::alloc::{AllocError, Global};

/// Makes each step that is possible in this system, each in a new system to which the same order leads. The answer is how many steps these are. It
/// answers `NotRepeated` if the order leads to another system than before, and else as its parts do.
pub(crate) fn follow<A: Actor, K: Behaviours, S: Setup<A>>(
    alloc: Global,
    setup: &S,
    names: &[String],
    waiting: Waiting<A, K>,
    frontier: &mut Frontier<A, K>,
    outcomes: &mut Vec<Outcome>,
) -> Result<u64, ExploreError>
    requires after { K.after ≡ S.after setup.now }
    requires gives { (n : ℕ) → AllowsSame (S.gives setup.now n) (K.gives n) }
    requires found { AreFound (IsStart (S.count setup.now) (S.orders setup.now)) K.after K.gives (map string_bytes names.now)
        (map found_of outcomes.old.items) }
    ensures found { IfOk result (λ _. AreFound (IsStart (S.count setup.now) (S.orders setup.now)) K.after K.gives (map string_bytes names.now)
        (map found_of outcomes.new.items)) }
    ensures follows { IfOk result (λ _. Follows K.after K.gives (map string_bytes names.now)
        (map found_of outcomes.old.items) frontier.old (map found_of outcomes.new.items) frontier.new
        (λ final. AllEndFrom K.after K.gives (map string_bytes names.now) final (length waiting.0) waiting.1)) }
{
    let from = waiting.into_parts();
    let choices = from.world.choices(alloc)?;
    make_all(alloc, setup, names, &from, &choices, frontier, outcomes)?;
    Ok(choices.len() as u64)
}

/// Makes each of these steps, in a new system each.
fn make_all<A: Actor, K: Behaviours, S: Setup<A>>(
    alloc: Global,
    setup: &S,
    names: &[String],
    from: &WaitingParts<A, K>,
    choices: &[Choice],
    frontier: &mut Frontier<A, K>,
    outcomes: &mut Vec<Outcome>,
) -> Result<(), ExploreError>
    requires after { K.after ≡ S.after setup.now }
    requires gives { (n : ℕ) → AllowsSame (S.gives setup.now n) (K.gives n) }
    requires found { AreFound (IsStart (S.count setup.now) (S.orders setup.now)) K.after K.gives (map string_bytes names.now)
        (map found_of outcomes.old.items) }
    ensures found { IfOk result (λ _. AreFound (IsStart (S.count setup.now) (S.orders setup.now)) K.after K.gives (map string_bytes names.now)
        (map found_of outcomes.new.items)) }
    ensures follows { IfOk result (λ _. Follows K.after K.gives (map string_bytes names.now)
        (map found_of outcomes.old.items) frontier.old (map found_of outcomes.new.items) frontier.new
        (λ final. All (IsSettled K.after K.gives (map string_bytes names.now) final (length from.now.schedule.items) from.now.world) choices.now)) }
{
    for choice in choices {
        let next = make_after(alloc, setup, &from.world, &from.schedule, *choice)?;
        let longer = with_step(alloc, &from.schedule, *choice)?;
        see(alloc, names, next, longer, from.orders, frontier, outcomes)?;
    }
    Ok(())
}

/// The system that a step leads to in a new system, to which this order led. It answers `NotRepeated` if that is not like the system to which it
/// led before.
fn make_after<A: Actor, K: Behaviours, S: Setup<A>>(
    alloc: Global,
    setup: &S,
    world: &World<A, K>,
    schedule: &[Choice],
    choice: Choice,
) -> Result<World<A, K>, ExploreError>
    requires after { K.after ≡ S.after setup.now }
    requires gives { (n : ℕ) → AllowsSame (S.gives setup.now n) (K.gives n) }
    ensures { IfOk result (IsMadeAfter (IsStart (S.count setup.now) (S.orders setup.now)) schedule.now world.now choice) }
{
    let mut next: World<A, K> = replay(alloc, setup, schedule)?;
    if !next.is_alike(world) {
        return Err(ExploreError::NotRepeated);
    }
    next.step(alloc, choice)?;
    Ok(next)
}

/// This order, and one step more. The only error: memory was refused.
fn with_step(alloc: Global, order: &[Choice], step: Choice) -> Result<Vec<Choice>, AllocError>
    ensures { IfOk result (λ longer. longer.items ≡ order.now ++ step ∷ []) }
{
    let mut longer = order.to_vec(alloc)?;
    longer.push(step)?;
    Ok(longer)
}

/// Sees what a system is to which so many orders lead, of which this is the shortest. If no step is possible, its report is found; else it waits.
pub(crate) fn see<A: Actor, K: Behaviours>(
    alloc: Global,
    names: &[String],
    world: World<A, K>,
    schedule: Vec<Choice>,
    orders: u64,
    frontier: &mut Frontier<A, K>,
    outcomes: &mut Vec<Outcome>,
) -> Result<(), ExploreError>
    ensures { IfOk result (λ _. IsSeen K.after K.gives (map string_bytes names.now) outcomes.old.items frontier.old
        outcomes.new.items frontier.new (schedule.items, world)) }
{
    let choices = world.choices(alloc)?;
    if choices.is_empty() {
        let text = text_at_end(alloc, world, names)?;
        add(outcomes, text, schedule, orders)?;
        return Ok(());
    }
    frontier.join(alloc, world, schedule, orders)?;
    Ok(())
}

/// The text of the report of a system.
pub(crate) fn text_at_end<A: Actor, K: Behaviours>(
    alloc: Global,
    world: World<A, K>,
    names: &[String],
) -> Result<String, ExploreError>
    ensures { IfOk result (λ text. IsToldOf K.after K.gives (map string_bytes names.now) world (string_bytes text)) }
{
    let report = world.into_report(alloc)?;
    if report.actors.len() != names.len() + 1 {
        return Err(ExploreError::WrongNames);
    }
    let text = report_text(alloc, &report, names)?;
    Ok(text)
}
