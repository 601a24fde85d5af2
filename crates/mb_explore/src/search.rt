//! The search.
ghost use Rattle.std.specs.Prelude.{◌≡◌, ℕ, [], map, string_bytes, IfOk, IsTrue};
ghost use Rattle.mb_actor.specs.Behaviour.{AllowsSame};
ghost use Rattle.mb_world.specs.World.{IsStart};
ghost use Rattle.mb_explore.specs.Added.{found_of, text_of};
ghost use Rattle.mb_explore.specs.Outcomes.{AllEndIn, AreFound};
ghost use Rattle.mb_explore.specs.Search.{Follows};
ghost use Rattle.mb_explore.specs.Ways.{AllEndAtStart};

use crate::explore_error::ExploreError;
use crate::follow::{follow, see};
use crate::frontier::Frontier;
use crate::outcome::{Explored, Limits, Outcome};
use crate::replay::begin;
use crate::setup::Setup;
use mb_actor::{Actor, Behaviours};
use std::alloc::Global;
use std::marker::Brand;

/// Each report that some order of steps leads to, once, up to these limits. The actors other than the guardian have these names.
///
/// A system that waits to be followed, and one that is alike, are followed once. With `is_complete`, each order of steps ends in one of these
/// reports, and none is shorter than the one that is listed with its report. It answers `WrongNames` if there are not as many names as actors,
/// `JournalFull` if a step fills a journal, `NotRepeated` if the system does not do the same each time, `NoMemory` if memory was refused, and what
/// `Setup::parts` answers.
pub fn explore<A: Actor, S: Setup<A>>(
    alloc: Global,
    setup: &S,
    names: &[String],
    limits: Limits,
) -> Result<Explored, ExploreError>
    ensures found { IfOk result (λ e. AreFound (IsStart (S.count setup.now) (S.orders setup.now)) (S.after setup.now) (S.gives setup.now)
        (map string_bytes names.now) (map found_of e.outcomes.items)) }
    ensures complete { IfOk result (λ e. IsTrue e.is_complete →
        AllEndIn (IsStart (S.count setup.now) (S.orders setup.now)) (S.after setup.now) (S.gives setup.now)
        (map string_bytes names.now) (map text_of e.outcomes.items) []) }
    ensures shortest { IfOk result (λ e. IsTrue e.is_complete →
        AllEndAtStart (S.after setup.now) (S.gives setup.now) (map string_bytes names.now)
        (IsStart (S.count setup.now) (S.orders setup.now)) (map found_of e.outcomes.items)) }
{
    explore_as::<A, Brand, S>(alloc, setup, names, limits)
}

/// `explore`, where it is known what the actor of each number does.
fn explore_as<A: Actor, K: Behaviours, S: Setup<A>>(
    alloc: Global,
    setup: &S,
    names: &[String],
    limits: Limits,
) -> Result<Explored, ExploreError>
    requires after { K.after ≡ S.after setup.now }
    requires gives { (n : ℕ) → AllowsSame (S.gives setup.now n) (K.gives n) }
    ensures found { IfOk result (λ e. AreFound (IsStart (S.count setup.now) (S.orders setup.now)) K.after K.gives (map string_bytes names.now)
        (map found_of e.outcomes.items)) }
    ensures complete { IfOk result (λ e. IsTrue e.is_complete →
        AllEndIn (IsStart (S.count setup.now) (S.orders setup.now)) K.after K.gives (map string_bytes names.now)
        (map text_of e.outcomes.items) []) }
    ensures shortest { IfOk result (λ e. IsTrue e.is_complete →
        AllEndAtStart K.after K.gives (map string_bytes names.now) (IsStart (S.count setup.now) (S.orders setup.now))
        (map found_of e.outcomes.items)) }
{
    let mut outcomes = Vec::new(alloc);
    let mut frontier = Frontier::<A, K>::new(alloc)?;
    let first = begin(alloc, setup)?;
    let no_steps = Vec::new(alloc);
    see(
        alloc,
        names,
        first,
        no_steps,
        1,
        &mut frontier,
        &mut outcomes,
    )?;
    let steps = follow_all(alloc, setup, names, limits, &mut frontier, &mut outcomes)?;
    if outcomes.len() > limits.outcomes {
        outcomes.truncate(limits.outcomes);
        return Ok(Explored {
            outcomes,
            is_complete: false,
            steps,
        });
    }
    Ok(Explored {
        is_complete: frontier.is_empty(),
        outcomes,
        steps,
    })
}

/// Follows what waits, up to these limits. The answer is how many steps were made.
fn follow_all<A: Actor, K: Behaviours, S: Setup<A>>(
    alloc: Global,
    setup: &S,
    names: &[String],
    limits: Limits,
    frontier: &mut Frontier<A, K>,
    outcomes: &mut Vec<Outcome>,
) -> Result<u64, ExploreError>
    requires after { K.after ≡ S.after setup.now }
    requires gives { (n : ℕ) → AllowsSame (S.gives setup.now n) (K.gives n) }
    requires found { AreFound (IsStart (S.count setup.now) (S.orders setup.now)) K.after K.gives (map string_bytes names.now)
        (map found_of outcomes.old.items) }
    ensures found { IfOk result (λ _. AreFound (IsStart (S.count setup.now) (S.orders setup.now)) K.after K.gives (map string_bytes names.now)
        (map found_of outcomes.new.items)) }
    ensures follows { IfOk result (λ _. Follows K.after K.gives (map string_bytes names.now)
        (map found_of outcomes.old.items) frontier.old (map found_of outcomes.new.items) frontier.new (λ final. Unit {0})) }
{
    let mut steps = 0_u64;
    for taken in 0..limits.steps {
        if steps >= limits.steps || outcomes.len() > limits.outcomes {
            return Ok(steps);
        }
        let Some(waiting) = frontier.next() else {
            return Ok(steps);
        };
        steps = steps.saturating_add(follow(alloc, setup, names, waiting, frontier, outcomes)?);
    }
    Ok(steps)
}
