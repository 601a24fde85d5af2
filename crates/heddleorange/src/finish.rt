//! What is left of a system that did not end.
ghost use Rattle.std.specs.Prelude.{◌≡◌, ℕ, IfErr, IfOk, false};
ghost use Rattle.mb_msg.specs.declared.id.ActorId.{ActorId as Id};
ghost use Rattle.mb_shutdown.specs.Refused.{IsOfWhole};
ghost use Rattle.mb_shutdown.specs.declared.ending.FinishError.TheVariants.{NotQuiet};
ghost use Rattle.heddleorange.specs.GivesBack.{GivesNothingBack, tells_of_nothing_done};
ghost use Rattle.heddleorange.specs.Remains.{BringsOwnHandles, HasOwnHandles, IsFailureFor, IsLeftFor};

use crate::error::Error;
use crate::failed_run::FailedRun;
use crate::names::Names;
use mb_actor::{Actor, Behaviours};
use mb_shutdown::{FinishError, unfinished_actors};
use mb_system::Built;
use std::alloc::Global;
use std::sync::Wait;

/// The system of which an actor has something to run still, or the failure of one that has no report for another reason.
pub(crate) fn left_to_run<A: Actor, K: Behaviours, R: Wait>(
    rt: &R,
    alloc: Global,
    error: FinishError<A, K>,
) -> Result<Built<A, K>, FailedRun<A>>
    requires whole { (actors : ℕ) × IsOfWhole actors error }
    requires own_handles { BringsOwnHandles error }
    ensures again { IfOk result (λ left. (id : Id) × (error ≡ NotQuiet id left)) }
    ensures why { IfErr result (IsFailureFor K.gives error) }
    ensures back { IfErr result GivesNothingBack }
{
    match error {
        FinishError::NotQuiet(_, left) => Ok(left),
        FinishError::NoMemory(left) => Err(left_for(rt, left, Error::NoMemory)),
        FinishError::Mismatch(mismatch) => Err(FailedRun::without_actors(
            alloc,
            Error::Mismatch(mismatch),
        )),
        FinishError::MissingHandle(_, _) => unreachable!(),
        FinishError::MissingSender(_, _) => unreachable!(),
    }
}

// What is left of the actors of a system that has no report for this reason. Where memory was refused for that too, nothing is shown, and
// it is the reason that is told.
fn left_for<A: Actor, K: Behaviours, R: Wait>(
    rt: &R,
    built: Built<A, K>,
    error: Error,
) -> FailedRun<A>
    requires own_handles { HasOwnHandles built }
    requires begun { tells_of_nothing_done error ≡ false }
    ensures left { IsLeftFor K.gives built error result }
    ensures back { GivesNothingBack result }
{
    let alloc = built.system.alloc;
    match unfinished_actors(rt, built) {
        Ok(actors) => FailedRun {
            error,
            actors,
            untouched: None,
            names: Names::new(alloc),
        },
        Err(_) => FailedRun::without_actors(alloc, Error::NoMemory),
    }
}
