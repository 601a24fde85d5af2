//! Building the system of a run whose senders take their orders from sources.
ghost use Rattle.std.specs.Prelude.{◌≡◌, [], List, IfErr, IfOk, OnOk, false, length, true};
ghost use Rattle.mb_build.specs.BehavesAsPlanned.{BehaveAsPlanned};
ghost use Rattle.mb_build.specs.Reasons.{reasons};
ghost use Rattle.mb_dispatch.specs.Sources.{others_of};
ghost use Rattle.mb_msg.specs.declared.order.Order.{Order as OrderOf};
ghost use Rattle.mb_startup.specs.Begun.{IsBegun};
ghost use Rattle.heddleorange.specs.GivesBack.{GivesBack, tells_of_nothing_done};
ghost use Rattle.heddleorange.specs.NamedOrder.{NamesInLists};
ghost use Rattle.heddleorange.specs.NoReport.{IsErrorOfRun, IsUnfit, has_one_for_nobody};

use crate::begin::build_checked;
use crate::error::Error;
use crate::failed_run::FailedRun;
use mb_actor::{Actor, Behaviours};
use mb_build::check_plan;
use mb_msg::Plan;
use mb_system::Built;
use std::alloc::Global;
use std::sync::Wait;

/// The new system of this plan and these actors, where the plan is right and has so many senders. What is said where it is not holds of any
/// orders of so many sources, each of which can go to an actor.
pub(crate) fn begin_from<A: Actor, K: Behaviours, R: Wait>(
    rt: &R,
    alloc: Global,
    plan: Plan,
    actors: Vec<A>,
    sources: usize,
) -> Result<Built<A, K>, FailedRun<A>>
    requires behaved { BehaveAsPlanned A.content A.after A.gives K.after K.gives 1 actors.items }
    ensures begun { IfOk result (IsBegun K.gives plan) }
    ensures right { OnOk result ((reasons plan (length actors.items) ≡ []) × (sources ≡ plan.senders)) }
    ensures others { IfOk result (λ built. others_of built.system.gates ≡ length actors.items) }
    ensures refused { IfErr result (λ failed. (orders : List (List OrderOf)) → length orders ≡ sources
        → has_one_for_nobody (length actors.items) orders ≡ false → IsErrorOfRun K.gives plan (length actors.items) orders failed) }
    ensures which { IfErr result (λ failed. (orders : List (List OrderOf)) → NamesInLists (length actors.items) orders failed.error) }
    ensures back { IfErr result (GivesBack plan actors.items []) }
{
    if let Err(error) = check_sources(&plan, actors.len(), sources) {
        return Err(FailedRun::refused(alloc, error, plan, actors));
    }
    build_checked::<A, K, R>(rt, alloc, plan, actors)
}

// Whether the plan is right, and has so many senders; checked before anything is done.
fn check_sources(plan: &Plan, actors: usize, sources: usize) -> Result<(), Error>
    ensures right { OnOk result ((reasons plan.now actors ≡ []) × (sources ≡ plan.now.senders)) }
    ensures unfit { IfErr result (λ error. (orders : List (List OrderOf)) → length orders ≡ sources → IsUnfit plan.now actors orders error) }
    ensures which { IfErr result (λ error. (orders : List (List OrderOf)) → NamesInLists actors orders error) }
    ensures nothing_done { IfErr result (λ error. tells_of_nothing_done error ≡ true) }
{
    if let Err(reason) = check_plan(plan, actors) {
        return Err(Error::BadPlan(reason));
    }
    if sources != plan.senders as usize {
        return Err(Error::OrderLists {
            lists: sources,
            senders: plan.senders,
        });
    }
    Ok(())
}
