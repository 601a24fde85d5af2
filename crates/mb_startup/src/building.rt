//! Building a system from a plan and its actors.
ghost use Rattle.std.specs.Prelude.{◌≡◌, [], IfErr, IfOk, OnOk, length};
ghost use Rattle.mb_build.specs.BehavesAsPlanned.{BehaveAsPlanned};
ghost use Rattle.mb_build.specs.Reasons.{reasons};
ghost use Rattle.mb_startup.specs.Begun.{IsBegun};
ghost use Rattle.mb_startup.specs.Unbuilt.{IsNoSystem};

use crate::handles_and_senders::{HandlesAndSenders, open};
use crate::new_gates::{NewGates, found};
use mb_actor::{Actor, Behaviours};
use mb_build::{PlanError, check_plan};
use mb_msg::Plan;
use mb_pool::Pool;
use mb_system::{Built, RunActivity, System};
use std::alloc::{AllocError, Global};
use std::sync::Wait;

/// Why there is no system.
#[derive(Drop)]
pub enum BuildError<A: Actor> {
    /// None can be built from the plan. The plan and the actors come back.
    BadPlan(PlanError, Plan, Vec<A>),
    /// Memory was refused. The plan and the actors are dropped.
    NoMemory,
}

/// Builds a system from a plan and its actors, in the order of their numbers from 1 on. The guardian's list holds a Create;
/// nothing is scheduled.
///
/// It answers `BadPlan` with the first reason for which the plan is refused, and else `NoMemory` if memory was.
pub fn build<A: Actor, K: Behaviours, R: Wait>(
    rt: &R,
    alloc: Global,
    plan: Plan,
    actors: Vec<A>,
) -> Result<Built<A, K>, BuildError<A>>
    requires behaved { BehaveAsPlanned A.content A.after A.gives K.after K.gives 1 actors.items }
    ensures begun { IfOk result (IsBegun K.gives plan) }
    ensures right { OnOk result (reasons plan (length actors.items) ≡ []) }
    ensures refused { IfErr result (IsNoSystem plan actors.items) }
{
    if let Err(reason) = check_plan(&plan, actors.len()) {
        return Err(BuildError::BadPlan(reason, plan, actors));
    }
    match build_checked(rt, alloc, plan, actors) {
        Ok(built) => Ok(built),
        Err(_) => Err(BuildError::NoMemory),
    }
}

/// Builds a system as `build` does, from a plan that `check_plan` does not refuse, and without a look at the plan. The only error: memory was
/// refused. The plan and the actors are dropped then.
pub fn build_checked<A: Actor, K: Behaviours, R: Wait>(
    rt: &R,
    alloc: Global,
    plan: Plan,
    actors: Vec<A>,
) -> Result<Built<A, K>, AllocError>
    requires right { reasons plan (length actors.items) ≡ [] }
    requires behaved { BehaveAsPlanned A.content A.after A.gives K.after K.gives 1 actors.items }
    ensures { IfOk result (IsBegun K.gives plan) }
{
    let Plan {
        throughput,
        workers,
        pool,
        senders,
        journal,
        journal_limit,
        actors: plans,
    } = plan;
    let NewGates {
        gates,
        pass,
        outside,
    } = found(alloc, plans, actors, senders, journal, journal_limit)?;
    let (pool, handles, feeds) = Pool::new(
        alloc,
        &gates,
        pool,
        workers as usize,
        senders as usize,
    )?;
    let HandlesAndSenders {
        handles,
        senders: outside,
    } = open(rt, alloc, &gates, pass, handles, feeds, outside, journal)?;
    let system = System {
        workers,
        senders,
        gates,
        pool,
        going: RunActivity::new(),
        throughput,
        alloc,
    };
    Ok(Built {
        system,
        handles,
        senders: outside,
    })
}
