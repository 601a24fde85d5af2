//! Plans from which no system is built: the plan and the actors come back.
use crate::test_system::system_of;
use mb_msg::{ActorId, Plan};
use mb_startup::{BuildError, PlanError};
use mb_testkit::{COUNTER, PLAIN, TestActorPlan, TestCase};
use std::alloc::{AllocError, Global};
use std::sync::Wait;
use std::test::Fail;

/// The second actor is its own child.
const OWN_CHILD: TestCase<'static> = TestCase {
    parts: &[
        COUNTER,
        TestActorPlan {
            parent: 2,
            ..COUNTER
        },
    ],
    workers: 3,
    ..PLAIN
};

const TOO_MANY_WORKERS: TestCase<'static> = TestCase {
    parts: &[COUNTER],
    workers: 17,
    ..PLAIN
};

/// Why no system is built of this plan with as many actors. Nothing where one is, or where they do not come back with the plan.
fn refusal<R: Wait>(
    rt: &R,
    alloc: Global,
    case: &TestCase<'_>,
) -> Result<Option<PlanError>, AllocError> {
    match system_of(rt, alloc, case) {
        Ok(_) => Ok(None),
        Err(BuildError::BadPlan(reason, plan, actors)) => {
            let is_back = is_plan_of(&plan, case) && actors.len() == case.parts.len();
            Ok(if is_back { Some(reason) } else { None })
        }
        Err(BuildError::NoMemory) => Err(AllocError),
    }
}

fn is_plan_of(plan: &Plan, case: &TestCase<'_>) -> bool {
    plan.actors.len() == case.parts.len() && plan.workers == case.workers
}

#[test]
fn a_bad_plan_comes_back_with_its_actors(rt: HostRuntime) -> Result<(), Fail> {
    let own_child = refusal(&rt, rt.alloc(), &OWN_CHILD)?;
    assert!(rt; own_child == Some(PlanError::Parent(ActorId(2))));
    let too_many = refusal(&rt, rt.alloc(), &TOO_MANY_WORKERS)?;
    assert!(rt; too_many == Some(PlanError::Workers));
    Ok(())
}
