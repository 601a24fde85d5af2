//! Runs that are refused, or broken off: each error in which a whole run with ample memory was seen to end, on one thread and on
//! threads.
use crate::whole_run::{RunMode, run_whole};
use heddleorange::{Error, FailedRun, PlanError, UnfinishedActor};
use mb_msg::ActorId;
use mb_testkit::{
    ADD, COUNTER, Order, PLAIN, TestActor, TestActorPlan, TestCase, TestMailbox, plan_of, sends_of,
    stop, tell, test_actors_of,
};
use std::alloc::{AllocError, Global};
use std::process::Abort;
use std::sync::Wait;
use std::test::Fail;
use std::thread::Threads;

/// A plan, the actors that are handed in for it, what each sender is to send, why there is no report, and how many entries the journal
/// has of each actor that is left.
#[derive(Clone, Copy)]
pub struct Refusal {
    plan: TestCase<'static>,
    actors: &'static [TestActorPlan],
    sends: &'static [&'static [Order]],
    why: Error,
    left: &'static [usize],
}

/// A right plan of one actor and of one sender.
const ONE: TestCase<'static> = TestCase {
    parts: &[COUNTER],
    ..PLAIN
};

/// It would run if there were not one list of orders too few.
const WITHOUT_ORDERS: Refusal = Refusal {
    plan: ONE,
    actors: &[COUNTER],
    sends: &[],
    why: Error::OrderLists {
        lists: 0,
        senders: 1,
    },
    left: &[],
};

/// Its own child.
const OWN_CHILD: TestActorPlan = TestActorPlan {
    parent: 1,
    ..COUNTER
};

const TOO_LARGE: TestActorPlan = TestActorPlan {
    mailbox: TestMailbox::Bounded(65_537),
    ..COUNTER
};

/// Each is refused for the first of its reasons.
const BAD_PLANS: &[Refusal] = &[
    Refusal {
        plan: TestCase {
            parts: &[OWN_CHILD; 64],
            ..PLAIN
        },
        why: Error::BadPlan(PlanError::Actors),
        ..WITHOUT_ORDERS
    },
    Refusal {
        plan: TestCase {
            parts: &[OWN_CHILD],
            ..PLAIN
        },
        actors: &[COUNTER, COUNTER],
        why: Error::BadPlan(PlanError::Boxes),
        ..WITHOUT_ORDERS
    },
    Refusal {
        plan: TestCase {
            parts: &[TestActorPlan {
                mailbox: TestMailbox::Bounded(0),
                ..OWN_CHILD
            }],
            ..PLAIN
        },
        why: Error::BadPlan(PlanError::Parent(ActorId(1))),
        ..WITHOUT_ORDERS
    },
    Refusal {
        plan: TestCase {
            senders: 17,
            parts: &[TOO_LARGE],
            ..PLAIN
        },
        why: Error::BadPlan(PlanError::Capacity(ActorId(1))),
        ..WITHOUT_ORDERS
    },
    Refusal {
        plan: TestCase {
            senders: 17,
            workers: 0,
            ..ONE
        },
        why: Error::BadPlan(PlanError::Senders),
        ..WITHOUT_ORDERS
    },
    Refusal {
        plan: TestCase {
            workers: 0,
            journal_limit: 0,
            ..ONE
        },
        why: Error::BadPlan(PlanError::Workers),
        ..WITHOUT_ORDERS
    },
    Refusal {
        plan: TestCase { workers: 17, ..ONE },
        why: Error::BadPlan(PlanError::Workers),
        ..WITHOUT_ORDERS
    },
    Refusal {
        plan: TestCase {
            journal_limit: 0,
            ..ONE
        },
        why: Error::BadPlan(PlanError::JournalLimit),
        ..WITHOUT_ORDERS
    },
];

/// There are not as many lists as senders, or an order goes to nobody; or the journal is full.
const BAD_ORDERS: &[Refusal] = &[
    WITHOUT_ORDERS,
    Refusal {
        sends: &[&[tell!(2, ADD, 1)], &[]],
        why: Error::OrderLists {
            lists: 2,
            senders: 1,
        },
        ..WITHOUT_ORDERS
    },
    Refusal {
        sends: &[&[tell!(1, ADD, 1), tell!(2, ADD, 1)]],
        why: Error::NoSuchActor {
            sender: 0,
            place: 1,
            to: ActorId(2),
        },
        ..WITHOUT_ORDERS
    },
    Refusal {
        sends: &[&[tell!(0, ADD, 1)]],
        why: Error::NoSuchActor {
            sender: 0,
            place: 0,
            to: ActorId(0),
        },
        ..WITHOUT_ORDERS
    },
    Refusal {
        plan: TestCase { senders: 2, ..ONE },
        sends: &[&[tell!(1, ADD, 1)], &[tell!(1, ADD, 1), stop!(3), stop!(2)]],
        why: Error::NoSuchActor {
            sender: 1,
            place: 1,
            to: ActorId(3),
        },
        ..WITHOUT_ORDERS
    },
    FULL_JOURNAL,
];

/// The journal has room for the start and one message.
pub const FULL_JOURNAL: Refusal = Refusal {
    plan: TestCase {
        journal_limit: 2,
        ..ONE
    },
    sends: &[&[tell!(1, ADD, 1), tell!(1, ADD, 2)]],
    why: Error::JournalFull(ActorId(1)),
    left: &[1, 2],
    ..WITHOUT_ORDERS
};

/// What each sender is to send.
fn lists_of(alloc: Global, sends: &[&[Order]]) -> Result<Vec<Vec<Order>>, AllocError> {
    let mut lists = Vec::new(alloc);
    for own in sends {
        lists.push(sends_of(alloc, *own)?)?;
    }
    Ok(lists)
}

/// What is left of a run that is refused; nothing where it has a report.
fn refused<R: Threads + Wait + Sync>(
    rt: &R,
    alloc: Global,
    mode: RunMode,
    refusal: &Refusal,
) -> Result<Option<FailedRun<TestActor>>, AllocError> {
    let sends = lists_of(alloc, refusal.sends)?;
    let actors = test_actors_of(alloc, refusal.actors)?;
    let plan = plan_of(alloc, &refusal.plan)?;
    Ok(run_whole(rt, alloc, mode, plan, actors, &sends).err())
}

/// How many entries the journal of the actor of this number has, if it is there.
fn entries_of(actors: &[Option<UnfinishedActor>], number: usize) -> Option<usize> {
    match actors.get(number) {
        Some(Some(actor)) => Some(actor.journal.len()),
        _ => None,
    }
}

/// Whether these actors are left, each with as many entries in its journal as are due.
fn are_left(actors: &[Option<UnfinishedActor>], due: &[usize]) -> bool {
    let mut number = 0usize;
    for entries in due {
        if entries_of(actors, number) != Some(*entries) {
            return false;
        }
        number = number.wrapping_add(1);
    }
    number == actors.len()
}

/// How many actors come back as they were handed in.
fn handed_back(failed: &FailedRun<TestActor>) -> usize {
    match &failed.untouched {
        Some(untouched) => untouched.actors.len(),
        None => 0,
    }
}

/// The run has no report for the reason that is due, and what is left of its actors is as is due.
fn see_refused<R: Abort>(rt: &R, refusal: &Refusal, failed: &FailedRun<TestActor>) {
    assert!(rt; failed.error == refusal.why);
    assert!(rt; are_left(&failed.actors, refusal.left));
    let is_untouched = refusal.left.is_empty();
    assert!(rt;
        handed_back(failed)
            == if is_untouched {
                refusal.actors.len()
            } else {
                0
            }
    );
}

/// Checks that each of these is refused as is due.
pub fn are_refused<R: Abort + Threads + Wait + Sync>(
    rt: &R,
    alloc: Global,
    mode: RunMode,
    refusals: &[Refusal],
) {
    for refusal in refusals {
        match refused(rt, alloc, mode, refusal) {
            Ok(Some(failed)) => see_refused(rt, refusal, &failed),
            _ => assert!(rt; false, "it is not refused"),
        }
    }
}

/// Checks that each bad plan and each bad order is refused. (A proof takes a table apart in each function that names it.)
fn all_are_refused<R: Abort + Threads + Wait + Sync>(rt: &R, alloc: Global, mode: RunMode) {
    are_refused(rt, alloc, mode, BAD_PLANS);
    are_refused(rt, alloc, mode, BAD_ORDERS);
}

#[test]
fn a_run_on_one_thread_is_refused_for_its_first_reason(rt: HostRuntime) {
    all_are_refused(&rt, rt.alloc(), RunMode::Here)
}

#[test]
fn a_run_on_threads_is_refused_for_its_first_reason(rt: HostRuntime) {
    all_are_refused(&rt, rt.alloc(), RunMode::OnThreads)
}

#[test]
fn a_failed_run_is_shown_as_its_error(rt: HostRuntime) -> Result<(), Fail> {
    let failed: FailedRun<TestActor> = FailedRun::without_actors(rt.alloc(), Error::NoMemory);
    let text = format!(in rt.alloc(); "{failed}")?;
    assert!(&rt; text.as_str() == "memory was refused");
    Ok(())
}
