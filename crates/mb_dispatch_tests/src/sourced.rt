//! Runs whose sender takes its orders from a source: what comes to the actor, what comes back to the source, and that no source is asked where
//! there are more sources than senders.
use heddleorange::{
    Error, FailedRun, NamedReport, NewSystem, RecordedSource, SETTINGS, Settings, Source, Unused,
    state,
};
use mb_msg::{ActorId, ActorPlan, Order};
use mb_testkit::{ADD, COUNTER, TestActor, tell};
use std::alloc::{AllocError, Global};
use std::process::Abort;
use std::sync::Wait;
use std::test::Fail;
use std::thread::Threads;

const GUARDIAN: ActorId = ActorId(0);

const ONLY: ActorId = ActorId(1);

/// What the source gives. There is no ninth actor.
const ORDERS: &[Order] = &[tell!(1, ADD, 3), tell!(9, ADD, 4), tell!(1, ADD, 5)];

/// A list of orders, which counts how many it gave and how many came back.
#[derive(Drop)]
struct CountingSource {
    orders: Vec<Order>,
    given: usize,
    came_back: usize,
}

impl CountingSource {
    fn new(alloc: Global, orders: &[Order]) -> Result<CountingSource, AllocError> {
        let mut list = Vec::with_capacity(alloc, orders.len())?;
        for order in orders {
            list.push(*order)?;
        }
        Ok(CountingSource {
            orders: list,
            given: 0,
            came_back: 0,
        })
    }
}

impl Source for CountingSource {
    ghost gives = { λ _ _ _. Unit {0} };

    ghost takes_back = { λ _ _ _. Unit {0} };

    fn next(&mut self) -> Option<Order> {
        let order = *self.orders.get(self.given)?;
        self.given += 1;
        Some(order)
    }

    fn take_back(&mut self, _order: Order) {
        self.came_back = self.came_back.saturating_add(1);
    }
}

fn counter() -> Unused<TestActor> {
    Unused::new(TestActor::new(COUNTER))
}

/// What comes of a run of one counter, whose only sender takes its orders from the only one of these sources.
fn run<R: Threads + Wait + Sync>(
    rt: &R,
    alloc: Global,
    workers: u32,
    sources: &mut [RecordedSource<CountingSource>],
) -> Result<Result<NamedReport, FailedRun<TestActor>>, Error> {
    let settings = Settings {
        workers,
        ..SETTINGS
    };
    let mut system = NewSystem::new(alloc, settings);
    system.add(ActorPlan::child_of(alloc, GUARDIAN), counter())?;
    Ok(system.run_from(rt, alloc, sources))
}

/// Each of these sources gave so many orders, and so many came back to it.
fn see_counts<R: Abort>(
    rt: &R,
    sources: Vec<RecordedSource<CountingSource>>,
    given: usize,
    came_back: usize,
) {
    for source in sources {
        let source = source.into_source();
        assert!(rt; source.given == given);
        assert!(rt; source.came_back == came_back);
    }
}

/// The counter gets what can go to it, with so many workers, and the order for nobody comes back.
fn see_carried_out<R: Abort + Threads + Wait + Sync>(
    rt: &R,
    alloc: Global,
    workers: u32,
) -> Result<(), Fail> {
    let source = RecordedSource::new(CountingSource::new(alloc, ORDERS)?);
    let mut sources = vec![in alloc; source]?;
    let Ok(done) = run(rt, alloc, workers, &mut sources)? else {
        assert!(rt; false, "there is no report");
        return Ok(());
    };
    assert!(rt; state(&done.report, ONLY) == Some(8));
    see_counts(rt, sources, 3, 1);
    Ok(())
}

#[test]
fn an_order_for_nobody_comes_back_on_one_thread(rt: HostRuntime) -> Result<(), Fail> {
    see_carried_out(&rt, rt.alloc(), 1)
}

#[test]
fn an_order_for_nobody_comes_back_on_threads(rt: HostRuntime) -> Result<(), Fail> {
    see_carried_out(&rt, rt.alloc(), 2)
}

#[test]
fn two_sources_of_one_sender_are_not_asked(rt: HostRuntime) -> Result<(), Fail> {
    let alloc = rt.alloc();
    let first = RecordedSource::new(CountingSource::new(alloc, ORDERS)?);
    let second = RecordedSource::new(CountingSource::new(alloc, ORDERS)?);
    let mut sources = vec![in alloc; first, second]?;
    let Err(failed) = run(&rt, alloc, 1, &mut sources)? else {
        assert!(&rt; false, "there is a report");
        return Ok(());
    };
    let refused = Error::OrderLists {
        lists: 2,
        senders: 1,
    };
    assert!(&rt; failed.error == refused);
    see_counts(&rt, sources, 0, 0);
    Ok(())
}
