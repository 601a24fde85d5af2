//! A system of actors with all that belongs to it. What the dispatcher's calls ask for is in the type, or is checked first.
ghost use Rattle.mb_system.specs.Belonging.{BelongsTogether};

use crate::closing::{Unfinished, refusal_of};
use crate::handle_call::{HandleAnswer, HandleCall, call_handle};
use crate::sender_call::{SenderAnswer, SenderCall, call_sender};
use crate::system_driver::SystemDriver;
use mb_dispatch::{Built, Sender, System, WorkerHandle};
use mb_report::Report;
use mb_shutdown::finish;
use mb_startup::{BuildError, build};
use mb_testkit::{Adding, TestActor, TestCase, plan_of, test_actors_of};
use std::alloc::Global;
use std::marker::Model;
use std::sync::Wait;

/// A system of test actors with its handles, and with those of its senders that were not dropped. (Of actors of any kind it would cost
/// more to prove: each caller of `SystemDriver` would have to find its impl for this kind.)
pub struct TestSystem {
    pub(crate) system: System<TestActor, Adding>,
    pub(crate) handles: Vec<WorkerHandle<TestActor, Adding>>,
    pub(crate) senders: Vec<Sender<TestActor, Adding>>,
}

// Written by hand: with a derived `Drop` each place would have to prove how every part is dropped.
impl Drop for TestSystem {
    fn drop(self) {
        let TestSystem {
            system: _,
            handles: _,
            senders: _,
        } = self;
    }
}

impl Model for TestSystem {
    ghost use Rattle.mb_system.specs.Belonging.{BelongsTogether};

    ghost Value = { Unit {0} };

    ghost view = { λ company. tt };

    ghost invariant = { λ company.
        BelongsTogether (record { system = company.system; handles = company.handles; senders = company.senders }) };
}

/// The system of this story, or why none can be built.
pub fn system_of<R: Wait>(
    rt: &R,
    alloc: Global,
    story: &TestCase<'_>,
) -> Result<TestSystem, BuildError<TestActor>> {
    let Ok(plan) = plan_of(alloc, story) else {
        return Err(BuildError::NoMemory);
    };
    let Ok(players) = test_actors_of(alloc, story.parts) else {
        return Err(BuildError::NoMemory);
    };
    match build::<TestActor, Adding, R>(rt, alloc, plan, players) {
        Ok(built) => Ok(TestSystem::of(built)),
        Err(error) => Err(error),
    }
}

impl TestSystem {
    /// The system and all that is there of it.
    pub(crate) fn of(built: Built<TestActor, Adding>) -> Self
        requires together { BelongsTogether built }
    {
        let Built {
            system,
            handles,
            senders,
        } = built;
        TestSystem {
            system,
            handles,
            senders,
        }
    }
}

impl SystemDriver for TestSystem {
    fn finish<R: Wait>(self, rt: &R) -> Result<Report, Unfinished<TestSystem>> {
        let TestSystem {
            system,
            handles,
            senders,
        } = self;
        let built = Built {
            system,
            handles,
            senders,
        };
        match finish(rt, built) {
            Ok(report) => Ok(report),
            Err(error) => Err(refusal_of(error)),
        }
    }

    fn lose_senders(&mut self) {
        self.senders.clear();
    }

    fn lead<R: Wait>(&mut self, rt: &R, call: HandleCall) -> Option<HandleAnswer> {
        if self.handles.len() == 0 {
            return None;
        }
        call_handle(rt, &self.system, &mut self.handles, &mut self.senders, call)
    }

    fn send<R: Wait>(&mut self, rt: &R, call: SenderCall) -> Option<SenderAnswer> {
        if self.senders.len() == 0 {
            return None;
        }
        call_sender(rt, &self.system, &mut self.senders[0], call)
    }
}
