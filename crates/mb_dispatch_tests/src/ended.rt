//! Actors that end, and who is told of it, on threads.
use crate::farewell::ALL_ENDED;
use crate::whole_run::{Run, RunMode, play_whole};
use mb_testkit::{Action, COUNTER, PLAIN, TestActorPlan, TestCase, kill, stop};

pub const WATCHED: &str = "\
guardian live state - suspended 0 handled 0 left 0 dead 0 restarts 0
a1 live state 0 suspended 0 handled 1 left 0 dead 0 restarts 0
a2 ended state 0 suspended 0 handled 1 left 0 dead 0 restarts 0
sent 2 handled 2 left 0 dead 0
";

const WATCH: &[Run] = &[(
    TestCase {
        parts: &[
            TestActorPlan {
                start: &[Action::Watch(2)],
                ..COUNTER
            },
            COUNTER,
        ],
        sends: &[kill!(2)],
        ..PLAIN
    },
    WATCHED,
)];

const STOP: &[Run] = &[(
    TestCase {
        workers: 1,
        parts: &[COUNTER],
        sends: &[stop!(0)],
        ..PLAIN
    },
    ALL_ENDED,
)];

#[test]
fn who_watches_is_told_of_an_end(rt: HostRuntime) {
    play_whole(&rt, rt.alloc(), RunMode::OnThreads, WATCH)
}

#[test]
fn all_end_with_a_guardian_that_is_stopped(rt: HostRuntime) {
    play_whole(&rt, rt.alloc(), RunMode::OnThreads, STOP)
}
