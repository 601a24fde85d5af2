//! Whole runs, on this thread or on threads, each with the text of its report or with why there is none.
ghost use Rattle.std.specs.Prelude.{◌≡◌, [], All};

use crate::seen::see;
use crate::shown::failed_text;
use heddleorange::{FailedRun, run_here, run_on_threads};
use mb_actor::Actor;
use mb_msg::{JournalMode, Order, Plan};
use mb_report::Report;
use mb_testkit::{TestCase, plan_and_sends, test_actors_of};
use std::alloc::Global;
use std::process::Abort;
use std::sync::Wait;
use std::thread::Threads;

/// Where the actors of a whole run are called.
#[derive(Clone, Copy)]
pub enum RunMode {
    /// On this thread: all is sent before anything is run.
    Here,
    /// On threads: all workers run while each sender sends.
    OnThreads,
}

/// A story, and the text of its report, or why there is no report.
pub type Run = (TestCase<'static>, &'static str);

/// Plays each of these stories, with journals that keep their entries, that count them and that keep the newest, and checks that its report
/// has this text, or that this is why there is no report.
pub fn play_whole<R: Abort + Threads + Wait + Sync>(
    rt: &R,
    alloc: Global,
    mode: RunMode,
    runs: &[Run],
) {
    for (story, report) in runs {
        for journal in [
            JournalMode::Kept,
            JournalMode::Counted,
            JournalMode::Last(2),
        ] {
            let story = TestCase { journal, ..*story };
            see(rt, &story_text(rt, alloc, mode, &story), *report);
        }
    }
}

/// The report's text of this story, or why there is no report. Nothing where memory was refused.
pub fn story_text<R: Threads + Wait + Sync>(
    rt: &R,
    alloc: Global,
    mode: RunMode,
    story: &TestCase<'_>,
) -> Option<String> {
    match test_actors_of(alloc, story.parts) {
        Ok(players) => text_with(rt, alloc, mode, story, players),
        Err(_) => None,
    }
}

/// The same where these are the actors.
pub fn text_with<A: Actor + Send, R: Threads + Wait + Sync>(
    rt: &R,
    alloc: Global,
    mode: RunMode,
    story: &TestCase<'_>,
    actors: Vec<A>,
) -> Option<String>
    requires unused { All (λ actor. A.content actor ≡ A.after actor []) actors.items }
{
    match plan_and_sends(alloc, story) {
        Ok((plan, orders)) => {
            let outcome = run_whole(rt, alloc, mode, plan, actors, &orders);
            failed_text(alloc, outcome, story.parts.len())
        }
        Err(_) => None,
    }
}

/// What comes of a whole run. Tests call it in place of `run_here` and `run_on_threads`, since each call of these is costly to prove.
pub fn run_whole<A: Actor + Send, R: Threads + Wait + Sync>(
    rt: &R,
    alloc: Global,
    mode: RunMode,
    plan: Plan,
    actors: Vec<A>,
    sends: &[Vec<Order>],
) -> Result<Report, FailedRun<A>>
    requires unused { All (λ actor. A.content actor ≡ A.after actor []) actors.items }
{
    match mode {
        RunMode::Here => run_here(rt, alloc, plan, actors, sends),
        RunMode::OnThreads => run_on_threads(rt, alloc, plan, actors, sends),
    }
}
