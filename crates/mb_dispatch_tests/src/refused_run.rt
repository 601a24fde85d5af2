//! A whole run by one call, which is made again where memory was refused: `tools/refuse_each_allocation run` runs this with each
//! allocation refused in turn.
use crate::refused::{BY_SHARED, SENDS, WITH_ALL, is_text_due, see_due};
use crate::whole_run::{RunMode, run_whole};
use heddleorange::{Error, dead_letters};
use mb_msg::{ActorId, DeadLetter, DeadLetterReason, Order, OrderKind};
use mb_report::Report;
use mb_testkit::{TestCase, plan_of, test_actors_of};
use std::alloc::{AllocError, Global};
use std::sync::Wait;
use std::thread::Threads;

/// The place of the sender outside: it comes behind the guardian and two actors.
const SENDER: ActorId = ActorId(3);

/// What the sender is to send.
fn orders(alloc: Global) -> Result<Vec<Vec<Order>>, AllocError> {
    let mut own = Vec::new(alloc);
    for (payload, _) in SENDS {
        own.push(Order {
            to: ActorId(2),
            what: OrderKind::Tell(*payload),
            times: 1,
        })?;
    }
    Ok(vec![in alloc; own]?)
}

fn run_once<R: Threads + Wait + Sync>(
    rt: &R,
    alloc: Global,
    story: &TestCase<'_>,
) -> Result<Report, Error> {
    let sends = orders(alloc)?;
    let actors = test_actors_of(alloc, story.parts)?;
    let plan = plan_of(alloc, story)?;
    Ok(run_whole(rt, alloc, RunMode::Here, plan, actors, &sends)?)
}

/// The report of the run, which is made again where memory was refused.
fn run_at_last<R: Threads + Wait + Sync>(
    rt: &R,
    alloc: Global,
    story: &TestCase<'_>,
) -> Result<Report, Error> {
    match run_once(rt, alloc, story) {
        Err(Error::NoMemory | Error::NoMemoryInRun) => run_once(rt, alloc, story),
        outcome => outcome,
    }
}

/// The report that is due, where these are the sender's dead letters.
fn due_with(letters: &[DeadLetter]) -> &'static str {
    for letter in letters {
        if letter.why == DeadLetterReason::NoMemory {
            return match SENDS.get(letter.envelope.number as usize) {
                Some((_, without)) => *without,
                None => "",
            };
        }
    }
    WITH_ALL
}

fn is_as_due(alloc: Global, report: &Report) -> Option<bool> {
    let letters = dead_letters(report, SENDER)?;
    is_text_due(alloc, report, due_with(letters.kept()))
}

#[test]
fn a_refused_whole_run_can_be_made_again(rt: HostRuntime) {
    let Ok(report) = run_at_last(&rt, rt.alloc(), &BY_SHARED) else {
        assert!(rt; false, "no report");
        return;
    };
    see_due(&rt, is_as_due(rt.alloc(), &report));
}
