//! Answers of the dispatcher, and of whole runs, as texts.
use crate::handle_call::HandleAnswer;
use crate::sender_call::SenderAnswer;
use heddleorange::{Error, FailedRun};
use mb_dispatch::{Look, RunError, SendError, SendOutcome, Turn};
use mb_report::Report;
use mb_testkit::{add, text_of};
use std::alloc::{AllocError, Global};

/// The text of the report of a whole run of so many actors, or why there is no report. Nothing where memory was refused.
pub fn outcome_text(alloc: Global, outcome: Result<Report, Error>, count: usize) -> Option<String> {
    match outcome {
        Ok(report) => text_of(alloc, &report, count),
        Err(error) => error_text(alloc, error),
    }
}

/// The same of a whole run that shows what is left of its actors.
pub fn failed_text<A: Drop>(
    alloc: Global,
    outcome: Result<Report, FailedRun<A>>,
    count: usize,
) -> Option<String> {
    match outcome {
        Ok(report) => text_of(alloc, &report, count),
        Err(failed) => error_text(alloc, failed.error),
    }
}

// Why there is no report.
fn error_text(alloc: Global, error: Error) -> Option<String> {
    format!(in alloc; "{error:?}").ok()
}

/// What a handle answered: of each run its actor, its system messages and its envelopes; or why the runs were broken off.
pub fn handle_text(alloc: Global, answer: HandleAnswer) -> Result<String, AllocError> {
    match answer {
        HandleAnswer::Turns(Ok(turns)) => turns_text(alloc, turns.kept()),
        HandleAnswer::Turns(Err(error)) => broken_off_text(alloc, error),
        HandleAnswer::Registered(is_done) => done_text(alloc, is_done),
        HandleAnswer::Turned(turn) => turn_text(alloc, &turn),
        HandleAnswer::Worked(Ok(())) => String::from_str(alloc, "done"),
        HandleAnswer::Worked(Err(error)) => broken_off_text(alloc, error),
    }
}

// Why runs were broken off.
fn broken_off_text(alloc: Global, error: RunError) -> Result<String, AllocError> {
    format!(in alloc; "{error:?}")
}

fn done_text(alloc: Global, is_done: bool) -> Result<String, AllocError> {
    String::from_str(alloc, if is_done { "true" } else { "false" })
}

fn turn_text(alloc: Global, turn: &Turn) -> Result<String, AllocError> {
    let Turn {
        actor,
        system,
        envelopes,
    } = *turn;
    let number = actor.0;
    format!(in alloc; "({number};{system},{envelopes})")
}

// The runs, one after another.
fn turns_text(alloc: Global, turns: &[Turn]) -> Result<String, AllocError> {
    let mut text = String::new(alloc);
    for turn in turns {
        let one = turn_text(alloc, turn)?;
        add(&mut text, " ", one.as_str())?;
    }
    Ok(text)
}

/// What a sender answered: what became of the envelope, whether something was done, or how the receiver was seen.
pub fn sender_text(alloc: Global, answer: SenderAnswer) -> Result<String, AllocError> {
    match answer {
        SenderAnswer::Put(Ok(put)) => put_text(alloc, put),
        SenderAnswer::Put(Err(why)) => refusal_text(alloc, why),
        SenderAnswer::Stopped(Ok(is_done)) => done_text(alloc, is_done),
        SenderAnswer::Stopped(Err(why)) => refusal_text(alloc, why),
        SenderAnswer::Seen(Ok(Look::Open(_))) => String::from_str(alloc, "Open"),
        SenderAnswer::Seen(Ok(Look::Closed)) => String::from_str(alloc, "Closed"),
        SenderAnswer::Seen(Err(why)) => refusal_text(alloc, why),
    }
}

fn put_text(alloc: Global, put: SendOutcome) -> Result<String, AllocError> {
    format!(in alloc; "{put:?}")
}

fn refusal_text(alloc: Global, why: SendError) -> Result<String, AllocError> {
    format!(in alloc; "{why:?}")
}
