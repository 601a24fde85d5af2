//! What the program prints of a text.
use crate::failure::Failure;
use crate::lines::{add_outcome, add_steps, has_line};
use crate::options::Options;
use crate::schedule::schedule_of;
use crate::text_setup::TextSetup;
use mb_explore::{Explored, Outcome, explore, replay_report};
use std::alloc::{AllocError, Global};

/// What is asked for of the text's scenario: each report that some order of its steps leads to, one of them, or the one that these steps lead to.
pub(crate) fn answer(alloc: Global, text: Vec<u8>, options: &Options) -> Result<String, Failure> {
    let setup = TextSetup::read(alloc, text)?;
    if let Some(steps) = &options.schedule {
        return replayed_text(alloc, &setup, steps.as_str());
    }
    let explored = explore(alloc, &setup, setup.names(), options.limits)?;
    match &options.find {
        Some(line) => Ok(found_text(alloc, &explored, setup.names(), line.as_str())?),
        None => Ok(listed_text(alloc, &explored, setup.names(), options.show)?),
    }
}

/// The report after these steps, and the steps that are possible then.
fn replayed_text(alloc: Global, setup: &TextSetup, steps: &str) -> Result<String, Failure> {
    let schedule = schedule_of(alloc, steps, setup.names())?;
    let replayed = replay_report(alloc, setup, setup.names(), &schedule)?;
    let mut text = String::new(alloc);
    text.push_str(replayed.text.as_str())?;
    if replayed.made < schedule.len() {
        text.push_str(&format!(in alloc; "step {} is not possible\n", replayed.made + 1)?)?;
    }
    if replayed.choices.is_empty() {
        text.push_str("over\n")?;
    } else {
        text.push_str("possible:")?;
        add_steps(alloc, &mut text, &replayed.choices, setup.names())?;
        text.push_str("\n")?;
    }
    Ok(text)
}

/// A part for each report, up to so many, and a last line.
fn listed_text(
    alloc: Global,
    explored: &Explored,
    names: &[String],
    show: u64,
) -> Result<String, AllocError> {
    let mut text = String::new(alloc);
    let mut shown = 0_u64;
    for outcome in &explored.outcomes {
        if shown < show {
            add_outcome(alloc, &mut text, outcome, names)?;
            shown += 1;
        }
    }
    let more = (explored.outcomes.len() as u64).saturating_sub(shown);
    if more > 0 {
        text.push_str(&format!(in alloc; "reports that are not shown: {more}\n")?)?;
    }
    add_end(alloc, &mut text, explored)?;
    Ok(text)
}

/// The part of the report that has such a line and to which the fewest steps lead, and a last line.
fn found_text(
    alloc: Global,
    explored: &Explored,
    names: &[String],
    line: &str,
) -> Result<String, AllocError> {
    let mut text = String::new(alloc);
    match shortest_with(&explored.outcomes, line) {
        Some(outcome) => add_outcome(alloc, &mut text, outcome, names)?,
        None => text.push_str("no report that was found has such a line\n")?,
    }
    add_end(alloc, &mut text, explored)?;
    Ok(text)
}

/// Of the reports with such a line the first to which the fewest steps lead.
fn shortest_with<'a>(outcomes: &'a [Outcome], line: &str) -> Option<&'a Outcome> {
    let mut shortest: Option<&'a Outcome> = None;
    for outcome in outcomes {
        let is_shorter = match shortest {
            Some(other) => outcome.schedule.len() < other.schedule.len(),
            None => true,
        };
        if is_shorter && has_line(outcome.text.as_str(), line) {
            shortest = Some(outcome);
        }
    }
    shortest
}

/// Whether all orders were tried.
fn add_end(alloc: Global, text: &mut String, explored: &Explored) -> Result<(), AllocError> {
    if explored.is_complete {
        text.push_str("complete\n")
    } else {
        text.push_str(&format!(in alloc; "stopped after {} steps\n", explored.steps)?)
    }
}
