//! Test cases as data: a line for each, with a text and its error.

use mb_scenario::{ReadError, Scenario, read};
use std::alloc::{AllocError, Global};
use std::process::Abort;
use std::test::Fail;

/// The text around a case, and the place before the case's place.
pub(crate) struct Frame {
    pub(crate) before: &'static str,
    pub(crate) after: &'static str,
    pub(crate) told: &'static str,
}

/// A whole text.
pub(crate) const TEXT: Frame = Frame {
    before: "",
    after: "\n",
    told: "",
};

/// Keys of an actor `a`, whose child `b` comes after it.
pub(crate) const ACTOR: Frame = Frame {
    before: "[[actor]]\nname = \"a\"\n",
    after: "\n[[actor]]\nname = \"b\"\nparent = \"a\"\n",
    told: "",
};

/// The keys of a send, where `a` is the only actor.
pub(crate) const SEND: Frame = Frame {
    before: "[[actor]]\nname = \"a\"\n[[send]]\n",
    after: "\n",
    told: "",
};

/// Checks that each case has its error. A case is a line `text => error`, where ` | ` in the text is an end of line,
/// and `may stand` means that the text is a scenario. Empty lines and comments, which begin with `//`, are no cases.
pub(crate) fn each_case<R: Abort>(
    rt: &R,
    alloc: Global,
    frame: &Frame,
    cases: &str,
) -> Result<(), Fail> {
    for case in cases.lines() {
        match case.split_once(" => ") {
            Some((text, expected)) => check_case(rt, alloc, frame, text, expected)?,
            None => assert!(rt; case.is_empty() || case.starts_with("//")),
        }
    }
    Ok(())
}

/// The same of several lists of cases.
pub(crate) fn each_table<R: Abort>(
    rt: &R,
    alloc: Global,
    tables: &[(&Frame, &str)],
) -> Result<(), Fail> {
    for (frame, cases) in tables {
        each_case(rt, alloc, *frame, *cases)?;
    }
    Ok(())
}

fn check_case<R: Abort>(
    rt: &R,
    alloc: Global,
    frame: &Frame,
    text: &str,
    expected: &str,
) -> Result<(), Fail> {
    let whole = whole_text(alloc, frame, text)?;
    let found = told(alloc, whole.as_bytes())?;
    let wanted = wanted_text(alloc, frame, expected)?;
    assert_eq!(rt; behind(found.as_str()), wanted.as_str(), "of {text}");
    Ok(())
}

/// The text of a case, with the text around it.
fn whole_text(alloc: Global, frame: &Frame, text: &str) -> Result<String, AllocError> {
    let before = frame.before;
    let after = frame.after;
    let lines = text.replace(alloc, " | ", "\n")?;
    format!(in alloc; "{before}{lines}{after}")
}

/// The expected error of a case, without its number and name.
fn wanted_text(alloc: Global, frame: &Frame, expected: &str) -> Result<String, AllocError> {
    if expected == "may stand" {
        return Ok(String::new(alloc));
    }
    let place = frame.told;
    format!(in alloc; "{place}{expected}")
}

/// Checks that this is the error of the text; empty for a scenario.
pub(crate) fn tells<R: Abort>(
    rt: &R,
    alloc: Global,
    text: &[u8],
    expected: &str,
) -> Result<(), Fail> {
    let found = told(alloc, text)?;
    assert!(rt; found.as_str() == expected);
    Ok(())
}

/// What is read of a text. Tests call it in place of `read`, whose contract each call would have to carry.
pub(crate) fn scenario_of(alloc: Global, text: &[u8]) -> Result<Scenario, ReadError> {
    read(alloc, text)
}

/// The error of a text as it is printed; empty where it has none.
fn told(alloc: Global, text: &[u8]) -> Result<String, Fail> {
    match scenario_of(alloc, text) {
        Ok(_) => Ok(String::new(alloc)),
        Err(fault) => Ok(fault.to_string(alloc)?),
    }
}

/// The place and reason in the text of an error.
fn behind(text: &str) -> &str {
    match text.strip_prefix("12 BadScenario ") {
        Some(rest) => rest,
        None => text,
    }
}
