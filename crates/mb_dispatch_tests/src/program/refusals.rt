//! Texts that are no scenarios.
use crate::program::driven::{COUNT, Outcome, driven, is_refused, see_at};
use std::alloc::{AllocError, Global};
use std::process::Abort;
use std::sync::Wait;
use std::thread::Threads;

/// Checks that a text of spaces is refused where it is too long, and that one that is shorter by one is run.
fn are_spaces_counted<T: Abort + Threads + Wait + Sync>(
    rt: &T,
    alloc: Global,
) -> Result<(), AllocError> {
    let spaces = vec![in alloc; b' '; 1_048_577]?;
    is_refused(
        rt,
        alloc,
        &spaces,
        "mailrun: 12 BadScenario input: too many\n",
    );
    assert!(rt; driven(rt, alloc, &spaces[1..]).status == 0);
    Ok(())
}

#[test]
fn refusals(rt: HostRuntime) -> Result<(), AllocError> {
    is_refused(&rt, rt.alloc(), b"[[actor", "mailrun: 11 NotToml\n");
    is_refused(&rt, rt.alloc(), b"\xff", "mailrun: 11 NotToml\n");
    are_spaces_counted(&rt, rt.alloc())
}

/// Checks that this much of the example is either run or refused.
fn is_run_or_refused<T: Abort + Threads + Wait + Sync>(rt: &T, alloc: Global, text: &[u8]) {
    let found = driven(rt, alloc, text);
    see_at(rt, is_either(&found), text.len());
}

/// Whether the run has a report and no error, or an error and no report.
fn is_either(found: &Outcome) -> bool {
    match found.status {
        0 => found.errors.is_empty() && !found.written.is_empty(),
        2 => found.written.is_empty() && !found.errors.is_empty(),
        _ => false,
    }
}

#[test]
fn each_prefix(rt: HostRuntime) {
    let text = COUNT.as_bytes();
    for handle in 0..text.len() {
        is_run_or_refused(&rt, rt.alloc(), &text[..handle]);
    }
}
