//! Running tables: a head with the actor, and then a case in each line, with what comes to the cell and what it makes
//! of that.

use crate::cell_driver::CellDriver;
use crate::headers::cast;
use mb_actor::{Actor, Behaviours};
use mb_msg::JournalMode;
use std::alloc::{AllocError, Global};
use std::process::Abort;
use std::test::Fail;

/// What came of a table: how many cases it has, whether a `ready` was refused memory, and how many entries the journal has at the end, how
/// many of them of envelopes and of restarts.
#[derive(Clone, Copy, PartialEq, Eq)]
pub(crate) struct Played {
    pub(crate) cases: u32,
    pub(crate) was_refused: bool,
    pub(crate) entries: usize,
    pub(crate) envelopes: usize,
    pub(crate) restarts: usize,
}

/// Checks each case of each table, and that there are `count` cases. Tables are separated by empty lines. A case is a
/// line with bars, a head is a line that begins with `actor` or `guardian`, and all other lines are comments. Each table is played with a
/// journal that keeps its entries, and with one that counts them and one that keeps the newest, which have to count the same.
pub(crate) fn each_case<R: Abort>(
    rt: &R,
    alloc: Global,
    stories: &str,
    count: u32,
) -> Result<(), Fail> {
    let mut found: u32 = 0;
    for story in stories.split("\n\n") {
        let kept = play(rt, alloc, story, JournalMode::Kept)?;
        let counted = play(rt, alloc, story, JournalMode::Counted)?;
        assert!(rt; counted == kept);
        let newest = play(rt, alloc, story, JournalMode::Last(2))?;
        assert!(rt; newest == kept);
        found = found.wrapping_add(kept.cases);
    }
    assert!(rt; found == count);
    Ok(())
}

/// The same of several texts, each with its number of cases.
pub(crate) fn each_text<R: Abort>(
    rt: &R,
    alloc: Global,
    texts: &[(&str, u32)],
) -> Result<(), Fail> {
    for (stories, count) in texts {
        each_case(rt, alloc, *stories, *count)?;
    }
    Ok(())
}

/// Checks each case of one table, with a journal of this mode.
pub(crate) fn play<R: Abort>(
    rt: &R,
    alloc: Global,
    story: &str,
    mode: JournalMode,
) -> Result<Played, AllocError> {
    let head = head_of(story);
    let mut stage = cast(rt, alloc, head, mode)?;
    Ok(go_through(rt, &mut stage, head, story))
}

fn head_of(story: &str) -> &str {
    for line in story.lines() {
        if line.starts_with("actor ") || line.starts_with("guardian") {
            return line;
        }
    }
    ""
}

/// Runs the cases of a table on a cell to which nothing came yet.
fn go_through<R: Abort, A: Actor, K: Behaviours>(
    rt: &R,
    stage: &mut CellDriver<A, K>,
    head: &str,
    story: &str,
) -> Played {
    assert!(rt; stage.is_fresh());
    let mut count: u32 = 0;
    for case in story.lines() {
        if case.contains(" | ") {
            count = count.wrapping_add(1);
            see_same(rt, stage.other_than(rt, case), case, head);
        }
    }
    let journal = stage.journal();
    Played {
        cases: count,
        was_refused: stage.was_refused(),
        entries: journal.len(),
        envelopes: journal.envelopes(),
        restarts: journal.restarts(),
    }
}

/// Checks that nothing else came of a case.
fn see_same<R: Abort>(rt: &R, other: &str, case: &str, head: &str) {
    assert!(rt; other.is_empty(), "another {other}: {case} (of {head})");
}
