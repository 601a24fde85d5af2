//! Scenarios that are run, each with its report.
use crate::program::driven::{COUNT, COUNT_REPORT, comes_to, driven, is_refused, see};
use std::alloc::{AllocError, Global};
use std::process::Abort;
use std::sync::Wait;
use std::thread::Threads;

#[test]
fn counts(rt: HostRuntime) {
    comes_to(&rt, rt.alloc(), COUNT, COUNT_REPORT);
}

/// A scenario with so many sends of 1.
fn with_sends(alloc: Global, count: usize) -> Result<String, AllocError> {
    let mut text = String::from_str(
        alloc,
        "workers = 0\n[[actor]]\nname = \"a\"\n[[actor.on]]\nkind = 1\ndo = [\"add\"]\n",
    )?;
    for _ in 0..count {
        text.push_str("[[send]]\nto = \"a\"\nkind = 1\nvalue = 1\n")?;
    }
    Ok(text)
}

const TEN_THOUSAND: &str = "\
guardian live state - suspended 0 handled 0 left 0 dead 0 restarts 0
a live state 10000 suspended 0 handled 10000 left 0 dead 0 restarts 0
sent 10000 handled 10000 left 0 dead 0
";

/// Checks that ten thousand sends are run, and that one more is refused.
fn are_sends_counted<T: Abort + Threads + Wait + Sync>(
    rt: &T,
    alloc: Global,
) -> Result<(), AllocError> {
    comes_to(rt, alloc, with_sends(alloc, 10_000)?.as_str(), TEN_THOUSAND);
    is_refused(
        rt,
        alloc,
        with_sends(alloc, 10_001)?.as_bytes(),
        "mailrun: 12 BadScenario send: too many\n",
    );
    Ok(())
}

#[test]
fn the_most_sends(rt: HostRuntime) -> Result<(), AllocError> {
    are_sends_counted(&rt, rt.alloc())
}

/// Scenarios, each with its report.
const MORE: &[(&str, &str)] = &[
    (
        "",
        "guardian live state - suspended 0 handled 0 left 0 dead 0 restarts 0
sent 0 handled 0 left 0 dead 0
",
    ),
    (
        r#"workers = 1
[[actor]]
name = "a"
on = [{ kind = 1, do = ["add"] }]
[[send]]
to = "a"
kind = 1
value = 1
[[send]]
to = "a"
kind = 1
value = 2
[[send]]
to = "a"
kind = 1
value = 3
"#,
        COUNT_REPORT,
    ),
    (
        r#"workers = 1
pool = "stealing"
[[actor]]
name = "a"
on = [{ kind = 1, do = ["add"] }]
[[send]]
to = "a"
kind = 1
value = 1
[[send]]
to = "a"
kind = 1
value = 2
[[send]]
to = "a"
kind = 1
value = 3
"#,
        COUNT_REPORT,
    ),
    (
        "workers = 1\n[[actor]]\nname = \"a\"\n",
        "guardian live state - suspended 0 handled 0 left 0 dead 0 restarts 0
a live state 0 suspended 0 handled 0 left 0 dead 0 restarts 0
sent 0 handled 0 left 0 dead 0
",
    ),
    (
        "workers = 0\n",
        "guardian live state - suspended 0 handled 0 left 0 dead 0 restarts 0
sent 0 handled 0 left 0 dead 0
",
    ),
    (
        "workers = 0\n[[actor]]\nname = \"a\"\n[[actor]]\nname = \"b\"\n",
        "guardian live state - suspended 0 handled 0 left 0 dead 0 restarts 0
a live state 0 suspended 0 handled 0 left 0 dead 0 restarts 0
b live state 0 suspended 0 handled 0 left 0 dead 0 restarts 0
sent 0 handled 0 left 0 dead 0
",
    ),
    (
        "workers = 0\n[[actor]]\nname = \"a\"\nmailbox = \"control\"\n",
        "guardian live state - suspended 0 handled 0 left 0 dead 0 restarts 0
a live state 0 suspended 0 handled 0 left 0 dead 0 restarts 0
sent 0 handled 0 left 0 dead 0
",
    ),
    (
        "workers = 0\n[[actor]]\nname = \"a\"\nstart = [\"ignore\"]\n",
        "guardian live state - suspended 0 handled 0 left 0 dead 0 restarts 0
a live state 0 suspended 0 handled 0 left 0 dead 0 restarts 0
sent 0 handled 0 left 0 dead 0
",
    ),
    (
        "workers = 0\n[[actor]]\nname = \"a\"\nstop = [\"ignore\"]\n",
        "guardian live state - suspended 0 handled 0 left 0 dead 0 restarts 0
a live state 0 suspended 0 handled 0 left 0 dead 0 restarts 0
sent 0 handled 0 left 0 dead 0
",
    ),
    (
        "workers = 0\n[[actor]]\nname = \"a\"\nterminated = []\n",
        "guardian live state - suspended 0 handled 0 left 0 dead 0 restarts 0
a live state 0 suspended 0 handled 0 left 0 dead 0 restarts 0
sent 0 handled 0 left 0 dead 0
",
    ),
    (
        "workers = 0\n[[actor]]\nname = \"a\"\n[[actor.on]]\nkind = 1\ndo = [\"add\", \"fail 1\"]\n",
        "guardian live state - suspended 0 handled 0 left 0 dead 0 restarts 0
a live state 0 suspended 0 handled 0 left 0 dead 0 restarts 0
sent 0 handled 0 left 0 dead 0
",
    ),
    (
        "workers = 0\n[[actor]]\nname = \"a\"\n[[send]]\nto = \"a\"\nwhat = \"kill\"\n",
        "guardian live state - suspended 0 handled 0 left 0 dead 0 restarts 0
a ended state 0 suspended 0 handled 1 left 0 dead 0 restarts 0
sent 1 handled 1 left 0 dead 0
",
    ),
    (
        "workers = 0\n[[actor]]\nname = \"a\"\n[[send]]\nto = \"a\"\nkind = 1\ntimes = 2\n",
        "guardian live state - suspended 0 handled 0 left 0 dead 0 restarts 0
a live state 0 suspended 0 handled 2 left 0 dead 0 restarts 0
sent 2 handled 2 left 0 dead 0
",
    ),
    (
        "workers = 0\n[[actor]]\nname = \"a\"\n[[send]]\nto = \"a\"\nkind = 1\nfrom = 1\n",
        "guardian live state - suspended 0 handled 0 left 0 dead 0 restarts 0
a live state 0 suspended 0 handled 1 left 0 dead 0 restarts 0
sent 1 handled 1 left 0 dead 0
",
    ),
];

#[test]
fn more(rt: HostRuntime) {
    for (text, report) in MORE {
        comes_to(&rt, rt.alloc(), *text, *report);
    }
}

const SHORT_JOURNAL: &str =
    "workers = 0\njournal_limit = 2\n[[actor]]\nname = \"a\"\n[[send]]\nto = \"a\"\nkind = 1\n";

#[test]
fn a_full_journal(rt: HostRuntime) {
    let found = driven(&rt, rt.alloc(), SHORT_JOURNAL.as_bytes());
    see(&rt, &found, 1, b"", b"mailrun: 6 JournalFull\n");
}

/// A scenario that says what else can be said of one actor.
const FULL: &str = r#"workers = 0
pool = "stealing"
throughput = 1
journal_limit = 4
[[actor]]
name = "sum"
parent = "guardian"
mailbox = "unbounded"
initial = 9223372036854775800
start = []
retries = 2
all_for_one = true
on = [{ kind = 2, do = ["add", "add"] }, { kind = 2, do = [] }]
strategy = [{ cause = "any", then = "stop" }]
[[send]]
from = 0
to = "sum"
what = "user"
kind = 2
value = 5
times = 1
[[send]]
to = "sum"
kind = 3
value = 5
"#;

const FULL_REPORT: &str = "\
guardian live state - suspended 0 handled 0 left 0 dead 0 restarts 0
sum live state 9223372036854775807 suspended 0 handled 2 left 0 dead 0 restarts 0
sent 2 handled 2 left 0 dead 0
";

#[test]
fn all_of_one_actor(rt: HostRuntime) {
    comes_to(&rt, rt.alloc(), FULL, FULL_REPORT);
}
