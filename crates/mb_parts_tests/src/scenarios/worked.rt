//! Tests of worked examples of errors.

use crate::scenarios::cases::{Frame, TEXT, each_case, tells};
use std::test::Fail;

const FAULTS: &str = r#"
[[actor => 11 NotToml
x = 1 => x: unknown key
X = 1 => ?: unknown key
guardian = 1 => ?: unknown key
workers = "1" => workers: wrong type
workers = 17 => workers: out of range
[[actor]] | name = "a" | [[actor]] | name = "a" => actor 2 name: repeated name
[[actor]] | name = "a" | parent = "x" => actor 1 parent: unknown name
[[actor]] | name = "a" | parent = "b" | [[actor]] | name = "b" | parent = "a" => actor 1 parent: unknown name
[[actor]] | name = "a" | mailbox = "bounded" | capacity = 0 => actor 1 capacity: out of range
"#;

/// An operation of a counter, and the keys of its first send.
const COUNTER: Frame = Frame {
    before: "workers = 0\n[[actor]]\nname = \"a\"\n[[actor.on]]\nkind = 1\n",
    after: "\n[[send]]\nto = \"a\"\nkind = 1\nvalue = 2\n[[send]]\nto = \"a\"\nkind = 1\nvalue = 3\n",
    told: "",
};

const COUNTERS: &str = r#"
do = ["add"] | [[send]] | to = "a" | kind = 1 | value = 1 => may stand
do = ["add 1"] | [[send]] | to = "a" | kind = 1 | value = 1 => actor 1 on 1 do 1: bad op
do = ["add"] | [[send]] | to = "a" | kind = 1 | value = 1 | times = 0 => send 1 times: out of range
"#;

#[test]
fn tells_the_worked_faults(rt: HostRuntime) -> Result<(), Fail> {
    let alloc = rt.alloc();
    each_case(&rt, alloc, &TEXT, FAULTS)?;
    tells(&rt, alloc, b"[[actor", "11 NotToml")?;
    tells(&rt, alloc, b"x = 1", "12 BadScenario x: unknown key")?;
    tells(&rt, alloc, &[0xFF], "11 NotToml")?;
    each_case(&rt, alloc, &COUNTER, COUNTERS)
}
