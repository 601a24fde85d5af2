//! Tests of the keys of an actor: each reason, and what is allowed.

use crate::scenarios::cases::{ACTOR, Frame, each_table};
use std::test::Fail;

/// The entries of the array of actors.
const ACTORS: Frame = Frame {
    before: "actor = [",
    after: "]\n",
    told: "",
};

const NAMES: &str = r#"
{} => actor 1 name: missing
{ name = 1 } => actor 1 name: wrong type
{ name = ["a"] } => actor 1 name: wrong type
{ name = "" } => actor 1 name: out of range
{ name = "A" } => actor 1 name: out of range
{ name = "1a" } => actor 1 name: out of range
{ name = "_a" } => actor 1 name: out of range
{ name = "a-b" } => actor 1 name: out of range
{ name = "a b" } => actor 1 name: out of range
{ name = "guardian" } => actor 1 name: out of range
{ name = "guardians" } => may stand
{ name = "z_9" } => may stand
{ name = "abcdefghijklmnopqrstuvwxyz_01234" } => may stand
{ name = "abcdefghijklmnopqrstuvwxyz_012345" } => actor 1 name: out of range
{ name = "a" }, { name = "b" }, { name = "a" } => actor 3 name: repeated name
{ name = "a" }, { name = "ab" } => may stand
{ zoo = 1 } => actor 1 name: missing
"#;

const KEYS: &str = r#"
// Who its parent is.
parent = 1 => actor 1 parent: wrong type
parent = "B" => actor 1 parent: out of range
parent = "" => actor 1 parent: out of range
parent = "Guardian" => actor 1 parent: out of range
// Itself, one that comes later, and one that is not there.
parent = "a" => actor 1 parent: unknown name
parent = "b" => actor 1 parent: unknown name
parent = "c" => actor 1 parent: unknown name
parent = "guardian" => may stand
# nothing => may stand
// Its mailbox.
mailbox = true => actor 1 mailbox: wrong type
mailbox = "big" => actor 1 mailbox: out of range
mailbox = "" => actor 1 mailbox: out of range
mailbox = "unbounded" => may stand
mailbox = "control" => may stand
mailbox = "bounded" => actor 1 capacity: missing
capacity = 1 => actor 1 capacity: not allowed
mailbox = "control" | capacity = 1 => actor 1 capacity: not allowed
capacity = "1" => actor 1 capacity: wrong type
mailbox = "bounded" | capacity = -1 => actor 1 capacity: out of range
mailbox = "bounded" | capacity = 65537 => actor 1 capacity: out of range
mailbox = "bounded" | capacity = 1 => may stand
mailbox = "bounded" | capacity = 65536 => may stand
rank = 1 => actor 1 rank: wrong type
rank = [] => actor 1 rank: not allowed
mailbox = "bounded" | capacity = 1 | rank = [] => actor 1 rank: not allowed
mailbox = "priority" | rank = [] => may stand
mailbox = "priority" => may stand
other = "1" => actor 1 other: wrong type
other = 1 => actor 1 other: not allowed
mailbox = "priority" | other = -1 => actor 1 other: out of range
mailbox = "priority" | other = 4294967296 => actor 1 other: out of range
mailbox = "priority" | other = 0 => may stand
mailbox = "priority" | other = 4294967295 => may stand
mailbox = "bounded" | capacity = 0 => actor 1 capacity: out of range
mailbox = "bounded" | capacity = 1.0 => actor 1 capacity: wrong type
// What it does, and what it does about its children.
initial = "0" => actor 1 initial: wrong type
initial = 1.5 => actor 1 initial: wrong type
initial = -9223372036854775808 => may stand
initial = 9223372036854775808 => 11 NotToml
start = "ignore" => actor 1 start: wrong type
start = ["ignore", 1] => actor 1 start 2: wrong type
start = ["add"] => actor 1 start 1: bad op
start = ["stop c"] => actor 1 start 1: unknown name
start = [] => may stand
restart = 1 => actor 1 restart: wrong type
restart = [[]] => actor 1 restart 1: wrong type
restart = ["add"] => actor 1 restart 1: bad op
restart = ["watch b", "watch c"] => actor 1 restart 2: unknown name
stop = {} => actor 1 stop: wrong type
stop = [true] => actor 1 stop 1: wrong type
stop = ["ignore", "add"] => actor 1 stop 2: bad op
stop = ["tell c 1"] => actor 1 stop 1: unknown name
terminated = 1 => actor 1 terminated: wrong type
terminated = [1.5] => actor 1 terminated 1: wrong type
terminated = ["add"] => actor 1 terminated 1: bad op
terminated = ["unwatch c"] => actor 1 terminated 1: unknown name
terminated = [] => may stand
on = 1 => actor 1 on: wrong type
on = [] => may stand
strategy = "any" => actor 1 strategy: wrong type
strategy = [] => may stand
retries = "1" => actor 1 retries: wrong type
retries = -9223372036854775808 => may stand
all_for_one = 1 => actor 1 all_for_one: wrong type
all_for_one = true | retries = -5 => may stand
zone = 1 => actor 1 zone: unknown key
Zone = 1 => actor 1 ?: unknown key
guardian = 1 => actor 1 ?: unknown key
"#;

const TABLES: &[(&Frame, &str)] = &[(&ACTORS, NAMES), (&ACTOR, KEYS)];

#[test]
fn tells_the_faults_of_actors(rt: HostRuntime) -> Result<(), Fail> {
    each_table(&rt, rt.alloc(), TABLES)
}
