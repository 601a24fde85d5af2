//! Tests of texts with two faults: the error is the one that comes first in the order of checks, wherever the other is.

use crate::scenarios::cases::{ACTOR, Frame, SEND, TEXT, each_table};
use std::test::Fail;

const DOCUMENTS: &str = r#"
// The least unknown key, and then the keys in their order.
workers = 17 | zoo = 1 => zoo: unknown key
pool = 1 | workers = 17 => workers: out of range
throughput = -1 | pool = 1 => pool: wrong type
journal_limit = 0 | throughput = -1 => throughput: out of range
actor = 1 | journal_limit = 0 => journal_limit: out of range
send = 1 | actor = 1 => actor: wrong type
// Of actors and sends the type alone; then all names; then all actors; then all sends.
actor = [1] | send = 1 => send: wrong type
actor = [1] | zoo = 1 => zoo: unknown key
actor = [{ name = "a" }, 2] | send = [1] => actor 2: wrong type
actor = [{}, 2] => actor 1 name: missing
actor = [{ name = "a", zoo = 1 }, 2] => actor 2: wrong type
actor = [{ name = "a", parent = 1 }, { name = "a" }] => actor 2 name: repeated name
actor = [{ name = "a", parent = 1 }, {}] => actor 2 name: missing
actor = [{ name = "a", all_for_one = 1 }, { name = "b", zoo = 1 }] => actor 1 all_for_one: wrong type
actor = [{ name = "a" }, { name = "b", all_for_one = 1 }] | send = [1] => actor 2 all_for_one: wrong type
actor = [{ name = "a" }] | send = [{ to = "a", kind = 1, times = 0 }, 1] => send 1 times: out of range
actor = [{ name = "a" }] | send = [{ to = "a", what = "kill" }, { zoo = 1 }] => send 2 zoo: unknown key
// Of one name: its form, and then whether it is repeated.
actor = [{ name = "A" }, { name = "A" }] => actor 1 name: out of range
// What is no TOML, or no UTF-8, has no other fault.
workers = 17 | workers = 17 => 11 NotToml
workers = 17 | zoo => 11 NotToml
"#;

const ACTORS: &str = r#"
// The least unknown key, and then the keys in their order, each with its entries.
parent = 1 | zoo = 1 => actor 1 zoo: unknown key
parent = 1 | zoo = 1 | Zoo = 1 => actor 1 ?: unknown key
mailbox = 1 | parent = 1 => actor 1 parent: wrong type
capacity = 0 | mailbox = 1 => actor 1 mailbox: wrong type
capacity = 0 | mailbox = "big" => actor 1 mailbox: out of range
rank = 1 | capacity = 1 => actor 1 capacity: not allowed
rank = 1 | mailbox = "bounded" => actor 1 capacity: missing
other = "1" | rank = 1 => actor 1 rank: wrong type
mailbox = "priority" | other = -1 | rank = [1] => actor 1 rank 1: wrong type
initial = "0" | other = 1 => actor 1 other: not allowed
start = 1 | initial = 1.5 => actor 1 initial: wrong type
restart = 1 | start = ["no"] => actor 1 start 1: bad op
stop = 1 | restart = ["no"] => actor 1 restart 1: bad op
terminated = 1 | stop = ["no"] => actor 1 stop 1: bad op
on = 1 | terminated = ["no"] => actor 1 terminated 1: bad op
strategy = 1 | on = [1] => actor 1 on 1: wrong type
retries = 1.5 | strategy = [1] => actor 1 strategy 1: wrong type
all_for_one = 1 | retries = 1.5 => actor 1 retries: wrong type
// The entries of an array in order.
start = ["ignore", "stop c", 1] => actor 1 start 2: unknown name
on = [{ kind = 1, do = ["no"] }, 1] => actor 1 on 1 do 1: bad op
// In a table the least unknown key, and then the keys in their order.
mailbox = "priority" | rank = [{ kind = 1.5, zoo = 1 }] => actor 1 rank 1 zoo: unknown key
mailbox = "priority" | rank = [{ rank = -1, kind = 1.5 }] => actor 1 rank 1 kind: wrong type
on = [{ kind = 1.5, zoo = 1 }] => actor 1 on 1 zoo: unknown key
on = [{ do = 1, kind = -1 }] => actor 1 on 1 kind: out of range
on = [{ kind = 1, do = 1 }, { zoo = 1 }] => actor 1 on 1 do: wrong type
strategy = [{ cause = 1, zoo = 1 }] => actor 1 strategy 1 zoo: unknown key
strategy = [{ then = 1, cause = "no" }] => actor 1 strategy 1 cause: out of range
// Of one key: its type, whether it may stand, what it may be.
capacity = "1" => actor 1 capacity: wrong type
capacity = 0 => actor 1 capacity: not allowed
rank = [1] => actor 1 rank: not allowed
other = -1 => actor 1 other: not allowed
// Of one operation: its form, whom it names, whether that is a child.
start = ["spawn C"] => actor 1 start 1: bad op
start = ["spawn c"] => actor 1 start 1: unknown name
start = ["spawn a"] => actor 1 start 1: bad op
"#;

const SENDS: &str = r#"
from = 16 | zoo = 1 => send 1 zoo: unknown key
to = 1 | from = "0" => send 1 from: wrong type
from = 16 => send 1 from: out of range
what = 1 | to = 1 => send 1 to: wrong type
what = 1 => send 1 to: missing
to = "a" | kind = "1" | what = "shout" => send 1 what: out of range
to = "a" | value = "1" => send 1 kind: missing
to = "a" | value = "1" | kind = -1 => send 1 kind: out of range
to = "a" | times = 0 | kind = 1 | value = 1.5 => send 1 value: wrong type
to = "a" | what = "stop" | value = 1 | kind = 1 => send 1 kind: not allowed
to = "a" | what = "kill" | kind = -1 => send 1 kind: not allowed
to = "B" | kind = -1 => send 1 to: out of range
to = "b" | kind = -1 => send 1 to: unknown name
"#;

const TABLES: &[(&Frame, &str)] = &[(&TEXT, DOCUMENTS), (&ACTOR, ACTORS), (&SEND, SENDS)];

#[test]
fn tells_the_first_fault(rt: HostRuntime) -> Result<(), Fail> {
    each_table(&rt, rt.alloc(), TABLES)
}
