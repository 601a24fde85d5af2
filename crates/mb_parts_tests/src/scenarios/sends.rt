//! Tests of the keys of a send: each reason, and what is allowed.

use crate::scenarios::cases::{SEND, each_case};
use std::test::Fail;

const SENDS: &str = r#"
to = "a" | kind = 1 => may stand
to = "a" | kind = 1 | from = "0" => send 1 from: wrong type
to = "a" | kind = 1 | from = -1 => send 1 from: out of range
to = "a" | kind = 1 | from = 16 => send 1 from: out of range
to = "a" | kind = 1 | from = 15 => may stand
kind = 1 => send 1 to: missing
to = 1 | kind = 1 => send 1 to: wrong type
to = "A" | kind = 1 => send 1 to: out of range
to = "" | kind = 1 => send 1 to: out of range
to = "c" | kind = 1 => send 1 to: unknown name
to = "guardian" | kind = 1 => send 1 to: out of range
to = "guardian" | what = "kill" => send 1 to: out of range
to = "guardian" | what = 1 => send 1 to: out of range
to = "guardian" | what = "stops" => send 1 to: out of range
to = "guardian" | what = "stop" => may stand
to = "a" | what = 1 | kind = 1 => send 1 what: wrong type
to = "a" | what = "shout" | kind = 1 => send 1 what: out of range
to = "a" | what = "user" | kind = 1 => may stand
to = "a" | what = "control" | kind = 1 | value = 2 => may stand
to = "a" | what = "poison" => may stand
to = "a" | what = "kill" => may stand
to = "a" | what = "stop" => may stand
to = "a" => send 1 kind: missing
to = "a" | what = "control" => send 1 kind: missing
to = "a" | kind = "1" => send 1 kind: wrong type
to = "a" | kind = -1 => send 1 kind: out of range
to = "a" | kind = 4294967296 => send 1 kind: out of range
to = "a" | kind = 4294967295 => may stand
to = "a" | what = "kill" | kind = 1 => send 1 kind: not allowed
to = "a" | what = "poison" | kind = -1 => send 1 kind: not allowed
to = "a" | what = "stop" | kind = "1" => send 1 kind: wrong type
to = "a" | kind = 1 | value = 1.5 => send 1 value: wrong type
to = "a" | what = "stop" | value = 1 => send 1 value: not allowed
to = "a" | what = "kill" | value = 0 => send 1 value: not allowed
to = "a" | kind = 1 | value = -9223372036854775808 => may stand
to = "a" | kind = 1 | times = "2" => send 1 times: wrong type
to = "a" | kind = 1 | times = 0 => send 1 times: out of range
to = "a" | kind = 1 | times = -1 => send 1 times: out of range
to = "a" | kind = 1 | times = 100001 => send 1 times: out of range
to = "a" | kind = 1 | times = 1 => may stand
to = "a" | kind = 1 | times = 100000 => may stand
to = "a" | what = "stop" | times = 2 => may stand
to = "a" | kind = 1 | who = 1 => send 1 who: unknown key
to = "a" | kind = 1 | "" = 1 => send 1 ?: unknown key
"#;

#[test]
fn tells_the_faults_of_sends(rt: HostRuntime) -> Result<(), Fail> {
    each_case(&rt, rt.alloc(), &SEND, SENDS)
}
