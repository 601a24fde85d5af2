//! Tests of the keys of the document: each reason, and what is allowed.

use crate::scenarios::cases::{TEXT, each_case};
use std::test::Fail;

const KEYS: &str = r#"
# nothing => may stand
workers = -1 => workers: out of range
workers = 17 => workers: out of range
workers = 0 => may stand
workers = 16 => may stand
workers = true => workers: wrong type
workers = 1.0 => workers: wrong type
pool = 1 => pool: wrong type
pool = "stolen" => pool: out of range
pool = "Shared" => pool: out of range
pool = "shared" => may stand
pool = "stealing" => may stand
throughput = "5" => throughput: wrong type
throughput = 1.0 => throughput: wrong type
throughput = -1 => throughput: out of range
throughput = 4294967296 => throughput: out of range
throughput = 0 => may stand
throughput = 4294967295 => may stand
journal_limit = [] => journal_limit: wrong type
journal_limit = 0 => journal_limit: out of range
journal_limit = 4294967296 => journal_limit: out of range
journal_limit = 1 => may stand
journal_limit = 4294967295 => may stand
actor = 1 => actor: wrong type
[actor] | name = "a" => actor: wrong type
actor = [] => may stand
actor = [1] => actor 1: wrong type
actor = [{ name = "a" }, []] => actor 2: wrong type
send = {} => send: wrong type
send = "a" => send: wrong type
send = [] => may stand
send = [[]] => send 1: wrong type
// An unknown key stands in the place where it is a name.
a1_ = 1 => a1_: unknown key
abcdefghijklmnopqrstuvwxyz_01234 = 1 => abcdefghijklmnopqrstuvwxyz_01234: unknown key
abcdefghijklmnopqrstuvwxyz_012345 = 1 => ?: unknown key
"" = 1 => ?: unknown key
a-b = 1 => ?: unknown key
_a = 1 => ?: unknown key
1 = 1 => ?: unknown key
"a b" = 1 => ?: unknown key
Workers = 1 => ?: unknown key
// The least by bytes: capitals come before small letters, and a shorter one before those that it begins.
b = 1 | a = 1 => a: unknown key
a = 1 | B = 1 => ?: unknown key
ab = 1 | a = 1 => a: unknown key
workers = 1 | z = 1 | zz = 1 => z: unknown key
"#;

#[test]
fn tells_the_faults_of_the_document(rt: HostRuntime) -> Result<(), Fail> {
    each_case(&rt, rt.alloc(), &TEXT, KEYS)
}
