//! Tests of operations: what is allowed, and each fault of form.

use crate::scenarios::cases::{ACTOR, Frame, TEXT, each_table};
use std::test::Fail;

/// An operation, the second of a row of `a`, which has the child `b`.
const OPERATION: Frame = Frame {
    before: "[[actor]]\nname = \"a\"\non = [{ kind = 1, do = [\"ignore\", ",
    after: "] }]\n[[actor]]\nname = \"b\"\nparent = \"a\"\n",
    told: "actor 1 on 1 do 2: ",
};

const OPERATIONS: &str = r#"
// Each operation, with names and numbers that may stand.
"add" => may stand
"ignore" => may stand
"fail 0" => may stand
"fail 4294967295" => may stand
"tell b 0" => may stand
"tell a 4294967295" => may stand
"control b 1" => may stand
"watch b" => may stand
"unwatch b" => may stand
"stop b" => may stand
"spawn b" => may stand
// Another word, a word too many or too few, another space.
"" => bad op
" " => bad op
"halt" => bad op
"Add" => bad op
"add 1" => bad op
"add " => bad op
" add" => bad op
"ignore b" => bad op
"fail" => bad op
"fail 1 2" => bad op
"fail 1 " => bad op
"fail  1" => bad op
"tell" => bad op
"tell b" => bad op
"tell b 1 2" => bad op
"tell  b 1" => bad op
"tell b  1" => bad op
"tell\tb 1" => bad op
"control b" => bad op
"watch" => bad op
"watch b 1" => bad op
"unwatch b " => bad op
"stop  b" => bad op
"spawn" => bad op
"spawn b b" => bad op
// A number out of range or with leading zeros, and what is no number.
"fail 4294967296" => bad op
"fail 99999999999999999999999999" => bad op
"fail 01" => bad op
"fail 00" => bad op
"fail -1" => bad op
"fail +1" => bad op
"fail 1.0" => bad op
"fail 0x1" => bad op
"fail 1_000" => bad op
"fail x" => bad op
"tell b 01" => bad op
"tell b 4294967296" => bad op
"control b x" => bad op
// A name of wrong form.
"tell B 1" => bad op
"tell 1 1" => bad op
"tell guardian 1" => bad op
"control guardian 1" => bad op
"watch B" => bad op
"watch guardian" => bad op
"unwatch _b" => bad op
"stop guardian" => bad op
"spawn b-c" => bad op
"stop abcdefghijklmnopqrstuvwxyz_012345" => bad op
// A name that is no actor's; a number of wrong form beside it goes first. A spawn of an actor that is no child.
"tell c 1" => unknown name
"tell c 01" => bad op
"control c 1" => unknown name
"watch c" => unknown name
"unwatch c" => unknown name
"stop c" => unknown name
"spawn c" => unknown name
"stop abcdefghijklmnopqrstuvwxyz_01234" => unknown name
"spawn a" => bad op
"#;

/// `add` is allowed in `on` alone, a spawn of a child everywhere.
const ADDS: &str = r#"
start = ["spawn b", "fail 1", "tell b 1", "add"] => actor 1 start 4: bad op
restart = ["spawn b", "fail 1", "tell b 1", "add"] => actor 1 restart 4: bad op
stop = ["spawn b", "fail 1", "tell b 1", "add"] => actor 1 stop 4: bad op
terminated = ["spawn b", "fail 1", "tell b 1", "add"] => actor 1 terminated 4: bad op
"#;

/// The strings at `parent`, faulty or not, alone say who is a child. A child whose parent is not a text makes the spawn
/// a fault, which comes first.
const CHILDREN: &str = r#"
actor = [{ name = "a", start = ["spawn b"] }, { name = "b" }] => actor 1 start 1: bad op
actor = [{ name = "a", start = ["spawn b"] }, { name = "b", parent = 1 }] => actor 1 start 1: bad op
actor = [{ name = "a", start = ["spawn b"] }, { name = "b", parent = "a", zoo = 1 }] => actor 2 zoo: unknown key
actor = [{ name = "a" }, { name = "b", parent = "a", start = ["spawn c"] }, { name = "c", parent = "a" }] => actor 2 start 1: bad op
actor = [{ name = "a", stop = ["spawn b"] }, { name = "b", parent = "a" }] => may stand
"#;

const TABLES: &[(&Frame, &str)] = &[(&OPERATION, OPERATIONS), (&ACTOR, ADDS), (&TEXT, CHILDREN)];

#[test]
fn tells_the_faults_of_operations(rt: HostRuntime) -> Result<(), Fail> {
    each_table(&rt, rt.alloc(), TABLES)
}
