//! Restarts.

use crate::tables::each_case;
use std::test::Fail;

const RESTARTS: &str = "
The children that it had are started afresh too; those that the restart starts are not. It is not failed any more.
actor 1 of 0; children 2 to 3; start spawn 2; restart spawn 3, tell 4; rules restart error
create | handled: spawn 2 | resume, 2: create | live 0 0
user add | handled | - | live 0 1
user fail 5 | failed 5 | suspend, 2: suspend, 0: failed 1 error 5 | live 1 2
recreate error 5 | handled: spawn 3, tell 4 add 9 | resume, 3: create, 4: user add 9, 2: recreate error 5 | live 0 0
user fail 6 | failed 6 | suspend, 2: suspend, 3: suspend, 0: failed 1 error 6 | live 1 1

A restart that fails is Broken; the children that it had before are not suspended again. So is a restart of a Broken one.
actor 1 of 0; children 2 to 3; start spawn 2; restart spawn 3, fail 4; rules restart error
create | handled: spawn 2 | resume, 2: create | live 0 0
user fail 5 | failed 5 | suspend, 2: suspend, 0: failed 1 error 5 | live 1 1
recreate error 5 | failed 4: spawn 3 | resume, 3: create, suspend, 3: suspend, 0: failed 1 init | broken 1 0
suspend | none | suspend, 2: suspend, 3: suspend | broken 2 0
recreate error 6 | failed 4 | resume, suspend, 0: failed 1 init | broken 2 0

A restart that does not know what to do counts as done.
actor 1 of 0; children 2 to 3; start spawn 2; restart tell 4, leave
create | handled: spawn 2 | resume, 2: create | live 0 0
recreate error 5 | unhandled: tell 4 add 9 | resume, 4: user add 9, 2: recreate error 5 | live 0 0

A Resume of a Broken actor starts it afresh, and it can fail again.
actor 1 of 0; children 2 to 3; start spawn 2, fail 1; rules restart error
create | failed 1: spawn 2 | resume, 2: create, suspend, 2: suspend, 0: failed 1 init | broken 1 0
resume failure | handled | resume, 2: recreate init | live 0 0
kill | none | suspend, 2: suspend, 0: failed 1 killed | live 1 0

actor 1 of 0; children 2 to 3; start spawn 2, fail 1; restart spawn 3, fail 4; rules restart error
create | failed 1: spawn 2 | resume, 2: create, suspend, 2: suspend, 0: failed 1 init | broken 1 0
resume | failed 4: spawn 3 | resume, 3: create, suspend, 3: suspend, 0: failed 1 init | broken 1 0
resume failure | failed 4 | resume, suspend, 0: failed 1 init | broken 1 0

actor 1 of 0; children 2 to 3; start spawn 2, fail 1; rules restart error
create | failed 1: spawn 2 | resume, 2: create, suspend, 2: suspend, 0: failed 1 init | broken 1 0
recreate error 3 | handled | resume, 2: recreate error 3 | live 0 0
";

#[test]
fn restarts(rt: HostRuntime) -> Result<(), Fail> {
    each_case(&rt, rt.alloc(), RESTARTS, 20)
}
