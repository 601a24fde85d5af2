//! How an actor is suspended and resumed, and what waits until then.

use crate::tables::each_text;
use std::test::Fail;

const SUSPENSIONS: &str = "
Each Suspend counts, and its children get it too; a Resume undoes one, and where there is none its children get it still.
actor 1 of 0; children 2 to 3; start spawn 2, spawn 3; rules restart error
create | handled: spawn 2, spawn 3 | resume, 2: create, 3: create | live 0 0
suspend | none | suspend, 2: suspend, 3: suspend | live 1 0
suspend | none | suspend, 2: suspend, 3: suspend | live 2 0
resume failure | none | resume, 2: resume, 3: resume | live 1 0
resume | none | resume, 2: resume, 3: resume | live 0 0
resume | none | resume, 2: resume, 3: resume | live 0 0

A failure of a child waits while it is suspended, and goes in front of all that comes later, the earliest first.
actor 1 of 0; children 2 to 3; start spawn 2, spawn 3; rules restart error
create | handled: spawn 2, spawn 3 | resume, 2: create, 3: create | live 0 0
suspend | none | suspend, 2: suspend, 3: suspend | live 1 0
failed 2 error 7 | set aside | - | live 1 0 | 2 failed 2 error 7
failed 3 error 8 | set aside | - | live 1 0 | 2 failed 2 error 7, 3 failed 3 error 8
resume | none | resume, 2: resume, 3: resume | live 0 0 | 2 failed 2 error 7, 3 failed 3 error 8
front 2 failed 2 error 7 | none | 2: recreate error 7 | live 0 0 | 3 failed 3 error 8
front 3 failed 3 error 8 | none | 3: recreate error 8 | live 0 0
watch 5 | none | - | live 0 0
";

const FAILURES: &str = "
A failure that is passed up: the child that failed is not suspended again, and it alone is resumed for its failure.
actor 1 of 0; children 2 to 3; start spawn 2, spawn 3; rules escalate error
create | handled: spawn 2, spawn 3 | resume, 2: create, 3: create | live 0 0
failed 2 error 1 | none | suspend, 3: suspend, 0: failed 1 error 1 | live 1 0
resume failure | none | resume, 2: resume failure, 3: resume | live 0 0
failed 3 error 2 | none | suspend, 2: suspend, 0: failed 1 error 2 | live 1 0

One that is no child any more is not resumed for it.
actor 1 of 0; children 2 to 3; start spawn 2, spawn 3; rules escalate error
create | handled: spawn 2, spawn 3 | resume, 2: create, 3: create | live 0 0
failed 2 error 1 | none | suspend, 3: suspend, 0: failed 1 error 1 | live 1 0
died 2 | none | - | live 1 0
resume failure | none | resume, 3: resume | live 0 0

An actor that is failed already does not fail, until it is resumed for its failure.
actor 1 of 0; children 2 to 3; start spawn 2; rules escalate error
create | handled: spawn 2 | resume, 2: create | live 0 0
kill | none | suspend, 2: suspend, 0: failed 1 killed | live 1 0
resume | none | resume, 2: resume | live 0 0
kill | none | - | live 0 0
user fail 5 | failed 5 | - | live 0 1
failed 2 error 1 | none | - | live 0 1
resume failure | none | resume, 2: resume | live 0 1
kill | none | suspend, 2: suspend, 0: failed 1 killed | live 1 1
";

const TEXTS: &[(&str, u32)] = &[(SUSPENSIONS, 14), (FAILURES, 16)];

#[test]
fn suspensions(rt: HostRuntime) -> Result<(), Fail> {
    each_text(&rt, rt.alloc(), TEXTS)
}
