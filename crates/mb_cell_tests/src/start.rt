//! How an actor is started, and what comes to one that was not.

use crate::tables::each_case;
use std::test::Fail;

const STARTS: &str = "
Create starts it; what it asks for is carried out after its suspension is undone.
actor 1 of 0; children 2 to 3; start spawn 2, tell 4; rules restart error
create | handled: spawn 2, tell 4 add 9 | resume, 2: create, 4: user add 9 | live 0 0

A start that fails is Broken: its effects are carried out, then it is suspended with its child, and its parent is told.
actor 1 of 0; children 2 to 3; start spawn 2, fail 1; rules restart error
create | failed 1: spawn 2 | resume, 2: create, suspend, 2: suspend, 0: failed 1 init | broken 1 0

A start that does not know what to do counts as done.
actor 1 of 0; children 2 to 3; start spawn 2, leave
create | unhandled: spawn 2 | resume, 2: create | live 0 0

A Create that comes again does nothing, whether the start was done or failed.
actor 1 of 0; children 2 to 3; start spawn 2; rules restart error
create | handled: spawn 2 | resume, 2: create | live 0 0
create | none | - | live 0 0

actor 1 of 0; start fail 1
create | failed 1 | resume, suspend, 0: failed 1 init | broken 1 0
create | none | - | broken 1 0

All but Create, Terminate, Watch and Unwatch does nothing to an actor that was not started.
actor 1 of 0; children 2 to 3; start spawn 2; rules restart error
suspend | none | - | fresh 1 0
resume failure | none | - | fresh 1 0
recreate error 1 | none | - | fresh 1 0
failed 2 error 1 | none | - | fresh 1 0
died 2 | none | - | fresh 1 0
watch 5 | none | - | fresh 1 0
watch 6 | none | - | fresh 1 0
unwatch 5 | none | - | fresh 1 0
terminate | none | close, 0: died 1, 6: died 1 | ended 0 0
";

const GUARDIAN: &str = "
It has no parent to tell, decides by the default alone, is not started afresh, and ends after its children.
guardian; children 2 to 3; rules resume any
create | none | resume, 2: create, 3: create | live 0 -
recreate error 1 | none | - | live 0 -
failed 2 error 1 | none | 2: recreate error 1 | live 0 -
failed 2 killed | none | 2: terminate | live 0 -
terminate | none | 2: terminate, 3: terminate, suspend | ending 1 -
died 2 | none | - | ending 1 -
died 3 | none | close | ended 0 -

Without children it ends at once.
guardian
create | none | resume | live 0 -
terminate | none | close | ended 0 -
";

#[test]
fn starts(rt: HostRuntime) -> Result<(), Fail> {
    each_case(&rt, rt.alloc(), STARTS, 16)?;
    each_case(&rt, rt.alloc(), GUARDIAN, 9)
}
