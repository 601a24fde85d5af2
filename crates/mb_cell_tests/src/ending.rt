//! How an actor ends.

use crate::tables::each_case;
use std::test::Fail;

const ENDS: &str = "
It waits for its children, and what it watched is told no more. What is set aside meanwhile is dead at its end. Then it is
called, its parent is told, and all who watch it.
actor 1 of 0; children 2 to 3; start spawn 2, watch 4; stop tell 5, fail 1; rules restart error
create | handled: spawn 2, watch 4 | resume, 2: create, 4: watch 1 | live 0 0
watch 6 | none | - | live 0 0
terminate | none | 4: unwatch 1, 2: terminate, suspend | ending 1 0
suspend | set aside | - | ending 1 0 | 3 suspend
resume failure | set aside | - | ending 1 0 | 3 suspend, 4 resume failure
recreate error 1 | set aside | - | ending 1 0 | 3 suspend, 4 resume failure, 5 recreate error 1
failed 2 error 1 | set aside | - | ending 1 0 | 3 suspend, 4 resume failure, 5 recreate error 1, 6 failed 2 error 1
terminate | none | - | ending 1 0 | 3 suspend, 4 resume failure, 5 recreate error 1, 6 failed 2 error 1
create | none | - | ending 1 0 | 3 suspend, 4 resume failure, 5 recreate error 1, 6 failed 2 error 1
watch 7 | none | - | ending 1 0 | 3 suspend, 4 resume failure, 5 recreate error 1, 6 failed 2 error 1
died 4 | none | - | ending 1 0 | 3 suspend, 4 resume failure, 5 recreate error 1, 6 failed 2 error 1
died 2 | none: tell 5 add 9 | 5: user add 9, close, 0: died 1, 6: died 1, 7: died 1 | ended 0 0

Of the effects of its stop only what it tells is carried out. A parent that watches is told once.
actor 1 of 0; children 2 to 3; stop tell 4, stop 5; rules restart error
create | handled | resume | live 0 0
watch 0 | none | - | live 0 0
watch 4 | none | - | live 0 0
terminate | none: tell 4 add 9, stop 5 | 4: user add 9, close, 0: died 1, 4: died 1 | ended 0 0

One that is suspended and has a child ends after it; the failure that waited is dead then.
actor 1 of 0; children 2 to 3; start spawn 2; rules restart error
create | handled: spawn 2 | resume, 2: create | live 0 0
suspend | none | suspend, 2: suspend | live 1 0
failed 2 error 1 | set aside | - | live 1 0 | 2 failed 2 error 1
terminate | none | 2: terminate, suspend | ending 2 0 | 2 failed 2 error 1
died 2 | none | close, 0: died 1 | ended 0 0

The stop of one that is not Live is not called.
actor 1 of 0; children 2 to 3; start fail 1; stop tell 4; rules restart error
create | failed 1 | resume, suspend, 0: failed 1 init | broken 1 0
terminate | none | close, 0: died 1 | ended 0 0

The last of two children ends it, and a death that is told again is nothing.
actor 1 of 0; children 2 to 3; start spawn 2, spawn 3; rules restart error
create | handled: spawn 2, spawn 3 | resume, 2: create, 3: create | live 0 0
terminate | none | 2: terminate, 3: terminate, suspend | ending 1 0
died 3 | none | - | ending 1 0
died 3 | none | - | ending 1 0
died 2 | none | close, 0: died 1 | ended 0 0
";

#[test]
fn ends(rt: HostRuntime) -> Result<(), Fail> {
    each_case(&rt, rt.alloc(), ENDS, 28)
}
