//! How an actor watches others, and is watched.

use crate::tables::each_text;
use std::test::Fail;

const WATCHED: &str = "
Each that watches is told once, in the order in which they came.
actor 1 of 0; children 2 to 3; rules restart error
create | handled | resume | live 0 0
watch 4 | none | - | live 0 0
watch 5 | none | - | live 0 0
watch 4 | none | - | live 0 0
watch 6 | none | - | live 0 0
unwatch 5 | none | - | live 0 0
terminate | none | close, 0: died 1, 4: died 1, 6: died 1 | ended 0 0
";

const WATCHING: &str = "
One that is watched already is not watched again, and nobody watches itself.
actor 1 of 0; children 2 to 3; rules restart error
create | handled | resume | live 0 0
user watch 4 | handled: watch 4 | 4: watch 1 | live 0 1
user watch 4 | handled: watch 4 | - | live 0 2
user watch 1 | handled: watch 1 | - | live 0 3
user unwatch 4 | handled: unwatch 4 | 4: unwatch 1 | live 0 4
user unwatch 4 | handled: unwatch 4 | - | live 0 5
died 4 | none | - | live 0 5

The end of one that it watches is told once, and handled once.
actor 1 of 0; children 2 to 3; rules restart error
create | handled | resume | live 0 0
user watch 4 | handled: watch 4 | 4: watch 1 | live 0 1
died 4 | none | 1: terminated 4 | live 0 1
died 4 | none | - | live 0 1
terminated 4 | handled | - | live 0 2
terminated 4 | dropped | - | live 0 2

One that it unwatches before the end is told is nothing to it any more.
actor 1 of 0; children 2 to 3; rules restart error
create | handled | resume | live 0 0
user watch 4 | handled: watch 4 | 4: watch 1 | live 0 1
died 4 | none | 1: terminated 4 | live 0 1
user unwatch 4 | handled: unwatch 4 | - | live 0 2
terminated 4 | dropped | - | live 0 2

An end that it does not handle fails it.
actor 1 of 0; children 2 to 3; start spawn 2; ends leave; rules restart error
create | handled: spawn 2 | resume, 2: create | live 0 0
user watch 4 | handled: watch 4 | 4: watch 1 | live 0 1
died 4 | none | 1: terminated 4 | live 0 1
terminated 4 | unhandled | suspend, 2: suspend, 0: failed 1 death pact | live 1 2

An end at which it fails: its parent is told the error, and of no death pact. The end was handled, and is due no more.
actor 1 of 0; children 2 to 3; start spawn 2; ends fail 3; rules restart error
create | handled: spawn 2 | resume, 2: create | live 0 0
user watch 4 | handled: watch 4 | 4: watch 1 | live 0 1
died 4 | none | 1: terminated 4 | live 0 1
terminated 4 | failed 3 | suspend, 2: suspend, 0: failed 1 error 3 | live 1 2
recreate error 3 | handled | resume, 2: recreate error 3 | live 0 0
terminated 4 | dropped | - | live 0 0

What it asks for before it fails is carried out before it is suspended.
actor 1 of 0; children 2 to 3; ends spawn 2, fail 3; rules restart error
create | handled | resume | live 0 0
user watch 4 | handled: watch 4 | 4: watch 1 | live 0 1
died 4 | none | 1: terminated 4 | live 0 1
terminated 4 | failed 3: spawn 2 | 2: create, suspend, 2: suspend, 0: failed 1 error 3 | live 1 2

A parent that watches its child is told of its end, and has it no more.
actor 1 of 0; children 2 to 3; start spawn 2, watch 2; rules restart error
create | handled: spawn 2, watch 2 | resume, 2: create, 2: watch 1 | live 0 0
died 2 | none | 1: terminated 2 | live 0 0
suspend | none | suspend | live 1 0
resume | none | resume | live 0 0
terminated 2 | handled | - | live 0 1
";

const TEXTS: &[(&str, u32)] = &[(WATCHED, 7), (WATCHING, 37)];

#[test]
fn watches(rt: HostRuntime) -> Result<(), Fail> {
    each_text(&rt, rt.alloc(), TEXTS)
}
