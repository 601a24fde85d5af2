//! What an envelope makes an actor do.

use crate::tables::each_case;
use std::test::Fail;

const ENVELOPES: &str = "
A message that it does not know does no more; a child is spawned once, and only one that was prepared for it. A message that
fails is handled, its actor suspended with its children.
actor 1 of 0; children 2 to 3; start spawn 2; rules restart error
create | handled: spawn 2 | resume, 2: create | live 0 0
user add | handled | - | live 0 1
control add | handled | - | live 0 2
user leave | unhandled | - | live 0 3
user tell 4 | handled: tell 4 add 9 | 4: user add 9 | live 0 4
user stop 5 | handled: stop 5 | 5: terminate | live 0 5
user spawn 3 | handled: spawn 3 | 3: create | live 0 6
user spawn 3 | handled | - | live 0 7
user spawn 4 | handled | - | live 0 8
control fail 6 | failed 6 | suspend, 2: suspend, 3: suspend, 0: failed 1 error 6 | live 1 9

A poison pill tells it to end, and it is not called.
actor 1 of 0; children 2 to 3; start spawn 2; rules restart error
create | handled: spawn 2 | resume, 2: create | live 0 0
poison pill | none | 1: terminate | live 0 0

Kill fails it, and it is not called.
actor 1 of 0; children 2 to 3; start spawn 2; rules restart error
create | handled: spawn 2 | resume, 2: create | live 0 0
kill | none | suspend, 2: suspend, 0: failed 1 killed | live 1 0
";

#[test]
fn envelopes(rt: HostRuntime) -> Result<(), Fail> {
    each_case(&rt, rt.alloc(), ENVELOPES, 14)
}
