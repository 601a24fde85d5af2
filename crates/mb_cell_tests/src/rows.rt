//! Whole runs of several actors, cell by cell: each gets its messages in the run's order, and its acts are what the
//! others get.

use crate::tables::each_text;
use std::test::Fail;

/// A parent that starts a child, which is sent an add, a failure and an add.
const CHILD_THAT_FAILS: &str = "
Its parent restarts it.
actor 1 of 0; children 2; start spawn 2; rules restart error
create | handled: spawn 2 | resume, 2: create | live 0 0
failed 2 error 1 | none | 2: recreate error 1 | live 0 0

actor 2 of 1
create | handled | resume | live 0 0
user add 5 | handled | - | live 0 1
user fail 1 | failed 1 | suspend, 1: failed 2 error 1 | live 1 2
recreate error 1 | handled | resume | live 0 0
user add 7 | handled | - | live 0 1

Its parent resumes it.
actor 1 of 0; children 2; start spawn 2; rules resume error
create | handled: spawn 2 | resume, 2: create | live 0 0
failed 2 error 1 | none | 2: resume failure | live 0 0

actor 2 of 1
create | handled | resume | live 0 0
user add 5 | handled | - | live 0 1
user fail 1 | failed 1 | suspend, 1: failed 2 error 1 | live 1 2
resume failure | none | resume | live 0 2
user add 7 | handled | - | live 0 3

Its parent stops it.
actor 1 of 0; children 2; start spawn 2; rules stop error
create | handled: spawn 2 | resume, 2: create | live 0 0
failed 2 error 1 | none | 2: terminate | live 0 0
died 2 | none | - | live 0 0

actor 2 of 1
create | handled | resume | live 0 0
user add 5 | handled | - | live 0 1
user fail 1 | failed 1 | suspend, 1: failed 2 error 1 | live 1 2
terminate | none | close, 1: died 2 | ended 0 2

Its parent passes it up, and is restarted by the guardian, and its child with it.
guardian; children 1
create | none | resume, 1: create | live 0 -
failed 1 error 1 | none | 1: recreate error 1 | live 0 -

actor 1 of 0; children 2; start spawn 2; rules escalate error
create | handled: spawn 2 | resume, 2: create | live 0 0
failed 2 error 1 | none | suspend, 0: failed 1 error 1 | live 1 0
recreate error 1 | handled | resume, 2: recreate error 1 | live 0 0

actor 2 of 1
create | handled | resume | live 0 0
user add 5 | handled | - | live 0 1
user fail 1 | failed 1 | suspend, 1: failed 2 error 1 | live 1 2
recreate error 1 | handled | resume | live 0 0
user add 7 | handled | - | live 0 1
";

const FAILURES: &str = "
Two failures, one after the other: the second is not begun before the restart.
actor 1 of 0
create | handled | resume | live 0 0
user fail 1 | failed 1 | suspend, 0: failed 1 error 1 | live 1 1
recreate error 1 | handled | resume | live 0 0
user fail 1 | failed 1 | suspend, 0: failed 1 error 1 | live 1 1
recreate error 1 | handled | resume | live 0 0

Two failures: what the guardian gets of them.
guardian; children 1
create | none | resume, 1: create | live 0 -
failed 1 error 1 | none | 1: recreate error 1 | live 0 -
failed 1 error 1 | none | 1: recreate error 1 | live 0 -

A parent with two children is told to end, and then that one of them failed: that is dead at its end.
actor 1 of 0; children 2 to 3; start spawn 2, spawn 3; rules restart error
create | handled: spawn 2, spawn 3 | resume, 2: create, 3: create | live 0 0
terminate | none | 2: terminate, 3: terminate, suspend | ending 1 0
failed 2 error 1 | set aside | - | ending 1 0 | 2 failed 2 error 1
died 2 | none | - | ending 1 0 | 2 failed 2 error 1
died 3 | none | close, 0: died 1 | ended 0 0

actor 2 of 1
create | handled | resume | live 0 0
user fail 1 | failed 1 | suspend, 1: failed 2 error 1 | live 1 1
terminate | none | close, 1: died 2 | ended 0 1

actor 3 of 1
create | handled | resume | live 0 0
terminate | none | close, 1: died 3 | ended 0 0

A parent passes its child's failure up, and the guardian restarts it: all three are resumed as often as they were suspended.
actor 1 of 0; children 2 to 3; start spawn 2, spawn 3; rules escalate error
create | handled: spawn 2, spawn 3 | resume, 2: create, 3: create | live 0 0
failed 2 error 1 | none | suspend, 3: suspend, 0: failed 1 error 1 | live 1 0
recreate error 1 | handled | resume, 2: recreate error 1, 3: recreate error 1 | live 0 0

actor 2 of 1
create | handled | resume | live 0 0
user fail 1 | failed 1 | suspend, 1: failed 2 error 1 | live 1 1
recreate error 1 | handled | resume | live 0 0

actor 3 of 1
create | handled | resume | live 0 0
suspend | none | suspend | live 1 0
recreate error 1 | handled | resume | live 0 0

A start that fails is answered by the guardian's Terminate, and nothing that was sent is handled.
guardian; children 1
create | none | resume, 1: create | live 0 -
failed 1 init | none | 1: terminate | live 0 -
died 1 | none | - | live 0 -

actor 1 of 0; start fail 1
create | failed 1 | resume, suspend, 0: failed 1 init | broken 1 0
terminate | none | close, 0: died 1 | ended 0 0

A restart that fails, decided by the default: the child is stopped.
actor 1 of 0; children 2; start spawn 2
create | handled: spawn 2 | resume, 2: create | live 0 0
failed 2 error 1 | none | 2: recreate error 1 | live 0 0
failed 2 init | none | 2: terminate | live 0 0
died 2 | none | - | live 0 0

actor 2 of 1; restart fail 3
create | handled | resume | live 0 0
user fail 1 | failed 1 | suspend, 1: failed 2 error 1 | live 1 1
recreate error 1 | failed 3 | resume, suspend, 1: failed 2 init | broken 1 0
terminate | none | close, 1: died 2 | ended 0 0

A parent passes up that its child was killed, and the guardian stops it.
actor 1 of 0; children 2; start spawn 2; rules escalate any
create | handled: spawn 2 | resume, 2: create | live 0 0
failed 2 killed | none | suspend, 0: failed 1 killed | live 1 0
terminate | none | 2: terminate, suspend | ending 2 0
died 2 | none | close, 0: died 1 | ended 0 0

A child is killed, whose parent passes that up, and the guardian stops the parent.
guardian; children 1
create | none | resume, 1: create | live 0 -
failed 1 killed | none | 1: terminate | live 0 -
died 1 | none | - | live 0 -

actor 2 of 1
create | handled | resume | live 0 0
kill | none | suspend, 1: failed 2 killed | live 1 0
terminate | none | close, 1: died 2 | ended 0 0

A child that did not fail, of a parent that treats all for one: it is suspended and started afresh, or stopped.
actor 3 of 1
create | handled | resume | live 0 0
user add | handled | - | live 0 1
suspend | none | suspend | live 1 1
recreate error 1 | handled | resume | live 0 0

actor 1 of 0; children 2 to 3; start spawn 2, spawn 3; rules restart error; retries 0; all for one
create | handled: spawn 2, spawn 3 | resume, 2: create, 3: create | live 0 0
failed 2 error 1 | none | 2: terminate, 3: terminate | live 0 0
died 2 | none | - | live 0 0
died 3 | none | - | live 0 0

All for one: a parent whose first child fails, and the second child where none may be started afresh.
actor 1 of 0; children 2 to 3; start spawn 2, spawn 3; rules restart error; all for one
create | handled: spawn 2, spawn 3 | resume, 2: create, 3: create | live 0 0
failed 2 error 1 | none | 2: recreate error 1, 3: suspend, 3: recreate error 1 | live 0 0

actor 3 of 1
create | handled | resume | live 0 0
user add 4 | handled | - | live 0 1
terminate | none | close, 1: died 3 | ended 0 1

One that is no child any more does not fail its parent.
actor 1 of 0; children 2 to 3; start spawn 2, spawn 3; rules escalate error
create | handled: spawn 2, spawn 3 | resume, 2: create, 3: create | live 0 0
died 2 | none | - | live 0 0
failed 2 error 1 | none | - | live 0 0
";

/// A parent that restarts its child as often as it may.
const RETRIES: &str = "
A child that fails three times, of a parent with 2 retries.
actor 1 of 0; children 2; start spawn 2; rules restart error; retries 2
create | handled: spawn 2 | resume, 2: create | live 0 0
failed 2 error 1 | none | 2: recreate error 1 | live 0 0
failed 2 error 1 | none | 2: recreate error 1 | live 0 0
failed 2 error 1 | none | 2: terminate | live 0 0
died 2 | none | - | live 0 0

actor 2 of 1
create | handled | resume | live 0 0
user fail 1 | failed 1 | suspend, 1: failed 2 error 1 | live 1 1
recreate error 1 | handled | resume | live 0 0
user fail 1 | failed 1 | suspend, 1: failed 2 error 1 | live 1 1
recreate error 1 | handled | resume | live 0 0
user fail 1 | failed 1 | suspend, 1: failed 2 error 1 | live 1 1
terminate | none | close, 1: died 2 | ended 0 1

With 0 retries it is stopped at once.
actor 1 of 0; children 2; start spawn 2; rules restart error; retries 0
create | handled: spawn 2 | resume, 2: create | live 0 0
failed 2 error 1 | none | 2: terminate | live 0 0
died 2 | none | - | live 0 0

Without a limit it is started afresh each time.
actor 1 of 0; children 2; start spawn 2; rules restart error
create | handled: spawn 2 | resume, 2: create | live 0 0
failed 2 error 1 | none | 2: recreate error 1 | live 0 0
failed 2 error 1 | none | 2: recreate error 1 | live 0 0
failed 2 error 1 | none | 2: recreate error 1 | live 0 0

actor 2 of 1
create | handled | resume | live 0 0
user fail 1 | failed 1 | suspend, 1: failed 2 error 1 | live 1 1
recreate error 1 | handled | resume | live 0 0
user fail 1 | failed 1 | suspend, 1: failed 2 error 1 | live 1 1
recreate error 1 | handled | resume | live 0 0
user fail 1 | failed 1 | suspend, 1: failed 2 error 1 | live 1 1
recreate error 1 | handled | resume | live 0 0
";

/// A child whose restarts fail, of a parent that restarts it each time.
const TO_A_FULL_JOURNAL: &str = "
guardian; children 1; limit 10
create | none | resume, 1: create | live 0 -

The parent is told of each failure, the last of which is the last that its journal has room for.
actor 1 of 0; children 2; start spawn 2; rules restart any; limit 10
create | handled: spawn 2 | resume, 2: create | live 0 0
failed 2 error 1 | none | 2: recreate error 1 | live 0 0
failed 2 init | none | 2: recreate init | live 0 0
failed 2 init | none | 2: recreate init | live 0 0
failed 2 init | none | 2: recreate init | live 0 0
failed 2 init | none | 2: recreate init | live 0 0
failed 2 init | none | 2: recreate init | live 0 0
failed 2 init | none | 2: recreate init | live 0 0
failed 2 init | none | 2: recreate init | live 0 0
failed 2 init | none | 2: recreate init | live 0 0

The child is to be started afresh once more, and its journal has no room for that.
actor 2 of 1; restart fail 3; limit 10
create | handled | resume | live 0 0
user fail 1 | failed 1 | suspend, 1: failed 2 error 1 | live 1 1
recreate error 1 | failed 3 | resume, suspend, 1: failed 2 init | broken 1 0
recreate init | failed 3 | resume, suspend, 1: failed 2 init | broken 1 0
recreate init | failed 3 | resume, suspend, 1: failed 2 init | broken 1 0
recreate init | failed 3 | resume, suspend, 1: failed 2 init | broken 1 0
recreate init | failed 3 | resume, suspend, 1: failed 2 init | broken 1 0
recreate init | failed 3 | resume, suspend, 1: failed 2 init | broken 1 0
recreate init | failed 3 | resume, suspend, 1: failed 2 init | broken 1 0
recreate init | failed 3 | resume, suspend, 1: failed 2 init | broken 1 0
recreate init | journal full | - | broken 1 0
";

const ENDS: &str = "
An add and a poison pill.
actor 1 of 0
create | handled | resume | live 0 0
user add | handled | - | live 0 1
poison pill | none | 1: terminate | live 0 1
terminate | none | close, 0: died 1 | ended 0 1

The guardian of an actor that a poison pill, or a stop, ends.
guardian; children 1
create | none | resume, 1: create | live 0 -
died 1 | none | - | live 0 -

Actor 1 watches actor 2 from its start on, and actor 2 is killed.
actor 1 of 0; start watch 2
create | handled: watch 2 | resume, 2: watch 1 | live 0 0
died 2 | none | 1: terminated 2 | live 0 0
terminated 2 | handled | - | live 0 1

actor 2 of 0
create | handled | resume | live 0 0
watch 1 | none | - | live 0 0
kill | none | suspend, 0: failed 2 killed | live 1 0
terminate | none | close, 0: died 2, 1: died 2 | ended 0 0

The guardian of a watcher and of the actor that is killed.
guardian; children 1 to 2
create | none | resume, 1: create, 2: create | live 0 -
failed 2 killed | none | 2: terminate | live 0 -
died 2 | none | - | live 0 -

Actor 2 watches actor 1, which a poison pill has ended: the Watch finds it closed and is answered by its death.
guardian; children 1 to 2
create | none | resume, 1: create, 2: create | live 0 -
died 1 | none | - | live 0 -

actor 1 of 0
create | handled | resume | live 0 0
poison pill | none | 1: terminate | live 0 0
terminate | none | close, 0: died 1 | ended 0 0

actor 2 of 0
create | handled | resume | live 0 0
user watch 1 | handled: watch 1 | 1: watch 2 | live 0 1
died 1 | none | 2: terminated 1 | live 0 1
terminated 1 | handled | - | live 0 2

Actor 1 watches actor 2 and unwatches it after it died: its end is dropped.
actor 1 of 0
create | handled | resume | live 0 0
user watch 2 | handled: watch 2 | 2: watch 1 | live 0 1
died 2 | none | 1: terminated 2 | live 0 1
user unwatch 2 | handled: unwatch 2 | - | live 0 2
terminated 2 | dropped | - | live 0 2

actor 2 of 0
create | handled | resume | live 0 0
watch 1 | none | - | live 0 0
poison pill | none | 2: terminate | live 0 0
terminate | none | close, 0: died 2, 1: died 2 | ended 0 0

The guardian of a watcher and of the actor that ends.
guardian; children 1 to 2
create | none | resume, 1: create, 2: create | live 0 -
died 2 | none | - | live 0 -

Actor 1 stops actor 2 at its start and watches it, too late: the Watch is answered by a Died.
actor 1 of 0; start stop 2, watch 2
create | handled: stop 2, watch 2 | resume, 2: terminate, 2: watch 1 | live 0 0
died 2 | none | 1: terminated 2 | live 0 0
terminated 2 | handled | - | live 0 1

The actor that is stopped before it is watched.
actor 2 of 0
create | handled | resume | live 0 0
terminate | none | close, 0: died 2 | ended 0 0

Actor 1 tells actor 2 as it stops, and tells it to end, of which only the first is carried out.
actor 1 of 0; stop tell 2, stop 2
create | handled | resume | live 0 0
user add 1 | handled | - | live 0 1
poison pill | none | 1: terminate | live 0 1
terminate | none: tell 2 add 9, stop 2 | 2: user add 9, close, 0: died 1 | ended 0 1

actor 2 of 0
create | handled | resume | live 0 0
user add 9 | handled | - | live 0 1
";

const TEXTS: &[(&str, u32)] = &[
    (CHILD_THAT_FAILS, 31),
    (FAILURES, 66),
    (RETRIES, 26),
    (TO_A_FULL_JOURNAL, 22),
    (ENDS, 47),
];

#[test]
fn stories(rt: HostRuntime) -> Result<(), Fail> {
    each_text(&rt, rt.alloc(), TEXTS)
}
