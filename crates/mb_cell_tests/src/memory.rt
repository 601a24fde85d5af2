//! Memory that is refused: `tools/refuse_each_allocation cell` runs this with each allocation refused in turn.

use crate::tables::{Played, play};
use mb_msg::JournalMode;
use std::alloc::{AllocError, Global};
use std::process::Abort;
use std::test::Fail;

/// Something is added to each list of the cell, a failure is set aside and comes back, and the actor ends. There are forty
/// messages between, for which its journal grows.
const STORY: &str =
    "actor 1 of 0; children 2 to 3; start spawn 2, spawn 3; rules restart error; retries 2
create | handled: spawn 2, spawn 3 | resume, 2: create, 3: create | live 0 0
watch 4 | none | - | live 0 0
user watch 5 | handled: watch 5 | 5: watch 1 | live 0 1
died 5 | none | 1: terminated 5 | live 0 1
terminated 5 | handled | - | live 0 2
failed 2 error 1 | none | 2: recreate error 1 | live 0 2
user add | handled | - | live 0 3
user add | handled | - | live 0 4
user add | handled | - | live 0 5
user add | handled | - | live 0 6
user add | handled | - | live 0 7
user add | handled | - | live 0 8
user add | handled | - | live 0 9
user add | handled | - | live 0 10
user add | handled | - | live 0 11
user add | handled | - | live 0 12
user add | handled | - | live 0 13
user add | handled | - | live 0 14
user add | handled | - | live 0 15
user add | handled | - | live 0 16
user add | handled | - | live 0 17
user add | handled | - | live 0 18
user add | handled | - | live 0 19
user add | handled | - | live 0 20
user add | handled | - | live 0 21
user add | handled | - | live 0 22
user add | handled | - | live 0 23
user add | handled | - | live 0 24
user add | handled | - | live 0 25
user add | handled | - | live 0 26
user add | handled | - | live 0 27
user add | handled | - | live 0 28
user add | handled | - | live 0 29
user add | handled | - | live 0 30
user add | handled | - | live 0 31
user add | handled | - | live 0 32
user add | handled | - | live 0 33
user add | handled | - | live 0 34
user add | handled | - | live 0 35
user add | handled | - | live 0 36
user add | handled | - | live 0 37
user add | handled | - | live 0 38
user add | handled | - | live 0 39
user add | handled | - | live 0 40
user add | handled | - | live 0 41
user add | handled | - | live 0 42
suspend | none | suspend, 2: suspend, 3: suspend | live 1 42
failed 3 error 1 | set aside | - | live 1 42 | 5 failed 3 error 1
resume | none | resume, 2: resume, 3: resume | live 0 42 | 5 failed 3 error 1
front 5 failed 3 error 1 | none | 3: recreate error 1 | live 0 42
terminate | none | 2: terminate, 3: terminate, suspend | ending 1 42
died 2 | none | - | ending 1 42
died 3 | none | close, 0: died 1, 4: died 1 | ended 0 42
";

/// Runs the table, again where memory was refused other than to a `ready`, which is retried at once.
fn play_at_last<R: Abort>(rt: &R, alloc: Global) -> Result<Played, AllocError> {
    match play(rt, alloc, STORY, JournalMode::Kept) {
        Err(_) => play(rt, alloc, STORY, JournalMode::Kept),
        played => played,
    }
}

#[test]
fn a_refused_ready_can_be_made_again(rt: HostRuntime) -> Result<(), Fail> {
    let played = play_at_last(&rt, rt.alloc())?;
    assert!(rt; played.cases == 53);
    Ok(())
}

/// Fails where a `ready` is refused, and so shows that the test above meets that.
#[test]
fn no_ready_is_refused(rt: HostRuntime) -> Result<(), Fail> {
    let played = play_at_last(&rt, rt.alloc())?;
    assert!(rt; !played.was_refused);
    Ok(())
}
