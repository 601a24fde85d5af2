//! Tests of what a script does at each call, and of finding the row of a message among many.
ghost use Rattle.std.specs.Prelude.{◌≡◌, ◌<◌, [], ◌∷◌, IfOk};

use crate::course::{Step, each_call};
use mb_actor::{Answer, Call, Effect, Message, Outbox, RecordedActor};
use mb_msg::{ActorId, Cause};
use mb_script::{Hooks, Operation, Row, Script};
use std::alloc::{AllocError, Global};
use std::process::Abort;

const HANDLED: Option<Answer> = Some(Answer::Handled);

const UNHANDLED: Option<Answer> = Some(Answer::Unhandled);

fn user(kind: u32, value: i64) -> Message {
    Message::User { kind, value }
}

/// An actor with these rows that does nothing else.
fn with_rows(alloc: Global, initial: i64, rows: Vec<Row>) -> Result<Script, AllocError> {
    let hooks = Hooks {
        start: Vec::new(alloc),
        restart: Vec::new(alloc),
        stop: Vec::new(alloc),
        terminated: None,
    };
    Script::new(alloc, initial, hooks, rows)
}

/// A row of a script: its kind, and what it does.
type Does = (u32, &'static [Operation]);

/// An actor with these rows that does nothing else.
fn script_of(alloc: Global, initial: i64, rows: &[Does]) -> Result<Script, AllocError> {
    let mut made = Vec::new(alloc);
    for (kind, operations) in rows {
        made.push(row_of(alloc, *kind, *operations)?)?;
    }
    with_rows(alloc, initial, made)
}

fn row_of(alloc: Global, kind: u32, operations: &[Operation]) -> Result<Row, AllocError> {
    let operations = operations.to_vec(alloc)?;
    Ok(Row { kind, operations })
}

/// Checks what comes of these calls of an actor.
fn goes_so(
    rt: &impl Abort,
    alloc: Global,
    script: Script,
    steps: &[Step],
) -> Result<(), AllocError> {
    each_call(rt, script, &mut outbox(alloc)?, steps);
    Ok(())
}

/// An outbox among three actors, of which number 2 may be spawned.
fn outbox(alloc: Global) -> Result<Outbox, AllocError>
    ensures { IfOk result (λ out. out ≡ record { effects = []; actors = 3; unspawned = (record { 0 = 2 }) ∷ [] }) }
{
    let prepared = vec![in alloc; ActorId(2)]?;
    Ok(Outbox::new(3, &prepared))
}

const OF_A_KIND: &[Does] = &[
    (2, &[Operation::Add, Operation::Add]),
    (1, &[Operation::Add]),
    (2, &[]),
];

#[test]
fn does_the_first_row_of_a_kind(rt: HostRuntime) -> Result<(), AllocError> {
    let script = script_of(rt.alloc(), 10, OF_A_KIND)?;
    goes_so(&rt, rt.alloc(), script, BY_KIND)
}

/// What comes of it. The first row of kind 2 adds twice; nothing is done for kind 3, or at a Terminated.
const BY_KIND: &[Step] = &[
    (Call::Start, HANDLED, &[], 10),
    (
        Call::Receive(Message::User { kind: 2, value: 3 }),
        HANDLED,
        &[],
        16,
    ),
    (
        Call::Receive(Message::Control {
            kind: 1,
            value: i64::MAX,
        }),
        HANDLED,
        &[],
        i64::MAX,
    ),
    (
        Call::Receive(Message::User { kind: 3, value: 3 }),
        UNHANDLED,
        &[],
        i64::MAX,
    ),
    (
        Call::Receive(Message::Terminated(ActorId(1))),
        UNHANDLED,
        &[],
        i64::MAX,
    ),
    (Call::Restart(Cause::Killed), HANDLED, &[], 10),
];

#[test]
fn does_each_operation(rt: HostRuntime) -> Result<(), AllocError> {
    let script = script_of(rt.alloc(), 0, &[(1, EACH)])?;
    goes_so(&rt, rt.alloc(), script, BY_EACH)
}

/// The actor that messages are sent to, and that is watched and stopped.
const OTHER: ActorId = ActorId(1);

const CHILD: ActorId = ActorId(2);

/// Each operation; one is refused, a second spawn too, and what comes after a failure is not done.
const EACH: &[Operation] = &[
    Operation::Add,
    Operation::Ignore,
    Operation::Tell { to: OTHER, kind: 5 },
    Operation::Control { to: OTHER, kind: 6 },
    Operation::Watch(OTHER),
    Operation::Unwatch(OTHER),
    Operation::Stop(ActorId(9)),
    Operation::Stop(OTHER),
    Operation::Spawn(CHILD),
    Operation::Spawn(CHILD),
    Operation::Fail(7),
    Operation::Add,
    Operation::Watch(OTHER),
];

const BY_EACH: &[Step] = &[(
    Call::Receive(Message::User { kind: 1, value: 4 }),
    Some(Answer::Failed(7)),
    ASKED,
    4,
)];

/// What is asked for.
const ASKED: &[Effect] = &[
    Effect::Tell {
        to: OTHER,
        kind: 5,
        value: 4,
    },
    Effect::Control {
        to: OTHER,
        kind: 6,
        value: 4,
    },
    Effect::Watch(OTHER),
    Effect::Unwatch(OTHER),
    Effect::Stop(OTHER),
    Effect::Spawn(CHILD),
];

#[test]
fn does_what_its_hooks_say(rt: HostRuntime) -> Result<(), AllocError> {
    let hooks = hooks_of(rt.alloc())?;
    let script = Script::new(rt.alloc(), 5, hooks, Vec::new(rt.alloc()))?;
    goes_so(&rt, rt.alloc(), script, BY_HOOK)
}

/// Hooks that tell the other actor 1, 2 or 3, or fail.
fn hooks_of(alloc: Global) -> Result<Hooks, AllocError> {
    let start = telling(alloc, 1)?;
    let restart = [Operation::Fail(3)].to_vec(alloc)?;
    let stop = telling(alloc, 2)?;
    let terminated = Some(telling(alloc, 3)?);
    Ok(Hooks {
        start,
        restart,
        stop,
        terminated,
    })
}

/// To tell the other actor something of this kind.
fn telling(alloc: Global, kind: u32) -> Result<Vec<Operation>, AllocError> {
    [Operation::Tell { to: OTHER, kind }].to_vec(alloc)
}

/// What comes of it: the value that is sent is 0, and at a Terminated the number of the actor that has ended.
const BY_HOOK: &[Step] = &[
    (
        Call::Start,
        HANDLED,
        &[Effect::Tell {
            to: OTHER,
            kind: 1,
            value: 0,
        }],
        5,
    ),
    (Call::Restart(Cause::Init), Some(Answer::Failed(3)), &[], 5),
    (
        Call::Receive(Message::Terminated(ActorId(2))),
        HANDLED,
        &[Effect::Tell {
            to: OTHER,
            kind: 3,
            value: 2,
        }],
        5,
    ),
    (
        Call::Stop,
        None,
        &[Effect::Tell {
            to: OTHER,
            kind: 2,
            value: 0,
        }],
        5,
    ),
];

/// Two rows of a kind, of which the first adds, and one of another kind.
const ADDER: &[Does] = &[
    (7, &[Operation::Add]),
    (7, &[Operation::Fail(1)]),
    (0, &[Operation::Ignore]),
];

/// An actor with these rows; retried where memory was refused.
fn adder_at_last(alloc: Global) -> Result<Script, AllocError> {
    match script_of(alloc, 1, ADDER) {
        Ok(script) => Ok(script),
        Err(_) => script_of(alloc, 1, ADDER),
    }
}

/// An outbox; retried where memory was refused.
fn outbox_at_last(alloc: Global) -> Result<Outbox, AllocError>
    ensures { IfOk result (λ out. out ≡ record { effects = []; actors = 3; unspawned = (record { 0 = 2 }) ∷ [] }) }
{
    match outbox(alloc) {
        Ok(out) => Ok(out),
        Err(_) => outbox(alloc),
    }
}

/// `tools/refuse_each_allocation script` runs this with each allocation refused in turn.
#[test]
fn a_refused_script_can_be_made_again(rt: HostRuntime) -> Result<(), AllocError> {
    let script = adder_at_last(rt.alloc())?;
    assert!(rt; script.rows().len() == 3 && script.hooks().start.is_empty());
    each_call(&rt, script, &mut outbox_at_last(rt.alloc())?, BY_ADDER);
    Ok(())
}

const BY_ADDER: &[Step] = &[
    (
        Call::Receive(Message::User { kind: 7, value: 2 }),
        HANDLED,
        &[],
        3,
    ),
    (
        Call::Receive(Message::User { kind: 0, value: 2 }),
        HANDLED,
        &[],
        3,
    ),
    (
        Call::Receive(Message::User { kind: 1, value: 2 }),
        UNHANDLED,
        &[],
        3,
    ),
];

/// The state of an actor with this many rows, each of which adds, after a million messages of all kinds in turn.
fn after_a_million(alloc: Global, kinds: u32) -> Result<i64, AllocError>
    requires { 0 < kinds }
{
    let script = with_rows(alloc, 0, adding(alloc, kinds)?)?;
    let mut out = outbox(alloc)?;
    Ok(run_a_million(script, &mut out, kinds))
}

/// A row that adds, for each of this many kinds.
fn adding(alloc: Global, kinds: u32) -> Result<Vec<Row>, AllocError> {
    let mut rows = Vec::new(alloc);
    for kind in 0..kinds {
        rows.push(row_of(alloc, kind, &[Operation::Add])?)?;
    }
    Ok(rows)
}

fn run_a_million(script: Script, out: &mut Outbox, kinds: u32) -> i64
    requires { 0 < kinds }
{
    let mut script = RecordedActor::new(script);
    for number in 0..1_000_000u32 {
        out.clear();
        let _ = script.receive(&user(number % kinds, 1), out);
    }
    script.state()
}

#[test]
fn finds_a_row_among_ten_and_a_thousand(rt: HostRuntime) -> Result<(), AllocError> {
    for kinds in [10, 1_000] {
        assert!(rt; after_a_million(rt.alloc(), kinds)? == 1_000_000);
    }
    Ok(())
}
