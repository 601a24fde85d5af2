//! Tests of a document with everything, and of what is read of it.

use crate::scenarios::cases::scenario_of;
use mb_actor::Actor;
use mb_msg::{
    ActorId, ActorPlan, Directive, MailboxType, Order, OrderKind, Pattern, Payload, Plan, PoolKind,
    RankRow, SenderOrder,
};
use mb_scenario::Scenario;
use mb_script::{Hooks, Operation, Row, Script};
use std::process::Abort;
use std::test::Fail;

/// Each key of each table, each word and each operation.
pub(crate) const WHOLE: &str = "workers = 16
pool = \"stealing\"
throughput = 7
journal_limit = 9

[[actor]]
name = \"a\"
parent = \"guardian\"
mailbox = \"priority\"
rank = [{ kind = 9, rank = 0 }, { kind = 8, rank = 4294967295 }]
other = 2
initial = -3
start = [\"spawn b\", \"watch d_1\"]
restart = [\"ignore\", \"stop d_1\"]
stop = [\"tell b 4\"]
terminated = [\"unwatch c\"]
retries = 3
all_for_one = true

[[actor.on]]
kind = 1
do = [\"add\", \"control b 2\", \"fail 7\", \"add\"]

[[actor.on]]
kind = 4294967295
do = []

[[actor.on]]
kind = 1
do = [\"ignore\"]

[[actor.strategy]]
cause = \"error 5\"
then = \"resume\"

[[actor.strategy]]
cause = \"error\"
then = \"restart\"

[[actor.strategy]]
cause = \"init\"
then = \"stop\"

[[actor.strategy]]
cause = \"killed\"
then = \"escalate\"

[[actor.strategy]]
cause = \"deathpact\"
then = \"stop\"

[[actor.strategy]]
cause = \"any\"
then = \"restart\"

[[actor]]
name = \"b\"
parent = \"a\"
mailbox = \"bounded\"
capacity = 8

[[actor]]
name = \"c\"
parent = \"b\"
mailbox = \"control\"

[[actor]]
name = \"d_1\"
mailbox = \"unbounded\"
terminated = []

[[send]]
from = 2
to = \"b\"
kind = 1
value = 4
times = 6

[[send]]
to = \"a\"
what = \"control\"
kind = 3
value = -9223372036854775808

[[send]]
to = \"a\"
what = \"poison\"

[[send]]
from = 1
to = \"c\"
what = \"kill\"
times = 100000

[[send]]
to = \"guardian\"
what = \"stop\"

[[send]]
to = \"d_1\"
what = \"user\"
kind = 0
";

/// Whether an actor has this parent and this supervision strategy.
fn is_planned(
    actor: &ActorPlan,
    parent: u16,
    retries: i64,
    all_for_one: bool,
    rows: &[(Pattern, Directive)],
) -> bool {
    actor.parent.0 == parent
        && actor.strategy.retries == retries
        && actor.strategy.all_for_one == all_for_one
        && actor.strategy.rows.as_slice() == rows
}

/// Whether a mailbox goes by these ranks.
fn goes_by(mailbox: &MailboxType, ranks: &[RankRow], rest: u32) -> bool {
    match mailbox {
        MailboxType::Priority { rows, other } => rows.as_slice() == ranks && *other == rest,
        _ => false,
    }
}

/// The strategy of the first actor.
const ROWS: [(Pattern, Directive); 6] = [
    (Pattern::Error(5), Directive::Resume),
    (Pattern::AnyError, Directive::Restart),
    (Pattern::Init, Directive::Stop),
    (Pattern::Killed, Directive::Escalate),
    (Pattern::DeathPact, Directive::Stop),
    (Pattern::Any, Directive::Restart),
];

/// The ranks of the first actor's mailbox.
const RANKS: [RankRow; 2] = [
    RankRow { kind: 9, rank: 0 },
    RankRow {
        kind: 8,
        rank: 4_294_967_295,
    },
];

/// Whether these are the actors' plans.
fn are_planned(actors: &[ActorPlan]) -> bool {
    match actors {
        [first, second, third, fourth] => {
            is_planned(first, 0, 3, true, &ROWS)
                && is_planned(second, 1, -1, false, &[])
                && is_planned(third, 2, -1, false, &[])
                && is_planned(fourth, 0, -1, false, &[])
                && goes_by(&first.mailbox, &RANKS, 2)
                && matches!(&second.mailbox, MailboxType::Bounded(8))
                && matches!(&third.mailbox, MailboxType::Control)
                && matches!(&fourth.mailbox, MailboxType::Unbounded)
        }
        _ => false,
    }
}

/// Whether these are the operations at a Terminated, or it is not handled.
fn ends(found: &Option<Vec<Operation>>, expected: Option<&[Operation]>) -> bool {
    match (found, expected) {
        (Some(operations), Some(wanted)) => operations.as_slice() == wanted,
        (None, None) => true,
        _ => false,
    }
}

/// What the first actor does when it starts.
const START: [Operation; 2] = [Operation::Spawn(ActorId(2)), Operation::Watch(ActorId(4))];

/// What it does when it is restarted.
const RESTART: [Operation; 2] = [Operation::Ignore, Operation::Stop(ActorId(4))];

/// What it does when it stops.
const STOP: [Operation; 1] = [Operation::Tell {
    to: ActorId(2),
    kind: 4,
}];

/// What it does at a Terminated.
const TERMINATED: [Operation; 1] = [Operation::Unwatch(ActorId(3))];

/// What it does with messages of one kind.
const ADDING: [Operation; 4] = [
    Operation::Add,
    Operation::Control {
        to: ActorId(2),
        kind: 2,
    },
    Operation::Fail(7),
    Operation::Add,
];

/// Whether these are the hooks of the first actor.
fn are_hooks(hooks: &Hooks) -> bool {
    hooks.start.as_slice() == START.as_slice()
        && hooks.restart.as_slice() == RESTART.as_slice()
        && hooks.stop.as_slice() == STOP.as_slice()
        && ends(&hooks.terminated, Some(&TERMINATED))
}

/// Whether a row is for this kind, and does this.
fn is_row(row: &Row, kind: u32, expected: &[Operation]) -> bool {
    row.kind == kind && row.operations.as_slice() == expected
}

/// Whether the first actor does this with messages.
fn are_rows(rows: &[Row]) -> bool {
    match rows {
        [first, second, third] => {
            is_row(first, 1, &ADDING)
                && is_row(second, 4_294_967_295, &[])
                && is_row(third, 1, &[Operation::Ignore])
        }
        _ => false,
    }
}

/// Whether a script has no operations but these at a Terminated.
fn is_idle(script: &Script, expected: Option<&[Operation]>) -> bool {
    let hooks = script.hooks();
    script.state() == 0
        && script.rows().is_empty()
        && hooks.start.is_empty()
        && hooks.restart.is_empty()
        && hooks.stop.is_empty()
        && ends(&hooks.terminated, expected)
}

/// Whether these are the scripts.
fn are_scripts(scripts: &[Script]) -> bool {
    match scripts {
        [first, second, third, fourth] => {
            first.state() == -3
                && are_hooks(first.hooks())
                && are_rows(first.rows())
                && is_idle(second, None)
                && is_idle(third, None)
                && is_idle(fourth, Some(&[]))
        }
        _ => false,
    }
}

/// What is sent.
const SENT: [SenderOrder; 6] = [
    SenderOrder {
        from: 2,
        order: Order {
            to: ActorId(2),
            what: OrderKind::Tell(Payload::User { kind: 1, value: 4 }),
            times: 6,
        },
    },
    SenderOrder {
        from: 0,
        order: Order {
            to: ActorId(1),
            what: OrderKind::Tell(Payload::Control {
                kind: 3,
                value: i64::MIN,
            }),
            times: 1,
        },
    },
    SenderOrder {
        from: 0,
        order: Order {
            to: ActorId(1),
            what: OrderKind::Tell(Payload::PoisonPill),
            times: 1,
        },
    },
    SenderOrder {
        from: 1,
        order: Order {
            to: ActorId(3),
            what: OrderKind::Tell(Payload::Kill),
            times: 100_000,
        },
    },
    SenderOrder {
        from: 0,
        order: Order {
            to: ActorId(0),
            what: OrderKind::Stop,
            times: 1,
        },
    },
    SenderOrder {
        from: 0,
        order: Order {
            to: ActorId(4),
            what: OrderKind::Tell(Payload::User { kind: 0, value: 0 }),
            times: 1,
        },
    },
];

/// Whether the plan has these numbers beside its actors: the throughput, the workers, the senders, the journals' limit.
fn has_numbers(plan: &Plan, numbers: [u64; 4], pool: PoolKind) -> bool {
    let found = [
        u64::from(plan.throughput),
        u64::from(plan.workers),
        u64::from(plan.senders),
        plan.journal_limit,
    ];
    found.as_slice() == numbers.as_slice() && plan.pool == pool
}

fn are_named(names: &[String], expected: &[&str]) -> bool {
    let mut is_same = names.len() == expected.len();
    for (name, expected) in names.iter().zip(expected.iter()) {
        is_same &= name.as_str() == *expected;
    }
    is_same
}

/// Checks all that is read of the document.
pub(crate) fn check_whole<R: Abort>(rt: &R, scenario: &Scenario) {
    assert!(rt; !scenario.quiet);
    assert!(rt; has_numbers(&scenario.plan, [7, 16, 3, 9], PoolKind::Stealing));
    assert!(rt; are_planned(&scenario.plan.actors));
    assert!(rt; are_named(&scenario.names, &["a", "b", "c", "d_1"]));
    assert!(rt; are_scripts(&scenario.scripts));
    assert!(rt; scenario.sends.as_slice() == SENT.as_slice());
}

#[test]
fn reads_what_the_text_says(rt: HostRuntime) -> Result<(), Fail> {
    check_whole(&rt, &scenario_of(rt.alloc(), WHOLE.as_bytes())?);
    Ok(())
}

/// Tests the defaults of the document's keys.
#[test]
fn reads_the_defaults(rt: HostRuntime) -> Result<(), Fail> {
    check_empty(&rt, &scenario_of(rt.alloc(), b"")?);
    check_quiet(&rt, &scenario_of(rt.alloc(), b"workers = 0")?);
    Ok(())
}

fn check_empty<R: Abort>(rt: &R, empty: &Scenario) {
    assert!(rt; has_numbers(&empty.plan, [5, 1, 0, 4_294_967_295], PoolKind::Shared));
    assert!(rt; !empty.quiet);
    assert!(rt; empty.plan.actors.is_empty() && empty.names.is_empty());
    assert!(rt; empty.scripts.is_empty() && empty.sends.is_empty());
}

fn check_quiet<R: Abort>(rt: &R, quiet: &Scenario) {
    assert!(rt; quiet.quiet);
    assert!(rt; quiet.plan.workers == 1);
}

/// Tests the defaults of an actor's and a send's keys.
#[test]
fn reads_the_defaults_of_an_actor(rt: HostRuntime) -> Result<(), Fail> {
    let text = b"actor = [{ name = 'a', mailbox = 'priority' }]\nsend = [{ to = 'a', kind = 1 }]";
    check_one(&rt, &scenario_of(rt.alloc(), text)?);
    Ok(())
}

/// What is sent where its kind alone is said.
const ONE: [SenderOrder; 1] = [SenderOrder {
    from: 0,
    order: Order {
        to: ActorId(1),
        what: OrderKind::Tell(Payload::User { kind: 1, value: 0 }),
        times: 1,
    },
}];

fn check_one<R: Abort>(rt: &R, one: &Scenario) {
    assert!(rt; is_only_plan(&one.plan));
    assert!(rt; is_only_script(&one.scripts));
    assert!(rt; one.sends.as_slice() == ONE.as_slice());
}

fn is_only_plan(plan: &Plan) -> bool {
    match plan.actors.as_slice() {
        [only] => {
            plan.senders == 1
                && is_planned(only, 0, -1, false, &[])
                && goes_by(&only.mailbox, &[], 1)
        }
        _ => false,
    }
}

fn is_only_script(scripts: &[Script]) -> bool {
    match scripts {
        [only] => is_idle(only, None),
        _ => false,
    }
}
