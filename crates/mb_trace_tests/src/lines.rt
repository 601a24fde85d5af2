//! The JSON lines, each kind of entry, message and effect once.
use crate::made::{envelope, live, names};
use mb_actor::{Answer, Effect, Phase};
use mb_journal::{EntryRef, Received};
use mb_msg::{ActorId, Body, Cause, DeadLetter, DeadLetterReason, SysMsg};
use mb_trace::ActorSnapshot;
use mb_trace_json::{dead_letter_line, entry_line, left_line, set_aside_line};
use std::alloc::AllocError;
use std::test::Fail;

fn handled(body: Body, answer: Option<Answer>) -> Received {
    Received::Handled {
        answer,
        envelope: envelope(1, 3, body),
        reading: 4,
    }
}

fn system(message: SysMsg) -> Received {
    Received::System {
        answer: None,
        number: 2,
        message,
    }
}

/// Each entry of a journal with its message, outcome and sender, as JSON has them.
#[test]
fn each_message_has_its_form(rt: HostRuntime) -> Result<(), Fail> {
    let user = Body::User {
        kind: 1,
        value: i64::MIN,
    };
    let control = Body::Control {
        kind: u32::MAX,
        value: 5,
    };
    let names = names(rt.alloc()).ok_or(AllocError)?;
    for (came, message) in [
        (
            handled(user, None),
            "{\"kind\":1,\"value\":-9223372036854775808,\"what\":\"user\"}",
        ),
        (
            handled(control, None),
            "{\"kind\":4294967295,\"value\":5,\"what\":\"control\"}",
        ),
        (handled(Body::PoisonPill, None), "{\"what\":\"poison\"}"),
        (handled(Body::Kill, None), "{\"what\":\"kill\"}"),
        (
            handled(Body::Terminated(ActorId(2)), None),
            "{\"actor\":\"b\",\"what\":\"terminated\"}",
        ),
        (system(SysMsg::Create), "{\"what\":\"create\"}"),
        (
            system(SysMsg::Recreate(Cause::Error(1))),
            "{\"cause\":\"error\",\"error\":1,\"what\":\"restart\"}",
        ),
        (
            system(SysMsg::Recreate(Cause::Init)),
            "{\"cause\":\"init\",\"error\":null,\"what\":\"restart\"}",
        ),
        (system(SysMsg::Suspend), "{\"what\":\"suspend\"}"),
        (
            system(SysMsg::Resume { of_failure: true }),
            "{\"of_failure\":true,\"what\":\"resume\"}",
        ),
        (system(SysMsg::Terminate), "{\"what\":\"terminate\"}"),
        (
            system(SysMsg::Watch(ActorId(0))),
            "{\"actor\":\"guardian\",\"what\":\"watch\"}",
        ),
        (
            system(SysMsg::Unwatch(ActorId(1))),
            "{\"actor\":\"a\",\"what\":\"unwatch\"}",
        ),
        (
            system(SysMsg::Failed(ActorId(2), Cause::DeathPact)),
            "{\"actor\":\"b\",\"cause\":\"deathpact\",\"error\":null,\"what\":\"failed\"}",
        ),
        (
            system(SysMsg::Died(ActorId(1))),
            "{\"actor\":\"a\",\"what\":\"died\"}",
        ),
    ] {
        let entry = EntryRef {
            arrival: came,
            effects: &[],
        };
        let line = entry_line(rt.alloc(), &names, ActorId(1), 7, live(Some(-8)), &entry)?;
        assert!(rt; line.as_str().contains(message), "{line}");
    }
    Ok(())
}

#[test]
fn a_line_has_all_keys(rt: HostRuntime) -> Result<(), Fail> {
    let names = names(rt.alloc()).ok_or(AllocError)?;
    let effects = [
        Effect::Tell {
            to: ActorId(2),
            kind: 1,
            value: -1,
        },
        Effect::Control {
            to: ActorId(0),
            kind: 2,
            value: 0,
        },
        Effect::Watch(ActorId(1)),
        Effect::Unwatch(ActorId(1)),
        Effect::Stop(ActorId(1)),
        Effect::Spawn(ActorId(1)),
    ];
    let entry = EntryRef {
        arrival: handled(Body::Kill, Some(Answer::Failed(9))),
        effects: &effects,
    };
    let line = entry_line(rt.alloc(), &names, ActorId(1), 7, live(Some(-8)), &entry)?;
    assert!(rt;
        line.as_str()
            == "{\"actor\":\"a\",\"after\":{\"phase\":\"live\",\"state\":-8,\"suspended\":0},\"effects\":[{\"do\":\"tell\",\"kind\":1,\"to\":\"b\",\"value\":-1},{\"do\":\"control\",\"kind\":2,\"to\":\"guardian\",\"value\":0},{\"do\":\"watch\",\"to\":\"a\"},{\"do\":\"unwatch\",\"to\":\"a\"},{\"do\":\"stop\",\"to\":\"a\"},{\"do\":\"spawn\",\"to\":\"a\"}],\"entry\":7,\"error\":9,\"line\":\"entry\",\"message\":{\"what\":\"kill\"},\"number\":3,\"outcome\":\"failed\",\"sender\":\"outside 0\",\"status\":4,\"version\":1}\n",
        "{line}"
    );
    // A count that does not fit 64 bits is written as the greatest that does.
    let suspended = ActorSnapshot {
        phase: Phase::Ending,
        suspended: u128::MAX,
        state: None,
    };
    let aside = EntryRef {
        arrival: Received::SetAside {
            number: 5,
            message: SysMsg::Create,
        },
        effects: &[],
    };
    let line = entry_line(rt.alloc(), &names, ActorId(0), 0, suspended, &aside)?;
    assert!(rt;
        line.as_str()
            == "{\"actor\":\"guardian\",\"after\":{\"phase\":\"ending\",\"state\":null,\"suspended\":18446744073709551615},\"effects\":[],\"entry\":0,\"error\":null,\"line\":\"entry\",\"message\":{\"what\":\"create\"},\"number\":5,\"outcome\":\"set aside\",\"sender\":null,\"status\":null,\"version\":1}\n",
        "{line}"
    );
    Ok(())
}

#[test]
fn the_rest_has_its_lines(rt: HostRuntime) -> Result<(), Fail> {
    let names = names(rt.alloc()).ok_or(AllocError)?;
    let kill = envelope(2, 8, Body::Kill);
    let letter = DeadLetter {
        envelope: kill,
        why: DeadLetterReason::NoMemory,
    };
    let line = dead_letter_line(rt.alloc(), &names, &letter)?;
    assert!(rt;
        line.as_str()
            == "{\"actor\":\"b\",\"line\":\"dead letter\",\"message\":{\"what\":\"kill\"},\"number\":8,\"sender\":\"outside 0\",\"version\":1,\"why\":\"no memory\"}\n",
        "{line}"
    );
    let line = left_line(rt.alloc(), &names, &kill)?;
    assert!(rt;
        line.as_str()
            == "{\"actor\":\"b\",\"line\":\"left\",\"message\":{\"what\":\"kill\"},\"number\":8,\"sender\":\"outside 0\",\"version\":1}\n",
        "{line}"
    );
    let line = set_aside_line(rt.alloc(), &names, ActorId(3), 4, SysMsg::Terminate)?;
    assert!(rt;
        line.as_str()
            == "{\"actor\":\"<\\\"c\\\" & 'd'>\",\"line\":\"set aside\",\"message\":{\"what\":\"terminate\"},\"number\":4,\"version\":1}\n",
        "{line}"
    );
    Ok(())
}
