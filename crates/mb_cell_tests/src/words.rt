//! Parsing the words of tables: messages and causes. `None` for a word that no table has.

use crate::scripted_actor::{ADD, Asked, FAIL, LEAVE, SPAWN, STOP, TELL, UNWATCH, WATCH};
use mb_msg::{ActorId, Body, Cause, SysMsg};

/// A number.
pub(crate) fn number(text: &str) -> Option<u32> {
    text.parse::<u32>().ok()
}

pub(crate) fn actor(text: &str) -> Option<ActorId> {
    Some(ActorId(text.parse::<u16>().ok()?))
}

/// A word, and what comes after it.
pub(crate) fn first_word(text: &str) -> (&str, &str) {
    text.split_once(' ').unwrap_or((text, ""))
}

/// Why an actor failed: `error 1`, `init`, `killed` or `death pact`.
pub(crate) fn cause_of(text: &str) -> Option<Cause> {
    match text {
        "init" => Some(Cause::Init),
        "killed" => Some(Cause::Killed),
        "death pact" => Some(Cause::DeathPact),
        _ => Some(Cause::Error(number(text.strip_prefix("error ")?)?)),
    }
}

/// A system message, as `create`, `watch 4` or `failed 2 error 1`; `resume failure` is the one of the actor's own failure.
pub(crate) fn system_of(text: &str) -> Option<SysMsg> {
    match text {
        "create" => Some(SysMsg::Create),
        "suspend" => Some(SysMsg::Suspend),
        "resume" => Some(SysMsg::Resume { of_failure: false }),
        "resume failure" => Some(SysMsg::Resume { of_failure: true }),
        "terminate" => Some(SysMsg::Terminate),
        _ => system_about(text),
    }
}

/// A system message about a cause or an actor.
fn system_about(text: &str) -> Option<SysMsg> {
    let (name, about) = first_word(text);
    match name {
        "recreate" => Some(SysMsg::Recreate(cause_of(about)?)),
        "watch" => Some(SysMsg::Watch(actor(about)?)),
        "unwatch" => Some(SysMsg::Unwatch(actor(about)?)),
        "died" => Some(SysMsg::Died(actor(about)?)),
        "failed" => {
            let (child, cause) = first_word(about);
            Some(SysMsg::Failed(actor(child)?, cause_of(cause)?))
        }
        _ => None,
    }
}

/// What an envelope carries, as `user add`, `control fail 6`, `poison pill`, `kill` or `terminated 2`.
pub(crate) fn body_of(text: &str) -> Option<Body> {
    let (name, rest) = first_word(text);
    match name {
        "user" => {
            let (kind, value) = asked_of(rest)?;
            Some(Body::User { kind, value })
        }
        "control" => {
            let (kind, value) = asked_of(rest)?;
            Some(Body::Control { kind, value })
        }
        "terminated" => Some(Body::Terminated(actor(rest)?)),
        "poison" => (rest == "pill").then_some(Body::PoisonPill),
        "kill" => rest.is_empty().then_some(Body::Kill),
        _ => None,
    }
}

/// What the actor is asked to do, as `add` or `tell 4`.
pub(crate) fn asked_of(text: &str) -> Option<Asked> {
    let (name, rest) = first_word(text);
    let value = if rest.is_empty() { 0 } else { number(rest)? };
    Some((kind_of(name)?, i64::from(value)))
}

fn kind_of(name: &str) -> Option<u32> {
    match name {
        "add" => Some(ADD),
        "fail" => Some(FAIL),
        "tell" => Some(TELL),
        "watch" => Some(WATCH),
        "unwatch" => Some(UNWATCH),
        "stop" => Some(STOP),
        "spawn" => Some(SPAWN),
        "leave" => Some(LEAVE),
        _ => None,
    }
}
