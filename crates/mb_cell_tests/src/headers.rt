//! Parsing the heads of tables: which actor a table is about, and what it does.

ghost use Rattle.std.specs.Prelude.{◌≡◌, ◌<◌, ◌≤◌, length, IfOk};
ghost use Rattle.std.specs.List.{All};
ghost use Rattle.mb_msg.specs.Limits.{most_actors};

use crate::cell_driver::CellDriver;
use crate::scripted_actor::{ADD, Asked, Counting, ScriptedActor};
use crate::words::{actor, asked_of, cause_of, first_word, number};
use mb_msg::limits::ACTORS;
use mb_msg::{ActorId, Cause, Directive, JournalMode, Pattern, Strategy};
use std::alloc::{AllocError, Global};
use std::process::Abort;

/// The actor of a head, or the guardian. A head is `actor 2 of 1` or `guardian`, and then, each behind a `; `, any of
/// these: `children 2 to 3`, which it may start; `start`, `restart` and `stop` with at most two things that it does
/// then, as `start spawn 2, tell 4`; `ends`, likewise, where it is told of the end of another; its strategy: `rules` as
/// `restart error, stop error 1`, `retries 2`, `all for one`; and `limit 10`, how many entries its journal may have.
pub(crate) fn cast<R: Abort>(
    rt: &R,
    alloc: Global,
    head: &str,
    mode: JournalMode,
) -> Result<CellDriver<ScriptedActor, Counting>, AllocError> {
    let limit = number(part(head, "limit ")).unwrap_or(1000);
    let place = place_of(rt, head);
    let strategy = strategy_of(rt, alloc, head)?;
    let prepared = children_of(alloc, part(head, "children "))?;
    let Some((this, parent)) = place else {
        return CellDriver::of_guardian(alloc, prepared, strategy, mode, limit);
    };
    let player = scripted_actor_of(rt, head);
    CellDriver::of(alloc, this, parent, player, prepared, strategy, mode, limit)
}

/// The part of a head that begins with this name; empty where there is none.
fn part<'a>(head: &'a str, name: &str) -> &'a str {
    for part in head.split("; ") {
        if let Some(rest) = part.strip_prefix(name) {
            return rest;
        }
    }
    ""
}

/// The numbers of the actor and its parent; `None` for the guardian.
fn place_of<R: Abort>(rt: &R, head: &str) -> Option<(u16, u16)> {
    if head.starts_with("guardian") {
        return None;
    }
    let (this, parent) = part(head, "actor ")
        .split_once(" of ")
        .expect(rt, "a parent");
    Some((
        actor(this).expect(rt, "an actor").0,
        actor(parent).expect(rt, "a parent").0,
    ))
}

/// The children that the actor may start, as `2` or `2 to 3`.
fn children_of(alloc: Global, text: &str) -> Result<Vec<ActorId>, AllocError>
    ensures within_limit { IfOk result (λ v. length v.items ≤ most_actors) }
    ensures numbered { IfOk result (λ v. All (λ x. x.0 < most_actors) v.items) }
{
    let (first, last) = text.split_once(" to ").unwrap_or((text, text));
    let first = number(first).unwrap_or(ACTORS);
    let last = number(last).unwrap_or(0);
    let mut children = Vec::new(alloc);
    for id in 0..ACTORS {
        if first <= id && id <= last {
            children.push(ActorId(id as u16))?;
        }
    }
    Ok(children)
}

fn scripted_actor_of<R: Abort>(rt: &R, head: &str) -> ScriptedActor
    ensures { result.count ≡ 0 }
{
    ScriptedActor {
        start: both_of(rt, part(head, "start ")),
        restart: both_of(rt, part(head, "restart ")),
        stop: both_of(rt, part(head, "stop ")),
        ends: both_of(rt, part(head, "ends ")),
        count: 0,
    }
}

/// At most two things that the actor does.
fn both_of<R: Abort>(rt: &R, text: &str) -> [Asked; 2] {
    if text.is_empty() {
        return [(ADD, 0), (ADD, 0)];
    }
    let (first, second) = text.split_once(", ").unwrap_or((text, "add"));
    [
        asked_of(first).expect(rt, "what it does"),
        asked_of(second).expect(rt, "what it does"),
    ]
}

fn strategy_of<R: Abort>(rt: &R, alloc: Global, head: &str) -> Result<Strategy, AllocError> {
    let mut rows = Vec::new(alloc);
    for rule in part(head, "rules ").split(", ") {
        if !rule.is_empty() {
            rows.push(row_of(rule).expect(rt, "a rule"))?;
        }
    }
    let retries = match number(part(head, "retries ")) {
        Some(most) => i64::from(most),
        None => -1,
    };
    let all_for_one = !part(head, "all ").is_empty();
    Ok(Strategy {
        rows,
        retries,
        all_for_one,
    })
}

/// A row of a strategy, as `restart error 1`.
fn row_of(text: &str) -> Option<(Pattern, Directive)> {
    let (name, pattern) = first_word(text);
    let directive = match name {
        "resume" => Directive::Resume,
        "restart" => Directive::Restart,
        "stop" => Directive::Stop,
        "escalate" => Directive::Escalate,
        _ => return None,
    };
    Some((pattern_of(pattern)?, directive))
}

/// The pattern of a row: `any`, `error`, or a cause.
fn pattern_of(text: &str) -> Option<Pattern> {
    match text {
        "any" => Some(Pattern::Any),
        "error" => Some(Pattern::AnyError),
        _ => Some(match cause_of(text)? {
            Cause::Error(number) => Pattern::Error(number),
            Cause::Init => Pattern::Init,
            Cause::Killed => Pattern::Killed,
            Cause::DeathPact => Pattern::DeathPact,
        }),
    }
}
