//! What an entry is: which message it applies, how its call was answered, and which effects of it last.
ghost use Rattle.std.specs.Prelude.{◌≡◌, ◌≤◌, is_some, length};
ghost use Rattle.mb_journal.specs.Effects.{lasting_effects};
ghost use Rattle.mb_journal.specs.Entry.{outcome_effects, outcome_of};
ghost use Rattle.mb_journal.specs.Failure.{fails_by_envelope, failure_of, failure_source};
ghost use Rattle.mb_journal.specs.JournalView.{entry_of};
ghost use Rattle.mb_journal.specs.Life.{ends_last_child};
ghost use Rattle.mb_trace.specs.Kinds.{applies_create, applies_recreate, applies_resume, applies_resume_of_failure, applies_suspend, applies_terminate};
ghost use Rattle.mb_trace.specs.Lives.{passes_up_by};

use crate::actor_list::{has, is_alone};
use crate::rules::passes_up;
use mb_actor::{Answer, Effect};
use mb_journal::{EntryRef, FailedBy, Received};
use mb_msg::{ActorId, Body, Strategy, SysMsg};

/// The effects that the entry records.
pub(crate) fn effects_of<'a>(entry: &EntryRef<'a>) -> &'a [Effect]
    ensures { result.now ≡ outcome_effects (outcome_of (entry_of entry.now)) }
{
    match entry.arrival {
        Received::Handled { .. } | Received::System { .. } => entry.effects,
        Received::SetAside { .. } | Received::Dropped { .. } => &[],
    }
}

/// Those of them that last: all but those of the actor's `stop`.
pub(crate) fn lasting_effects_of<'a>(entry: &EntryRef<'a>) -> &'a [Effect]
    ensures value { result.now ≡ lasting_effects (entry_of entry.now) }
    ensures no_more { length result.now ≤ length entry.now.effects.now }
{
    match entry.arrival {
        Received::Handled { .. } => entry.effects,
        Received::System { message, .. } => match message {
            SysMsg::Terminate | SysMsg::Died(_) => &[],
            SysMsg::Create
            | SysMsg::Recreate(_)
            | SysMsg::Suspend
            | SysMsg::Resume { .. }
            | SysMsg::Watch(_)
            | SysMsg::Unwatch(_)
            | SysMsg::Failed(_, _) => entry.effects,
        },
        Received::SetAside { message, .. } => match message {
            SysMsg::Terminate | SysMsg::Died(_) => &[],
            SysMsg::Create
            | SysMsg::Recreate(_)
            | SysMsg::Suspend
            | SysMsg::Resume { .. }
            | SysMsg::Watch(_)
            | SysMsg::Unwatch(_)
            | SysMsg::Failed(_, _) => &[],
        },
        Received::Dropped { .. } => &[],
    }
}

/// Whether the entry applies a Create.
pub(crate) fn applies_create(entry: &EntryRef<'_>) -> bool
    ensures { result ≡ applies_create (entry_of entry.now) }
{
    match entry.arrival {
        Received::System { message, .. } => match message {
            SysMsg::Create => true,
            _ => false,
        },
        _ => false,
    }
}

/// Whether the entry applies a Terminate.
pub(crate) fn applies_terminate(entry: &EntryRef<'_>) -> bool
    ensures { result ≡ applies_terminate (entry_of entry.now) }
{
    match entry.arrival {
        Received::System { message, .. } => match message {
            SysMsg::Terminate => true,
            _ => false,
        },
        _ => false,
    }
}

/// Whether the entry applies a Recreate.
pub(crate) fn applies_recreate(entry: &EntryRef<'_>) -> bool
    ensures { result ≡ applies_recreate (entry_of entry.now) }
{
    match entry.arrival {
        Received::System { message, .. } => match message {
            SysMsg::Recreate(_) => true,
            _ => false,
        },
        _ => false,
    }
}

/// Whether the entry applies a Suspend.
pub(crate) fn applies_suspend(entry: &EntryRef<'_>) -> bool
    ensures { result ≡ applies_suspend (entry_of entry.now) }
{
    match entry.arrival {
        Received::System { message, .. } => match message {
            SysMsg::Suspend => true,
            _ => false,
        },
        _ => false,
    }
}

/// Whether the entry applies a Resume.
pub(crate) fn applies_resume(entry: &EntryRef<'_>) -> bool
    ensures { result ≡ applies_resume (entry_of entry.now) }
{
    match entry.arrival {
        Received::System { message, .. } => match message {
            SysMsg::Resume { .. } => true,
            _ => false,
        },
        _ => false,
    }
}

/// Whether the entry applies a Resume for the actor's own failure.
pub(crate) fn applies_resume_of_failure(entry: &EntryRef<'_>) -> bool
    ensures { result ≡ applies_resume_of_failure (entry_of entry.now) }
{
    match entry.arrival {
        Received::System { message, .. } => match message {
            SysMsg::Resume { of_failure } => of_failure,
            _ => false,
        },
        _ => false,
    }
}

/// Whether the actor fails by an envelope.
pub(crate) fn fails_by_envelope(entry: &EntryRef<'_>) -> bool
    ensures { result ≡ fails_by_envelope (entry_of entry.now) }
{
    match entry.arrival {
        Received::Handled {
            answer,
            envelope,
            ..
        } => is_failure(envelope.body, answer),
        _ => false,
    }
}

/// Whether an actor fails that was given this body and gave this answer.
fn is_failure(body: Body, answer: Option<Answer>) -> bool
    ensures { result ≡ is_some (failure_of body answer) }
{
    match body {
        Body::Kill => true,
        Body::Terminated(_) => match answer {
            Some(Answer::Unhandled | Answer::Failed(_)) => true,
            Some(Answer::Handled) | None => false,
        },
        Body::User { .. } | Body::Control { .. } | Body::PoisonPill => match answer {
            Some(Answer::Failed(_)) => true,
            Some(Answer::Handled | Answer::Unhandled) | None => false,
        },
    }
}

/// Whether the entry applies the end of the one child that is left.
pub(crate) fn ends_last_child(entry: &EntryRef<'_>, children: &[ActorId]) -> bool
    ensures { result ≡ ends_last_child (entry_of entry.now) children.now }
{
    match entry.arrival {
        Received::System { message, .. } => match message {
            SysMsg::Died(id) => is_alone(children, id),
            _ => false,
        },
        _ => false,
    }
}

/// Whether the actor passes the failure of one of these children up by the entry.
pub(crate) fn passes_failure_up(
    strategy: Option<&Strategy>,
    children: &[ActorId],
    entry: &EntryRef<'_>,
) -> bool
    ensures { result ≡ passes_up_by strategy.entry children.now (entry_of entry.now) }
{
    match entry.arrival {
        Received::System { message, .. } => match message {
            SysMsg::Failed(child, cause) => has(children, child) && passes_up(strategy, cause),
            _ => false,
        },
        _ => false,
    }
}

/// Who makes the actor fail, where it fails by the entry: the child whose failure it passes up, or else the actor itself.
pub(crate) fn failure_source(entry: &EntryRef<'_>) -> FailedBy
    ensures { result ≡ failure_source (entry_of entry.now) }
{
    match entry.arrival {
        Received::System { message, .. } => match message {
            SysMsg::Failed(child, _) => FailedBy::Child(child),
            _ => FailedBy::Itself,
        },
        Received::SetAside { message, .. } => match message {
            SysMsg::Failed(child, _) => FailedBy::Child(child),
            _ => FailedBy::Itself,
        },
        Received::Handled { .. } | Received::Dropped { .. } => FailedBy::Itself,
    }
}
