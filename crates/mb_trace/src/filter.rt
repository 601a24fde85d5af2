//! Which entries a trace shows.
ghost use Rattle.std.specs.Prelude.{◌≡◌};
ghost use Rattle.mb_journal.specs.Entry.{answered_failed, is_failed};
ghost use Rattle.mb_journal.specs.JournalView.{entry_of};
ghost use Rattle.mb_trace.specs.Filter.{brings_failure, is_about_failure, is_of_envelope, is_of_kind, shows, shows_actor};

use crate::step::TraceStep;
use mb_actor::Answer;
use mb_journal::{EntryRef, Received};
use mb_msg::SysMsg;

/// Which kinds of entries are shown.
#[derive(Clone, Copy, Debug, PartialEq, Eq)]
pub enum EntryKinds {
    /// All.
    All,
    /// Those of envelopes.
    User,
    /// Those of system messages.
    System,
    /// Those in which a call failed, and those that tell of a failure or of what was decided of it: `Failed`, `Recreate`, and a `Resume`
    /// of the actor's own failure.
    Failures,
}

/// Which entries are shown.
#[derive(Clone, Copy)]
pub struct Filter<'a> {
    /// The numbers of the actors whose entries are shown; those of all where it is empty.
    pub actors: &'a [u16],
    /// Which kinds.
    pub only: EntryKinds,
    /// How many entries at most; `u64::MAX` for all.
    pub limit: u64,
}

impl Filter<'_> {
    /// Whether the entry passes, whatever the limit is.
    pub fn passes(&self, step: &TraceStep<'_>) -> bool
        ensures { result ≡ shows self.now step.now.actor.0 (entry_of step.now.entry) }
    {
        self.has_actor(step.actor.0) && is_of(self.only, &step.entry)
    }

    /// Whether the entries of the actor of this number are shown.
    pub fn has_actor(&self, actor: u16) -> bool
        ensures { result ≡ shows_actor self.now.actors.now actor }
    {
        self.actors.is_empty() || self.actors.contains(&actor)
    }
}

/// Whether the entry is of this kind.
pub(crate) fn is_of(only: EntryKinds, entry: &EntryRef<'_>) -> bool
    ensures { result ≡ is_of_kind only (entry_of entry.now) }
{
    match only {
        EntryKinds::All => true,
        EntryKinds::User => is_envelope(entry),
        EntryKinds::System => !is_envelope(entry),
        EntryKinds::Failures => has_failed(entry) || tells_of_failure(entry),
    }
}

fn is_envelope(entry: &EntryRef<'_>) -> bool
    ensures { result ≡ is_of_envelope (entry_of entry.now) }
{
    match entry.arrival {
        Received::Handled { .. } | Received::Dropped { .. } => true,
        Received::System { .. } | Received::SetAside { .. } => false,
    }
}

/// Whether the actor's call failed.
pub(crate) fn has_failed(entry: &EntryRef<'_>) -> bool
    ensures { result ≡ answered_failed (entry_of entry.now) }
{
    match entry.arrival {
        Received::Handled { answer, .. } => is_failure(answer),
        Received::System { answer, .. } => is_failure(answer),
        Received::SetAside { .. } | Received::Dropped { .. } => false,
    }
}

fn is_failure(answer: Option<Answer>) -> bool
    ensures { result ≡ is_failed answer }
{
    match answer {
        Some(Answer::Failed(_)) => true,
        _ => false,
    }
}

fn tells_of_failure(entry: &EntryRef<'_>) -> bool
    ensures { result ≡ brings_failure (entry_of entry.now) }
{
    match entry.arrival {
        Received::System { message, .. } => is_of_failure(message),
        Received::SetAside { message, .. } => is_of_failure(message),
        Received::Handled { .. } | Received::Dropped { .. } => false,
    }
}

fn is_of_failure(message: SysMsg) -> bool
    ensures { result ≡ is_about_failure message }
{
    match message {
        SysMsg::Failed(_, _) | SysMsg::Recreate(_) => true,
        SysMsg::Resume { of_failure } => of_failure,
        _ => false,
    }
}
