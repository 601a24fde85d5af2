//! How an actor stands after each entry of its journal.
ghost use Rattle.std.specs.Prelude.{◌≡◌, ◌∷◌, ◌+◌, ◌<◌, ◌≤◌, ◌^◌, ◌++◌, ◌&&◌, ◌||◌, [], List, OnOk, if◌then◌else◌, length, not, vec_capacity, vec_len};
ghost use Rattle.mb_actor.specs.declared.message.Message.{Message};
ghost use Rattle.mb_actor.specs.declared.phase.Phase.TheVariants.{Broken, Ended, Ending, Fresh, Live};
ghost use Rattle.mb_actor.specs.OutboxView.{spawns_of};
ghost use Rattle.mb_journal.specs.Effects.{lasting_effects};
ghost use Rattle.mb_journal.specs.Entry.{Entry, answered_failed};
ghost use Rattle.mb_journal.specs.Failure.{fails_by_envelope, failure_source, is_nobody};
ghost use Rattle.mb_journal.specs.Identity.{Identity};
ghost use Rattle.mb_journal.specs.JournalView.{entry_of};
ghost use Rattle.mb_journal.specs.Life.{after_death, ends_last_child, is_empty};
ghost use Rattle.mb_journal.specs.Incarnation.{entry_messages};
ghost use Rattle.mb_journal.specs.Phase.{phase_is};
ghost use Rattle.mb_trace.specs.Kinds.{applies_create, applies_recreate, applies_resume, applies_resume_of_failure, applies_suspend, applies_terminate};
ghost use Rattle.mb_journal.specs.declared.failed_by.FailedBy.TheVariants.{Itself, Nobody};
ghost use Rattle.mb_trace.specs.Lives.{AreRulesOf, Follows, passes_up_by, script_read};
ghost use Rattle.mb_trace.specs.Steps.{state_after};

use crate::actor_list::leave;
use crate::actor_snapshot::{ActorSnapshot, is_same};
use crate::entry_kind::{
    applies_create, applies_recreate, applies_resume, applies_resume_of_failure, applies_suspend,
    applies_terminate, ends_last_child, fails_by_envelope, failure_source, lasting_effects_of,
    passes_failure_up,
};
use crate::filter::has_failed;
use crate::rules::Rules;
use crate::state::{initial_of, state_after_entry};
use crate::suspensions::{Marks, count_after};
use mb_actor::{Effect, Phase};
use mb_journal::{EntryRef, FailedBy, Received};
use mb_msg::{ActorId, SysMsg};
use mb_script::Script;
use std::alloc::{AllocError, Global};

/// How an actor stands after the first entries of its journal, and what decides how it will.
#[derive(Drop)]
pub(crate) struct Life {
    phase: Phase,
    has_started: bool,
    /// Whether it was told to end.
    has_ending: bool,
    failed: FailedBy,
    /// In order of spawning.
    children: Vec<ActorId>,
    /// How often the mailbox is suspended, as if it were never closed.
    suspended: u128,
    state: Option<i64>,
}

/// What an entry is to its actor.
#[derive(Clone, Copy)]
struct Kind {
    /// It starts the actor.
    starts: bool,
    /// It restarts the actor.
    restarts: bool,
    /// It tells the actor to end, for the first time.
    ends: bool,
    /// It is the actor's last.
    is_last: bool,
    /// The call failed.
    has_failed: bool,
    /// The actor fails by it.
    fails: bool,
}

impl Life {
    /// The life of an actor to which nothing came: suspended once, until it is started.
    pub(crate) fn new(alloc: Global, rules: &Rules<'_, '_>) -> Self
        ensures follows { (who : Identity) → Follows who (script_read rules.now.script) [] result }
        ensures few { result.suspended ≤ 1 }
    {
        Life {
            phase: Phase::Fresh,
            has_started: false,
            has_ending: false,
            failed: FailedBy::Nobody,
            children: Vec::new(alloc),
            suspended: 1,
            state: initial_of(rules.script),
        }
    }

    /// How the actor stands. A closed mailbox is not suspended.
    pub(crate) fn snapshot(&self) -> ActorSnapshot
        ensures { result ≡ record {
          phase = self.now.phase;
          suspended = (if phase_is self.now.phase Ended then 0 else self.now.suspended);
          state = self.now.state;
        } }
    {
        let suspended = if is_same(self.phase, Phase::Ended) {
            0
        } else {
            self.suspended
        };
        ActorSnapshot {
            phase: self.phase,
            suspended,
            state: self.state,
        }
    }

    /// Makes room for the children that an entry adds. The only error: memory was refused.
    pub(crate) fn make_room(
        &mut self,
        rules: &Rules<'_, '_>,
        entry: &EntryRef<'_>,
    ) -> Result<(), AllocError>
        ensures kept { self.new ≡ record self.old { children = self.new.children } }
        ensures children { self.new.children.items ≡ self.old.children.items }
        ensures room { OnOk result (vec_len self.new.children
            + (if rules.now.is_guardian then length rules.now.prepared.now else length entry.now.effects.now)
            ≤ vec_capacity self.new.children) }
    {
        let more = if rules.is_guardian {
            rules.prepared.len()
        } else {
            entry.effects.len()
        };
        self.children.reserve(more)
    }

    /// Applies an entry. There is room for the children that it adds.
    pub(crate) fn apply(&mut self, rules: &Rules<'_, '_>, entry: &EntryRef<'_>)
        requires few { self.old.suspended < 2 ^ 100 }
        requires room { vec_len self.old.children
            + (if rules.now.is_guardian then length rules.now.prepared.now else length entry.now.effects.now)
            ≤ vec_capacity self.old.children }
        ensures follows { (who : Identity) (before : List Entry) → AreRulesOf who rules.now → Follows who (script_read rules.now.script) before self.old
            → Follows who (script_read rules.now.script) (entry_of entry.now ∷ before) self.new }
        ensures few { self.new.suspended ≤ self.old.suspended + 3 }
    {
        let kind = kind_of(self, rules, entry);
        let marks = marks_of(self.phase, kind, entry);
        self.suspended = count_after(self.suspended, marks);
        self.failed = failed_after(self.phase, self.failed, kind, entry);
        self.state = state_with(rules.script, self.state, kind, entry);
        lose(&mut self.children, entry);
        add(&mut self.children, rules, kind.starts, entry);
        self.phase = phase_after(self.phase, kind);
        self.has_started = either(applies_create(entry), self.has_started);
        self.has_ending = either(applies_terminate(entry), self.has_ending);
    }
}

/// What the entry is to an actor with this life.
fn kind_of(life: &Life, rules: &Rules<'_, '_>, entry: &EntryRef<'_>) -> Kind
    ensures starts { result.starts ≡ (applies_create (entry_of entry.now) && not life.now.has_started) }
    ensures restarts { result.restarts ≡ (applies_recreate (entry_of entry.now) || (applies_resume (entry_of entry.now) && phase_is life.now.phase Broken))
        && not (phase_is life.now.phase Fresh) && not rules.now.is_guardian }
    ensures ends { result.ends ≡ applies_terminate (entry_of entry.now) && not life.now.has_ending }
    ensures is_last { result.is_last ≡ (result.ends && is_empty life.now.children.items)
        || (phase_is life.now.phase Ending && ends_last_child (entry_of entry.now) life.now.children.items) }
    ensures has_failed { result.has_failed ≡ answered_failed (entry_of entry.now) }
    ensures fails { result.fails ≡ ((result.starts || result.restarts) && result.has_failed)
        || (is_nobody life.now.failed
        && (fails_by_envelope (entry_of entry.now) || passes_up_by rules.now.strategy life.now.children.items (entry_of entry.now))) }
{
    let starts = is_first(applies_create(entry), life.has_started);
    let restarts = is_restart(life.phase, rules.is_guardian, entry);
    let ends = is_first(applies_terminate(entry), life.has_ending);
    let has_failed = has_failed(entry);
    let is_last = is_last(life.phase, ends, &life.children, entry);
    let fails_now = fails_by(rules, &life.children, entry);
    let fails = (starts || restarts) && has_failed || is_nobody(life.failed) && fails_now;
    Kind {
        starts,
        restarts,
        ends,
        is_last,
        has_failed,
        fails,
    }
}

/// Whether this is so for the first time.
fn is_first(is_so: bool, was_so: bool) -> bool
    ensures { result ≡ is_so && not was_so }
{
    is_so && !was_so
}

/// Whether the entry restarts an actor that is in this phase: a Recreate does, and a Resume after a start or a restart that failed. The
/// guardian is never restarted.
fn is_restart(phase: Phase, is_guardian: bool, entry: &EntryRef<'_>) -> bool
    ensures { result ≡ (applies_recreate (entry_of entry.now) || (applies_resume (entry_of entry.now) && phase_is phase Broken))
        && not (phase_is phase Fresh) && not is_guardian }
{
    let is_asked = applies_recreate(entry)
        || applies_resume(entry) && is_same(phase, Phase::Broken);
    is_asked && !is_same(phase, Phase::Fresh) && !is_guardian
}

/// Whether the entry is the last of an actor in this phase that has these children; `ends` says that the entry tells it to end.
fn is_last(phase: Phase, ends: bool, children: &[ActorId], entry: &EntryRef<'_>) -> bool
    ensures { result ≡ (ends && is_empty children.now) || (phase_is phase Ending && ends_last_child (entry_of entry.now) children.now) }
{
    ends && children.is_empty() || is_same(phase, Phase::Ending) && ends_last_child(entry, children)
}

/// Whether the entry is a failure of an actor that is not failed, beside a start or a restart.
fn fails_by(rules: &Rules<'_, '_>, children: &[ActorId], entry: &EntryRef<'_>) -> bool
    ensures { result ≡ fails_by_envelope (entry_of entry.now) || passes_up_by rules.now.strategy children.now (entry_of entry.now) }
{
    fails_by_envelope(entry) || passes_failure_up(rules.strategy, children, entry)
}

fn is_nobody(failed: FailedBy) -> bool
    ensures { result ≡ is_nobody failed }
{
    match failed {
        FailedBy::Nobody => true,
        FailedBy::Itself | FailedBy::Child(_) => false,
    }
}

fn either(left: bool, right: bool) -> bool
    ensures { result ≡ left || right }
{
    left || right
}

/// What the entry does to the suspensions of an actor in this phase.
fn marks_of(phase: Phase, kind: Kind, entry: &EntryRef<'_>) -> Marks
    ensures starts { result.starts ≡ kind.starts }
    ensures suspends { result.suspends ≡ applies_suspend (entry_of entry.now) && not (phase_is phase Fresh) }
    ensures resumes { result.resumes ≡ (applies_resume (entry_of entry.now) && not (phase_is phase Fresh)) || kind.restarts }
    ensures fails { result.fails ≡ kind.fails }
    ensures waits { result.waits ≡ kind.ends && not kind.is_last }
{
    let is_started = !is_same(phase, Phase::Fresh);
    Marks {
        starts: kind.starts,
        suspends: applies_suspend(entry) && is_started,
        resumes: applies_resume(entry) && is_started || kind.restarts,
        fails: kind.fails,
        waits: kind.ends && !kind.is_last,
    }
}

/// By whom an actor is failed after an entry that it came to in this phase.
fn failed_after(phase: Phase, failed: FailedBy, kind: Kind, entry: &EntryRef<'_>) -> FailedBy
    ensures { result ≡ (if kind.fails then failure_source (entry_of entry.now)
        else (if kind.restarts then Nobody
        else (if applies_resume_of_failure (entry_of entry.now) && phase_is phase Live then Nobody
        else (if kind.ends && not kind.is_last then Itself
        else failed)))) }
{
    if kind.fails {
        failure_source(entry)
    } else if kind.restarts {
        FailedBy::Nobody
    } else if applies_resume_of_failure(entry) && is_same(phase, Phase::Live) {
        FailedBy::Nobody
    } else if kind.ends && !kind.is_last {
        FailedBy::Itself
    } else {
        failed
    }
}

/// The phase after an entry.
fn phase_after(phase: Phase, kind: Kind) -> Phase
    ensures { result ≡ (if phase_is phase Ended || kind.is_last then Ended
        else (if phase_is phase Ending || kind.ends then Ending
        else (if kind.starts || kind.restarts then (if kind.has_failed then Broken else Live)
        else phase))) }
{
    if is_same(phase, Phase::Ended) || kind.is_last {
        Phase::Ended
    } else if is_same(phase, Phase::Ending) || kind.ends {
        Phase::Ending
    } else if kind.starts || kind.restarts {
        if kind.has_failed {
            Phase::Broken
        } else {
            Phase::Live
        }
    } else {
        phase
    }
}

/// The state after an entry: that of the beginning after a start or a restart.
fn state_with(
    script: Option<&Script>,
    state: Option<i64>,
    kind: Kind,
    entry: &EntryRef<'_>,
) -> Option<i64>
    ensures { (sent : List Message) → state ≡ state_after (script_read script.entry) sent
        → result ≡ state_after (script_read script.entry) (if kind.starts || kind.restarts then [] else sent ++ entry_messages (entry_of entry.now)) }
{
    if kind.starts || kind.restarts {
        initial_of(script)
    } else {
        state_after_entry(script, state, entry)
    }
}

/// Takes out the child whose end the entry tells.
fn lose(children: &mut Vec<ActorId>, entry: &EntryRef<'_>)
    ensures items { children.new.items ≡ after_death (entry_of entry.now) children.old.items }
    ensures no_more { vec_len children.new ≤ vec_len children.old }
    ensures capacity { vec_capacity children.old ≤ vec_capacity children.new }
{
    match entry.arrival {
        Received::System { message, .. } => match message {
            SysMsg::Died(id) => leave(children, id),
            _ => {}
        },
        _ => {}
    }
}

/// Adds the children that an entry spawns; `starts` says that it starts the actor. There is room for them.
fn add(children: &mut Vec<ActorId>, rules: &Rules<'_, '_>, starts: bool, entry: &EntryRef<'_>)
    requires room { vec_len children.old
        + (if rules.now.is_guardian then length rules.now.prepared.now else length entry.now.effects.now) ≤ vec_capacity children.old }
    ensures { children.new.items ≡ children.old.items
        ++ (if rules.now.is_guardian then (if starts then rules.now.prepared.now else []) else spawns_of (lasting_effects (entry_of entry.now))) }
{
    if !rules.is_guardian {
        add_spawned(children, lasting_effects_of(entry));
        return;
    }
    if starts {
        add_all(children, rules.prepared);
    }
}

/// Adds the children that these effects spawn. There is room for as many as there are effects.
fn add_spawned(children: &mut Vec<ActorId>, effects: &[Effect])
    requires room { vec_len children.old + length effects.now ≤ vec_capacity children.old }
    ensures { children.new.items ≡ children.old.items ++ spawns_of effects.now }
{
    for effect in effects {
        add_one(children, *effect);
    }
}

/// Adds the child that this effect spawns, if it does. There is room for one.
fn add_one(children: &mut Vec<ActorId>, effect: Effect)
    requires room { vec_len children.old < vec_capacity children.old }
    ensures items { children.new.items ≡ children.old.items ++ spawns_of (effect ∷ []) }
    ensures one_more { vec_len children.new ≤ vec_len children.old + 1 }
    ensures capacity { vec_capacity children.new ≡ vec_capacity children.old }
{
    match effect {
        Effect::Spawn(id) => children.push_reserved(id),
        Effect::Tell { .. }
        | Effect::Control { .. }
        | Effect::Watch(_)
        | Effect::Unwatch(_)
        | Effect::Stop(_) => {}
    }
}

/// Adds these. There is room for them.
fn add_all(children: &mut Vec<ActorId>, more: &[ActorId])
    requires room { vec_len children.old + length more.now ≤ vec_capacity children.old }
    ensures { children.new.items ≡ children.old.items ++ more.now }
{
    for id in more {
        children.push_reserved(*id);
    }
}
