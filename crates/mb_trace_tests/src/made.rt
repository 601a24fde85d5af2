//! A run of four actors beside the guardian, made by hand.
ghost use Rattle.std.specs.Prelude.{◌≡◌, ◌≤◌, IfSome, length};

use mb_actor::{Answer, Effect, Phase};
use mb_dead_letters::{DeadLetters, KeptList};
use mb_diagram::PictureEntry;
use mb_journal::Journal;
use mb_msg::{
    ActorId, Body, Cause, DeadLetter, DeadLetterReason, Envelope, JournalMode, SenderId, SysMsg,
};
use mb_report::{ActorReport, Report, SenderReport};
use mb_trace::ActorSnapshot;
use std::alloc::Global;

/// An envelope of the first sender outside, to this actor.
pub fn envelope(to: u16, number: u64, body: Body) -> Envelope {
    Envelope {
        by: SenderId(64),
        to: ActorId(to),
        number,
        body,
    }
}

fn user(to: u16, number: u64) -> Envelope {
    envelope(to, number, Body::User { kind: 1, value: -5 })
}

/// A journal with a Create alone.
fn started(alloc: Global, effects: &[Effect]) -> Option<Journal>
    requires { length effects.now ≤ 16 }
{
    let mut journal = Journal::new(alloc, JournalMode::Kept, 2_000).ok()?;
    journal.ready().ok()?;
    journal.push_system(0, SysMsg::Create, Some(Answer::Handled), effects);
    Some(journal)
}

fn actor(alloc: Global, phase: Phase, state: Option<i64>, journal: Journal) -> ActorReport {
    ActorReport {
        phase,
        count: 0,
        state,
        journal,
        aside: Vec::new(alloc),
        left: Vec::new(alloc),
        cleaned: KeptList::keeping_all(alloc),
        dead_system: 0,
    }
}

/// The guardian: its Create, and the failure of the actor 3.
fn guardian(alloc: Global) -> Option<ActorReport> {
    let mut journal = started(alloc, &[])?;
    journal.ready().ok()?;
    let failed = SysMsg::Failed(ActorId(3), Cause::Killed);
    journal.push_system(1, failed, None, &[]);
    Some(actor(alloc, Phase::Live, None, journal))
}

/// The actor 1: it spawns 2, tells it something, and is then told a thousand times the same.
fn first(alloc: Global) -> Option<ActorReport> {
    let mut journal = started(alloc, &[Effect::Spawn(ActorId(2))])?;
    for number in 0..1_000 {
        journal.ready().ok()?;
        journal.push_handled(user(1, number), 0, Some(Answer::Handled), &[]);
    }
    journal.ready().ok()?;
    journal.push_handled(user(1, 1_000), 0, Some(Answer::Unhandled), &[]);
    Some(actor(alloc, Phase::Live, Some(7), journal))
}

/// The actor 2: spawned by 1, failed, restarted; one message is set aside, one dropped, one left.
fn second(alloc: Global) -> Option<ActorReport> {
    let mut journal = started(alloc, &[])?;
    journal.ready().ok()?;
    journal.push_handled(user(2, 1_001), 0, Some(Answer::Failed(1)), &[]);
    journal.ready().ok()?;
    journal.push_set_aside(1, SysMsg::Watch(ActorId(1)));
    journal.ready().ok()?;
    let cause = SysMsg::Recreate(Cause::Error(1));
    journal.push_system(2, cause, Some(Answer::Handled), &[]);
    journal.ready().ok()?;
    journal.push_dropped(envelope(2, 1_002, Body::Terminated(ActorId(3))));
    let mut actor = actor(alloc, Phase::Live, Some(-1), journal);
    actor.left.push(user(2, 1_003)).ok()?;
    actor.aside.push((1, SysMsg::Watch(ActorId(1)))).ok()?;
    Some(actor)
}

/// The actor 3: killed, and ended by the guardian; an envelope was cleaned up.
fn third(alloc: Global) -> Option<ActorReport> {
    let mut journal = started(alloc, &[])?;
    journal.ready().ok()?;
    journal.push_handled(envelope(3, 1_004, Body::Kill), 0, None, &[]);
    journal.ready().ok()?;
    journal.push_system(1, SysMsg::Terminate, None, &[]);
    let mut actor = actor(alloc, Phase::Ended, Some(0), journal);
    actor.cleaned.reserve(1).ok()?;
    actor.cleaned.push(user(3, 1_005));
    Some(actor)
}

/// The names: the last would end an element and an attribute.
pub fn names(alloc: Global) -> Option<Vec<String>> {
    let first = String::from_str(alloc, "a").ok()?;
    let second = String::from_str(alloc, "b").ok()?;
    let third = String::from_str(alloc, "<\"c\" & 'd'>").ok()?;
    vec![in alloc; first, second, third].ok()
}

/// Two dead letters that differ in their numbers alone, and one that was cleaned up.
pub fn letters(alloc: Global) -> Option<Vec<DeadLetter>> {
    let first = DeadLetter {
        envelope: user(3, 1_006),
        why: DeadLetterReason::Closed,
    };
    let second = DeadLetter {
        envelope: user(3, 1_007),
        why: DeadLetterReason::Closed,
    };
    let third = DeadLetter {
        envelope: user(3, 1_005),
        why: DeadLetterReason::Cleaned,
    };
    vec![in alloc; first, second, third].ok()
}

/// The report of the run.
pub fn report(alloc: Global) -> Option<Report> {
    let guardian = guardian(alloc)?;
    let first = first(alloc)?;
    let second = second(alloc)?;
    let third = third(alloc)?;
    let actors = vec![in alloc; guardian, first, second, third].ok()?;
    let senders = senders(alloc)?;
    if actors.len() > 64 || senders.len() > 80 {
        return None;
    }
    Some(Report { actors, senders })
}

fn senders(alloc: Global) -> Option<Vec<SenderReport>> {
    let dead = DeadLetters::keeping_all(alloc);
    vec![in alloc; SenderReport { sent: 1_008, dead }].ok()
}

/// How an actor stands that is live, with this state.
pub fn live(state: Option<i64>) -> ActorSnapshot {
    ActorSnapshot {
        phase: Phase::Live,
        suspended: 0,
        state,
    }
}

/// All entries, actor by actor. Each actor starts at its first entry, and has its number as its state.
pub fn entries(alloc: Global, report: &Report) -> Option<Vec<PictureEntry<'_>>> {
    let mut entries = Vec::new(alloc);
    for (id, actor) in report.actors.iter().enumerate() {
        if !actor.journal.is_kept() {
            return None;
        }
        let after = live(if id == 0 { None } else { Some(id as i64) });
        let mut before = ActorSnapshot {
            phase: Phase::Fresh,
            suspended: 1,
            state: None,
        };
        for index in 0..actor.journal.len() {
            let entry = actor.journal.get(index);
            let actor = ActorId(id as u16);
            entries
                .push(PictureEntry {
                    actor,
                    index,
                    entry,
                    before,
                    after,
                    is_shown: true,
                })
                .ok()?;
            before = after;
        }
    }
    Some(entries)
}
