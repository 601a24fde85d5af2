//! Tests of the text of a report of three actors, also where memory is refused.
ghost use Rattle.std.specs.Prelude.{◌≡◌, ◌+◌, IfSome, length};

use mb_actor::{Answer, Phase};
use mb_dead_letters::{DeadLetters, KeptList};
use mb_journal::Journal;
use mb_msg::{
    ActorId, Body, Cause, DeadLetter, DeadLetterReason, Envelope, JournalMode, SenderId, SysMsg,
};
use mb_report::{ActorReport, Report, SenderReport, report_text};
use std::alloc::{AllocError, Global};
use std::test::Fail;

fn envelope(to: u16, number: u64) -> Envelope {
    Envelope {
        by: SenderId(64),
        number,
        to: ActorId(to),
        body: Body::Kill,
    }
}

/// An actor with nothing but a journal.
fn quiet(alloc: Global, phase: Phase, state: Option<i64>, journal: Journal) -> ActorReport {
    ActorReport {
        phase,
        count: 0,
        state,
        journal,
        aside: Vec::new(alloc),
        left: Vec::new(alloc),
        cleaned: KeptList::keeping_all(alloc),
        dead_system: 0,
    }
}

/// A journal without entries.
fn empty(alloc: Global) -> Option<Journal> {
    Journal::new(alloc, JournalMode::Kept, 9).ok()
}

/// A journal with two envelopes, of which one was dropped, and one restart.
fn journal_of_one_restart(alloc: Global) -> Option<Journal> {
    let mut journal = empty(alloc)?;
    start_and_fail(&mut journal)?;
    restart(&mut journal)?;
    Some(journal)
}

fn start_and_fail(journal: &mut Journal) -> Option<()> {
    journal.ready().ok()?;
    journal.push_system(0, SysMsg::Create, Some(Answer::Handled), &[]);
    journal.ready().ok()?;
    journal.push_handled(envelope(1, 0), 0, Some(Answer::Failed(1)), &[]);
    Some(())
}

/// Restarts the actor, which drops an envelope then.
fn restart(journal: &mut Journal) -> Option<()> {
    journal.ready().ok()?;
    journal.push_system(
        1,
        SysMsg::Recreate(Cause::Killed),
        Some(Answer::Handled),
        &[],
    );
    journal.ready().ok()?;
    journal.push_system(2, SysMsg::Resume { of_failure: false }, None, &[]);
    journal.ready().ok()?;
    journal.push_dropped(envelope(1, 1));
    Some(())
}

/// An actor that has ended, of which an envelope was cleaned up.
fn ended(alloc: Global) -> Option<ActorReport> {
    let journal = journal_of_one_restart(alloc)?;
    let mut actor = quiet(alloc, Phase::Ended, Some(i64::MIN), journal);
    actor.cleaned.reserve(1).ok()?;
    actor.cleaned.push(envelope(1, 2));
    Some(actor)
}

/// A broken actor, to which two envelopes are left.
fn broken(alloc: Global) -> Option<ActorReport> {
    let mut actor = quiet(alloc, Phase::Broken, Some(7), empty(alloc)?);
    actor.count = 3;
    actor.left.push(envelope(2, 5)).ok()?;
    actor.left.push(envelope(2, 6)).ok()?;
    Some(actor)
}

/// The guardian and two actors.
fn actors(alloc: Global) -> Option<Vec<ActorReport>>
    ensures { IfSome result (λ made. length made.items ≡ 3) }
{
    let first = ended(alloc)?;
    let second = broken(alloc)?;
    let guardian = quiet(alloc, Phase::Live, None, empty(alloc)?);
    vec![in alloc; guardian, first, second].ok()
}

fn dead(to: u16, number: u64, why: DeadLetterReason) -> DeadLetter {
    DeadLetter {
        envelope: envelope(to, number),
        why,
    }
}

/// A sender that sent eight envelopes, of which three are dead.
fn senders(alloc: Global) -> Option<Vec<SenderReport>>
    ensures { IfSome result (λ made. length made.items ≡ 1) }
{
    let mut letters = DeadLetters::keeping_all(alloc);
    letters.reserve(3).ok()?;
    letters.push(dead(1, 3, DeadLetterReason::Closed));
    letters.push(dead(2, 4, DeadLetterReason::Full));
    letters.push(dead(1, 7, DeadLetterReason::NoMemory));
    vec![in alloc;
        SenderReport {
            sent: 8,
            dead: letters
        },
    ]
    .ok()
}

fn names(alloc: Global) -> Option<Vec<String>>
    ensures { IfSome result (λ made. length made.items ≡ 2) }
{
    let first = String::from_str(alloc, "a").ok()?;
    let second = String::from_str(alloc, "b_2").ok()?;
    vec![in alloc; first, second].ok()
}

/// A report of the guardian and of two actors, and the names of these.
fn reported(alloc: Global) -> Option<(Report, Vec<String>)>
    ensures { IfSome result (λ made. length made.0.actors.items ≡ length made.1.items + 1) }
{
    let names = names(alloc)?;
    let senders = senders(alloc)?;
    let actors = actors(alloc)?;
    Some((Report { actors, senders }, names))
}

/// The same; retried where memory was refused.
fn reported_at_last(alloc: Global) -> Option<(Report, Vec<String>)>
    ensures { IfSome result (λ made. length made.0.actors.items ≡ length made.1.items + 1) }
{
    match reported(alloc) {
        Some(made) => Some(made),
        None => reported(alloc),
    }
}

const TEXT: &str = "guardian live state - suspended 0 handled 0 left 0 dead 0 restarts 0
a ended state -9223372036854775808 suspended 0 handled 2 left 0 dead 3 restarts 1
b_2 broken state 7 suspended 3 handled 0 left 2 dead 1 restarts 0
sent 8 handled 2 left 2 dead 4
";

/// The text of the report; retried where memory was refused.
fn printed_at_last(alloc: Global) -> Option<String> {
    let (report, names) = reported_at_last(alloc)?;
    match report_text(alloc, &report, &names) {
        Ok(text) => Some(text),
        Err(_) => report_text(alloc, &report, &names).ok(),
    }
}

/// `tools/refuse_each_allocation report` runs this with each allocation refused in turn.
#[test]
fn a_refused_text_can_be_written_again(rt: HostRuntime) -> Result<(), Fail> {
    let text = printed_at_last(rt.alloc()).ok_or(AllocError)?;
    assert!(rt; text.as_str() == TEXT);
    Ok(())
}
