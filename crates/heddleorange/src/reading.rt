//! Reading a report, one actor at a time.
ghost use Rattle.std.specs.Prelude.{◌≡◌, option_copied};
ghost use Rattle.heddleorange.specs.Reading.{dead_in, handled_in, journal_in, state_in};

use mb_dead_letters::DeadLetters;
use mb_journal::Journal;
use mb_msg::ActorId;
use mb_report::Report;

/// What the report shows of the content of this actor. Nothing of the guardian, or where there is no such actor.
pub fn state(report: &Report, id: ActorId) -> Option<i64>
    ensures { result ≡ state_in report.now id.0 }
{
    match report.actors.get(id.0 as usize) {
        Some(actor) => actor.state,
        None => None,
    }
}

/// How many envelopes this actor handled or dropped, over all its lives, as the report's text counts them. `None` where there is
/// no such actor.
///
/// What is dropped is a `Terminated` of an actor that it no longer watched. In Akka, too, the mailbox gives the actor's cell such
/// a one, as one of its throughput, and `receive` is not called (`DeathWatch.receivedTerminated`); Akka keeps no such count.
pub fn handled(report: &Report, id: ActorId) -> Option<usize>
    ensures { result ≡ handled_in report.now id.0 }
{
    match report.actors.get(id.0 as usize) {
        Some(actor) => Some(actor.journal.envelopes()),
        None => None,
    }
}

/// The envelopes that this actor sent and that were refused when it sent them, in order. `None` where there is no such actor.
/// The senders outside come behind the actors: the first has the number after the last actor's.
///
/// All can be read where the plan says that journals keep their entries (`kept` of a run's `report`), and the newest where journals keep the newest;
/// their numbers, also by receiver and by reason, always.
pub fn dead_letters(report: &Report, id: ActorId) -> Option<&DeadLetters>
    ensures { option_copied result ≡ dead_in report.now id.0 }
{
    match report.senders.get(id.0 as usize) {
        Some(sender) => Some(&sender.dead),
        None => None,
    }
}

/// What came to this actor and what became of that. `None` where there is no such actor. Its entries can be read where the plan says
/// that journals keep them; its counts always.
pub fn journal(report: &Report, id: ActorId) -> Option<&Journal>
    ensures { option_copied result ≡ journal_in report.now id.0 }
{
    match report.actors.get(id.0 as usize) {
        Some(actor) => Some(&actor.journal),
        None => None,
    }
}
