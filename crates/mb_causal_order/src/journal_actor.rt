//! An actor that answers as a journal records.
ghost use Rattle.std.specs.Prelude.{◌≡◌};

use mb_actor::{Actor, Answer, Behaviours, CallPermit, Effect, Message, Outbox};
use mb_journal::{Journal, Received};
use mb_msg::Cause;

/// An actor that gives the answers of a journal again, one after another, and asks for the effects that the journal records with
/// them.
#[derive(Drop)]
pub(crate) struct JournalActor<'a> {
    journal: &'a Journal,
    /// The entries before this place were given.
    next: usize,
}

/// Actors of which nothing is said.
#[derive(Drop)]
pub(crate) struct Unstated {}

impl Behaviours for Unstated {
    ghost use Rattle.std.specs.Prelude.{pos};

    ghost after = { λ _ _. pos 0 };

    ghost gives = { λ _ _ _. Unit {0} };
}

impl<'a> JournalActor<'a> {
    /// The actor of this journal, before its first call.
    pub(crate) fn new(journal: &'a Journal) -> Self {
        JournalActor { journal, next: 0 }
    }

    /// Gives the next answer of the journal, with its effects.
    fn answer(&mut self, out: &mut Outbox) -> Answer
        ensures actors { out.new.actors ≡ out.old.actors }
        ensures unspawned { out.new.unspawned ≡ out.old.unspawned }
    {
        for index in self.next..self.journal.len() {
            let Some(entry) = self.journal.entry(index) else {
                return Answer::Handled;
            };
            if let Some(answer) = answer_of(entry.arrival) {
                self.next = index + 1;
                ask_all(entry.effects, out);
                return answer;
            }
        }
        Answer::Handled
    }
}

impl<'a> Actor for JournalActor<'a> {
    ghost use Rattle.std.specs.Prelude.{pos};

    ghost after = { λ _ _. pos 0 };

    ghost content = { λ _. pos 0 };

    ghost gives = { λ _ _ _. Unit {0} };

    fn start(&mut self, out: &mut Outbox, _: CallPermit) -> Answer {
        self.answer(out)
    }

    fn receive(&mut self, _message: &Message, out: &mut Outbox, _: CallPermit) -> Answer {
        self.answer(out)
    }

    fn restart(&mut self, _cause: Cause, out: &mut Outbox, _: CallPermit) -> Answer {
        self.answer(out)
    }

    /// The effects are those of the last entry: an actor whose `stop` was called has ended.
    fn stop(&mut self, out: &mut Outbox, _: CallPermit) {
        let entries = self.journal.len();
        if entries > 0 {
            if let Some(entry) = self.journal.entry(entries - 1) {
                ask_all(entry.effects, out);
            }
        }
    }

    fn state(&self) -> i64 {
        0
    }
}

/// What an actor answered, if it was called and gave an answer.
fn answer_of(arrival: Received) -> Option<Answer> {
    match arrival {
        Received::Handled { answer, .. } | Received::System { answer, .. } => answer,
        Received::SetAside { .. } | Received::Dropped { .. } => None,
    }
}

/// Asks for these effects, one after another. What the outbox refuses is left out.
fn ask_all(effects: &[Effect], out: &mut Outbox)
    ensures actors { out.new.actors ≡ out.old.actors }
    ensures unspawned { out.new.unspawned ≡ out.old.unspawned }
{
    for effect in effects {
        ask(*effect, out);
    }
}

fn ask(effect: Effect, out: &mut Outbox)
    ensures actors { out.new.actors ≡ out.old.actors }
    ensures unspawned { out.new.unspawned ≡ out.old.unspawned }
{
    let _refused = match effect {
        Effect::Tell { to, kind, value } => out.tell(to, kind, value),
        Effect::Control { to, kind, value } => out.control(to, kind, value),
        Effect::Watch(id) => out.watch(id),
        Effect::Unwatch(id) => out.unwatch(id),
        Effect::Stop(id) => out.stop(id),
        Effect::Spawn(id) => out.spawn(id),
    };
}
