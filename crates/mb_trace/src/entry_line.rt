//! The lines of an entry: what came, from whom, what became of it, how the actor stands after it, and the effects.
ghost use Rattle.std.specs.Prelude.{◌++◌, Some, codes, map, string_bytes};
ghost use Rattle.std.specs.Fmt.{WritesOnOk};
ghost use Rattle.mb_journal.specs.JournalView.{entry_of};
ghost use Rattle.mb_trace.specs.Entries.{arrival_text, entry_text, numbered_text, outcome_text};
ghost use Rattle.mb_trace.specs.Newest.{gone_line_text, lines_text};
ghost use Rattle.mb_trace.specs.Words.{envelope_text, system_text};

use crate::actor_snapshot::{ActorSnapshot, write_change};
use crate::effect_lines::EffectLines;
use crate::entry_kind::effects_of;
use crate::words::{EnvelopeWords, SystemWords};
use mb_actor::Answer;
use mb_journal::{EntryRef, Received};
use std::fmt;

/// An entry, with how its actor stood before it and after it. Its `Display` is its lines.
#[derive(Clone, Copy)]
pub(crate) struct EntryLines<'a> {
    pub(crate) names: &'a [String],
    pub(crate) entry: EntryRef<'a>,
    pub(crate) before: ActorSnapshot,
    pub(crate) after: ActorSnapshot,
}

impl fmt::Display for EntryLines<'_> {
    ghost output = { λ e. Some (entry_text (map string_bytes e.names.now) e.before e.after (entry_of e.entry)) };

    fn fmt<W: fmt::Write>(&self, f: &mut fmt::Formatter<W>) -> fmt::Result {
        f.write_str("  ")?;
        write_arrival(f, self.names, &self.entry)?;
        write_change(f, self.before, self.after)?;
        let effects = EffectLines {
            names: self.names,
            effects: effects_of(&self.entry),
        };
        write!(f, "\n{effects}")
    }
}

/// An entry whose actor's journal does not keep all before it, so that how the actor stands is not known. Its `Display` is its lines.
#[derive(Clone, Copy)]
pub(crate) struct NewestLines<'a> {
    pub(crate) names: &'a [String],
    pub(crate) entry: EntryRef<'a>,
}

impl fmt::Display for NewestLines<'_> {
    ghost output = { λ e. Some (lines_text (map string_bytes e.names.now) (entry_of e.entry)) };

    fn fmt<W: fmt::Write>(&self, f: &mut fmt::Formatter<W>) -> fmt::Result {
        f.write_str("  ")?;
        write_arrival(f, self.names, &self.entry)?;
        let effects = effects_of(&self.entry);
        let names = self.names;
        write!(f, "\n{}", EffectLines { names, effects })
    }
}

/// How many entries of an actor's journal are not kept. Its `Display` is its line.
#[derive(Clone, Copy)]
pub(crate) struct GoneLine {
    pub(crate) first: usize,
}

impl fmt::Display for GoneLine {
    ghost output = { λ l. Some (gone_line_text l.first) };

    fn fmt<W: fmt::Write>(&self, f: &mut fmt::Formatter<W>) -> fmt::Result {
        write!(f, "  entries before, not kept: {}\n", self.first)
    }
}

/// What came, and what became of it.
#[tactic(auto, unfolding(crate::specs::Entries::arrival_text))]
fn write_arrival<W: fmt::Write>(
    f: &mut fmt::Formatter<W>,
    names: &[String],
    entry: &EntryRef<'_>,
) -> fmt::Result
    ensures { WritesOnOk W.write_str_gives f.old result (arrival_text (map string_bytes names.now) (entry_of entry.now)) f.new }
{
    match entry.arrival {
        Received::Handled {
            answer,
            envelope,
            ..
        } => write_handled(f, EnvelopeWords { names, envelope }, answer),
        Received::System {
            answer,
            number,
            message,
        } => write_applied(f, number, SystemWords { names, message }, answer),
        Received::SetAside { number, message } => {
            write_set_aside(f, number, SystemWords { names, message })
        }
        Received::Dropped { envelope } => {
            let words = EnvelopeWords { names, envelope };
            write!(f, "{words}: dropped")
        }
    }
}

/// An envelope that was given to its receiver, and what that answered.
fn write_handled<W: fmt::Write>(
    f: &mut fmt::Formatter<W>,
    words: EnvelopeWords<'_>,
    answer: Option<Answer>,
) -> fmt::Result
    ensures { WritesOnOk W.write_str_gives f.old result
        (envelope_text (map string_bytes words.entry.names.now) words.entry.envelope ++ codes ": " ++ outcome_text answer) f.new }
{
    write!(f, "{words}: {}", Outcome { answer })
}

/// A system message that was applied, and what its receiver answered.
fn write_applied<W: fmt::Write>(
    f: &mut fmt::Formatter<W>,
    number: u64,
    words: SystemWords<'_>,
    answer: Option<Answer>,
) -> fmt::Result
    ensures { WritesOnOk W.write_str_gives f.old result
        (numbered_text (map string_bytes words.entry.names.now) number (system_text (map string_bytes words.entry.names.now) words.entry.message) ++ codes ": " ++ outcome_text answer) f.new }
{
    write!(f, "system #{number} {words}: {}", Outcome { answer })
}

/// A system message that was set aside.
fn write_set_aside<W: fmt::Write>(
    f: &mut fmt::Formatter<W>,
    number: u64,
    words: SystemWords<'_>,
) -> fmt::Result
    ensures { WritesOnOk W.write_str_gives f.old result
        (numbered_text (map string_bytes words.entry.names.now) number (system_text (map string_bytes words.entry.names.now) words.entry.message) ++ codes ": set aside") f.new }
{
    write!(f, "system #{number} {words}: set aside")
}

/// What an actor answered, as it is printed: `handled` also where it was not called.
#[derive(Clone, Copy)]
struct Outcome {
    answer: Option<Answer>,
}

impl fmt::Display for Outcome {
    ghost output = { λ o. Some (outcome_text o.answer) };

    fn fmt<W: fmt::Write>(&self, f: &mut fmt::Formatter<W>) -> fmt::Result {
        match self.answer {
            None | Some(Answer::Handled) => f.write_str("handled"),
            Some(Answer::Unhandled) => f.write_str("unhandled"),
            Some(Answer::Failed(number)) => write!(f, "failed {number}"),
        }
    }
}
