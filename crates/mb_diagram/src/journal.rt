//! The journal of an actor, as a table in HTML.
use crate::picture::{Picture, PictureEntry};
use crate::rows::class_of;
use crate::template::{write_numbers, write_value};
use crate::words::{EffectWords, EntryLine, Message, Name, Outcome, phase_word};
use mb_actor::Effect;
use mb_journal::Received;
use mb_report::ActorReport;
use mb_trace::ActorSnapshot;
use std::io::Write;
use std::{fmt, io};

/// What stands above the entries.
const TABLE: &str = "</summary>
<table><tr><th>entry</th><th>message</th><th>from</th><th>outcome</th><th>phase</th><th>suspended</th><th>state</th>\
<th>asked for</th></tr>
";

/// The shown entries of the actor of this number. These are the causes of all entries, by their places in the order.
pub(crate) fn write_journal<W: Write>(
    w: &mut W,
    picture: &Picture<'_>,
    causes: &[Option<usize>],
    id: u32,
    actor: &ActorReport,
) -> io::Result<()> {
    let names = picture.names;
    write_summary(w, Name { names, id }, actor)?;
    for (place, entry) in picture.entries.iter().enumerate() {
        if entry.is_shown && u32::from(entry.actor.0) == id {
            let cause = causes.get(place).copied().unwrap_or(None);
            write_entry(w, names, entry, line_of(picture, cause))?;
        }
    }
    w.write_all(b"</table></details>\n")
}

/// The line of the entry at this place, if it is shown.
fn line_of(picture: &Picture<'_>, place: Option<usize>) -> Option<EntryLine> {
    let entry = picture.entries.get(place?)?;
    if entry.is_shown {
        Some(EntryLine::of(entry))
    } else {
        None
    }
}

fn write_summary<W: Write>(w: &mut W, name: Name<'_>, actor: &ActorReport) -> io::Result<()> {
    let start = "<details class=\"journal\" name=\"journal\" data-actor=\"";
    write_value(w, start, &[], &name, "\"><summary>")?;
    write_value(w, "", &[], &name, ": ")?;
    let phase = phase_word(actor.phase);
    match actor.state {
        Some(state) => {
            write_value(w, "", &[], &phase, ", state ")?;
            write_value(w, "", &[], &state, TABLE)
        }
        None => write_value(w, "", &[], &phase, TABLE),
    }
}

fn write_entry<W: Write>(
    w: &mut W,
    names: &[String],
    shown: &PictureEntry<'_>,
    cause: Option<EntryLine>,
) -> io::Result<()> {
    let came = shown.entry.arrival;
    write_value(w, "<tr class=\"entry ", &[], &class_of(came), "\" id=\"")?;
    write_value(w, "", &[], &EntryLine::of(shown), "\" tabindex=\"-1\">")?;
    let message = Message { names, came };
    write_value(
        w,
        "<td>$</td><td>",
        &[shown.index as u64],
        &message,
        "</td><td>",
    )?;
    write_sender(w, SenderWords { names, came }, cause)?;
    write_value(w, "", &[], &Outcome::of(came), "</td>")?;
    write_snapshot(w, shown.after)?;
    write_effects(w, names, shown.entry.effects)
}

/// Who sent it, with a link to the line of its cause.
fn write_sender<W: Write>(
    w: &mut W,
    words: SenderWords<'_>,
    cause: Option<EntryLine>,
) -> io::Result<()> {
    match cause {
        Some(line) => {
            write_value(w, "<a class=\"cause\" href=\"#", &[], &line, "\">")?;
            write_value(w, "", &[], &words, "</a></td><td>")
        }
        None => write_value(w, "", &[], &words, "</td><td>"),
    }
}

/// How the actor stands after it.
fn write_snapshot<W: Write>(w: &mut W, after: ActorSnapshot) -> io::Result<()> {
    let phase = phase_word(after.phase);
    write_value(w, "<td>", &[], &phase, "</td><td>")?;
    write_value(w, "", &[], &after.suspended, "</td><td>")?;
    match after.state {
        Some(state) => write_value(w, "", &[], &state, "</td><td>"),
        None => w.write_all(b"-</td><td>"),
    }
}

/// What it asked for: the end of an entry.
fn write_effects<W: Write>(w: &mut W, names: &[String], effects: &[Effect]) -> io::Result<()> {
    let mut before = "";
    for effect in effects {
        let effect = *effect;
        write_value(w, before, &[], &EffectWords { names, effect }, "")?;
        before = "<br>";
    }
    w.write_all(b"</td></tr>\n")
}

/// Who sent an envelope, and its number; the number of a system message.
#[derive(Clone, Copy)]
struct SenderWords<'a> {
    names: &'a [String],
    came: Received,
}

impl fmt::Display for SenderWords<'_> {
    fn fmt<W: fmt::Write>(&self, f: &mut fmt::Formatter<W>) -> fmt::Result {
        match self.came {
            Received::Handled { envelope, .. } | Received::Dropped { envelope } => {
                let by = Name {
                    names: self.names,
                    id: envelope.by.0,
                };
                write!(f, "{by}, number {}", envelope.number)
            }
            Received::System { number, .. } | Received::SetAside { number, .. } => {
                write!(f, "system message {number}")
            }
        }
    }
}
