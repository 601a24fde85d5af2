//! In which order entries are drawn, and the line of a picture that says so.
use crate::template::write_value;
use std::io;
use std::io::Write;

/// In which order entries are drawn, from top to bottom.
#[derive(Clone, Copy, Debug, PartialEq, Eq)]
pub enum EntryOrder {
    /// That of a quiet run: turn by turn.
    Turns,
    /// Of a run on threads, one that agrees with what caused what.
    Causes,
    /// Of a run on threads where there is no such order: actor by actor.
    Unordered,
    /// Of a run on threads where no such order was found, though there may be one: actor by actor.
    Actors,
    /// Of a quiet run whose turns do not have each entry once: actor by actor.
    Uncovered,
}

impl EntryOrder {
    /// What is said of it. Nothing is said of a quiet run, whose order is the only one.
    pub(crate) fn words(self) -> Option<&'static str> {
        match self {
            EntryOrder::Turns => None,
            EntryOrder::Causes => Some(
                "on threads: one order that agrees with what caused what, not that of the clock",
            ),
            EntryOrder::Unordered => Some(
                "on threads: there is no order that agrees with what caused what; each actor by itself",
            ),
            EntryOrder::Actors => Some(
                "on threads: no order found that agrees with what caused what; each actor by itself",
            ),
            EntryOrder::Uncovered => Some(
                "quiet run: its turns do not have each entry exactly once; each actor by itself",
            ),
        }
    }
}

/// The line that says it, at this height: nothing where nothing is said.
pub(crate) fn write_order<W: Write>(w: &mut W, order: EntryOrder, foot: u64) -> io::Result<()> {
    match order.words() {
        Some(words) => write_value(
            w,
            "<text class=\"note\" x=\"12\" y=\"$\">",
            &[foot],
            &words,
            "</text>\n",
        ),
        None => Ok(()),
    }
}
