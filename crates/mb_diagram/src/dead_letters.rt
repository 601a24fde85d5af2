//! A row of dead letters: an arrow that stops short of the receiver.
use crate::arrow::{BAD, BAD_END, LABEL, Way, write_cross};
use crate::geometry::Geometry;
use crate::label::Label;
use crate::lanes::Lanes;
use crate::rows::LetterRow;
use crate::template::{write_numbers, write_value};
use crate::widths::label_width;
use crate::words::{EntryLine, Name, why_word};
use std::io;
use std::io::Write;

/// The way to the receiver of the dead letters of the row of this number.
pub(crate) fn letter_way(row: &LetterRow, index: usize, lanes: &Lanes, geometry: &Geometry) -> Way {
    let envelope = row.letter.envelope;
    Way {
        from: geometry.x(lanes.position(envelope.by.0)),
        to: geometry.x(lanes.position(u32::from(envelope.to.0))),
        y: geometry.row_y(index),
    }
}

/// Where the message begins.
pub(crate) fn letter_label_left(way: Way) -> u64 {
    way.left().saturating_add(12)
}

/// A row of dead letters, of which the entry that sent the first has this line in a page.
pub(crate) fn write_letter<W: Write>(
    w: &mut W,
    names: &[String],
    row: &LetterRow,
    way: Way,
    sent_by: Option<EntryLine>,
) -> io::Result<()> {
    let stop = stop_of(way);
    write_start(w, names, row)?;
    if let Some(line) = sent_by {
        write!(w, " data-entry=\"{line}\"")?;
    }
    write_numbers(
        w,
        " data-letters=\"$\" data-y=\"$\"><path class=\"arrow\" d=\"M$,$ H$\"/>\n",
        &[row.times, way.y, way.from, way.y, stop],
    )?;
    write_cross(w, stop, way.y)?;
    write_words(w, names, row, way, stop)
}

/// Where the words end that say why they are dead.
pub(crate) fn why_end(row: &LetterRow, way: Way) -> u64 {
    if way.goes_left() {
        return stop_of(way);
    }
    let width = label_width(why_word(row.letter.why));
    stop_of(way).saturating_add(10).saturating_add(width)
}

/// The beginning of a row: for whom the letters were, and by whom.
fn write_start<W: Write>(w: &mut W, names: &[String], row: &LetterRow) -> io::Result<()> {
    let envelope = row.letter.envelope;
    let to = Name {
        names,
        id: u32::from(envelope.to.0),
    };
    let by = Name {
        names,
        id: envelope.by.0,
    };
    write_value(
        w,
        "<g class=\"row user dead\" data-actor=\"",
        &[],
        &to,
        "\"",
    )?;
    write_value(w, " data-by=\"", &[], &by, "\"")
}

/// How far from its receiver an arrow stops: behind all other lanes, with room for why it is dead.
const SHORT: u64 = 72;

/// Where it stops: short of its receiver, and beside the lane where an actor sends to itself.
fn stop_of(way: Way) -> u64 {
    if way.from == way.to {
        return way.from.saturating_add(40);
    }
    if way.goes_left() {
        return way.to.saturating_add(SHORT);
    }
    way.to.saturating_sub(SHORT)
}

/// The message, and why it is dead: the end of a row.
fn write_words<W: Write>(
    w: &mut W,
    names: &[String],
    row: &LetterRow,
    way: Way,
    stop: u64,
) -> io::Result<()> {
    let label = Label::of_letter(names, row);
    let place = [letter_label_left(way), way.y.saturating_sub(7)];
    write_value(w, LABEL, &place, &label, "</text>\n")?;
    let why = why_word(row.letter.why);
    let low = way.y.saturating_add(5);
    if way.goes_left() {
        return write_value(
            w,
            BAD_END,
            &[stop.saturating_sub(10), low],
            &why,
            "</text>\n</g>\n",
        );
    }
    write_value(
        w,
        BAD,
        &[stop.saturating_add(10), low],
        &why,
        "</text>\n</g>\n",
    )
}
