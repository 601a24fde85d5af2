//! A row of entries: an arrow from the sender to the receiver, with what came of the message.
use crate::geometry::Geometry;
use crate::label::Label;
use crate::lanes::Lanes;
use crate::note::RowNote;
use crate::rows::{Row, class_of};
use crate::template::{write_numbers, write_value};
use crate::words::{EntryLine, Name};
use std::io;
use std::io::Write;

/// How a message begins.
pub(crate) const LABEL: &str = "<text class=\"label\" x=\"$\" y=\"$\">";

/// How it begins why one failed or is dead.
pub(crate) const BAD: &str = "<text class=\"bad\" x=\"$\" y=\"$\">";

/// The same where it ends at its place.
pub(crate) const BAD_END: &str = "<text class=\"bad\" x=\"$\" y=\"$\" text-anchor=\"end\">";

/// How long an arrow is that nobody is known to have sent: `terminate` fits above it.
const FROM_NOBODY: u64 = 72;

/// Where an arrow goes, and at which height.
#[derive(Clone, Copy)]
pub(crate) struct Way {
    pub(crate) from: u64,
    pub(crate) to: u64,
    pub(crate) y: u64,
}

impl Way {
    /// Where its left end is.
    pub(crate) fn left(self) -> u64 {
        self.from.min(self.to)
    }

    /// Whether it goes from right to left.
    pub(crate) fn goes_left(self) -> bool {
        self.to < self.from
    }
}

/// The way of the arrow of the row of this number.
pub(crate) fn way_of(row: &Row<'_>, index: usize, lanes: &Lanes, geometry: &Geometry) -> Way {
    let to = geometry.x(lanes.position(u32::from(row.shown.actor.0)));
    let from = match row.source {
        Some(source) => geometry.x(lanes.position(source)),
        None => to.saturating_sub(FROM_NOBODY),
    };
    let y = geometry.row_y(index);
    Way { from, to, y }
}

/// Where the message begins.
pub(crate) fn label_left(way: Way) -> u64 {
    let room = if way.from == way.to { 32 } else { 12 };
    way.left().saturating_add(room)
}

/// A row of entries.
pub(crate) fn write_row<W: Write>(
    w: &mut W,
    names: &[String],
    row: &Row<'_>,
    way: Way,
) -> io::Result<()> {
    write_start(w, names, row, way)?;
    write_arrow(w, row.is_user(), way)?;
    write_label(w, names, row, way)?;
    write_note(w, row, way)?;
    w.write_all(b"</g>\n")
}

/// The beginning of a row, with a dot where nobody is known to have sent the message, and a bar where the actor began again.
fn write_start<W: Write>(w: &mut W, names: &[String], row: &Row<'_>, way: Way) -> io::Result<()> {
    let class = class_of(row.shown.entry.arrival);
    let name = Name {
        names,
        id: u32::from(row.shown.actor.0),
    };
    write!(w, "<g class=\"row {class}\" data-actor=\"{name}\"")?;
    write_source(w, names, row, way)?;
    if row.is_restart() {
        return write_bar(w, way);
    }
    Ok(())
}

/// Who sent the message, how many entries the row has, which is the first, and the height.
fn write_source<W: Write>(w: &mut W, names: &[String], row: &Row<'_>, way: Way) -> io::Result<()> {
    let times = row.times;
    let y = way.y;
    let line = EntryLine::of(&row.shown);
    if let Some(id) = row.source {
        let by = Name { names, id };
        write!(w, " data-by=\"{by}\"")?;
    }
    write!(
        w,
        " data-entries=\"{times}\" data-entry=\"{line}\" data-y=\"{y}\">\n"
    )?;
    match row.source {
        Some(_) => Ok(()),
        None => write_dot(w, way),
    }
}

/// The dot where an arrow begins that nobody is known to have sent.
fn write_dot<W: Write>(w: &mut W, way: Way) -> io::Result<()> {
    write_numbers(
        w,
        "<circle class=\"dot\" cx=\"$\" cy=\"$\" r=\"4\"/>\n",
        &[way.from, way.y],
    )
}

/// The arrow; a loop where an actor sends to itself.
fn write_arrow<W: Write>(w: &mut W, is_user: bool, way: Way) -> io::Result<()> {
    let Way { from, to, y } = way;
    if from == to {
        return write_numbers(w, loop_of(is_user), &[from, y.saturating_sub(12), to]);
    }
    write_numbers(w, line_of(is_user), &[from, y, to])
}

/// The shape of a loop, with places for where it begins and at which height, and for where it ends.
fn loop_of(is_user: bool) -> &'static str {
    if is_user {
        "<path class=\"arrow\" d=\"M$,$ h26 v12 H$\" marker-end=\"url(#tip)\"/>\n"
    } else {
        "<path class=\"arrow system\" d=\"M$,$ h26 v12 H$\" marker-end=\"url(#system-tip)\"/>\n"
    }
}

/// The shape of an arrow, with the same places.
fn line_of(is_user: bool) -> &'static str {
    if is_user {
        "<path class=\"arrow\" d=\"M$,$ H$\" marker-end=\"url(#tip)\"/>\n"
    } else {
        "<path class=\"arrow system\" d=\"M$,$ H$\" marker-end=\"url(#system-tip)\"/>\n"
    }
}

/// The message, above the arrow; beside it where it is a loop.
fn write_label<W: Write>(w: &mut W, names: &[String], row: &Row<'_>, way: Way) -> io::Result<()> {
    let label = Label::of(names, row);
    write_value(
        w,
        LABEL,
        &[label_left(way), way.y.saturating_sub(7)],
        &label,
        "</text>\n",
    )
}

/// The bar of a restart, across the lane.
fn write_bar<W: Write>(w: &mut W, way: Way) -> io::Result<()> {
    write_numbers(
        w,
        "<rect class=\"bar\" x=\"$\" y=\"$\" width=\"60\" height=\"7\" rx=\"2\"/>\n",
        &[way.to.saturating_sub(30), way.y.saturating_add(3)],
    )
}

/// What came of it and how the receiver stands then, beside the receiver, on the side where no arrow comes.
fn write_note<W: Write>(w: &mut W, row: &Row<'_>, way: Way) -> io::Result<()> {
    let note = RowNote::of(row);
    if note.is_empty() {
        return Ok(());
    }
    let place = [note_x(way, row.is_restart()), note_y(way)];
    if note.outcome.is_failure() {
        write_cross(w, way.to, way.y)?;
        write_value(w, bad_of(way), &place, &note.outcome, "")?;
        return write_value(
            w,
            "<tspan class=\"after\">",
            &[],
            &note.change,
            "</tspan></text>\n",
        );
    }
    write_value(w, note_of(way), &place, &note, "</text>\n")
}

/// How a failure begins at this way.
fn bad_of(way: Way) -> &'static str {
    if way.goes_left() { BAD_END } else { BAD }
}

/// How anything else begins there.
fn note_of(way: Way) -> &'static str {
    if way.goes_left() {
        "<text class=\"note\" x=\"$\" y=\"$\" text-anchor=\"end\">"
    } else {
        "<text class=\"note\" x=\"$\" y=\"$\">"
    }
}

/// Where it begins, or where it ends if the arrow goes left: beside the lane, a loop or the bar of a restart.
pub(crate) fn note_x(way: Way, is_restart: bool) -> u64 {
    if way.from == way.to {
        return way.to.saturating_add(32);
    }
    let gap = if is_restart { 36 } else { 10 };
    if way.goes_left() {
        return way.to.saturating_sub(gap);
    }
    way.to.saturating_add(gap)
}

/// At which height its foot is.
fn note_y(way: Way) -> u64 {
    let below = if way.from == way.to { 8 } else { 5 };
    way.y.saturating_add(below)
}

/// A cross.
pub(crate) fn write_cross<W: Write>(w: &mut W, x: u64, y: u64) -> io::Result<()> {
    write_numbers(
        w,
        "<path class=\"cross\" d=\"M$,$ l10,10 m-10,0 l10,-10\"/>\n",
        &[x.saturating_sub(5), y.saturating_sub(5)],
    )
}
