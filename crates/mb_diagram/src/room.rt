//! How far the words of a picture reach.
use crate::arrow::{Way, label_left, note_x, way_of};
use crate::dead_letters::{letter_label_left, letter_way, why_end};
use crate::geometry::{Geometry, MARGIN};
use crate::label::Label;
use crate::lanes::Lanes;
use crate::note::RowNote;
use crate::picture::Picture;
use crate::rows::{DrawnRow, LetterRow, Row, Rows};
use crate::widths::Width;
use std::alloc::{AllocError, Global};

/// What is left free between words and the next lane.
const GAP: u64 = 6;

/// How far they reach.
#[derive(Clone, Copy)]
pub(crate) struct Room {
    /// Where the last of them ends.
    pub(crate) end: u64,
    /// How much more room they need on the left.
    pub(crate) missing: u64,
    /// How far apart lanes stand if all words between two of them fit.
    pub(crate) spacing: u64,
}

impl Room {
    /// The room of all words. The only error: memory was refused.
    pub(crate) fn of(
        alloc: Global,
        picture: &Picture<'_>,
        rows: &Rows<'_>,
        lanes: &Lanes,
        geometry: &Geometry,
    ) -> Result<Self, AllocError> {
        let mut room = Room {
            end: 0,
            missing: 0,
            spacing: 0,
        };
        for (index, row) in rows.rows.iter().enumerate() {
            match row {
                DrawnRow::Entries(row) => {
                    room.add_row(alloc, picture, row, index, lanes, geometry)?;
                }
                DrawnRow::Letters(row) => {
                    room.add_letters(alloc, picture, row, index, lanes, geometry)?;
                }
            }
        }
        Ok(room)
    }

    fn add_row(
        &mut self,
        alloc: Global,
        picture: &Picture<'_>,
        row: &Row<'_>,
        index: usize,
        lanes: &Lanes,
        geometry: &Geometry,
    ) -> Result<(), AllocError> {
        let way = way_of(row, index, lanes, geometry);
        let label = Label::of(picture.names, row).width(alloc)?;
        self.add_label(geometry, way, label_left(way), label);
        let note = RowNote::of(row).width(alloc)?;
        self.add_note(geometry, way, note_x(way, row.is_restart()), note);
        Ok(())
    }

    fn add_letters(
        &mut self,
        alloc: Global,
        picture: &Picture<'_>,
        row: &LetterRow,
        index: usize,
        lanes: &Lanes,
        geometry: &Geometry,
    ) -> Result<(), AllocError> {
        let way = letter_way(row, index, lanes, geometry);
        let label = Label::of_letter(picture.names, row).width(alloc)?;
        self.add_label(geometry, way, letter_label_left(way), label);
        self.add_end(why_end(row, way));
        Ok(())
    }

    /// Adds a message that begins at this place, to the right of the left end of its way.
    fn add_label(&mut self, geometry: &Geometry, way: Way, x: u64, width: Width) {
        self.add_end(x.saturating_add(width.most));
        if way.left() < geometry.last() {
            self.add_spacing(x.saturating_sub(way.left()), width);
        }
    }

    /// Adds what stands beside the receiver: to its left up to this place where the arrow goes left, else to its right from there on.
    fn add_note(&mut self, geometry: &Geometry, way: Way, x: u64, width: Width) {
        if way.goes_left() {
            self.add_start(x, width.most);
            if way.to > geometry.first() {
                self.add_spacing(way.to.saturating_sub(x), width);
            }
            return;
        }
        self.add_end(x.saturating_add(width.most));
        if way.to < geometry.last() {
            self.add_spacing(x.saturating_sub(way.to), width);
        }
    }

    /// Words of this width stand so far from a lane, and end before the next one.
    fn add_spacing(&mut self, away: u64, width: Width) {
        let needed = away.saturating_add(width.usual).saturating_add(GAP);
        self.spacing = self.spacing.max(needed);
    }

    fn add_end(&mut self, end: u64) {
        self.end = self.end.max(end);
    }

    /// Words of this width end here.
    fn add_start(&mut self, end: u64, width: u64) {
        let needed = width.saturating_add(MARGIN).saturating_sub(end);
        self.missing = self.missing.max(needed);
    }
}
