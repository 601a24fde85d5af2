//! What a picture has, and where it stands.
use crate::arrow::{way_of, write_row};
use crate::created::write_created;
use crate::dead_letters::{letter_way, write_letter};
use crate::foot::write_foot;
use crate::geometry::Geometry;
use crate::head::{write_head, write_lanes, write_names};
use crate::lanes::Lanes;
use crate::legend::write_legend;
use crate::order::write_order;
use crate::picture::Picture;
use crate::room::Room;
use crate::rows::{DrawnRow, LetterRow, Rows};
use crate::sent::SentEnvelopes;
use crate::words::EntryLine;
use std::alloc::{AllocError, Global};
use std::io;
use std::io::Write;

/// A picture with its rows, its lanes and their places.
#[derive(Drop)]
pub(crate) struct Drawing<'a> {
    pub(crate) picture: Picture<'a>,
    pub(crate) sent: SentEnvelopes,
    pub(crate) rows: Rows<'a>,
    pub(crate) lanes: Lanes,
    pub(crate) geometry: Geometry,
}

impl<'a> Drawing<'a> {
    /// The drawing of a picture. The only error: memory was refused.
    pub(crate) fn of(alloc: Global, picture: &Picture<'a>) -> Result<Self, AllocError> {
        let sent = SentEnvelopes::of(alloc, picture)?;
        let rows = Rows::of(alloc, picture, &sent)?;
        let lanes = Lanes::of(alloc, picture, &rows)?;
        let narrow = Geometry::of(&lanes, &rows, picture.order);
        let words = Room::of(alloc, picture, &rows, &lanes, &narrow)?;
        let wide = narrow.with_spacing(words.spacing);
        let room = Room::of(alloc, picture, &rows, &lanes, &wide)?;
        Ok(Drawing {
            picture: *picture,
            sent,
            rows,
            lanes,
            geometry: wide.with_room(room),
        })
    }

    /// Writes it as an SVG document.
    pub(crate) fn write<W: Write>(&self, w: &mut W) -> io::Result<()> {
        self.write_above(w)?;
        for (index, row) in self.rows.rows.iter().enumerate() {
            self.write_row(w, index, row)?;
        }
        self.write_below(w)
    }

    /// The lanes, with what stands above the rows of entries.
    fn write_above<W: Write>(&self, w: &mut W) -> io::Result<()> {
        let geometry = &self.geometry;
        write_head(w, geometry)?;
        write_order(w, self.picture.order, geometry.order_y())?;
        write_lanes(w, &self.picture, &self.rows, &self.lanes, geometry)?;
        write_names(w, &self.picture, &self.lanes, geometry, geometry.head())?;
        write_created(w, &self.rows, &self.lanes, geometry)
    }

    fn write_row<W: Write>(&self, w: &mut W, index: usize, row: &DrawnRow<'_>) -> io::Result<()> {
        let names = self.picture.names;
        match row {
            DrawnRow::Entries(row) => {
                let way = way_of(row, index, &self.lanes, &self.geometry);
                write_row(w, names, row, way)
            }
            DrawnRow::Letters(row) => {
                let way = letter_way(row, index, &self.lanes, &self.geometry);
                write_letter(w, names, row, way, self.line_of_sender(row))
            }
        }
    }

    /// The line of the entry that sent the first of these dead letters; `None` of a sender outside the actors.
    fn line_of_sender(&self, row: &LetterRow) -> Option<EntryLine> {
        let place = self.sent.place_of(&row.letter.envelope)?;
        let entry = self.picture.entries.get(place)?;
        Some(EntryLine::of(entry))
    }

    /// The foot and the legend.
    fn write_below<W: Write>(&self, w: &mut W) -> io::Result<()> {
        let geometry = &self.geometry;
        w.write_all(b"<g class=\"below\">\n")?;
        write_foot(w, &self.picture, &self.lanes, geometry)?;
        write_legend(w, geometry.legend_top(), geometry.width())?;
        w.write_all(b"</g>\n</svg>\n")
    }
}
