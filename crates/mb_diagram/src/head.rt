//! The top of a picture: its size and style, the lanes and their names.
use crate::geometry::{BOX, Geometry, ROW};
use crate::lanes::{Lanes, last_row};
use crate::picture::Picture;
use crate::rows::Rows;
use crate::style::PICTURE_HEAD;
use crate::template::{write_numbers, write_value};
use crate::words::Name;
use std::io;
use std::io::Write;

/// The beginning, up to the page.
pub(crate) fn write_head<W: Write>(w: &mut W, geometry: &Geometry) -> io::Result<()> {
    let width = geometry.width();
    let height = geometry.height();
    write_numbers(
        w,
        PICTURE_HEAD,
        &[width, height, width, height, width, height],
    )
}

/// The lanes, each down to its end.
pub(crate) fn write_lanes<W: Write>(
    w: &mut W,
    picture: &Picture<'_>,
    rows: &Rows<'_>,
    lanes: &Lanes,
    geometry: &Geometry,
) -> io::Result<()> {
    let top = geometry.lanes_top();
    for (lane, id) in lanes.ids.iter().enumerate() {
        let x = geometry.x(lane);
        match last_row(picture, rows, *id) {
            Some(row) => write_ended_lane(w, x, top, geometry.row_y(row).saturating_add(ROW / 2))?,
            None => write_lane(w, x, top, geometry.lanes_end())?,
        }
    }
    Ok(())
}

fn write_lane<W: Write>(w: &mut W, x: u64, top: u64, end: u64) -> io::Result<()> {
    write_numbers(w, "<path class=\"lane\" d=\"M$,$ V$\"/>\n", &[x, top, end])
}

/// The lane of an actor that has ended.
fn write_ended_lane<W: Write>(w: &mut W, x: u64, top: u64, end: u64) -> io::Result<()> {
    write_lane(w, x, top, end)?;
    write_numbers(
        w,
        "<path class=\"end\" d=\"M$,$ h24\"/>\n",
        &[x.saturating_sub(12), end],
    )
}

/// The names of the lanes, in boxes that begin at this height.
pub(crate) fn write_names<W: Write>(
    w: &mut W,
    picture: &Picture<'_>,
    lanes: &Lanes,
    geometry: &Geometry,
    top: u64,
) -> io::Result<()> {
    for (lane, id) in lanes.ids.iter().enumerate() {
        let name = Name {
            names: picture.names,
            id: *id,
        };
        write_name(w, name, geometry.x(lane), geometry.box_width(), top)?;
    }
    Ok(())
}

fn write_name<W: Write>(w: &mut W, name: Name<'_>, x: u64, width: u64, top: u64) -> io::Result<()> {
    write_value(w, "<g class=\"name\" data-actor=\"", &[], &name, "\">")?;
    write_value(
        w,
        "<rect class=\"box\" x=\"$\" y=\"$\" width=\"$\" height=\"$\" rx=\"5\"/><text class=\"title\" x=\"$\" y=\"$\" text-anchor=\"middle\">",
        &[
            x.saturating_sub(width / 2),
            top,
            width,
            BOX,
            x,
            top.saturating_add(19),
        ],
        &name,
        "</text></g>\n",
    )
}
