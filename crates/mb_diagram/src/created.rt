//! The row of those that the guardian created.
use crate::geometry::Geometry;
use crate::lanes::Lanes;
use crate::rows::Rows;
use crate::template::write_numbers;
use std::io;
use std::io::Write;

/// One row for all of them: nothing where there is none.
pub(crate) fn write_created<W: Write>(
    w: &mut W,
    rows: &Rows<'_>,
    lanes: &Lanes,
    geometry: &Geometry,
) -> io::Result<()> {
    if rows.created.is_empty() {
        return Ok(());
    }
    let from = geometry.x(lanes.position(0));
    let y = geometry.created_y();
    write_numbers(
        w,
        "<g class=\"row system\" data-actor=\"guardian\" data-entries=\"$\" data-entry=\"e0-0\" data-y=\"$\">\n<circle class=\"dot\" cx=\"$\" cy=\"$\" r=\"4\"/>\n",
        &[rows.created.len() as u64, y, from, y],
    )?;
    let farthest = write_tips(w, rows, lanes, geometry, from)?;
    write_numbers(
        w,
        "<path class=\"arrow system\" d=\"M$,$ H$\"/>\n<text class=\"label\" x=\"$\" y=\"$\">create</text></g>\n",
        &[
            from,
            y,
            farthest,
            from.saturating_add(12),
            y.saturating_sub(7),
        ],
    )
}

/// The tips of the arrows to them, which come from here. It answers how far the arrow to the last of them goes.
fn write_tips<W: Write>(
    w: &mut W,
    rows: &Rows<'_>,
    lanes: &Lanes,
    geometry: &Geometry,
    from: u64,
) -> io::Result<u64> {
    let mut farthest = from;
    for id in &rows.created {
        let to = geometry.x(lanes.position(*id));
        write_tip(w, from, to, geometry.created_y())?;
        farthest = farthest.max(to);
    }
    Ok(farthest)
}

/// The tip of the arrow to one of them. The guardian has none.
fn write_tip<W: Write>(w: &mut W, from: u64, to: u64, y: u64) -> io::Result<()> {
    if from == to {
        return Ok(());
    }
    write_numbers(
        w,
        "<path class=\"system-tip\" d=\"M$,$ l8,4 l-8,4 z\"/>\n",
        &[to.saturating_sub(8), y.saturating_sub(4)],
    )
}
