//! The foot of a picture: the names again where it is tall, and what became of each actor.
use crate::geometry::Geometry;
use crate::head::write_names;
use crate::lanes::Lanes;
use crate::picture::Picture;
use crate::template::write_value;
use crate::words::phase_word;
use mb_report::ActorReport;
use std::io;
use std::io::Write;

/// How the lines begin that say what became of an actor.
const PHASE: &str = "<text class=\"note\" x=\"$\" y=\"$\" text-anchor=\"middle\">";

const STATE: &str = "<text class=\"note\" x=\"$\" y=\"$\" text-anchor=\"middle\">state ";

const LEFT: &str = "<text class=\"note\" x=\"$\" y=\"$\" text-anchor=\"middle\">left ";

const ASIDE: &str = "<text class=\"note\" x=\"$\" y=\"$\" text-anchor=\"middle\">set aside ";

/// The foot.
pub(crate) fn write_foot<W: Write>(
    w: &mut W,
    picture: &Picture<'_>,
    lanes: &Lanes,
    geometry: &Geometry,
) -> io::Result<()> {
    if geometry.is_tall() {
        write_names(w, picture, lanes, geometry, geometry.lanes_end())?;
    }
    let top = geometry.snapshot_top();
    for (lane, id) in lanes.ids.iter().enumerate() {
        if let Some(actor) = picture.report.actors.get(*id as usize) {
            write_snapshot(w, actor, geometry.x(lane), top)?;
        }
    }
    Ok(())
}

/// Its phase and state, what is left to it, and what is set aside.
fn write_snapshot<W: Write>(w: &mut W, actor: &ActorReport, x: u64, top: u64) -> io::Result<()> {
    write_phase(w, actor, x, top)?;
    let left = actor.left.len();
    let aside = actor.aside.len();
    write_count(w, LEFT, left, x, top.saturating_add(46))?;
    write_count(w, ASIDE, aside, x, top.saturating_add(61))
}

fn write_phase<W: Write>(w: &mut W, actor: &ActorReport, x: u64, top: u64) -> io::Result<()> {
    let phase = phase_word(actor.phase);
    write_value(w, PHASE, &[x, top.saturating_add(16)], &phase, "</text>")?;
    match actor.state {
        Some(state) => write_value(w, STATE, &[x, top.saturating_add(31)], &state, "</text>\n"),
        None => w.write_all(b"\n"),
    }
}

/// How many there are: nothing where there is none.
fn write_count<W: Write>(w: &mut W, start: &str, count: usize, x: u64, y: u64) -> io::Result<()> {
    if count == 0 {
        return Ok(());
    }
    write_value(w, start, &[x, y], &count, "</text>\n")
}
