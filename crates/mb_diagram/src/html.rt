//! The page of a run.
use crate::causes::causes_of;
use crate::drawing::Drawing;
use crate::escape::Escaped;
use crate::geometry::BOX;
use crate::head::write_names;
use crate::journal::write_journal;
use crate::picture::Picture;
use crate::script::PAGE_END;
use crate::style::{PAGE_HEAD, PAGE_KINDS};
use crate::template::{write_numbers, write_value};
use crate::words::Name;
use std::alloc::Global;
use std::io;
use std::io::Write;

/// How much of the picture stands above the names that stay in sight.
const ABOVE_NAMES: u64 = 6;

/// Writes a page of HTML that needs no other file: the report, the diagram, and the journal of each actor, in which an entry leads to its
/// cause. Where scripts run, a click on an actor opens its journal, a click on a row leads to its entry, and a choice of an actor, of kinds
/// or of words takes out what does not fit; where none run, all can be read.
///
/// The errors are those of the writer, and `OutOfMemory`.
pub fn write_html<W: Write>(
    alloc: Global,
    w: &mut W,
    picture: &Picture<'_>,
    report: &str,
) -> io::Result<()> {
    let drawing = Drawing::of(alloc, picture)?;
    let causes = causes_of(alloc, picture, &drawing.sent)?;
    w.write_all(PAGE_HEAD.as_bytes())?;
    write_choice(w, picture, report)?;
    write_names_in_sight(w, &drawing)?;
    drawing.write(w)?;
    write_journals(w, picture, &causes)?;
    w.write_all(PAGE_END.as_bytes())
}

/// The report, and the choice of an actor and of kinds, which shows where scripts run.
fn write_choice<W: Write>(w: &mut W, picture: &Picture<'_>, report: &str) -> io::Result<()> {
    let after = "</pre>\n<form><label>actor <select id=\"actor\"><option value=\"\">all</option>";
    write_value(w, "<pre class=\"report\">", &[], &Escaped(report), after)?;
    for (id, _) in picture.report.actors.iter().enumerate() {
        let name = Name {
            names: picture.names,
            id: id as u32,
        };
        write_value(w, "<option>", &[], &name, "</option>")?;
    }
    w.write_all(PAGE_KINDS.as_bytes())
}

/// The names of the lanes once more, in a picture that stands over those of the diagram and stays in sight as that is scrolled.
fn write_names_in_sight<W: Write>(w: &mut W, drawing: &Drawing<'_>) -> io::Result<()> {
    let geometry = &drawing.geometry;
    let width = geometry.width();
    let top = geometry.head().saturating_sub(ABOVE_NAMES);
    let height = BOX + ABOVE_NAMES;
    write_numbers(
        w,
        "<svg class=\"names\" viewBox=\"0 $ $ $\" width=\"$\" height=\"$\" style=\"margin: $px 0 -$px\" aria-hidden=\"true\">
<rect class=\"page\" y=\"$\" width=\"$\" height=\"$\"/>
",
        &[
            top,
            width,
            height,
            width,
            height,
            top,
            top.saturating_add(height),
            top,
            width,
            height,
        ],
    )?;
    write_names(
        w,
        &drawing.picture,
        &drawing.lanes,
        geometry,
        geometry.head(),
    )?;
    w.write_all(b"</svg>\n")
}

/// The journals of all actors, behind the picture.
fn write_journals<W: Write>(
    w: &mut W,
    picture: &Picture<'_>,
    causes: &[Option<usize>],
) -> io::Result<()> {
    w.write_all(b"</div>\n<aside>\n<h2>Journals</h2>\n")?;
    for (id, actor) in picture.report.actors.iter().enumerate() {
        write_journal(w, picture, causes, id as u32, actor)?;
    }
    Ok(())
}
