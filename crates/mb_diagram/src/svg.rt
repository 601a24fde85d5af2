//! The sequence diagram of a run.
use crate::drawing::Drawing;
use crate::picture::Picture;
use std::alloc::Global;
use std::io;
use std::io::Write;

/// Writes the sequence diagram of a run, as an SVG document. Each row says what came of a message and how its receiver stands then. Entries
/// that follow one another and differ in their numbers and values alone share a row, which says how many they are, and so do the first
/// messages that the guardian sends. A dead letter stands behind the entry that sent it, and behind all of its receiver's where that had
/// ended.
///
/// The errors are those of the writer, and `OutOfMemory`.
pub fn write_svg<W: Write>(alloc: Global, w: &mut W, picture: &Picture<'_>) -> io::Result<()> {
    Drawing::of(alloc, picture)?.write(w)
}
