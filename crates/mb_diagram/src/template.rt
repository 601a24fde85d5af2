//! Texts with places for numbers, and for a value between two texts.
use std::fmt::Display;
use std::io;
use std::io::Write;

/// Writes a text in which each `$` stands for the next of these numbers. There are as many numbers as places.
pub(crate) fn write_numbers<W: Write>(w: &mut W, text: &str, numbers: &[u64]) -> io::Result<()> {
    write_heights(w, text, 0, numbers)
}

/// The same with numbers that count from this height on.
pub(crate) fn write_heights<W: Write>(
    w: &mut W,
    text: &str,
    top: u64,
    numbers: &[u64],
) -> io::Result<()> {
    let mut rest = text;
    for number in numbers {
        let Some((before, after)) = rest.split_once('$') else {
            break;
        };
        write!(w, "{before}{}", top.saturating_add(*number))?;
        rest = after;
    }
    w.write_all(rest.as_bytes())
}

/// Writes a value between two texts, of which the first has places for these numbers.
pub(crate) fn write_value<W: Write, V: Display>(
    w: &mut W,
    before: &str,
    numbers: &[u64],
    value: &V,
    after: &str,
) -> io::Result<()> {
    write_numbers(w, before, numbers)?;
    write!(w, "{value}{after}")
}
