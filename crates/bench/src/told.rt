//! Printing what a benchmark did and what that cost.
use std::fmt::Display;
use std::io;

/// Prints what was done to standard output, and its figure to standard error.
pub fn tell<R: Print + Eprint, D: Display + Drop, F: Display + Drop>(
    rt: &R,
    done: D,
    figure: F,
) -> io::Result<()> {
    note(rt, figure);
    rt.println(done)
}

/// Prints a figure to standard error; it is lost where that cannot be written to.
pub fn note<R: Eprint, F: Display + Drop>(rt: &R, figure: F) {
    let _ = rt.eprintln(figure);
}
