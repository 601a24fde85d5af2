//! The three streams of a program.
ghost use Rattle.std.specs.Prelude.{◌≡◌, false};

use crate::tracked_stream::TrackedStream;
use std::rt::{Stderr, Stdin, Stdout};

/// What a program reads, what it writes its report to, and what it writes its errors to.
#[derive(Drop)]
pub struct Streams<R, W, E> {
    /// Its input.
    pub input: TrackedStream<R>,
    /// Where its report goes.
    pub output: TrackedStream<W>,
    /// Where the line goes that says why there is no report.
    pub errors: TrackedStream<E>,
}

impl Streams<Stdin, Stdout, Stderr> {
    /// The standard streams of a process, each in the place that its type says. No call of them has failed.
    pub fn standard(input: Stdin, output: Stdout, errors: Stderr) -> Self
        ensures input { result.input ≡ record { stream = input; failed = false } }
        ensures output { result.output ≡ record { stream = output; failed = false } }
        ensures errors { result.errors ≡ record { stream = errors; failed = false } }
    {
        Streams {
            input: TrackedStream::new(input),
            output: TrackedStream::new(output),
            errors: TrackedStream::new(errors),
        }
    }
}
