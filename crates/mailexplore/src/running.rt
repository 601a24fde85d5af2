//! The program, from its arguments and its input to its output.
ghost use Rattle.std.specs.Prelude.{◌≡◌, false};

use crate::answer::answer;
use crate::failure::{Failure, print_failure};
use crate::options::{Options, options_of};
use mb_streams::{ProgramError, TrackedStream, read_input};
use std::alloc::{AllocError, Global};
use std::env;
use std::env::Env;
use std::io::{ErrorKind, Read, Write};

/// The whole program: reads a scenario, explores it, and writes each report that some order of its steps leads to. The answer is the exit status:
/// 0 with the reports written, or where whoever reads them has closed the output; 2 where the arguments are none that the program takes, or the
/// input is no scenario; and 1 where memory was refused, a journal was full, or reading or writing failed. On a failure `errors` gets one line
/// that says which, if it can be written.
pub(crate) fn explore_program<T: Env + AllocGlobal, R: Read, W: Write + Drop, E: Write>(
    rt: &T,
    alloc: Global,
    reader: &mut TrackedStream<R>,
    writer: W,
    errors: &mut E,
) -> u8
    requires working { reader.old.failed ≡ false }
{
    match text_for(rt, alloc, reader) {
        Ok(text) => match write_text(writer, text.as_str()) {
            Ok(()) => 0,
            Err(failure) => print_failure(alloc, errors, &failure),
        },
        Err(failure) => print_failure(alloc, errors, &failure),
    }
}

/// What is to be written: the help or the version, if the words ask for it, else the reports.
fn text_for<T: Env + AllocGlobal, R: Read>(
    rt: &T,
    alloc: Global,
    reader: &mut TrackedStream<R>,
) -> Result<String, Failure>
    requires working { reader.old.failed ≡ false }
{
    match options(rt, alloc) {
        Ok(options) => {
            let text = read_input(alloc, reader)?;
            answer(alloc, text, &options)
        }
        Err(failure) => asked_text(alloc, failure),
    }
}

/// The help or the version, if the words ask for it. Else the failure stays.
fn asked_text(alloc: Global, failure: Failure) -> Result<String, Failure> {
    match &failure {
        Failure::Words(error) => {
            if !error.use_stderr() {
                return Ok(error.to_string(alloc)?);
            }
        }
        _ => {}
    }
    Err(failure)
}

/// What the arguments say.
fn options<T: Env + AllocGlobal>(rt: &T, alloc: Global) -> Result<Options, Failure> {
    match env::args(rt) {
        Ok(words) => {
            let words: Vec<String> = words.collect(alloc)?;
            options_of(alloc, &words)
        }
        Err(error) => match error.kind() {
            ErrorKind::OutOfMemory => Err(Failure::from(AllocError)),
            _ => Err(Failure::NotUtf8),
        },
    }
}

/// Writes the text. Whoever closes the output has read enough.
fn write_text<W: Write + Drop>(writer: W, text: &str) -> Result<(), Failure> {
    let mut writer = writer;
    match writer.write_all(text.as_bytes()) {
        Ok(()) => Ok(()),
        Err(error) => match error.kind() {
            ErrorKind::BrokenPipe => Ok(()),
            _ => Err(Failure::Program(ProgramError::Os)),
        },
    }
}
