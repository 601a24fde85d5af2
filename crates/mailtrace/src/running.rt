//! The program, from its arguments and its input to its output.
ghost use Rattle.std.specs.Prelude.{◌≡◌, ◌≤◌, false};

use crate::answer::show;
use crate::argument_error::ArgumentError;
use crate::options::{Options, options_of};
use crate::refusal::{Failure, no_memory, not_written, print_failure};
use mb_program::TrackedStream;
use std::alloc::{AllocError, Global};
use std::env::Env;
use std::io::{ErrorKind, Read, Write};
use std::rt::Files;
use std::sync::Wait;
use std::thread::Threads;
use std::{env, fs};

/// The whole program: reads a scenario, runs it, and writes what came to each actor and what became of it. The answer is the exit
/// status: 0 with the trace written, or where whoever reads it has closed it; 2 where the arguments are none that the program takes, or
/// the input is no scenario; and 1 where the run failed, memory was refused, reading failed, or writing did. On a failure `errors` gets
/// one line that says which, if it can be written.
pub(crate) fn trace_program<
    T: Threads + Wait + Sync + Env + Files + AllocGlobal,
    R: Read,
    W: Write + Drop,
    E: Write,
>(rt: &T, alloc: Global, reader: &mut TrackedStream<R>, writer: W, errors: &mut E) -> u8
    requires working { reader.old.failed ≡ false }
{
    match answer(rt, alloc, reader, writer) {
        Ok(()) => 0,
        Err(failure) => print_failure(alloc, errors, &failure),
    }
}

/// Does what the arguments say.
fn answer<T: Threads + Wait + Sync + Env + Files + AllocGlobal, R: Read, W: Write + Drop>(
    rt: &T,
    alloc: Global,
    reader: &mut TrackedStream<R>,
    writer: W,
) -> Result<(), Failure>
    requires working { reader.old.failed ≡ false }
{
    let options = match options(rt, alloc) {
        Ok(options) => options,
        Err(failure) => return print_text(alloc, writer, failure),
    };
    show_scenario(rt, alloc, reader, &options, writer)
}

/// Prints the help or the version, if the words ask for it. Else the failure stays.
fn print_text<W: Write + Drop>(alloc: Global, writer: W, failure: Failure) -> Result<(), Failure> {
    match asked_text(alloc, &failure)? {
        Some(text) => print(writer, text.as_str()),
        None => Err(failure),
    }
}

/// The help or the version, if the words ask for it.
fn asked_text(alloc: Global, failure: &Failure) -> Result<Option<String>, AllocError> {
    match failure {
        Failure::Words(error) => {
            if error.use_stderr() {
                return Ok(None);
            }
            Ok(Some(error.to_string(alloc)?))
        }
        _ => Ok(None),
    }
}

/// What the arguments say. One that is not UTF-8 is none that the program takes.
fn options<T: Env + AllocGlobal>(rt: &T, alloc: Global) -> Result<Options, Failure> {
    match env::args(rt) {
        Ok(words) => {
            let words: Vec<String> = words.collect(alloc)?;
            options_of(alloc, &words)
        }
        Err(error) => match error.kind() {
            ErrorKind::OutOfMemory => Err(no_memory()),
            _ => Err(Failure::Arguments(ArgumentError::NotUtf8)),
        },
    }
}

/// Shows the run of the scenario that the file has which the options name, else of the one that the reader gives.
fn show_scenario<T: Threads + Wait + Sync + Files, R: Read, W: Write + Drop>(
    rt: &T,
    alloc: Global,
    reader: &mut TrackedStream<R>,
    options: &Options,
    writer: W,
) -> Result<(), Failure>
    requires working { reader.old.failed ≡ false }
{
    let Some(path) = &options.file else {
        return show(rt, alloc, reader, options, writer);
    };
    match fs::open(rt, path.as_str()) {
        Ok(file) => show(rt, alloc, &mut TrackedStream::new(file), options, writer),
        Err(error) => Err(Failure::File {
            path: path.clone()?,
            error,
        }),
    }
}

fn print<W: Write + Drop>(writer: W, text: &str) -> Result<(), Failure> {
    let mut writer = writer;
    match writer.write_all(text.as_bytes()) {
        Ok(()) => Ok(()),
        Err(error) => match error.kind() {
            ErrorKind::BrokenPipe => Ok(()),
            _ => Err(not_written()),
        },
    }
}
