//! Printing why there is no trace, in the lines of `mailrun` under this program's name.
use crate::argument_error::ArgumentError;
use clap::error::ErrorKind;
use mb_program::RunFault;
use mb_scenario::ReadError;
use mb_streams::ProgramError;
use std::alloc::{AllocError, AllocFailed, Global};
use std::io;
use std::io::Write;

/// Why the program ends without a trace.
#[derive(Drop)]
pub(crate) enum Failure {
    /// There is no report either, for this reason.
    Program(ProgramError),
    /// The same, with more to say of the scenario: lines, each with its end.
    Scenario {
        error: ProgramError,
        details: String,
    },
    /// The arguments are none that the program takes.
    Arguments(ArgumentError),
    /// The words have no form that the program takes, or ask for its help or its version.
    Words(clap::Error),
    /// The file that has the scenario cannot be opened.
    File {
        path: String,
        error: io::Error,
    },
}

impl From<ProgramError> for Failure {
    fn from(error: ProgramError) -> Failure {
        Failure::Program(error)
    }
}

impl From<ReadError> for Failure {
    fn from(error: ReadError) -> Failure {
        Failure::Program(ProgramError::Input(error))
    }
}

impl From<ArgumentError> for Failure {
    fn from(error: ArgumentError) -> Failure {
        Failure::Arguments(error)
    }
}

impl From<clap::Error> for Failure {
    fn from(error: clap::Error) -> Failure {
        Failure::Words(error)
    }
}

impl From<AllocError> for Failure {
    fn from(_refused: AllocError) -> Failure {
        no_memory()
    }
}

impl<T: Drop> From<AllocFailed<T>> for Failure {
    fn from(_refused: AllocFailed<T>) -> Failure {
        no_memory()
    }
}

/// Memory was refused.
pub(crate) fn no_memory() -> Failure {
    Failure::Program(ProgramError::Input(ReadError::NoMemory))
}

/// Writing failed.
pub(crate) fn not_written() -> Failure {
    Failure::Program(ProgramError::Os)
}

/// Prints what a failure is, as far as it can be written, and answers the exit status: 2 where what the program was given is wrong, else 1.
pub(crate) fn print_failure<E: Write>(alloc: Global, errors: &mut E, failure: &Failure) -> u8 {
    match failure {
        Failure::Program(error) => {
            print_line(alloc, errors, error);
            error.status()
        }
        Failure::Scenario { error, details } => {
            print_line(alloc, errors, error);
            print(errors, details.as_str());
            error.status()
        }
        Failure::Arguments(error) => {
            print_made(errors, argument_line(alloc, error));
            2
        }
        Failure::Words(error) => {
            print_made(errors, words_text(alloc, error));
            if error.kind() == ErrorKind::OutOfMemory {
                1
            } else {
                2
            }
        }
        Failure::File { path, error } => {
            print_made(errors, file_line(alloc, path.as_str(), error));
            1
        }
    }
}

/// What clap says.
fn words_text(alloc: Global, error: &clap::Error) -> Result<String, AllocError> {
    if error.kind() == ErrorKind::OutOfMemory {
        return Err(AllocError);
    }
    error.to_string(alloc)
}

fn file_line(alloc: Global, path: &str, error: &io::Error) -> Result<String, AllocError> {
    format!(in alloc; "mailtrace: 2 Os {path:?}: {error}\n")
}

fn argument_line(alloc: Global, error: &ArgumentError) -> Result<String, AllocError> {
    format!(in alloc; "mailtrace: 12 BadScenario arguments: {error}\n")
}

fn print_line<E: Write>(alloc: Global, errors: &mut E, error: &ProgramError) {
    match error {
        ProgramError::Os => print(errors, "mailtrace: 2 Os\n"),
        ProgramError::Arguments => print(errors, "mailtrace: 12 BadScenario arguments: too many\n"),
        ProgramError::Run(fault) => print_made(errors, run_line(alloc, *fault)),
        ProgramError::Input(fault) => print_made(errors, input_line(alloc, fault)),
    }
}

fn run_line(alloc: Global, fault: RunFault) -> Result<String, AllocError> {
    match fault {
        RunFault::NoMemory => String::from_str(alloc, "mailtrace: 1 NoMemory\n"),
        RunFault::JournalFull => String::from_str(alloc, "mailtrace: 6 JournalFull\n"),
        RunFault::Mismatch => String::from_str(alloc, "mailtrace: 10 Mismatch\n"),
    }
}

fn input_line(alloc: Global, fault: &ReadError) -> Result<String, AllocError> {
    format!(in alloc; "mailtrace: {fault}\n")
}

/// Prints a line, or that memory was refused for it.
fn print_made<E: Write>(errors: &mut E, line: Result<String, AllocError>) {
    match line {
        Ok(line) => print(errors, line.as_str()),
        Err(_) => print(errors, "mailtrace: 1 NoMemory\n"),
    }
}

fn print<E: Write>(errors: &mut E, line: &str) {
    let _ = errors.write_all(line.as_bytes());
}
