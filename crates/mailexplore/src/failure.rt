//! Why nothing is printed, in the lines of `mailrun` under this program's name.
use clap::error::ErrorKind;
use mb_explore::ExploreError;
use mb_scenario::ReadError;
use mb_streams::ProgramError;
use std::alloc::{AllocError, AllocFailed, Global};
use std::io::Write;

/// Why the program ends without a list of reports.
#[derive(Drop)]
pub(crate) enum Failure {
    /// Reading the input or writing the output failed, or the input is no scenario.
    Program(ProgramError),
    /// The scenario was not explored.
    Explore(ExploreError),
    /// The words have no form that the program takes, or ask for its help or its version.
    Words(clap::Error),
    /// Some word is not UTF-8.
    NotUtf8,
    /// The words of the schedule do not name steps.
    Steps,
}

impl From<ProgramError> for Failure {
    fn from(error: ProgramError) -> Failure {
        Failure::Program(error)
    }
}

impl From<ReadError> for Failure {
    fn from(error: ReadError) -> Failure {
        Failure::Program(ProgramError::Input(error))
    }
}

impl From<ExploreError> for Failure {
    fn from(error: ExploreError) -> Failure {
        Failure::Explore(error)
    }
}

impl From<clap::Error> for Failure {
    fn from(error: clap::Error) -> Failure {
        Failure::Words(error)
    }
}

impl From<AllocError> for Failure {
    fn from(_refused: AllocError) -> Failure {
        Failure::Explore(ExploreError::NoMemory)
    }
}

impl<T: Drop> From<AllocFailed<T>> for Failure {
    fn from(_refused: AllocFailed<T>) -> Failure {
        Failure::Explore(ExploreError::NoMemory)
    }
}

/// Prints what a failure is, as far as it can be written, and answers the exit status: 2 where what the program was given is wrong, else 1.
pub(crate) fn print_failure<E: Write>(alloc: Global, errors: &mut E, failure: &Failure) -> u8 {
    match failure {
        Failure::Program(error) => {
            print_program(alloc, errors, error);
            error.status()
        }
        Failure::Explore(error) => {
            print(errors, explore_line(*error));
            1
        }
        Failure::Words(error) => {
            print_made(errors, words_text(alloc, error));
            if error.kind() == ErrorKind::OutOfMemory {
                1
            } else {
                2
            }
        }
        Failure::NotUtf8 => {
            print(errors, "mailexplore: 12 BadScenario arguments: not UTF-8\n");
            2
        }
        Failure::Steps => {
            print(errors, "mailexplore: 12 BadScenario schedule: not steps\n");
            2
        }
    }
}

/// What clap says.
fn words_text(alloc: Global, error: &clap::Error) -> Result<String, AllocError> {
    if error.kind() == ErrorKind::OutOfMemory {
        return Err(AllocError);
    }
    error.to_string(alloc)
}

fn explore_line(error: ExploreError) -> &'static str {
    match error {
        ExploreError::NoMemory => "mailexplore: 1 NoMemory\n",
        ExploreError::JournalFull => "mailexplore: 6 JournalFull\n",
        ExploreError::WrongNames | ExploreError::NotRepeated | ExploreError::TooLarge => {
            "mailexplore: 10 Mismatch\n"
        }
    }
}

fn print_program<E: Write>(alloc: Global, errors: &mut E, error: &ProgramError) {
    match error {
        ProgramError::Os => print(errors, "mailexplore: 2 Os\n"),
        ProgramError::Arguments => print(
            errors,
            "mailexplore: 12 BadScenario arguments: too many\n",
        ),
        ProgramError::Run(_) => print(errors, "mailexplore: 10 Mismatch\n"),
        ProgramError::Input(fault) => print_made(errors, input_line(alloc, fault)),
    }
}

fn input_line(alloc: Global, fault: &ReadError) -> Result<String, AllocError> {
    format!(in alloc; "mailexplore: {fault}\n")
}

/// Prints a line, or that memory was refused for it.
fn print_made<E: Write>(errors: &mut E, line: Result<String, AllocError>) {
    match line {
        Ok(line) => print(errors, line.as_str()),
        Err(_) => print(errors, "mailexplore: 1 NoMemory\n"),
    }
}

fn print<E: Write>(errors: &mut E, line: &str) {
    let _ = errors.write_all(line.as_bytes());
}
