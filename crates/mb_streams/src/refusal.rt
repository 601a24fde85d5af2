//! Printing why there is no report.
ghost use Rattle.std.specs.Prelude.{◌≡◌, false, IfOk, string_bytes};
ghost use Rattle.mb_scenario.specs.declared.read_error.ReadError.TheVariants.{NoMemory};
ghost use Rattle.mb_streams.specs.ProgramError.{error_line, exit_status};
ghost use Rattle.mb_streams.specs.ErrorLine.{IsLineSaid, IsRefusal};
ghost use Rattle.mb_streams.specs.declared.program_error.ProgramError.TheVariants.{Input, Run};

use crate::fault::RunFault;
use crate::flush::Flush;
use crate::program_error::ProgramError;
use crate::tracked_stream::TrackedStream;
use mb_scenario::ReadError;
use std::alloc::{AllocError, Global};

/// Prints why there is no report, as far as that can be written, and answers the exit status. Where memory for the line
/// is refused, the failure is that.
pub(crate) fn print_failure<E: Flush>(
    alloc: Global,
    errors: &mut TrackedStream<E>,
    failure: &ProgramError,
) -> u8
    requires errors { errors.old.failed ≡ false }
    ensures { IsRefusal failure.now result (E.contents errors.old.stream) (E.contents errors.new.stream) errors.new.failed }
{
    match failure {
        ProgramError::Os => print_line(errors, failure, "mailrun: 2 Os\n"),
        ProgramError::Arguments => print_line(
            errors,
            failure,
            "mailrun: 12 BadScenario arguments: too many\n",
        ),
        ProgramError::Run(fault) => refuse_run(errors, *fault),
        ProgramError::Input(fault) => match fault_line(alloc, fault) {
            Ok(line) => print_line(errors, failure, line.as_str()),
            Err(_) => print_no_memory(errors),
        },
    }
}

/// The same where a run gave no report.
fn refuse_run<E: Flush>(errors: &mut TrackedStream<E>, fault: RunFault) -> u8
    requires errors { errors.old.failed ≡ false }
    ensures { IsRefusal (Run fault) result (E.contents errors.old.stream) (E.contents errors.new.stream) errors.new.failed }
{
    let failure = ProgramError::Run(fault);
    match fault {
        RunFault::NoMemory => print_line(errors, &failure, "mailrun: 1 NoMemory\n"),
        RunFault::JournalFull => print_line(errors, &failure, "mailrun: 6 JournalFull\n"),
        RunFault::Mismatch => print_line(errors, &failure, "mailrun: 10 Mismatch\n"),
    }
}

/// The line for an error of the input.
fn fault_line(alloc: Global, fault: &ReadError) -> Result<String, AllocError>
    ensures { IfOk result (λ line. string_bytes line ≡ error_line (Input fault.now)) }
{
    format!(in alloc; "mailrun: {fault}\n")
}

/// Prints that memory was refused; this takes no memory.
fn print_no_memory<E: Flush>(errors: &mut TrackedStream<E>) -> u8
    requires errors { errors.old.failed ≡ false }
    ensures { (result ≡ exit_status (Input NoMemory))
        × IsLineSaid (E.contents errors.old.stream) (E.contents errors.new.stream) errors.new.failed (error_line (Input NoMemory)) }
{
    print_line(
        errors,
        &ProgramError::Input(ReadError::NoMemory),
        "mailrun: 1 NoMemory\n",
    )
}

/// Prints the line of a failure, as far as it can be written, and answers the exit status.
fn print_line<E: Flush>(errors: &mut TrackedStream<E>, failure: &ProgramError, line: &str) -> u8
    requires errors { errors.old.failed ≡ false }
    requires line { line.now ≡ error_line failure.now }
    ensures { (result ≡ exit_status failure.now)
        × IsLineSaid (E.contents errors.old.stream) (E.contents errors.new.stream) errors.new.failed (error_line failure.now) }
{
    let _ = errors.send(line.as_bytes());
    failure.status()
}
