//! The end of the program: it writes its report, or prints why there is none.
ghost use Rattle.std.specs.Prelude.{◌≡◌, ◌≤◌, false, IfErr, IfOk, string_bytes};
ghost use Rattle.mb_streams.specs.ReportOutput.{IsHandedOut};
ghost use Rattle.mb_streams.specs.ErrorLine.{IsRefusal};

use crate::flush::Flush;
use crate::program_error::ProgramError;
use crate::refusal::print_failure;
use crate::tracked_stream::TrackedStream;
use std::alloc::Global;

/// Writes the report, or prints why there is none, and answers the exit status: 0 where the whole report was written.
/// Where it cannot be written, the failure is `Os`.
pub fn write_report<W: Flush, E: Flush>(
    alloc: Global,
    writer: &mut TrackedStream<W>,
    errors: &mut TrackedStream<E>,
    report: &Result<String, ProgramError>,
) -> u8
    requires writer { writer.old.failed ≡ false }
    requires errors { errors.old.failed ≡ false }
    ensures status { result ≤ 2 }

    // A report is written; the stream for errors is called only where that failed.
    ensures report { IfOk report.now (λ report. IsHandedOut W.contents E.contents (string_bytes report) result writer.old writer.new errors.old errors.new) }

    // With the status 0 the writer was flushed at the end.
    ensures flushed { result ≡ 0 → W.IsFlushed writer.new.stream }

    // Of a failure the line is printed, and the writer is not called.
    ensures unwritten { IfErr report.now (λ _. writer.new ≡ writer.old) }
    ensures refused { IfErr report.now (λ failure. IsRefusal failure result (E.contents errors.old.stream) (E.contents errors.new.stream) errors.new.failed) }
{
    match report {
        Ok(report) => match writer.send(report.as_bytes()) {
            Ok(()) => 0,
            Err(_) => print_failure(alloc, errors, &ProgramError::Os),
        },
        Err(failure) => print_failure(alloc, errors, failure),
    }
}
