//! The program, from the bytes of its input to those of its output.
ghost use Rattle.std.specs.Prelude.{◌≡◌, ◌<◌, ◌≤◌, false, Err, IfOk, IfErr, string_bytes};
ghost use Rattle.mb_streams.specs.Input.{most_read, TakesAtMost};
ghost use Rattle.mb_streams.specs.declared.program_error.ProgramError.TheVariants.{Arguments};
ghost use Rattle.mb_program.specs.Answer.{IsAnswer, IsMet};
ghost use Rattle.mb_program.specs.HasRun.{RunsProgram};

use crate::answer::answer;
use mb_msg::JournalMode;
use mb_streams::{Flush, ProgramError, TrackedStream, read_input, write_report};
use std::alloc::Global;
use std::io::Read;
use std::sync::Wait;
use std::thread::Threads;

/// The whole program: reads a scenario, runs it with journals that keep this, and writes its report. The answer is the exit status: 0 with the report written,
/// 2 where there are arguments beside the program's own path, or the input is no scenario, and 1 where the run failed, memory was
/// refused, reading failed, or writing did. But for the report nothing is written on `writer`; on a failure `errors` gets one line
/// that says which, if it can be written.
pub fn run_program<T: Threads + Wait + Sync, R: Read, W: Flush, E: Flush>(
    rt: &T,
    alloc: Global,
    arguments: usize,
    journal: JournalMode,
    reader: &mut TrackedStream<R>,
    writer: &mut TrackedStream<W>,
    errors: &mut TrackedStream<E>,
) -> u8
    requires reader { reader.old.failed ≡ false }
    requires writer { writer.old.failed ≡ false }
    requires errors { errors.old.failed ≡ false }
    ensures status { result ≤ 2 }
    ensures ran { RunsProgram journal arguments R.remaining W.contents W.IsFlushed E.contents reader.old reader.new writer.old writer.new
        errors.old errors.new result }
{
    let report = answer_to(rt, alloc, arguments, journal, reader);
    write_report(alloc, writer, errors, &report)
}

/// The report of the scenario that the reader gives. With arguments there is none, and the reader is not called.
fn answer_to<T: Threads + Wait + Sync, R: Read>(
    rt: &T,
    alloc: Global,
    arguments: usize,
    journal: JournalMode,
    reader: &mut TrackedStream<R>,
) -> Result<String, ProgramError>
    requires reader { reader.old.failed ≡ false }
    ensures refused { 0 < arguments → result ≡ Err Arguments }
    ensures unread { 0 < arguments → reader.new ≡ reader.old }
    ensures taken { TakesAtMost most_read (R.remaining reader.old.stream) (R.remaining reader.new.stream) }
    ensures report { IfOk result (λ report. (arguments ≡ 0) × (reader.new.failed ≡ false)
        × IsAnswer journal (R.remaining reader.old.stream) (string_bytes report)) }
    ensures failure { IfErr result (IsMet arguments (R.remaining reader.old.stream) reader.new.failed) }
{
    if arguments > 0 {
        return Err(ProgramError::Arguments);
    }
    let text = read_input(alloc, reader)?;
    Ok(answer(rt, alloc, &text, journal)?)
}
