//! The program of a process.
ghost use Rattle.std.specs.Prelude.{◌≡◌, false};
ghost use Rattle.std.specs.Process.{exit_status};
ghost use Rattle.mb_program.specs.HasRun.{HasRun};

use crate::drive::run_program;
use mb_msg::JournalMode;
use mb_streams::{Arguments, Flush, Streams, argument_count};
use std::alloc::Global;
use std::io::{Eprint, Read};
use std::marker::Model;
use std::process::{ExitCode, Termination};
use std::sync::Wait;
use std::thread::Threads;

/// The end of a process that ran the program. Only `run_process` makes one, so a `main` that answers one has run the program, and
/// ends with its status.
#[derive(Drop)]
pub struct ProgramExit {
    code: ExitCode,
}

impl Model for ProgramExit {
    ghost use Rattle.std.specs.declared.process.ExitCode.{ExitCode};

    ghost Value = { ExitCode };

    ghost view = { λ e. e.code };
}

impl Termination for ProgramExit {
    fn report<R: Eprint>(self, _rt: &R) -> ExitCode
        ensures { result ≡ self }
    {
        self.code
    }
}

/// Runs the program (`run_program`) for a process: with as many arguments as it has, on these streams of it, with journals that keep
/// this. The process ends with the program's status.
pub fn run_process<T: Threads + Wait + Sync + Arguments, R: Read, W: Flush, E: Flush>(
    rt: &T,
    alloc: Global,
    journal: JournalMode,
    streams: &mut Streams<R, W, E>,
) -> ProgramExit
    requires input { streams.old.input.failed ≡ false }
    requires output { streams.old.output.failed ≡ false }
    requires errors { streams.old.errors.failed ≡ false }
    ensures { HasRun journal (T.count rt.now) R.remaining W.contents W.IsFlushed E.contents streams.old.input streams.new.input
        streams.old.output streams.new.output streams.old.errors streams.new.errors (exit_status result) }
{
    let status = run_program(
        rt,
        alloc,
        argument_count(rt),
        journal,
        &mut streams.input,
        &mut streams.output,
        &mut streams.errors,
    );
    ProgramExit {
        code: ExitCode::from(status),
    }
}
