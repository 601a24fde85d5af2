//! Whole runs, from bytes to bytes.
use mb_msg::JournalMode;
use mb_program::{TrackedStream, run_program};
use std::alloc::Global;
use std::io::{Read, Write};
use std::process::Abort;
use std::sync::Wait;
use std::thread::Threads;

/// Three messages to an actor that adds them up.
pub const COUNT: &str = r#"workers = 0
[[actor]]
name = "a"
[[actor.on]]
kind = 1
do = ["add"]
[[send]]
to = "a"
kind = 1
value = 1
[[send]]
to = "a"
kind = 1
value = 2
[[send]]
to = "a"
kind = 1
value = 3
"#;

pub const COUNT_REPORT: &str = "guardian live state - suspended 0 handled 0 left 0 dead 0 restarts 0
a live state 6 suspended 0 handled 3 left 0 dead 0 restarts 0
sent 3 handled 3 left 0 dead 0
";

/// What a run of the program leaves: the status, standard output and the error output.
#[derive(Drop)]
pub struct Outcome {
    pub status: u8,
    pub written: Vec<u8>,
    pub errors: Vec<u8>,
}

/// Checks the status of a run, and that this and nothing else is on both outputs.
pub fn see<T: Abort>(rt: &T, found: &Outcome, status: u8, written: &[u8], errors: &[u8]) {
    same_bytes(rt, &found.errors, errors);
    assert!(rt; found.status == status);
    same_bytes(rt, &found.written, written);
}

/// Checks that it is so, with this many bytes.
pub fn see_at<T: Abort>(rt: &T, is_so: bool, bytes: usize) {
    assert!(rt; is_so, "with {bytes} bytes");
}

/// Checks that these bytes were found.
pub fn same_bytes<T: Abort>(rt: &T, found: &[u8], wanted: &[u8]) {
    assert_eq!(rt; found, wanted);
}

/// Runs the program on a reader.
pub fn ran<T: Threads + Wait + Sync, I: Read>(
    rt: &T,
    alloc: Global,
    arguments: usize,
    reader: &mut I,
) -> Outcome {
    let mut written = Vec::new(alloc);
    let mut errors = Vec::new(alloc);
    let status = status_of(rt, alloc, arguments, reader, &mut written, &mut errors);
    Outcome {
        status,
        written,
        errors,
    }
}

/// Runs the program on these streams: its status. Tests call it in place of `run_program`, since each call of that is costly to prove.
pub fn status_of<T: Threads + Wait + Sync, I: Read, O: Write, E: Write>(
    rt: &T,
    alloc: Global,
    arguments: usize,
    reader: &mut I,
    writer: &mut O,
    errors: &mut E,
) -> u8 {
    run_program(
        rt,
        alloc,
        arguments,
        JournalMode::Counted,
        &mut TrackedStream::new(reader),
        &mut TrackedStream::new(writer),
        &mut TrackedStream::new(errors),
    )
}

/// The same of a text, without arguments.
pub fn driven<T: Threads + Wait + Sync>(rt: &T, alloc: Global, text: &[u8]) -> Outcome {
    let mut rest = text;
    ran(rt, alloc, 0, &mut rest)
}

/// Checks that the text is run, and that this report and nothing else is written.
pub fn comes_to<T: Abort + Threads + Wait + Sync>(rt: &T, alloc: Global, text: &str, report: &str) {
    let found = driven(rt, alloc, text.as_bytes());
    see(rt, &found, 0, report.as_bytes(), b"");
}

/// Checks that the text is refused with the status 2 and this line, and that nothing is written.
pub fn is_refused<T: Abort + Threads + Wait + Sync>(
    rt: &T,
    alloc: Global,
    text: &[u8],
    line: &str,
) {
    see(rt, &driven(rt, alloc, text), 2, b"", line.as_bytes());
}
