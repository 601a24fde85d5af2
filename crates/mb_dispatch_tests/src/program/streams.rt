//! What becomes of streams that fail.
use crate::program::driven::{
    COUNT, COUNT_REPORT, Outcome, ran, same_bytes, see, see_at, status_of,
};
use std::alloc::Global;
use std::io;
use std::io::{Read, Write};
use std::process::Abort;
use std::sync::Wait;
use std::thread::Threads;

/// What is said of a text that is no TOML.
const REFUSED: &[u8] = b"mailrun: 11 NotToml\n";

/// A reader that gives one byte at a time, and fails once it was read so often.
#[derive(Drop)]
struct Stumbling<'a> {
    text: &'a [u8],
    reads: usize,
}

impl Read for Stumbling<'_> {
    fn read(&mut self, buf: &mut [u8]) -> io::Result<usize> {
        if self.reads == 0 {
            return Err(io::Error::from(io::ErrorKind::Other));
        }
        self.reads -= 1;
        let Some((first, rest)) = self.text.split_first() else {
            return Ok(0);
        };
        if buf.is_empty() {
            return Ok(0);
        }
        buf[0] = *first;
        self.text = rest;
        Ok(1)
    }
}

/// A writer that takes three bytes at a time, and only so many; then it fails, or takes nothing more.
#[derive(Drop)]
struct Narrow {
    taken: Vec<u8>,
    room: usize,
    fails: bool,
}

impl Write for Narrow {
    fn write(&mut self, buf: &[u8]) -> io::Result<usize> {
        let count = buf.len().min(3).min(self.room);
        if count == 0 && self.fails {
            return Err(io::Error::from(io::ErrorKind::Other));
        }
        self.taken.extend_from_slice(&buf[..count])?;
        self.room -= count;
        Ok(count)
    }

    fn flush(&mut self) -> io::Result<()> {
        Ok(())
    }
}

/// A writer that takes everything, and fails at each flush or at none.
#[derive(Drop)]
struct Flushing {
    taken: Vec<u8>,
    flushes: u32,
    fails: bool,
}

impl Write for Flushing {
    fn write(&mut self, buf: &[u8]) -> io::Result<usize> {
        self.taken.extend_from_slice(buf)?;
        Ok(buf.len())
    }

    fn flush(&mut self) -> io::Result<()> {
        self.flushes = self.flushes.saturating_add(1);
        if self.fails {
            return Err(io::Error::from(io::ErrorKind::Other));
        }
        Ok(())
    }
}

/// Reads the example by single bytes, and fails once it was read so often.
fn read_by_bytes<T: Threads + Wait + Sync>(rt: &T, alloc: Global, reads: usize) -> Outcome {
    let mut reader = Stumbling {
        text: COUNT.as_bytes(),
        reads,
    };
    ran(rt, alloc, 0, &mut reader)
}

#[test]
fn a_reader_that_fails(rt: HostRuntime) {
    for reads in 0..=COUNT.len() {
        let found = read_by_bytes(&rt, rt.alloc(), reads);
        see(&rt, &found, 1, b"", b"mailrun: 2 Os\n");
    }
}

#[test]
fn a_reader_of_single_bytes(rt: HostRuntime) {
    let found = read_by_bytes(&rt, rt.alloc(), COUNT.len() + 1);
    assert!(rt; found.status == 0);
    same_bytes(&rt, &found.written, COUNT_REPORT.as_bytes());
}

/// Such a writer, which took nothing yet.
fn narrow_writer(alloc: Global, room: usize, fails: bool) -> Narrow {
    Narrow {
        taken: Vec::new(alloc),
        room,
        fails,
    }
}

/// Runs a text with so much room on standard output and on the error output.
fn with_room<T: Threads + Wait + Sync>(
    rt: &T,
    alloc: Global,
    text: &[u8],
    room: usize,
    error_room: usize,
    fails: bool,
) -> Outcome {
    let mut rest = text;
    let mut writer = narrow_writer(alloc, room, fails);
    let mut errors = narrow_writer(alloc, error_room, fails);
    let status = status_of(rt, alloc, 0, &mut rest, &mut writer, &mut errors);
    Outcome {
        status,
        written: writer.taken,
        errors: errors.taken,
    }
}

/// Checks that so many of these bytes were found, from the first one on.
fn is_start<T: Abort>(rt: &T, found: &[u8], whole: &[u8], count: usize) {
    assert!(rt; found.len() == count && whole.starts_with(found));
}

/// Gives so much room for the report of the example, whose writer then fails, or takes nothing more.
fn try_output<T: Abort + Threads + Wait + Sync>(rt: &T, alloc: Global, room: usize, fails: bool) {
    let found = with_room(rt, alloc, COUNT.as_bytes(), room, 100, fails);
    see_at(rt, found.status == 1, room);
    is_start(rt, &found.written, COUNT_REPORT.as_bytes(), room);
    same_bytes(rt, &found.errors, b"mailrun: 2 Os\n");
}

/// Gives so much room for the line of a text that is refused.
fn try_line<T: Abort + Threads + Wait + Sync>(rt: &T, alloc: Global, room: usize, fails: bool) {
    let found = with_room(rt, alloc, b"[", 100, room, fails);
    see_at(rt, found.status == 2, room);
    same_bytes(rt, &found.written, b"");
    is_start(rt, &found.errors, REFUSED, room);
}

fn try_each_room<T: Abort + Threads + Wait + Sync>(rt: &T, alloc: Global, fails: bool) {
    for room in 0..COUNT_REPORT.len() {
        try_output(rt, alloc, room, fails);
    }
    for room in 0..REFUSED.len() {
        try_line(rt, alloc, room, fails);
    }
}

#[test]
fn a_writer_that_fails(rt: HostRuntime) {
    try_each_room(&rt, rt.alloc(), false);
    try_each_room(&rt, rt.alloc(), true);
}

/// Gives just enough room for the report of the example, and none for errors.
fn try_enough<T: Abort + Threads + Wait + Sync>(rt: &T, alloc: Global, fails: bool) {
    let report = COUNT_REPORT.as_bytes();
    let found = with_room(rt, alloc, COUNT.as_bytes(), report.len(), 0, fails);
    see(rt, &found, 0, report, b"");
}

#[test]
fn a_writer_with_room(rt: HostRuntime) {
    try_enough(&rt, rt.alloc(), false);
    try_enough(&rt, rt.alloc(), true);
}

/// Checks that the report is flushed once.
fn try_flush<T: Abort + Threads + Wait + Sync>(rt: &T, alloc: Global, fails: bool) {
    let mut rest = COUNT.as_bytes();
    let mut writer = Flushing {
        taken: Vec::new(alloc),
        flushes: 0,
        fails,
    };
    let mut errors = Vec::new(alloc);
    let status = status_of(rt, alloc, 0, &mut rest, &mut writer, &mut errors);
    assert!(rt; status == u8::from(fails) && errors.is_empty() == !fails && writer.flushes == 1);
    same_bytes(rt, &writer.taken, COUNT_REPORT.as_bytes());
}

#[test]
fn flushes(rt: HostRuntime) {
    try_flush(&rt, rt.alloc(), false);
    try_flush(&rt, rt.alloc(), true);
}
