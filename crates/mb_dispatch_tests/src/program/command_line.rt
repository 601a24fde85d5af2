//! Arguments: there may be none.
use crate::program::driven::{COUNT, ran, same_bytes, see};
use mb_streams::argument_count;
use std::alloc::Global;
use std::env::{Env, FillError};
use std::process::Abort;
use std::sync::Wait;
use std::thread::Threads;

/// Arguments as a system gives them: bytes, the program's own path first.
#[derive(Drop)]
struct Given<'a> {
    words: &'a [&'a [u8]],
}

impl Env for Given<'_> {
    fn arg(&self, i: usize, buf: &mut [u8]) -> Result<usize, FillError> {
        match self.words.get(i) {
            Some(word) if word.len() <= buf.len() => Ok(word.len()),
            Some(_) => Err(FillError::TooLong),
            None => Err(FillError::NotPresent),
        }
    }

    fn var(&self, _name: &str, _buf: &mut [u8]) -> Result<usize, FillError> {
        Err(FillError::NotPresent)
    }

    fn var_at(&self, _i: usize, _buf: &mut [u8]) -> Result<usize, FillError> {
        Err(FillError::NotPresent)
    }
}

/// Checks that so many arguments are too many, and that nothing is read then.
fn are_too_many<T: Abort + Threads + Wait + Sync>(rt: &T, alloc: Global, count: usize) {
    let mut rest = COUNT.as_bytes();
    let found = ran(rt, alloc, count, &mut rest);
    let line = b"mailrun: 12 BadScenario arguments: too many\n";
    see(rt, &found, 2, b"", line);
    same_bytes(rt, rest, COUNT.as_bytes());
}

#[test]
fn arguments(rt: HostRuntime) {
    are_too_many(&rt, rt.alloc(), 1);
    are_too_many(&rt, rt.alloc(), 2);
    are_too_many(&rt, rt.alloc(), usize::MAX);
}

/// Checks that so many arguments are counted of these words.
fn are_counted<T: Abort>(rt: &T, words: &[&[u8]], count: usize) {
    assert!(rt; argument_count(&Given { words }) == count);
}

#[test]
fn counting_arguments(rt: HostRuntime) {
    are_counted(&rt, &[], 0);
    are_counted(&rt, &[b"mailrun"], 0);
    are_counted(&rt, &[b"\xff\xff"], 0);
    are_counted(&rt, &[b"mailrun", b""], 1);
    are_counted(&rt, &[b"mailrun", b"\xff", b"x"], 2);
}
