//! A stream that is not called again once a call of it has failed.
ghost use Rattle.std.specs.Prelude.{◌≡◌, ◌<◌, ◌||◌, length, false, is_err, IfOk, OnOk};
ghost use Rattle.std.specs.Io.{ReadsAtMost, WritesAtMost};
ghost use Rattle.std.specs.Io.KnownBytes.{Appends, Keeps, ReadConsumes, WriteAppends};
ghost use Rattle.mb_streams.specs.Written.{AppendsBeginning};

use crate::flush::Flush;
use std::io;
use std::io::{ErrorKind, Read};
use std::marker::Model;

/// A stream with a flag that a call of it has failed. Then no other call of it is made.
#[derive(Drop)]
pub struct TrackedStream<S> {
    stream: S,
    failed: bool,
}

impl<S> Model for TrackedStream<S> {
    ghost use Rattle.mb_streams.specs.Tracking.{Watching};

    ghost Value = { Watching S };

    ghost view = { λ w. record { stream = w.stream; failed = w.failed } };
}

impl<S: Drop> TrackedStream<S> {
    /// The stream, with no call that failed.
    pub fn new(stream: S) -> Self
        ensures stream { result.stream ≡ stream }
        ensures not_failed { result.failed ≡ false }
    {
        TrackedStream {
            stream,
            failed: false,
        }
    }
}

impl<R: Read> TrackedStream<R> {
    /// Reads some bytes: none at the end of the stream or where `buf` is empty. An error is the stream's own.
    pub fn read(&mut self, buf: &mut [u8]) -> io::Result<usize>
        requires working { self.old.failed ≡ false }
        ensures bound { ReadsAtMost result buf.new }
        ensures bytes { ReadConsumes (R.remaining self.old.stream) (R.remaining self.new.stream) result buf.new }
        ensures watched { self.new.failed ≡ (self.old.failed || is_err result) }
    {
        let result = self.stream.read(buf);
        self.failed = self.failed || result.is_err();
        result
    }
}

impl<W: Flush> TrackedStream<W> {
    /// Writes some of the bytes, at least one where there is one. An error is the stream's own, or `WriteZero` where
    /// the stream takes none.
    fn write(&mut self, bytes: &[u8]) -> io::Result<usize>
        requires working { self.old.failed ≡ false }
        ensures bound { WritesAtMost result bytes.now }
        ensures progress { IfOk result (λ count. 0 < length bytes.now → 0 < count) }
        ensures bytes { WriteAppends (W.contents self.old.stream) (W.contents self.new.stream) result bytes.now }
        ensures watched { self.new.failed ≡ (self.old.failed || is_err result) }
    {
        let result = match self.stream.write(bytes) {
            Ok(0) if !bytes.is_empty() => Err(ErrorKind::WriteZero.into()),
            result => result,
        };
        self.failed = self.failed || result.is_err();
        result
    }

    /// Flushes the stream. An error is the stream's own.
    fn flush(&mut self) -> io::Result<()>
        requires working { self.old.failed ≡ false }
        ensures bytes { Keeps (W.contents self.old.stream) (W.contents self.new.stream) }
        ensures flushed { OnOk result (W.IsFlushed self.new.stream) }
        ensures watched { self.new.failed ≡ (self.old.failed || is_err result) }
    {
        let result = self.stream.flush_written();
        self.failed = self.failed || result.is_err();
        result
    }

    /// Writes all the bytes, once, and flushes the stream. At the first error, also of the flush, it stops and answers that error: a prefix
    /// of the bytes was written then.
    pub fn send(&mut self, bytes: &[u8]) -> io::Result<()>
        requires working { self.old.failed ≡ false }
        ensures whole { OnOk result (Appends (W.contents self.old.stream) (W.contents self.new.stream) bytes.now) }
        ensures flushed { OnOk result (W.IsFlushed self.new.stream) }
        ensures part { AppendsBeginning (W.contents self.old.stream) (W.contents self.new.stream) bytes.now }
        ensures watched { self.new.failed ≡ (self.old.failed || is_err result) }
    {
        let mut sent = 0;
        while sent < bytes.len() {
            match self.write(&bytes[sent..]) {
                Ok(count) => sent += count,
                Err(error) => return Err(error),
            }
        }
        self.flush()
    }
}
