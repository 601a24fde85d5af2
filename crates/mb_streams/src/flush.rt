//! Writers of which contracts can say that they were flushed.
ghost use Rattle.std.specs.Prelude.{OnOk, ⊤};
ghost use Rattle.std.specs.Io.KnownBytes.{Keeps};

use std::io;
use std::io::Write;

/// A writer that can say of itself that it was flushed.
pub trait Flush: Write {
    /// All that was written before has been handed on. The contracts of std say nothing of it, so of a writer of std it says
    /// nothing; but who knows no more of a writer than this trait can show it by a flush alone.
    ghost IsFlushed: { Self → Type 0 } = { λ _. ⊤ };

    /// Flushes the writer. An error is the writer's own.
    fn flush_written(&mut self) -> io::Result<()>
        ensures bytes { Keeps (Self.contents self.old) (Self.contents self.new) }
        ensures flushed { OnOk result (IsFlushed self.new) };
}

impl<W: Write> Flush for W {
    fn flush_written(&mut self) -> io::Result<()> {
        self.flush()
    }
}
