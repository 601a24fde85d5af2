//! Writing bytes so that it is known what was written where writing fails.
ghost use Rattle.std.specs.Prelude.{◌≡◌, IfSome};
ghost use Rattle.std.specs.Io.{WritesAtMost};
ghost use Rattle.std.specs.Io.KnownBytes.{WriteAppends};
ghost use Rattle.mb_trace.specs.Output.{IsWritten};

use crate::error::TraceError;
use std::alloc::Global;
use std::fmt::Display;
use std::io;
use std::io::{ErrorKind, Write};

/// Writes the text of a line, or of lines. The errors: memory was refused, or writing failed after a beginning of the text.
pub(crate) fn write_lines<L: Display, W: Write>(
    alloc: Global,
    lines: &L,
    out: &mut W,
) -> Result<(), TraceError>
    ensures { IfSome (L.output lines.now) (λ text. IsWritten (W.contents out.old) (W.contents out.new) result text) }
{
    let text = lines.to_string(alloc)?;
    write_whole(out, text.as_bytes())?;
    Ok(())
}

/// Writes all the bytes. A call that was interrupted is made again. At another error it stops: a beginning of the bytes was written then.
pub fn write_whole<W: Write>(out: &mut W, bytes: &[u8]) -> io::Result<()>
    ensures { IsWritten (W.contents out.old) (W.contents out.new) result bytes.now }
{
    let mut written = 0;
    for _turn in 0..u64::MAX {
        if written >= bytes.len() {
            return Ok(());
        }
        written += write_some(out, &bytes[written..])?;
    }
    Err(ErrorKind::Other.into())
}

/// Writes some of the bytes: none where the call was interrupted. An error is the writer's own, or `WriteZero` where it takes none.
fn write_some<W: Write>(out: &mut W, bytes: &[u8]) -> io::Result<usize>
    ensures bound { WritesAtMost result bytes.now }
    ensures bytes { WriteAppends (W.contents out.old) (W.contents out.new) result bytes.now }
{
    match out.write(bytes) {
        Ok(0) if !bytes.is_empty() => Err(ErrorKind::WriteZero.into()),
        Ok(count) => Ok(count),
        Err(error) => {
            if error.kind() == ErrorKind::Interrupted {
                return Ok(0);
            }
            Err(error)
        }
    }
}
