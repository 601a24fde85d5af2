//! Reading the input.
ghost use Rattle.std.specs.Prelude.{◌≡◌, false, IfOk, MatchResult};
ghost use Rattle.mb_streams.specs.Input.{most_read, IsRead, IsReadFailure, TakesAtMost};

use crate::program_error::ProgramError;
use crate::tracked_stream::TrackedStream;
use std::alloc::Global;
use std::io::Read;

/// The most bytes of the input that are read: one more than a scenario may have.
const MOST_READ: usize = 1_048_577;

/// How many bytes are asked for at a time.
const CHUNK: usize = 8192;

/// Reads to the end of the input, or until there is one byte more than a scenario may have. The first error of the
/// reader is `Os`; memory that is refused is `Input(NoMemory)`.
pub fn read_input<R: Read>(
    alloc: Global,
    reader: &mut TrackedStream<R>,
) -> Result<Vec<u8>, ProgramError>
    requires reader { reader.old.failed ≡ false }
    ensures text { IfOk result (λ text. IsRead (R.remaining reader.old.stream) text.items) }
    ensures taken { TakesAtMost most_read (R.remaining reader.old.stream) (R.remaining reader.new.stream) }
    ensures failure { MatchResult result (λ _. reader.new.failed ≡ reader.old.failed) (IsReadFailure reader.old.failed reader.new.failed) }
{
    let mut text = Vec::new(alloc);
    let mut chunk = [0; CHUNK];
    while text.len() < MOST_READ {
        let room = CHUNK.min(MOST_READ - text.len());
        let count = match reader.read(&mut chunk[..room]) {
            Ok(count) => count,
            Err(_) => return Err(ProgramError::Os),
        };
        if count == 0 {
            return Ok(text);
        }
        text.extend_from_slice(&chunk[..count])?;
    }
    Ok(text)
}
