//! Why a trace was not written.
ghost use Rattle.std.specs.Prelude.{◌≡◌};

use std::alloc::AllocError;
use std::io;
use std::io::ErrorKind;

/// Why a trace was not written to its end.
#[derive(Clone, Copy, Debug, PartialEq, Eq, thiserror::Error)]
pub enum TraceError {
    /// Memory was refused.
    #[error("memory was refused")]
    NoMemory,
    /// Whoever reads the output has closed it.
    #[error("whoever reads the output has closed it")]
    Closed,
    /// Writing failed.
    #[error("writing failed")]
    Os,
}

impl From<AllocError> for TraceError {
    ghost use Rattle.mb_trace.specs.declared.error.TraceError.TheVariants.{NoMemory};

    ghost from_gives = { λ _ error. error ≡ NoMemory };

    fn from(_refused: AllocError) -> TraceError {
        TraceError::NoMemory
    }
}

impl From<io::Error> for TraceError {
    ghost use Rattle.std.specs.Prelude.{◌↔◌};
    ghost use Rattle.std.specs.IoError.{error_kind};
    ghost use Rattle.std.specs.declared.io.ErrorKind.TheVariants as kind;
    ghost use Rattle.mb_trace.specs.declared.error.TraceError.TheVariants.{Closed, NoMemory};

    // a full disk is no closed pipe
    ghost from_gives = { λ failure error. ((error ≡ Closed) ↔ (error_kind failure ≡ kind.BrokenPipe))
        × ((error ≡ NoMemory) ↔ (error_kind failure ≡ kind.OutOfMemory)) };

    fn from(error: io::Error) -> TraceError {
        match error.kind() {
            ErrorKind::BrokenPipe => TraceError::Closed,
            ErrorKind::OutOfMemory => TraceError::NoMemory,
            _ => TraceError::Os,
        }
    }
}
