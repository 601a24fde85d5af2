//! Why a run gave no report.
ghost use Rattle.std.specs.Prelude.{◌≡◌};

use std::alloc::AllocError;

/// Why a run gave no report.
#[derive(Clone, Copy, Debug, PartialEq, Eq)]
pub enum RunFault {
    /// Memory was refused.
    NoMemory,
    /// The journal of an actor has as many entries as it may have.
    JournalFull,
    /// The parts of the system do not agree at the end.
    Mismatch,
}

impl From<AllocError> for RunFault {
    ghost use Rattle.mb_streams.specs.declared.fault.RunFault.TheVariants.{NoMemory};

    ghost from_gives = { λ _ fault. fault ≡ NoMemory };

    fn from(_refused: AllocError) -> RunFault {
        RunFault::NoMemory
    }
}
