//! Why a step was not made.
ghost use Rattle.std.specs.Prelude.{◌≡◌, ◌≢◌};
ghost use Rattle.mb_world.specs.declared.step_error.StepError.TheVariants.{NotPossible, NoMemory};

use mb_journal::ReadyError;
use std::alloc::AllocError;

/// Why a step was not made, or not to its end.
#[derive(Clone, Copy, Debug, PartialEq, Eq)]
pub enum StepError {
    /// It is none of those that are possible now. Nothing has changed.
    NotPossible,
    /// The actor's journal has as many entries as it may have. The run of its mailbox ended there.
    JournalFull,
    /// Memory was refused in the step.
    NoMemory,
}

/// Why the run of a mailbox ended early.
#[derive(Clone, Copy, Debug, PartialEq, Eq)]
pub(crate) enum RunError {
    /// The actor's journal has as many entries as it may have.
    JournalFull,
    /// Memory was refused.
    NoMemory,
}

impl From<RunError> for StepError {
    ghost from_gives = { λ _ e. e ≢ NotPossible };

    fn from(error: RunError) -> StepError {
        match error {
            RunError::JournalFull => StepError::JournalFull,
            RunError::NoMemory => StepError::NoMemory,
        }
    }
}

impl From<AllocError> for StepError {
    ghost from_gives = { λ _ e. e ≡ NoMemory };

    fn from(_: AllocError) -> StepError {
        StepError::NoMemory
    }
}

impl From<ReadyError> for RunError {
    fn from(error: ReadyError) -> RunError {
        match error {
            ReadyError::JournalFull => RunError::JournalFull,
            ReadyError::NoMemory => RunError::NoMemory,
        }
    }
}

impl From<AllocError> for RunError {
    fn from(_: AllocError) -> RunError {
        RunError::NoMemory
    }
}
