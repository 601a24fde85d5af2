//! Why there is no list of outcomes.
ghost use Rattle.std.specs.Prelude.{◌≡◌};
ghost use Rattle.mb_explore.specs.Errors.{error_of};
ghost use Rattle.mb_explore.specs.declared.explore_error.ExploreError.TheVariants.{NoMemory};

use mb_world::StepError;
use std::alloc::{AllocError, AllocFailed};

/// Why a system was not explored.
#[derive(Clone, Copy, Debug, PartialEq, Eq)]
pub enum ExploreError {
    /// There are not as many names as actors.
    WrongNames,
    /// There are more actors or senders than a plan may have, or longer journals.
    TooLarge,
    /// A step was not possible that was possible when the same steps before it were made another time: the system does not begin the same each
    /// time, or an actor does not do the same each time.
    NotRepeated,
    /// A journal had as many entries as it may have.
    JournalFull,
    /// Memory was refused.
    NoMemory,
}

impl From<StepError> for ExploreError {
    ghost from_gives = { λ refused error. error ≡ error_of refused };

    fn from(error: StepError) -> ExploreError {
        match error {
            StepError::NotPossible => ExploreError::NotRepeated,
            StepError::JournalFull => ExploreError::JournalFull,
            StepError::NoMemory => ExploreError::NoMemory,
        }
    }
}

impl From<AllocError> for ExploreError {
    ghost from_gives = { λ _ error. error ≡ NoMemory };

    fn from(_: AllocError) -> ExploreError {
        ExploreError::NoMemory
    }
}

impl<T: Drop> From<AllocFailed<T>> for ExploreError {
    ghost from_gives = { λ _ error. error ≡ NoMemory };

    fn from(_: AllocFailed<T>) -> ExploreError {
        ExploreError::NoMemory
    }
}
