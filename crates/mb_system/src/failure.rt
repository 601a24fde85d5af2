//! Why a run was broken off.
ghost use Rattle.std.specs.Prelude.{◌≡◌};
ghost use Rattle.mb_system.specs.RunErrors.{of_ready, of_refused, of_send};

use mb_journal::ReadyError;
use mb_register::StillRefused;
use mb_send::SendError;

/// Why a run was broken off.
#[derive(Clone, Copy, Debug, PartialEq, Eq)]
pub enum RunError {
    /// Memory was refused, or the pool refused a claim again.
    NoMemory,
    /// The journal of an actor has as many entries as it may have.
    JournalFull,
    /// A job sends to an actor that does not exist.
    NoSuchActor,
}

/// `NoMemory`: the run queue refused a claim again.
impl From<StillRefused> for RunError {
    ghost from_gives = { λ refused error. error ≡ of_refused refused };

    fn from(_refused: StillRefused) -> RunError {
        RunError::NoMemory
    }
}

/// The error of a run of a mailbox, by the same name.
impl From<ReadyError> for RunError {
    ghost from_gives = { λ ready error. error ≡ of_ready ready };

    fn from(ready: ReadyError) -> RunError {
        match ready {
            ReadyError::NoMemory => RunError::NoMemory,
            ReadyError::JournalFull => RunError::JournalFull,
        }
    }
}

/// The error of a sender, by the same name.
impl From<SendError> for RunError {
    ghost from_gives = { λ send error. error ≡ of_send send };

    fn from(send: SendError) -> RunError {
        match send {
            SendError::NoMemory => RunError::NoMemory,
            SendError::NoSuchActor => RunError::NoSuchActor,
        }
    }
}
