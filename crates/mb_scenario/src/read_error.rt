//! The errors of reading a scenario.
ghost use Rattle.std.specs.Prelude.{◌≡◌, Some};
ghost use Rattle.mb_scenario.specs.ReadError.{read_error_text};
ghost use Rattle.mb_scenario.specs.declared.read_error.ReadError.TheVariants.{NoMemory};

use mb_schema::Reason;
use std::alloc::{AllocError, AllocFailed};
use std::fmt;
use thiserror::Error;

/// Why a text is not a scenario. Its `Display` is its number, its name, the place and the reason, as `12 BadScenario
/// actor 2 name: repeated name`.
#[derive(Debug, Drop, Error)]
pub enum ReadError {
    /// Memory was refused.
    NoMemory,
    /// The text is not UTF-8 or not a TOML document.
    NotToml,
    /// The document fails a check: the place and the reason of the first check that fails.
    BadScenario { place: String, reason: Reason },
}

impl fmt::Display for ReadError {
    ghost output = { λ fault. Some (read_error_text fault) };

    fn fmt<W: fmt::Write>(&self, f: &mut fmt::Formatter<W>) -> fmt::Result {
        match self {
            ReadError::NoMemory => f.write_str("1 NoMemory"),
            ReadError::NotToml => f.write_str("11 NotToml"),
            ReadError::BadScenario { place, reason } => {
                write!(f, "12 BadScenario {place}: {reason}")
            }
        }
    }
}

impl From<AllocError> for ReadError {
    ghost from_gives = { λ _ fault. fault ≡ NoMemory };

    fn from(_refused: AllocError) -> ReadError {
        ReadError::NoMemory
    }
}

impl<T: Drop> From<AllocFailed<T>> for ReadError {
    ghost from_gives = { λ _ fault. fault ≡ NoMemory };

    fn from(_refused: AllocFailed<T>) -> ReadError {
        ReadError::NoMemory
    }
}
