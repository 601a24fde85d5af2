//! Why the program ends without a report.
ghost use Rattle.std.specs.Prelude.{◌≡◌};
ghost use Rattle.mb_streams.specs.declared.program_error.ProgramError.TheVariants.{Input, Run};
ghost use Rattle.mb_scenario.specs.declared.read_error.ReadError.TheVariants.{NoMemory};
ghost use Rattle.mb_streams.specs.ProgramError.{exit_status};

use crate::fault::RunFault;
use mb_scenario::ReadError;
use std::alloc::{AllocError, AllocFailed};

/// Why the program ends without a report.
#[derive(Drop)]
pub enum ProgramError {
    /// Reading the input or writing the output failed.
    Os,
    /// There are arguments, but the program takes none.
    Arguments,
    /// The run of the scenario gave no report.
    Run(RunFault),
    /// The input is no scenario, or the memory was refused to read it or to write the report.
    Input(ReadError),
}

impl ProgramError {
    /// The exit status: 2 where what the program was given is wrong, else 1.
    pub fn status(&self) -> u8
        ensures { result ≡ exit_status self.now }
    {
        match self {
            ProgramError::Os | ProgramError::Run(_) | ProgramError::Input(ReadError::NoMemory) => 1,
            ProgramError::Arguments
            | ProgramError::Input(ReadError::NotToml | ReadError::BadScenario { .. }) => 2,
        }
    }
}

impl From<ReadError> for ProgramError {
    ghost from_gives = { λ fault failure. failure ≡ Input fault };

    fn from(fault: ReadError) -> ProgramError {
        ProgramError::Input(fault)
    }
}

impl From<RunFault> for ProgramError {
    ghost from_gives = { λ fault failure. failure ≡ Run fault };

    fn from(fault: RunFault) -> ProgramError {
        ProgramError::Run(fault)
    }
}

impl From<AllocError> for ProgramError {
    ghost from_gives = { λ _ failure. failure ≡ Input NoMemory };

    fn from(_refused: AllocError) -> ProgramError {
        ProgramError::Input(ReadError::NoMemory)
    }
}

impl<T: Drop> From<AllocFailed<T>> for ProgramError {
    ghost from_gives = { λ _ failure. failure ≡ Input NoMemory };

    fn from(_refused: AllocFailed<T>) -> ProgramError {
        ProgramError::Input(ReadError::NoMemory)
    }
}
