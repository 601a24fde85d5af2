//! What the program says of a run that gave no report.
ghost use Rattle.mb_streams.specs.declared.fault.RunFault.{RunFault as FaultOf};
ghost use Rattle.mb_program.specs.Faults.{IsFaultOf};

use heddleorange::Error;
use mb_streams::RunFault;

/// The fault that tells of this error of a run whose plan and orders were right.
pub(crate) fn fault_of(error: &Error) -> RunFault
    requires { (fault : FaultOf) × IsFaultOf error.now fault }
    ensures { IsFaultOf error.now result }
{
    match error {
        Error::NoMemory | Error::NoMemoryInRun => RunFault::NoMemory,
        Error::JournalFull(_) => RunFault::JournalFull,
        Error::Mismatch(_) => RunFault::Mismatch,
        Error::BadPlan(_)
        | Error::OrderLists { .. }
        | Error::NoSuchSender { .. }
        | Error::NoSuchActor { .. }
        | Error::NameTaken(_) => unreachable!(),
    }
}
