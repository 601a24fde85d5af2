//! Why there is no report.
ghost use Rattle.std.specs.Prelude.{◌≡◌};
ghost use Rattle.heddleorange.specs.declared.error.Error.TheVariants.{NoMemory};

use crate::error_text::write_error;
use mb_build::PlanError;
use mb_msg::ActorId;
use mb_shutdown::Mismatch;
use std::alloc::{AllocError, AllocFailed};
use std::fmt;

/// Why a run gave no report, or why an actor was not added to a planned system. Places of orders and numbers of senders count from 0.
/// (This project's own profile.)
#[derive(Clone, Copy, Debug, PartialEq, Eq)]
pub enum Error {
    /// No system can be built from the plan: the first reason of all. Or an actor has no place in it (`PlannedSystem::add`). Nothing
    /// was done.
    BadPlan(PlanError),
    /// There are so many lists of orders, and the plan has so many senders. Nothing was done.
    OrderLists {
        lists: usize,
        senders: u32,
    },
    /// At this place of a row of orders is the first that is from a sender which the plan does not have: this one. Nothing was done.
    NoSuchSender {
        place: usize,
        sender: u32,
    },
    /// An order that is to be carried out goes to an actor that does not exist, or sends the guardian an envelope. It is the first
    /// such order of the first sender that has one, at this place of that sender's list; or the first of a row, at this place of the
    /// row. Nothing was done.
    NoSuchActor {
        sender: u32,
        place: usize,
        to: ActorId,
    },
    /// Memory was refused as the system was built, as it was to end, or as what is left of its actors was to be shown.
    NoMemory,
    /// The run was broken off, since memory was refused.
    NoMemoryInRun,
    /// The run was broken off, since the journal of this actor has as many entries as the plan allows. If there are several such
    /// journals, it is the first by number.
    JournalFull(ActorId),
    /// At the end, the parts of the system did not agree. Or the run was broken off at a full journal, and this actor, whose journal
    /// it may be, did not come back.
    Mismatch(Mismatch),
    /// The actor with this number has the name under which another was to be added. Nothing was added.
    NameTaken(ActorId),
}

// what is wrong, and where
impl fmt::Display for Error {
    fn fmt<W: fmt::Write>(&self, f: &mut fmt::Formatter<W>) -> fmt::Result {
        write_error(f, self, &[])
    }
}

impl std::error::Error for Error {}

impl From<AllocError> for Error {
    ghost from_gives = { λ _ error. error ≡ NoMemory };

    fn from(_refused: AllocError) -> Error {
        Error::NoMemory
    }
}

impl<T: Drop> From<AllocFailed<T>> for Error {
    ghost from_gives = { λ _ error. error ≡ NoMemory };

    fn from(_refused: AllocFailed<T>) -> Error {
        Error::NoMemory
    }
}
