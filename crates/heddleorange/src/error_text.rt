//! What an error says.

use crate::error::Error;
use mb_build::PlanError;
use mb_msg::ActorId;
use std::fmt;

/// Writes what the error says: what is wrong, and where. These are the names of the actors from number 1 on, so far as they are
/// known; each stands beside its actor's number.
pub(crate) fn write_error<W: fmt::Write>(
    f: &mut fmt::Formatter<W>,
    error: &Error,
    names: &[String],
) -> fmt::Result {
    match *error {
        Error::BadPlan(reason) => write_reason(f, reason, names),
        Error::OrderLists { lists, senders } => {
            write!(f, "there are {lists} lists of orders for {senders} senders")
        }
        Error::NoSuchSender { place, sender } => {
            write!(
                f,
                "order {place} is from sender {sender}, which the plan does not have"
            )
        }
        Error::NoSuchActor { sender, place, to } => {
            let to = to.0;
            write!(
                f,
                "order {place} of sender {sender} cannot go to actor {to}"
            )
        }
        Error::NoMemory => f.write_str("memory was refused"),
        Error::NoMemoryInRun => f.write_str("the run was broken off: memory was refused"),
        Error::JournalFull(id) => {
            f.write_str("the run was broken off: no more entries fit the journal of ")?;
            write_actor(f, id, names)
        }
        Error::Mismatch(what) => {
            write!(
                f,
                "at the end, the parts of the system did not agree: {what:?}"
            )
        }
        Error::NameTaken(id) => {
            write_actor(f, id, names)?;
            f.write_str(" has this name already")
        }
    }
}

// Writes why no system can be built from a plan.
fn write_reason<W: fmt::Write>(
    f: &mut fmt::Formatter<W>,
    reason: PlanError,
    names: &[String],
) -> fmt::Result {
    match reason {
        PlanError::Actors => f.write_str("the plan has more than 63 actors"),
        PlanError::Boxes => f.write_str("there are not as many actors as the plan has"),
        PlanError::Parent(id) => {
            f.write_str("neither the guardian nor an earlier actor is the parent of ")?;
            write_actor(f, id, names)
        }
        PlanError::Capacity(id) => {
            f.write_str("not from 1 to 65,536 is the bound of the mailbox of ")?;
            write_actor(f, id, names)
        }
        PlanError::Senders => f.write_str("the plan has more than 16 senders outside"),
        PlanError::Workers => f.write_str("the plan has no worker, or more than 16"),
        PlanError::JournalLimit => {
            f.write_str("the plan's limit of a journal is not from 1 to 2^56")
        }
    }
}

// Writes the actor's number, and its name if that is known.
fn write_actor<W: fmt::Write>(
    f: &mut fmt::Formatter<W>,
    id: ActorId,
    names: &[String],
) -> fmt::Result {
    let number = id.0;
    write!(f, "actor {number}")?;
    match name_of(number, names) {
        Some(name) => write!(f, " ({name})"),
        None => Ok(()),
    }
}

// The name of the actor of this number, if it is known.
fn name_of(number: u16, names: &[String]) -> Option<&str> {
    if number == 0 {
        return Some("guardian");
    }
    let name = names.get(number as usize - 1)?;
    Some(name.as_str())
}
