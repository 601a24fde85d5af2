//! System messages (`akka.dispatch.sysmsg`).
use crate::id::ActorId;
use crate::supervision::Cause;

/// A message between the cells of actors, which goes before all envelopes (`akka.dispatch.sysmsg`).
#[derive(Clone, Copy, Debug, PartialEq, Eq)]
pub enum SysMsg {
    /// The first message of an actor: starts it.
    Create,
    /// Restarts it after this failure.
    Recreate(Cause),
    /// Handle no envelopes until resumed.
    Suspend,
    /// Undoes one suspension; `of_failure` says that it is the one of the actor's own failure.
    Resume { of_failure: bool },
    /// Ends the actor, after its children.
    Terminate,
    /// The actor of this number wants to be told when the receiver ends.
    Watch(ActorId),
    /// It no longer wants to.
    Unwatch(ActorId),
    /// The receiver's child of this number has failed.
    Failed(ActorId, Cause),
    /// The actor of this number has ended (Akka's `DeathWatchNotification`).
    Died(ActorId),
}
