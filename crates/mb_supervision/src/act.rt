//! Acts: what a cell hands out to be carried out.
use mb_msg::{ActorId, Body};
use mb_syslist::Node;

/// What a cell hands out after a message, to be carried out before the next message.
#[derive(Drop)]
pub enum Act {
    /// Send an envelope with this body to this actor.
    Tell(ActorId, Body),
    /// Put this system message into the list of this actor.
    Sys(ActorId, Node),
    /// Suspend the actor's own mailbox once more.
    SuspendSelf,
    /// Undo one suspension of the actor's own mailbox.
    ResumeSelf,
    /// Close the actor's own mailbox for good, and clean it up.
    CloseSelf,
}
