//! Which step comes next.
use mb_msg::ActorId;

/// One step of a running system (this project's own profile: in Akka the threads choose).
#[derive(Clone, Copy, Debug, PartialEq, Eq)]
pub enum Choice {
    /// The sender outside of this number, from 0, sends what is next in its orders.
    Send(u32),
    /// The mailbox of this actor is run (`akka.dispatch.Mailbox.run`).
    Run(ActorId),
}
