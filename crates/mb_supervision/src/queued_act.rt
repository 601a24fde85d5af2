//! Tasks: acts that have no node yet.
use mb_msg::{ActorId, Body, SysMsg};

/// An act before it has a node.
#[derive(Clone, Copy)]
pub(crate) enum QueuedAct {
    Tell(ActorId, Body),
    Sys(ActorId, SysMsg),
    SuspendSelf,
    ResumeSelf,
    CloseSelf,
}
