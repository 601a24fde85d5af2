//! The operations and rows of scripts.
use mb_msg::ActorId;

/// What a script can do with a message that has a value.
#[derive(Clone, Copy, Debug, PartialEq, Eq)]
pub enum Operation {
    /// Adds the value to the state, saturating at the ends of `i64`. In rows alone: a hook leaves the state as it is.
    Add,
    /// Nothing.
    Ignore,
    /// The actor answers that it failed, with this number. The operations after it are not done.
    Fail(u32),
    /// This actor is sent a message of this kind, with the value.
    Tell { to: ActorId, kind: u32 },
    /// The same, as a control message.
    Control { to: ActorId, kind: u32 },
    /// This actor is watched.
    Watch(ActorId),
    /// It no longer is.
    Unwatch(ActorId),
    /// It is stopped.
    Stop(ActorId),
    /// This child is started.
    Spawn(ActorId),
}

/// What a script does with the messages of a kind.
#[derive(Debug, Drop)]
pub struct Row {
    /// The kind of message.
    pub kind: u32,
    /// What is done, in order.
    pub operations: Vec<Operation>,
}
