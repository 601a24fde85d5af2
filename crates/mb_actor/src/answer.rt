//! The answer of an actor to a call.

/// What an actor answers to a call (in Akka an exception for `Failed`, a call of `unhandled` for `Unhandled`).
#[derive(Clone, Copy, Debug, PartialEq, Eq)]
pub enum Answer {
    /// The actor handled the call.
    Handled,
    /// The actor does not know this message.
    Unhandled,
    /// The actor failed, with a number that says how.
    Failed(u32),
}
