//! The phases of an actor's life.

/// The phase of an actor's life (Akka's actor life cycle).
#[derive(Clone, Copy, PartialEq, Eq)]
pub enum Phase {
    /// Not started yet.
    Fresh,
    /// Started, and handling messages.
    Live,
    /// Its last start or restart failed.
    Broken,
    /// It was told to end, and its children have not all ended yet.
    Ending,
    /// It has ended.
    Ended,
}
