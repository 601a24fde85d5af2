//! Why a journal or a cell has no room for another message.

/// Why there is no room for another message: the error of `ready`, of a journal and of a cell.
#[derive(Clone, Copy, Debug, PartialEq, Eq)]
pub enum ReadyError {
    /// The journal has as many entries as it may have.
    JournalFull,
    /// Memory for the room was refused.
    NoMemory,
}
