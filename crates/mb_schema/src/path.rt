//! The tables of a document.

/// A table of the document. Positions count from 1.
#[derive(Clone, Copy)]
pub enum Path {
    /// The document itself.
    Top,
    /// The actor at this position.
    Actor(usize),
    /// The send at this position.
    Send(usize),
    /// In the actor at the first position, the table at the second position of the array of this name.
    Row(usize, &'static str, usize),
}
