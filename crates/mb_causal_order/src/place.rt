//! Where an entry stands.

/// An entry of a run: whose journal it is in, and its place there.
#[derive(Clone, Copy, Debug, PartialEq, Eq)]
pub struct Place {
    /// The number of the actor, from 0.
    pub actor: usize,
    /// The place in its journal, from 0.
    pub index: usize,
}
