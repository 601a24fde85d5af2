//! Commands on their way.

/// A command as it travels: a kind, by which commands are told apart, and a value.
#[derive(Clone, Copy, Debug, Drop, PartialEq, Eq)]
pub struct Packed {
    /// Which command it is.
    pub kind: u32,
    /// What the command has beside its kind.
    pub value: i64,
}
