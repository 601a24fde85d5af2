//! The error of registering refused actors again.

/// The run queue refused a claim again: a look is owed to some actors still.
#[derive(Clone, Copy, Debug, PartialEq, Eq)]
pub struct StillRefused;
