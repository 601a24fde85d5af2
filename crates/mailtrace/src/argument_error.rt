//! What is wrong with the arguments.

/// Why the arguments do not say what to do, where clap does not find it.
#[derive(Debug, Drop, thiserror::Error)]
pub(crate) enum ArgumentError {
    /// It is no name of an actor of the scenario.
    #[error("unknown name {0:?}")]
    UnknownName(String),
    /// Some word is not UTF-8.
    #[error("not UTF-8")]
    NotUtf8,
}
