//! The limit of a scenario's text.

/// The most bytes that the text of a scenario may have.
pub const SCENARIO_BYTES: usize = 1_048_576;
