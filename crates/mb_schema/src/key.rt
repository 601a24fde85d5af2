//! The keys of tables.
use crate::form::{Form, Only};

/// A key of a table.
pub struct KeySchema {
    /// Its name.
    pub name: &'static str,
    /// Whether it is required where it is allowed.
    pub required: bool,
    /// Where it is allowed.
    pub only: Only,
    /// Which values are allowed.
    pub form: Form,
}
