//! What came of the messages of a row, and how their receiver stands then.
use crate::rows::Row;
use crate::widths::Width;
use crate::words::{Change, Outcome};
use std::alloc::{AllocError, Global};
use std::fmt;

/// What stands beside the receiver of a row.
#[derive(Clone, Copy)]
pub(crate) struct RowNote {
    /// What came of each message.
    pub(crate) outcome: Outcome,
    /// What all of them changed.
    pub(crate) change: Change,
}

impl RowNote {
    pub(crate) fn of(row: &Row<'_>) -> Self {
        let outcome = Outcome::of(row.shown.entry.arrival);
        let lead = if outcome == Outcome::Plain { "" } else { ", " };
        RowNote {
            outcome,
            change: Change {
                before: row.shown.before,
                after: row.last.after,
                lead,
            },
        }
    }

    /// Whether nothing stands there.
    pub(crate) fn is_empty(self) -> bool {
        self.outcome == Outcome::Plain && self.change.is_empty()
    }

    /// How much room it needs. The only error: memory was refused.
    pub(crate) fn width(self, alloc: Global) -> Result<Width, AllocError> {
        let words = self.to_string(alloc)?;
        Ok(Width::of_note(words.as_str()))
    }
}

impl fmt::Display for RowNote {
    fn fmt<W: fmt::Write>(&self, f: &mut fmt::Formatter<W>) -> fmt::Result {
        if self.outcome == Outcome::Plain {
            return write!(f, "{}", self.change);
        }
        write!(f, "{}{}", self.outcome, self.change)
    }
}
