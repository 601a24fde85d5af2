//! The messages of a picture.
use crate::rows::{LetterRow, Row};
use crate::widths::Width;
use crate::words::{Message, Times, Values};
use mb_journal::Received;
use mb_msg::Body;
use std::alloc::{AllocError, Global};
use std::fmt;

/// What stands above an arrow: what was sent, and how often.
#[derive(Clone, Copy)]
pub(crate) struct Label<'a> {
    message: Message<'a>,
    /// The values of the first and the last, where they have more than one.
    values: Option<Values>,
    times: u64,
}

impl<'a> Label<'a> {
    /// That of a row of entries.
    pub(crate) fn of(names: &'a [String], row: &Row<'_>) -> Self {
        let came = row.shown.entry.arrival;
        let values = if row.has_one_value {
            None
        } else {
            values_of(came, row.last.entry.arrival, row.times)
        };
        Label {
            message: Message { names, came },
            values,
            times: row.times,
        }
    }

    /// That of a row of dead letters.
    pub(crate) fn of_letter(names: &'a [String], row: &LetterRow) -> Self {
        let first = row.letter.envelope.body;
        let last = row.last.envelope.body;
        let values = if row.has_one_value {
            None
        } else {
            Values::of(first, last, row.times)
        };
        let came = Received::Dropped {
            envelope: row.letter.envelope,
        };
        Label {
            message: Message { names, came },
            values,
            times: row.times,
        }
    }

    /// How much room it needs. The only error: memory was refused.
    pub(crate) fn width(self, alloc: Global) -> Result<Width, AllocError> {
        let words = self.to_string(alloc)?;
        Ok(Width::of_label(words.as_str()))
    }
}

/// The values of the first and the last of so many entries.
fn values_of(first: Received, last: Received, times: u64) -> Option<Values> {
    Values::of(body_of(first)?, body_of(last)?, times)
}

/// What an envelope carries.
pub(crate) fn body_of(came: Received) -> Option<Body> {
    match came {
        Received::Handled { envelope, .. } | Received::Dropped { envelope } => Some(envelope.body),
        Received::System { .. } | Received::SetAside { .. } => None,
    }
}

impl fmt::Display for Label<'_> {
    fn fmt<W: fmt::Write>(&self, f: &mut fmt::Formatter<W>) -> fmt::Result {
        match self.values {
            Some(values) => write!(f, "{values}{}", Times(self.times)),
            None => write!(f, "{}{}", self.message, Times(self.times)),
        }
    }
}
