//! Journals and answers as texts, to be compared.
use mb_journal::{Journal, Received};
use mb_msg::Body;
use std::alloc::{AllocError, Global};

/// What was found, or "no report".
pub fn words(found: &Option<String>) -> &str {
    match found {
        Some(text) => text.as_str(),
        None => "no report",
    }
}

/// Adds one at the end, behind `between` unless the text is empty.
pub fn add(text: &mut String, between: &str, more: &str) -> Result<(), AllocError> {
    if !text.is_empty() {
        text.push_str(between)?;
    }
    text.push_str(more)
}

/// The entries of a journal, in order; none of a journal that keeps none.
pub fn journal_text(alloc: Global, journal: &Journal) -> Result<String, AllocError> {
    let mut text = String::new(alloc);
    for place in 0..journal.len() {
        if let Some(entry) = journal.entry(place) {
            let one = arrival_text(alloc, entry.arrival)?;
            add(&mut text, ", ", one.as_str())?;
        }
    }
    Ok(text)
}

fn arrival_text(alloc: Global, arrival: Received) -> Result<String, AllocError> {
    match arrival {
        Received::Handled { envelope, .. } => body_text(alloc, envelope.body),
        Received::System {
            number,
            message,
            ..
        } => format!(in alloc; "{number} {message:?}"),
        Received::SetAside { number, message } => format!(in alloc; "{number} {message:?} aside"),
        Received::Dropped { .. } => String::from_str(alloc, "dropped"),
    }
}

// A message as its kind and its value.
fn body_text(alloc: Global, body: Body) -> Result<String, AllocError> {
    match body {
        Body::User { kind, value } => format!(in alloc; "({kind},{value})"),
        Body::Control { kind, value } => format!(in alloc; "control ({kind},{value})"),
        _ => format!(in alloc; "{body:?}"),
    }
}
