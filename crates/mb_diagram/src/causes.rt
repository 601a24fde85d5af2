//! Which entry is the cause of another.
use crate::picture::Picture;
use crate::sent::SentEnvelopes;
use mb_journal::Received;
use std::alloc::{AllocError, Global};

/// For each entry of a picture, where in the order its cause stands: the entry that sent what came. What came from outside has none.
pub(crate) fn causes_of(
    alloc: Global,
    picture: &Picture<'_>,
    sent: &SentEnvelopes,
) -> Result<Vec<Option<usize>>, AllocError> {
    let mut causes = Vec::new(alloc);
    for (place, entry) in picture.entries.iter().enumerate() {
        let cause = match entry.entry.arrival {
            Received::Handled { envelope, .. } | Received::Dropped { envelope } => {
                sent.place_of(&envelope)
            }
            Received::System { .. } | Received::SetAside { .. } => picture.system_cause(place),
        };
        causes.push(cause)?;
    }
    Ok(causes)
}
