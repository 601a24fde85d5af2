//! The dead letters of a picture in the order of its entries.
use crate::picture::Picture;
use crate::sent::SentEnvelopes;
use mb_msg::DeadLetter;
use std::alloc::{AllocError, Global};

/// A dead letter, and behind how many entries of the order it stands.
#[derive(Clone, Copy)]
pub(crate) struct PlacedLetter {
    pub(crate) letter: DeadLetter,
    pub(crate) place: usize,
}

/// The dead letters in the order of the entries; those at one place as the report has them.
pub(crate) fn letters_in_order(
    alloc: Global,
    picture: &Picture<'_>,
    sent: &SentEnvelopes,
) -> Result<Vec<PlacedLetter>, AllocError> {
    let mut letters = Vec::new(alloc);
    for letter in picture.letters {
        letters.push(PlacedLetter {
            letter: *letter,
            place: sent.entries_before(letter),
        })?;
    }
    letters.sort_by_key(|letter: &PlacedLetter| letter.place)?;
    Ok(letters)
}
