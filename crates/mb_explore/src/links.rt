//! Finding a system by its digest.
use std::alloc::{AllocError, Global};

/// How many lists the places are spread over.
const LISTS: usize = 65_536;

/// No place.
const NOWHERE: usize = usize::MAX;

/// A place with its digest, and the place before it in the same list.
#[derive(Clone, Copy)]
struct Link {
    digest: u64,
    before: usize,
}

/// The places 0, 1 and so on, in lists by their digests. A digest may be that of several systems: whoever asks compares the systems themselves.
#[derive(Drop)]
pub(crate) struct Links {
    lists: Vec<usize>,
    links: Vec<Link>,
}

impl Links {
    /// No place yet. The only error: memory was refused.
    pub(crate) fn new(alloc: Global) -> Result<Links, AllocError> {
        Ok(Links {
            lists: vec![in alloc; NOWHERE; LISTS]?,
            links: Vec::new(alloc),
        })
    }

    /// The last place of the list in which this digest is.
    pub(crate) fn first(&self, digest: u64) -> usize {
        match self.lists.get(list_of(digest)) {
            Some(place) => *place,
            None => NOWHERE,
        }
    }

    /// The digest of a place; `None` if there is no such place.
    pub(crate) fn digest(&self, place: usize) -> Option<u64> {
        let link = self.links.get(place)?;
        Some(link.digest)
    }

    /// The place before this one in the same list; `None` if there is no such place.
    pub(crate) fn next(&self, place: usize) -> Option<usize> {
        let link = self.links.get(place)?;
        Some(link.before)
    }

    /// Adds the next place, with this digest. The only error: memory was refused.
    pub(crate) fn add(&mut self, digest: u64) -> Result<(), AllocError> {
        let before = self.first(digest);
        let place = self.links.len();
        self.links.push(Link { digest, before })?;
        if let Some(first) = self.lists.get_mut(list_of(digest)) {
            *first = place;
        }
        Ok(())
    }
}

/// The list of a digest.
fn list_of(digest: u64) -> usize {
    (digest % LISTS as u64) as usize
}
