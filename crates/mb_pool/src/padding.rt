//! Padding between what one handle writes and what another reads.

/// Memory that nobody reads or writes. What is before it and what is behind it are never in the same cache line, nor in
/// two lines that a processor fetches as a pair. So a thread that writes the one does not slow down a thread that reads
/// the other.
#[derive(Drop)]
pub struct Padding {
    words: [u64; 16],
}

impl Padding {
    pub fn new() -> Padding {
        Padding { words: [0; 16] }
    }
}
