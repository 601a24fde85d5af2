//! What a journal keeps of its entries.

/// What the journals of a system keep (this project's own profile: Akka keeps no journal).
#[derive(Clone, Copy, Debug, Drop, PartialEq, Eq)]
pub enum JournalMode {
    /// All entries, which can be read: their memory grows with all that comes.
    Kept,
    /// Counts of the entries and the effects of the newest, and no entry: this takes memory once, when the journal is made.
    Counted,
    /// Counts of the entries and the newest of them, which can be read: at least the last so many, and fewer than twice as many. This takes
    /// memory once, when the journal is made: room for twice as many entries, each with as many effects as a call may ask for. Of 0, no
    /// entry is kept.
    Last(u32),
}
