//! The kinds of mailboxes.

/// The rank of a kind of message in a priority mailbox.
#[derive(Clone, Copy, Debug, PartialEq, Eq)]
pub struct RankRow {
    /// The kind of message.
    pub kind: u32,
    /// Its rank. The smaller rank goes first.
    pub rank: u32,
}

/// Which envelopes a mailbox holds, and in which order it gives them (Akka's mailbox types).
#[derive(Debug, Drop)]
pub enum MailboxType {
    /// First in, first out, without a limit (`UnboundedMailbox`).
    Unbounded,
    /// First in, first out, of at most this many envelopes (`NonBlockingBoundedMailbox`).
    Bounded(u32),
    /// The smallest rank first, and equal ranks in the order of arrival (`UnboundedStablePriorityMailbox`). The first
    /// row of a kind counts; every other message has the rank `other`.
    Priority { rows: Vec<RankRow>, other: u32 },
    /// Control messages first (`UnboundedControlAwareMailbox`).
    Control,
}
