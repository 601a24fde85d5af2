//! What a port of a fifo knows, in the words of the fifo's rule. Ghost data: no value of `Ledger` is made.
use mb_ghost::Log;
use mb_msg::Envelope;
use std::collections::LinkedList;

/// The account of one sender: all that it pushed, or that its own port has the account.
#[derive(Drop)]
pub struct Account {
    /// The sender's number.
    pub by: u32,
    /// All that it pushed, the earliest first; `None` while the account is with the sender's own port.
    pub pushed: Option<Log<Envelope>>,
}

/// Which kind of envelopes a fifo is for.
#[derive(Clone, Copy, Debug, PartialEq, Eq)]
pub enum QueuePart {
    /// All.
    Whole,
    /// Those with a body `Control`.
    Controls,
    /// All others.
    Others,
}

/// Which envelopes a fifo is for.
pub struct Scope {
    /// By which senders.
    pub senders: LinkedList<u32>,
    /// To which actor.
    pub to: u32,
    /// And of which part.
    pub part: QueuePart,
}

/// What a port knows of its fifo.
pub enum Ledger {
    /// A port that pushes for one sender: which envelopes the fifo is for, the sender's number, and what it pushed.
    Sender(Scope, u32, LinkedList<Envelope>),
    /// The port that takes: which envelopes the fifo is for, what was taken, and the accounts of senders, the newest
    /// last.
    Taker(Scope, LinkedList<Envelope>, LinkedList<Account>),
    /// A port that was joined to another.
    Spent,
}
