//! The report of a run, as lists.
ghost use Rattle.std.specs.Prelude.{◌≤◌, length};

use mb_actor::Phase;
use mb_dead_letters::{DeadLetters, KeptList};
use mb_journal::Journal;
use mb_msg::{Envelope, SysMsg};

/// What became of one actor.
#[derive(Drop)]
pub struct ActorReport {
    /// The phase of its life.
    pub phase: Phase,
    /// How many suspensions keep its envelopes waiting: 0 once it is closed.
    pub count: u64,
    /// What it shows of its content. The guardian shows nothing.
    pub state: Option<i64>,
    /// What came to it and what became of it.
    pub journal: Journal,
    /// The system messages that are set aside, with their numbers.
    pub aside: Vec<(u64, SysMsg)>,
    /// The envelopes that are left in its mailbox, in order.
    pub left: Vec<Envelope>,
    /// The envelopes that were still queued when it ended, in order. Their number is kept in each mode of journals.
    pub cleaned: KeptList<Envelope>,
    /// How many numbered system messages to it were never applied and are dead.
    pub dead_system: u64,
}

/// What became of what one sender sent.
#[derive(Drop)]
pub struct SenderReport {
    /// How many envelopes it sent.
    pub sent: u64,
    /// Those of them that were refused when they were sent, in order. Their numbers are kept in each mode of journals: of all, by receiver and by
    /// reason.
    pub dead: DeadLetters,
}

/// What a run has come to: the actors by their numbers, the guardian first; and the senders, first each actor as a
/// sender and then those outside.
#[derive(Drop)]
pub struct Report {
    /// The actors.
    pub actors: Vec<ActorReport>,
    /// The senders.
    pub senders: Vec<SenderReport>,
    // The most that a plan may have. The totals fit then.
    pub ghost few_actors: { length actors.items ≤ 64 },
    pub ghost few_senders: { length senders.items ≤ 80 },
}
