//! The list of system messages of one actor.
ghost use Rattle.std.specs.Prelude.{◌≡◌, ◌↔◌, ◌+◌, ◌%◌, ◌^◌, [], ◌∷◌, ◌++◌, false, true, Ok, Err, IfOk, IsTrue, if◌then◌else◌};
ghost use Rattle.mb_syslist.specs.MessageList.{drained, ended, listed, pushed, with_last};

use crate::chain::Chain;
use crate::link::Link;
use crate::node::Node;
use std::marker::Model;
use std::{fmt, mem};

/// A refused push: the list is closed. It holds the node that was to be pushed.
#[derive(Debug, Drop)]
pub struct ListClosed(pub Node);

/// The system messages of one actor that no run has drained yet, and how many were drained before
/// (Akka's `LatestFirstSystemMessageList`).
pub struct SysList {
    latest: Link,
    pushed: u64,
    given: u64,
    closed: bool,
}

// `Drop` is written by hand: with a derived one, each crate above would prove again how the fields are dropped.
impl Drop for SysList {
    fn drop(self) {
        let SysList {
            latest,
            pushed: _,
            given: _,
            closed: _,
        } = self;
        drop(latest);
    }
}

impl Model for SysList {
    ghost use Rattle.mb_syslist.specs.MessageList.{MessageList};

    ghost Value = { MessageList };

    ghost use Rattle.std.specs.Prelude.{reverse};
    ghost use Rattle.mb_syslist.specs.Boxes.{boxed, IsCounted};

    ghost view = { λ list. record { messages = reverse (boxed list.latest); given = list.given; closed = list.closed } };

    ghost invariant = { IsCounted };
}

impl SysList {
    /// An open list with no message, from which nothing was drained.
    pub fn new() -> Self
        ensures { result ≡ record { messages = []; given = 0; closed = false } }
    {
        SysList {
            latest: Link::End,
            pushed: 0,
            given: 0,
            closed: false,
        }
    }

    /// Whether so many messages were pushed, 2^64 - 1, that with one more the count would begin again at 0.
    pub fn is_full(&self) -> bool
        ensures { IsTrue result ↔ (pushed self.now + 1 ≡ 2 ^ 64) }
    {
        self.pushed == u64::MAX
    }

    /// Puts a node last, and answers its number: how many were pushed before, modulo 2^64. It takes no memory.
    ///
    /// It answers `ListClosed` with the same node if the list is closed. Nothing has changed then.
    #[tactic(auto, using(crate::proofs::NumberedLemmas::numbered_latest, crate::proofs::NumberedLemmas::pushed_more))]
    pub fn push(&mut self, node: Node) -> Result<u64, ListClosed>
        ensures answer { result ≡ (if self.old.closed then Err (record { 0 = node }) else Ok (pushed self.old)) }
        ensures list { self.new ≡ (if self.old.closed then self.old else with_last self.old node) }
        ensures last { IfOk result (λ number. listed self.new ≡ listed self.old ++ (number, node) ∷ []) }
        ensures counted { IfOk result (λ number. pushed self.new ≡ (number + 1) % 2 ^ 64) }
    {
        if self.closed {
            return Err(ListClosed(node));
        }
        let mut entry = node.into_entry();
        entry.next = mem::replace(&mut self.latest, Link::End);
        self.latest = Link::More(entry);
        let number = self.pushed;
        self.pushed = number.wrapping_add(1);
        Ok(number)
    }

    /// Takes out everything that is listed, the earliest first, with the numbers. It takes no memory.
    pub fn drain(&mut self) -> Chain
        ensures chain { result ≡ listed self.old }
        ensures list { self.new ≡ drained self.old }
        ensures counted { pushed self.new ≡ pushed self.old }
        ensures closed { IsTrue self.old.closed → result ≡ [] }
    {
        let latest = mem::replace(&mut self.latest, Link::End);
        let number = mem::replace(&mut self.given, self.pushed);
        Chain::of_boxes(latest.reversed(), number)
    }

    /// Takes out everything that is listed, as `drain` does, and closes the list for good: no message enters any more.
    pub fn close(&mut self) -> Chain
        ensures chain { result ≡ listed self.old }
        ensures list { self.new ≡ ended self.old }
        ensures counted { pushed self.new ≡ pushed self.old }
    {
        let rest = self.drain();
        self.closed = true;
        rest
    }

    /// Whether no message is listed.
    pub fn is_empty(&self) -> bool
        ensures { IsTrue result ↔ (self.now.messages ≡ []) }
    {
        matches!(self.latest, Link::End)
    }

    /// How many messages `drain` and `close` gave so far, modulo 2^64. It is the number of the earliest that is listed.
    pub fn given(&self) -> u64
        ensures { result ≡ self.now.given }
    {
        self.given
    }
}

// shows the counts alone: a list may be long
impl fmt::Debug for SysList {
    fn fmt<W: fmt::Write>(&self, f: &mut fmt::Formatter<W>) -> fmt::Result {
        f.debug_struct("SysList")
            .field("given", &self.given)
            .field("pushed", &self.pushed)
            .field("closed", &self.closed)
            .finish_non_exhaustive()
    }
}
