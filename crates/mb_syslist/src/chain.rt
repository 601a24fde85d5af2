//! System messages that were drained from a list.
ghost use Rattle.std.specs.Prelude.{◌≡◌, ◌↔◌, [], ◌∷◌, IsTrue, MatchOption};
ghost use Rattle.mb_syslist.specs.Boxes.{boxed};
ghost use Rattle.mb_syslist.specs.MessageList.{numbered};

use crate::link::Link;
use crate::node::Node;
use std::marker::Model;
use std::{fmt, mem};

/// Messages that were drained from a list, the earliest first, each with its number.
pub struct Chain {
    first: Link,
    number: u64,
}

// `Drop` is written by hand: with a derived one, each crate above would prove again how the fields are dropped.
impl Drop for Chain {
    fn drop(self) {
        let Chain { first, number: _ } = self;
        drop(first);
    }
}

impl Model for Chain {
    ghost use Rattle.std.specs.Prelude.{ℕ, List};
    ghost use Rattle.mb_msg.specs.declared.system.SysMsg.{SysMsg};

    ghost Value = { List (ℕ × SysMsg) };

    ghost use Rattle.mb_syslist.specs.Boxes.{boxed};
    ghost use Rattle.mb_syslist.specs.MessageList.{numbered};

    ghost view = { λ chain. numbered chain.number (boxed chain.first) };
}

impl Chain {
    /// A chain with no message.
    pub fn new() -> Self
        ensures { result ≡ [] }
    {
        Chain {
            first: Link::End,
            number: 0,
        }
    }

    /// Whether no message is in it.
    pub fn is_empty(&self) -> bool
        ensures { IsTrue result ↔ (self.now ≡ []) }
    {
        matches!(self.first, Link::End)
    }

    /// Takes out the earliest message, in its node, with its number; or `None` if no message is in it.
    pub fn next(&mut self) -> Option<(u64, Node)>
        ensures { MatchOption result ((self.old ≡ []) × (self.new ≡ [])) (λ taken. self.old ≡ taken ∷ self.new) }
    {
        let first = mem::replace(&mut self.first, Link::End);
        let mut entry = first.into_first()?;
        self.first = mem::replace(&mut entry.next, Link::End);
        let number = self.number;
        self.number = number.wrapping_add(1);
        Some((number, Node::of_entry(entry)))
    }

    /// A chain of these boxes, the earliest first, counted from this number on.
    pub(crate) fn of_boxes(first: Link, number: u64) -> Self
        ensures { result ≡ numbered number (boxed first) }
    {
        Chain { first, number }
    }
}

// shows the next number alone: a chain may be long
impl fmt::Debug for Chain {
    fn fmt<W: fmt::Write>(&self, f: &mut fmt::Formatter<W>) -> fmt::Result {
        f.debug_struct("Chain")
            .field("number", &self.number)
            .finish_non_exhaustive()
    }
}
