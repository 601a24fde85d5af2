//! Nodes: boxes for system messages.
ghost use Rattle.std.specs.Prelude.{◌≡◌, IfOk};
ghost use Rattle.mb_syslist.specs.declared.link.Link.{End};

use crate::link::{Link, LinkedMessage};
use mb_msg::SysMsg;
use std::alloc::{AllocError, Global};
use std::fmt;
use std::marker::Model;

/// A system message in a box of its own, to be pushed to a list or taken from one.
pub struct Node {
    entry: Box<LinkedMessage>,
}

// `Drop` is written by hand: with a derived one, each crate above would prove again how the fields are dropped.
impl Drop for Node {
    fn drop(self) {
        let Node { entry } = self;
        drop(entry);
    }
}

impl Model for Node {
    ghost use Rattle.std.specs.Prelude.{◌≡◌};
    ghost use Rattle.mb_msg.specs.declared.system.SysMsg.{SysMsg};

    ghost Value = { SysMsg };

    ghost use Rattle.mb_syslist.specs.declared.link.Link.{End};

    ghost view = { λ node. node.entry.value.message };

    ghost invariant = { λ node. node.entry.value.next ≡ End };
}

impl Node {
    /// A node with this message.
    ///
    /// It answers `AllocError` if the memory was refused.
    pub fn new(alloc: Global, message: SysMsg) -> Result<Self, AllocError>
        ensures { IfOk result (λ node. node ≡ message) }
    {
        let entry = Box::new(
            alloc,
            LinkedMessage {
                message,
                next: Link::End,
            },
        )?;
        Ok(Node { entry })
    }

    /// The message in it.
    pub fn msg(&self) -> SysMsg
        ensures { result ≡ self.now }
    {
        self.entry.message
    }

    /// Puts another message in its place. It takes no memory.
    pub fn set(&mut self, message: SysMsg)
        ensures { self.new ≡ message }
    {
        self.entry.message = message;
    }

    /// Its box, with nothing behind it.
    pub(crate) fn into_entry(self) -> Box<LinkedMessage>
        ensures { result.value ≡ record { message = self; next = End } }
    {
        let Node { entry } = self;
        entry
    }

    /// The node of a box with nothing behind it.
    pub(crate) fn of_entry(entry: Box<LinkedMessage>) -> Self
        requires { entry.value.next ≡ End }
        ensures { result ≡ entry.value.message }
    {
        Node { entry }
    }
}

impl fmt::Debug for Node {
    fn fmt<W: fmt::Write>(&self, f: &mut fmt::Formatter<W>) -> fmt::Result {
        f.debug_tuple("Node").field(&self.msg()).finish()
    }
}
