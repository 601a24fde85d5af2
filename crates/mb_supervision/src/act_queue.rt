//! The queue of a cell's acts.
ghost use Rattle.std.specs.Prelude.{◌≡◌, ◌+◌, ◌-◌, ◌<◌, ◌≤◌, ◌^◌, [], ◌∷◌, ◌++◌, length, map, option_to_list, vec_len, IfNone, IsOk, OnOk, OnErr};
ghost use Rattle.mb_journal.specs.Acts.{to_each};
ghost use Rattle.mb_supervision.specs.ActQueue.{act_of, queued_act};

use crate::act::Act;
use crate::queued_act::QueuedAct;
use mb_msg::{ActorId, SysMsg};
use mb_syslist::Node;
use std::alloc::{AllocError, Global};
use std::marker::Model;

/// The acts of one message, in order, with room for more. The tells of most messages are not among them: the cell sends these from its
/// journal.
///
/// Room is a place in the list and a node for each act. So neither adding nor taking out an act takes memory.
#[derive(Drop)]
pub(crate) struct ActQueue {
    alloc: Global,
    queued: Vec<QueuedAct>,
    next: usize,
    nodes: Vec<Node>,
    room: usize,
}

impl Model for ActQueue {
    ghost use Rattle.std.specs.Prelude.{map, drop};
    ghost use Rattle.mb_supervision.specs.ActQueueView.{ActQueueView};

    ghost Value = { ActQueueView };

    ghost use Rattle.mb_supervision.specs.ActQueue.{queued_act, IsActQueue};

    ghost view = { λ q. record { acts = map queued_act (drop q.next q.queued.items); room = q.room } };

    ghost invariant = { IsActQueue };
}

impl ActQueue {
    /// No acts, and no room.
    pub(crate) fn new(alloc: Global) -> Self
        ensures { result ≡ record { acts = []; room = 0 } }
    {
        ActQueue {
            alloc,
            queued: Vec::new(alloc),
            next: 0,
            nodes: Vec::new(alloc),
            room: 0,
        }
    }

    /// Makes room for this many acts, unless there is room already.
    ///
    /// It answers `AllocError` if memory was refused. Nothing has changed then.
    #[inline(always)]
    pub(crate) fn make_room(&mut self, most: usize) -> Result<(), AllocError>
        requires below_bound { most < 2 ^ 63 }
        ensures room { OnOk result (most ≤ self.new.room) }
        ensures same { self.new.acts ≡ self.old.acts }
        ensures err { OnErr result (self.new ≡ self.old) }
        ensures again { most ≤ self.old.room → IsOk result }
    {
        if most <= self.room {
            return Ok(());
        }
        self.queued.reserve(most)?;
        let waiting = self.queued.len() - self.next;
        if self.nodes.len() < waiting + most {
            make_nodes(self.alloc, &mut self.nodes, waiting + most)?;
        }
        self.room = most;
        Ok(())
    }

    pub(crate) fn push(&mut self, act: QueuedAct)
        requires { 0 < self.old.room }
        ensures { self.new ≡ record { acts = self.old.acts ++ queued_act act ∷ []; room = self.old.room - 1 } }
    {
        self.queued.push_reserved(act);
        self.room -= 1;
    }

    /// Adds the same system message to each of these actors.
    pub(crate) fn push_each(&mut self, message: SysMsg, list: &[ActorId])
        requires { length list.now ≤ self.old.room }
        ensures { self.new ≡ record { acts = self.old.acts ++ to_each message list.now; room = self.old.room - length list.now } }
    {
        for id in list {
            self.push(QueuedAct::Sys(*id, message));
        }
    }

    /// Keeps a node for an act that comes later, if the list of nodes has a place for it. It takes no memory.
    pub(crate) fn keep_node(&mut self, node: Node)
        ensures { self.new ≡ self.old }
    {
        if self.nodes.len() < self.nodes.capacity() {
            self.nodes.push_reserved(node);
        }
    }

    /// Takes out the earliest act; `None` if none is left.
    pub(crate) fn pop(&mut self) -> Option<Act>
        ensures taken { self.old.acts ≡ map act_of (option_to_list result) ++ self.new.acts }
        ensures none { IfNone result (self.old.acts ≡ []) }
        ensures room { self.new.room ≡ self.old.room }
    {
        let act = *self.queued.get(self.next)?;
        self.next += 1;
        if self.next == self.queued.len() {
            self.queued.clear();
            self.next = 0;
        }
        let act = match act {
            QueuedAct::Tell(to, body) => Act::Tell(to, body),
            QueuedAct::Sys(to, message) => {
                let mut node = self.nodes.pop().unwrap();
                node.set(message);
                Act::Sys(to, node)
            }
            QueuedAct::SuspendSelf => Act::SuspendSelf,
            QueuedAct::ResumeSelf => Act::ResumeSelf,
            QueuedAct::CloseSelf => Act::CloseSelf,
        };
        Some(act)
    }
}

/// Makes nodes until there are `wanted`.
#[cold]
#[inline(never)]
fn make_nodes(alloc: Global, nodes: &mut Vec<Node>, wanted: usize) -> Result<(), AllocError>
    ensures enough { OnOk result (wanted ≤ vec_len nodes.new) }
    ensures no_fewer { vec_len nodes.old ≤ vec_len nodes.new }
{
    for _made in nodes.len()..wanted {
        nodes.push(Node::new(alloc, SysMsg::Create)?)?;
    }
    Ok(())
}
