//! The state of a cell, which the rules change.
ghost use Rattle.std.specs.Prelude.{◌≡◌, ◌+◌, ◌<◌, ◌≤◌, ◌^◌, [], ◌++◌, false, true, length, map, option_to_list, IfNone, IsTrue, IsOk, OnOk, OnErr};
ghost use Rattle.mb_actor.specs.ActorList.{has as holds};
ghost use Rattle.mb_journal.specs.Life.{is_empty, is_alone};
ghost use Rattle.mb_supervision.specs.ActQueue.{act_of};
ghost use Rattle.mb_supervision.specs.CellState.{most_acts};

pub(crate) mod aside;
mod create;
mod died;
mod failed;
mod handle;
mod ignore;
mod recreate;
mod resume;
mod suspend;
mod terminate;
mod watch;

use crate::act::Act;
use crate::act_queue::ActQueue;
use crate::actor_list::has;
use mb_actor::Phase;
use mb_journal::FailedBy;
use mb_msg::limits::EFFECTS;
use mb_msg::{ActorId, SysMsg};
use mb_syslist::Node;
use std::alloc::{AllocError, Global};
use std::marker::Model;

/// The state of a cell beside its journal: what the journal says, changed in place, and the acts of the last message
/// (fields of Akka's `ActorCell`, `Children`, `DeathWatch` and `FaultHandling`).
// What most messages use comes first, so that it lies in few cache lines.
#[derive(Drop)]
pub struct CellState {
    phase: Phase,
    was_live: bool,
    count: u64,
    failed: FailedBy,
    fanout: usize,
    /// Whether there is room for a message.
    ready: bool,
    acts: ActQueue,
    aside: Vec<(u64, SysMsg)>,
    due: Vec<ActorId>,
    children: Vec<ActorId>,
    watchers: Vec<ActorId>,
    watching: Vec<ActorId>,
    retries: Vec<(ActorId, u64)>,
}

impl Model for CellState {
    ghost use Rattle.mb_supervision.specs.CellStateRecord.{CellState as Shown};

    ghost Value = { Shown };

    ghost use Rattle.mb_supervision.specs.CellState.{cell_state_of_fields, IsCellState};

    ghost view = { cell_state_of_fields };

    ghost invariant = { IsCellState };
}

impl CellState {
    /// The state of an actor to which nothing came: suspended once, until it is started. For the guardian, `fanout` is
    /// how many children its start starts.
    pub fn new(alloc: Global, fanout: usize) -> Self
        ensures { result ≡ record {
          phase = Phase.Fresh;
          count = 1;
          failed = FailedBy.Nobody;
          children = [];
          watchers = [];
          watching = [];
          due = [];
          aside = [];
          was_live = false;
          retries = [];
          acts = [];
          fanout = fanout;
          is_ready = false;
        } }
    {
        CellState {
            phase: Phase::Fresh,
            count: 1,
            failed: FailedBy::Nobody,
            children: Vec::new(alloc),
            watchers: Vec::new(alloc),
            watching: Vec::new(alloc),
            due: Vec::new(alloc),
            aside: Vec::new(alloc),
            was_live: false,
            retries: Vec::new(alloc),
            acts: ActQueue::new(alloc),
            fanout,
            ready: false,
        }
    }

    /// Makes room for what one message may add, unless there is room already: the effects of a call or one actor more
    /// in its lists, and as many acts as one message can have.
    ///
    /// It answers `AllocError` if memory was refused. Nothing has changed then.
    pub fn make_room(&mut self) -> Result<(), AllocError>
        requires few_children { length self.old.children < 2 ^ 60 }
        requires few_watchers { length self.old.watchers < 2 ^ 61 }
        requires few_watched { length self.old.watching < 2 ^ 61 }
        requires small_fanout { self.old.fanout < 2 ^ 60 }
        ensures ok { OnOk result (self.new ≡ record self.old { is_ready = true }) }
        ensures err { OnErr result (self.new ≡ self.old) }
        ensures again { IsTrue self.old.is_ready → IsOk result }
    {
        if self.ready {
            return Ok(());
        }
        self.children.reserve(EFFECTS + self.fanout)?;
        self.watchers.reserve(1)?;
        self.watching.reserve(EFFECTS)?;
        self.due.reserve(1)?;
        self.aside.reserve(1)?;
        self.retries.reserve(self.children.len() + 1)?;
        let most = most_acts(
            self.children.len(),
            self.watchers.len(),
            self.watching.len(),
            self.fanout,
        );
        self.acts.make_room(most)?;
        self.ready = true;
        Ok(())
    }

    /// Keeps the node of a message that was taken, for an act that comes later. It takes no memory.
    pub fn keep_node(&mut self, node: Node)
        ensures { self.new ≡ self.old }
    {
        self.acts.keep_node(node);
    }

    /// Takes out the earliest act; `None` if none is left.
    #[inline(always)]
    pub fn next_act(&mut self) -> Option<Act>
        ensures taken { self.old.acts ≡ map act_of (option_to_list result) ++ self.new.acts }
        ensures none { IfNone result (self.old.acts ≡ []) }
        ensures rest { self.new ≡ record self.old { acts = self.new.acts } }
    {
        self.acts.pop()
    }

    /// System messages that are set aside.
    pub fn aside(&self) -> &[(u64, SysMsg)]
        ensures { result.now ≡ self.now.aside }
    {
        &self.aside
    }

    /// What is set aside; the rest is dropped.
    pub fn into_aside(self) -> Vec<(u64, SysMsg)>
        ensures { result.items ≡ self.aside }
    {
        self.aside
    }

    /// The phase of the actor's life.
    pub fn phase(&self) -> Phase
        ensures { result ≡ self.now.phase }
    {
        self.phase
    }

    /// How often the actor's mailbox is suspended.
    pub fn count(&self) -> u64
        ensures { result ≡ self.now.count }
    {
        self.count
    }

    /// Whether the actor was Live when it was told to end.
    pub fn was_live(&self) -> bool
        ensures { result ≡ self.now.was_live }
    {
        self.was_live
    }

    /// Whether there are no children.
    pub fn is_childless(&self) -> bool
        ensures { result ≡ is_empty self.now.children }
    {
        self.children.is_empty()
    }

    /// Whether this is a child.
    pub fn has_child(&self, id: ActorId) -> bool
        ensures { result ≡ holds self.now.children id }
    {
        has(&self.children, id)
    }

    /// Whether this is the one child that is left.
    pub fn is_last_child(&self, id: ActorId) -> bool
        ensures { result ≡ is_alone self.now.children id }
    {
        match self.children.as_slice() {
            [last] => last.0 == id.0,
            _ => false,
        }
    }

    /// Whether the actor is still to be told of the end of this one.
    pub fn is_due(&self, id: ActorId) -> bool
        ensures { result ≡ holds self.now.due id }
    {
        has(&self.due, id)
    }
}

/// How many acts one message can have, of an actor with so many in its lists.
#[inline(always)]
fn most_acts(children: usize, watchers: usize, watching: usize, fanout: usize) -> usize
    requires { most_acts children watchers watching fanout < 2 ^ 64 }
    ensures { result ≡ most_acts children watchers watching fanout }
{
    2 * children + watchers + watching + fanout + 40
}
