//! The home of an actor, and how it begins and ends.
ghost use Rattle.std.specs.Prelude.{◌≡◌, ◌+◌, ◌%◌, ◌^◌, ◌≤◌, [], true, IfOk, IsOk, map};
ghost use Rattle.mb_msg.specs.Limits.{most_entries};
ghost use Rattle.mb_home.specs.AgreesWithJournal.{IsOwn, AgreesWithJournal};
ghost use Rattle.mb_home.specs.Steps.{AreUnused, HasNoBacklog, at_first};

use crate::entry_snapshot::EntrySnapshot;
use mb_actor::{Actor, Behaviours};
use mb_cell::Cell;
use mb_dead_letters::{DeadLetters, KeptList};
use mb_msg::{ActorId, Envelope};
use mb_queue::{SendPass, TakePass};
use mb_syslist::Chain;
use std::alloc::{AllocError, Global};
use std::marker::Model;
use std::snapshot::Snapshot;

mod clean_up;
mod mailbox_state;
mod status;
mod systems;
mod tells;

/// What lies in an actor's slot while nobody holds it: its cell, and what is kept beside it.
// What most messages use comes first, so that it lies in few cache lines.
pub struct Home<A: Actor, K: Behaviours> {
    id: ActorId,
    /// The cell.
    pub cell: Cell<A, K>,
    rest: Chain,
    sent: u64,
    /// The pass of the actor's queue.
    pub take: TakePass,
    sends: Vec<SendPass>,
    aside_dead: u64,
    dropped: u64,
    cleaned: KeptList<Envelope>,
    dead: DeadLetters,
    directory: Snapshot<Vec<EntrySnapshot<A, K>>>,
}

// Written by hand: with a derived `Drop`, each crate above would have to prove again how every part is dropped.
impl<A: Actor, K: Behaviours> Drop for Home<A, K> {
    fn drop(self) {
        let Home {
            id: _,
            cell: _,
            take: _,
            sends: _,
            rest: _,
            sent: _,
            aside_dead: _,
            dropped: _,
            cleaned: _,
            dead: _,
            directory: _,
        } = self;
    }
}

impl<A: Actor, K: Behaviours> Model for Home<A, K> {
    ghost use Rattle.std.specs.Prelude.{◌≡◌, ◌≤◌, map, true};
    ghost use Rattle.mb_msg.specs.Limits.{most_entries};
    ghost use Rattle.mb_home.specs.Contents.{Contents};
    ghost use Rattle.mb_home.specs.Steps.{most_tells};

    ghost Value = { Contents };

    ghost view = { λ h. record {
      cell = h.cell;
      take = h.take;
      sends = h.sends.items;
      rest = h.rest;
      sent = h.sent;
      dead = h.dead.items;
      cleaned = h.cleaned.items;
      aside_dead = h.aside_dead;
      dropped = h.dropped;
      room = h.dead.room;
      directory = map (λ n. record { who = n.cell.value.who; queue = n.take.value.queue; discipline = n.take.value.discipline }) h.directory.value.items;
    } };

    ghost invariant = { λ h. (h.id ≡ h.cell.who.this) × (h.cell.who.limit ≤ most_entries)
        × (h.cell.is_ready ≡ true → most_tells ≤ h.dead.room)
        × (h.dead.retention ≡ h.cell.who.retention) × (h.cleaned.retention ≡ h.cell.who.retention) };
}

/// What a home leaves at the end of its system.
#[derive(Drop)]
pub struct HomeParts<A: Actor, K: Behaviours> {
    /// The cell.
    pub cell: Cell<A, K>,
    /// The pass of its queue.
    pub take: TakePass,
    /// The passes that it sent by, one for each receiver from the number 1 on.
    pub sends: Vec<SendPass>,
    /// How many envelopes it sent, modulo 2^64.
    pub sent: u64,
    /// Those of them that are dead letters, in order.
    pub dead: DeadLetters,
    /// The envelopes that were still queued when it ended, in order.
    pub cleaned: KeptList<Envelope>,
    /// How many numbered system messages to it were never applied and are dead, modulo 2^64.
    pub dead_system: u64,
}

impl<A: Actor, K: Behaviours> Home<A, K> {
    /// The home of an actor to which nothing came yet: of its cell, the pass of its queue, and the passes that it sends by, one
    /// for each receiver from number 1 on, in order. The directory has the cells and passes of all actors, by number.
    ///
    /// Of the actor's dead letters, and of the envelopes that are cleaned up when it ends, as much is kept as its journal keeps. The only error:
    /// memory was refused. What was handed in is dropped then. Where the journal keeps all this takes no memory.
    pub fn new(
        alloc: Global,
        id: ActorId,
        cell: Cell<A, K>,
        take: TakePass,
        sends: Vec<SendPass>,
        directory: &Vec<EntrySnapshot<A, K>>,
    ) -> Result<Self, AllocError>
        requires number { id ≡ cell.who.this }
        requires unused { AreUnused cell take sends.items }
        requires owner { IsOwn (at_first cell take sends.items 0
            (map (λ n. record { who = n.cell.value.who; queue = n.take.value.queue; discipline = n.take.value.discipline }) directory.now.items)) }
        ensures first { IfOk result (λ home. home ≡ at_first cell take sends.items home.room
            (map (λ n. record { who = n.cell.value.who; queue = n.take.value.queue; discipline = n.take.value.discipline }) directory.now.items)) }
        ensures settled { IfOk result (λ home. AgreesWithJournal (K.gives cell.who.this.0) [] home) }
        ensures no_backlog { IfOk result (λ home. HasNoBacklog home) }
        ensures never_short { cell.who.retention.keeps_all ≡ true → IsOk result }
    {
        // Its contract shows that the journal is lawful.
        let journal = cell.journal();
        let (keeps_all, last) = (journal.is_kept(), journal.last());
        let cleaned = KeptList::new(alloc, keeps_all, last)?;
        let dead = DeadLetters::new(alloc, keeps_all, last)?;
        Ok(Self::unused(id, cell, take, sends, cleaned, dead, directory))
    }

    /// The fields of an unused home.
    fn unused(
        id: ActorId,
        cell: Cell<A, K>,
        take: TakePass,
        sends: Vec<SendPass>,
        cleaned: KeptList<Envelope>,
        dead: DeadLetters,
        directory: &Vec<EntrySnapshot<A, K>>,
    ) -> Self
        requires number { id ≡ cell.who.this }
        requires within_limit { cell.who.limit ≤ most_entries }
        requires kept { (cleaned.retention ≡ cell.who.retention) × (dead.retention ≡ cell.who.retention) }
        requires none { (cleaned.items ≡ []) × (dead.items ≡ []) }
        ensures { result ≡ at_first cell take sends.items result.room
            (map (λ n. record { who = n.cell.value.who; queue = n.take.value.queue; discipline = n.take.value.discipline }) directory.now.items) }
    {
        let mut cell = cell;
        cell.forget_room();
        Home {
            id,
            cell,
            take,
            sends,
            rest: Chain::new(),
            sent: 0,
            aside_dead: 0,
            dropped: 0,
            cleaned,
            dead,
            directory: Snapshot::of(directory),
        }
    }

    /// The actor's parent; the guardian has none (`akka.actor.ActorContext.parent`).
    pub fn parent(&self) -> Option<ActorId>
        ensures { result ≡ self.now.cell.who.parent }
    {
        self.cell.parent()
    }

    /// Takes the home apart, at the end of its system.
    pub fn into_parts(self) -> HomeParts<A, K>
        ensures cell { result.cell ≡ self.cell }
        ensures passes { (result.take ≡ self.take) × (result.sends.items ≡ self.sends) }
        ensures sent { (result.sent ≡ self.sent) × (result.dead.items ≡ self.dead) }
        ensures cleaned { result.cleaned.items ≡ self.cleaned }
        ensures kept { (result.dead.retention ≡ self.cell.who.retention) × (result.cleaned.retention ≡ self.cell.who.retention) }
        ensures dead_system { result.dead_system ≡ (self.aside_dead + self.dropped) % 2 ^ 64 }
    {
        let Home {
            id: _,
            cell,
            take,
            sends,
            rest: _,
            sent,
            aside_dead,
            dropped,
            cleaned,
            dead,
            directory: _,
        } = self;
        HomeParts {
            cell,
            take,
            sends,
            sent,
            dead,
            cleaned,
            dead_system: aside_dead.wrapping_add(dropped),
        }
    }
}
