//! Whether two systems go on alike.
ghost use Rattle.std.specs.Prelude.{◌≡◌, ◌↔◌, map, Contains, IsTrue};
ghost use Rattle.mb_journal.specs.JournalView.{entry_of};
ghost use Rattle.mb_msg.specs.declared.id.ActorId.{ActorId as ActorIdData};
ghost use Rattle.mb_world.specs.Alike.{contents_of, IsAlike};
ghost use Rattle.mb_world.specs.World.{log_of};

use crate::compared::{Compared, Exact, are_equal, are_same};
use crate::dispatcher::{Dispatcher, place_of};
use crate::numbered_cell::NumberedCell;
use crate::order_queue::OrderQueue;
use crate::send_log::SendLog;
use crate::world::World;
use mb_actor::{Actor, Behaviours};
use mb_journal::{EntryRef, Journal};
use mb_msg::ActorId;
use std::collections::VecDeque;

impl<A: Actor, K: Behaviours> World<A, K> {
    /// Whether this system and the other are alike: each journal is the same, what is in each mailbox and how it stands, what each sender is still
    /// to send and was answered, and who is registered for execution. The order in which actors were registered may differ, since any of them may
    /// be run next. It is for two systems of the same plan and actors.
    pub fn is_alike(&self, other: &Self) -> bool
        ensures { IsTrue result → IsAlike self.now other.now }
    {
        if !are_senders_equal(&self.senders, &other.senders) {
            return false;
        }
        if !are_same(&self.cells, &other.cells) {
            return false;
        }
        are_dispatchers_alike(&self.dispatcher, &other.dispatcher)
    }
}

/// Whether these senders outside are still to send the same.
fn are_senders_equal(one: &[OrderQueue], other: &[OrderQueue]) -> bool
    ensures { IsTrue result → one.now ≡ other.now }
{
    are_same(one, other)
}

/// Whether the same is in each mailbox, the senders were answered the same, and the same actors are registered for execution.
fn are_dispatchers_alike(one: &Dispatcher, other: &Dispatcher) -> bool
    ensures contents { IsTrue result → map contents_of one.now.mailboxes.items ≡ map contents_of other.now.mailboxes.items }
    ensures answered { IsTrue result → map log_of one.now.logs.items ≡ map log_of other.now.logs.items }
    ensures registered { IsTrue result →
        (actor : ActorIdData) → Contains one.now.claims.items actor ↔ Contains other.now.claims.items actor }
{
    if !are_same(&one.mailboxes, &other.mailboxes) {
        return false;
    }
    if !are_same(&one.logs, &other.logs) {
        return false;
    }
    if !are_among(&one.claims, &other.claims) {
        return false;
    }
    are_among(&other.claims, &one.claims)
}

impl<A: Actor, K: Behaviours> Compared for NumberedCell<A, K> {
    ghost use Rattle.std.specs.Prelude.{List};
    ghost use Rattle.mb_journal.specs.Entry.{Entry};
    ghost use Rattle.mb_world.specs.Alike.{journal_of};

    ghost Part = { List Entry };

    ghost part = { journal_of };

    fn is_same(&self, other: &Self) -> bool {
        are_journals_equal(self.cell().journal(), other.cell().journal())
    }
}

impl Compared for OrderQueue {
    ghost use Rattle.mb_world.specs.World.{Sender};

    ghost Part = { Sender };

    ghost part = { λ s. s };

    fn is_same(&self, other: &Self) -> bool {
        self.position() == other.position() && are_equal(self.orders(), other.orders())
    }
}

impl Compared for SendLog {
    ghost use Rattle.mb_world.specs.World.{Answered, log_of};

    ghost Part = { Answered };

    ghost part = { log_of };

    fn is_same(&self, other: &Self) -> bool {
        self.sent == other.sent
            && self.dead.is_kept()
            && other.dead.is_kept()
            && are_equal(self.dead.kept(), other.dead.kept())
    }
}

/// Whether two journals have the same entries, and keep them.
fn are_journals_equal(one: &Journal, other: &Journal) -> bool
    ensures { IsTrue result → one.now.entries ≡ other.now.entries }
{
    if one.len() != other.len() {
        return false;
    }
    for place in 0..one.len() {
        let Some(entry) = one.entry(place) else {
            return false;
        };
        let Some(other_entry) = other.entry(place) else {
            return false;
        };
        if !are_entries_equal(entry, other_entry) {
            return false;
        }
    }
    true
}

/// Whether the same came, the same became of it, and the actor asked for the same.
fn are_entries_equal(one: EntryRef<'_>, other: EntryRef<'_>) -> bool
    ensures { IsTrue result → entry_of one.entry ≡ entry_of other.entry }
{
    one.arrival.equals(other.arrival) && are_equal(one.effects, other.effects)
}

/// Whether each of these actors is one of the others.
fn are_among(actors: &VecDeque<ActorId>, others: &VecDeque<ActorId>) -> bool
    ensures { IsTrue result → (actor : ActorId) → Contains actors.now.items actor → Contains others.now.items actor }
{
    for place in 0..actors.len() {
        let Some(_found) = place_of(others, actors[place]) else {
            return false;
        };
    }
    true
}
