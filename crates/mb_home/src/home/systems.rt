//! System messages: what is kept of a drain, and which message is applied next.

ghost use Rattle.std.specs.Prelude.{◌≡◌, ◌+◌, ◌%◌, ◌^◌, ◌≤◌, ◌↔◌, [], false, length, IsTrue, IsErrOf, MatchBool, OnOk, OnErr, List, if◌then◌else◌};
ghost use Rattle.mb_syslist.specs.MessageList.{numbered};
ghost use Rattle.mb_actor.specs.declared.phase.Phase.TheVariants.{Ended};
ghost use Rattle.mb_journal.specs.Acts.{Act};
ghost use Rattle.mb_journal.specs.Aside.{aside, next_front, next_number};
ghost use Rattle.mb_journal.specs.Lawful.{IsLawful};
ghost use Rattle.mb_journal.specs.Phase.{phase_is};
ghost use Rattle.mb_cell.specs.CellView.{MayTake, TakesSystem};
ghost use Rattle.mb_journal.specs.Life.{closed};
ghost use Rattle.mb_gate.specs.Lists.{IsNumberedFrom};
ghost use Rattle.mb_home.specs.AtHome.{given_of};
ghost use Rattle.mb_home.specs.Carried.{LeadsOn};
ghost use Rattle.mb_home.specs.AgreesWithJournal.{AgreesWithJournal, messages_in};
ghost use Rattle.mb_home.specs.Steps.{HasNext, HasNoBacklog, AppliesNext, IsDue, most_tells};

use super::Home;
use mb_actor::{Actor, Behaviours, Phase};
use mb_journal::ReadyError;
use mb_msg::SysMsg;
use mb_msg::limits::EFFECTS;
use mb_syslist::Chain;

/// How many dead letters one message can make: one for each effect, and one for the notice of an end.
const TELLS: usize = EFFECTS + 1;

impl<A: Actor, K: Behaviours> Home<A, K> {
    /// Whether a system message is to be applied: one that was set aside and goes before others, or one that was drained.
    pub fn has_next(&self) -> bool
        ensures { MatchBool result (HasNext self.now) (HasNoBacklog self.now) }
    {
        if !self.rest.is_empty() {
            return true;
        }
        // Asked first, since mostly nothing is set aside.
        if self.cell.aside().is_empty() {
            return false;
        }
        self.cell.next_front().is_some()
    }

    /// Makes room for one message and for the dead letters that it can make, unless there is room already.
    ///
    /// It answers `JournalFull` if the journal has as many entries as it may have, and else `NoMemory` if memory was refused.
    /// Nothing but room has changed then.
    #[inline(always)]
    pub fn ready(&mut self) -> Result<(), ReadyError>
        ensures full { IsErrOf result ReadyError.JournalFull ↔ (self.old.cell.who.limit ≤ length self.old.cell.journal) }
        ensures ok { OnOk result (IsTrue self.new.cell.is_ready × (most_tells ≤ self.new.room)) }
        ensures same { self.new ≡ record self.old { cell = record self.old.cell { is_ready = self.new.cell.is_ready }; room = self.new.room } }
        ensures room { self.old.room ≤ self.new.room }
        ensures settled { (pending : List Act) → AgreesWithJournal (K.gives self.old.cell.who.this.0) pending self.old
            → AgreesWithJournal (K.gives self.new.cell.who.this.0) pending self.new }
    {
        self.make_room()
    }

    /// Makes room, without the contract on the whole home. Where there is room already, which is mostly so, it is one comparison.
    #[inline(always)]
    fn make_room(&mut self) -> Result<(), ReadyError>
        ensures full { IsErrOf result ReadyError.JournalFull ↔ (self.old.cell.who.limit ≤ length self.old.cell.journal) }
        ensures ok { OnOk result (IsTrue self.new.cell.is_ready × (most_tells ≤ self.new.room)) }
        ensures same { self.new ≡ record self.old { cell = record self.old.cell { is_ready = self.new.cell.is_ready }; room = self.new.room } }
        ensures room { self.old.room ≤ self.new.room }
    {
        if self.cell.is_ready() {
            return Ok(());
        }
        self.prepare()
    }

    /// Makes room for the dead letters that one message can make, and then for the message. It answers as `ready` does.
    #[cold]
    #[inline(never)]
    fn prepare(&mut self) -> Result<(), ReadyError>
        ensures full { IsErrOf result ReadyError.JournalFull ↔ (self.old.cell.who.limit ≤ length self.old.cell.journal) }
        ensures ok { OnOk result (IsTrue self.new.cell.is_ready × (most_tells ≤ self.new.room)) }
        ensures same { self.new ≡ record self.old { cell = record self.old.cell { is_ready = self.new.cell.is_ready }; room = self.new.room } }
        ensures room { self.old.room ≤ self.new.room }
    {
        if self.dead.reserve(TELLS).is_err() {
            if self.cell.journal().is_full() {
                return Err(ReadyError::JournalFull);
            }
            return Err(ReadyError::NoMemory);
        }
        self.cell.ready()
    }

    /// Keeps what was drained, whose numbers go on from those that the list gave before. Nothing else may be left of a drain.
    pub fn keep(&mut self, drained: Chain)
        requires none_left { self.old.rest ≡ [] }
        requires continues { IsNumberedFrom (given_of self.old) drained }
        requires settled { AgreesWithJournal (K.gives self.old.cell.who.this.0) self.old.cell.acts self.old }
        ensures kept { self.new ≡ record self.old { rest = drained } }
        ensures settled { AgreesWithJournal (K.gives self.new.cell.who.this.0) self.new.cell.acts self.new }
    {
        self.set_backlog(drained);
    }

    /// Puts the drained messages beside the cell.
    fn set_backlog(&mut self, drained: Chain)
        requires continues { drained ≡ numbered ((next_number self.old.cell.journal + self.old.dropped) % 2 ^ 64) (messages_in drained) }
        requires settled { AgreesWithJournal (K.gives self.old.cell.who.this.0) self.old.cell.acts self.old }
        ensures kept { self.new ≡ record self.old { rest = drained } }
        ensures settled { AgreesWithJournal (K.gives self.new.cell.who.this.0) self.new.cell.acts self.new }
    {
        self.rest = drained;
    }

    /// Gives the cell the next system message: the one that was set aside and goes before others, else the earliest that was
    /// drained (`Mailbox.processAllSystemMessages`). Its acts are to be carried out then. It takes no memory.
    pub fn apply_next(&mut self)
        requires ready { IsTrue self.old.cell.is_ready }
        requires room { most_tells ≤ self.old.room }
        requires carried_out { self.old.cell.acts ≡ [] }
        requires not_ended { closed self.old.cell.who self.old.cell.journal ≡ false }
        requires due { HasNext self.old }
        requires settled { AgreesWithJournal (K.gives self.old.cell.who.this.0) [] self.old }
        ensures applied { AppliesNext self.old self.new }
        ensures leads { LeadsOn self.old self.new }
        ensures settled { AgreesWithJournal (K.gives self.new.cell.who.this.0) self.new.cell.acts self.new }
    {
        let (number, message) = self.next_due();
        self.apply(number, message);
    }

    /// Takes out the message that is to be applied next.
    fn next_due(&mut self) -> (u64, SysMsg)
        requires due { HasNext self.old }
        ensures due { IsDue (next_front self.old.cell.who self.old.cell.journal) self.old.rest result.0 result.1 self.new.rest }
        ensures same { self.new ≡ record self.old { rest = self.new.rest } }
    {
        if let Some(front) = self.cell.next_front() {
            return front;
        }
        match self.rest.next() {
            Some((number, node)) => {
                let message = node.msg();
                self.cell.keep_node(node);
                (number, message)
            }
            None => unreachable!(),
        }
    }

    /// Gives the message to the cell, and counts what was set aside if the actor ended.
    fn apply(&mut self, number: u64, message: SysMsg)
        requires may_take { MayTake self.old.cell number message }
        ensures taken { TakesSystem self.old.cell self.new.cell number message }
        ensures lawful { IsLawful self.new.cell.who (K.gives self.new.cell.who.this.0) self.new.cell.journal }
        ensures aside { self.new.aside_dead ≡ (if closed self.new.cell.who self.new.cell.journal
            then length (aside self.old.cell.who self.old.cell.journal) else self.old.aside_dead) }
        ensures same { self.new ≡ record self.old { cell = self.new.cell; aside_dead = self.new.aside_dead } }
    {
        let aside = self.cell.aside().len() as u64;
        self.cell.apply_system(number, message);
        self.aside_dead = counted(self.cell.phase(), aside, self.aside_dead);
    }
}

/// How many messages that were set aside are dead: these, if the actor ended, else as many as before.
fn counted(phase: Phase, aside: u64, before: u64) -> u64
    ensures { result ≡ (if phase_is phase Ended then aside else before) }
{
    match phase {
        Phase::Ended => aside,
        Phase::Fresh | Phase::Live | Phase::Broken | Phase::Ending => before,
    }
}
