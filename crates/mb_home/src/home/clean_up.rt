//! What becomes of messages that are left when an actor ends (`Mailbox.cleanUp`).

ghost use Rattle.std.specs.Prelude.{◌≡◌, ◌+◌, ◌<◌, ◌%◌, ◌^◌, ◌++◌, [], true, false, length, IsOk, is_some, if◌then◌else◌, option_to_list, IfNone, OnErr, IfOk, MatchBool};
ghost use Rattle.mb_journal.specs.Life.{closed};
ghost use Rattle.mb_home.specs.AgreesWithJournal.{AgreesWithJournal};
ghost use Rattle.mb_home.specs.Steps.{Cleans, FindsNone};

use super::Home;
use mb_actor::{Actor, Behaviours};
use mb_syslist::Node;
use std::alloc::AllocError;
use std::sync::Wait;

impl<A: Actor, K: Behaviours> Home<A, K> {
    /// Drops the next drained system message of an actor that ended, which is then dead; `None` if none is left.
    pub fn drop_next(&mut self) -> Option<(u64, Node)>
        requires ended { closed self.old.cell.who self.old.cell.journal ≡ true }
        requires settled { AgreesWithJournal (K.gives self.old.cell.who.this.0) self.old.cell.acts self.old }
        ensures dropped { self.old.rest ≡ option_to_list result ++ self.new.rest }
        ensures none { IfNone result (self.old.rest ≡ []) }
        ensures same { self.new ≡ record self.old {
          rest = self.new.rest;
          dropped = (if is_some result then (self.old.dropped + 1) % 2 ^ 64 else self.old.dropped);
        } }
        ensures settled { AgreesWithJournal (K.gives self.new.cell.who.this.0) self.new.cell.acts self.new }
    {
        let next = self.rest.next()?;
        self.dropped = self.dropped.wrapping_add(1);
        Some(next)
    }

    /// Takes the next envelope that is still queued for an actor that ended, which is then cleaned up; `false` if none was
    /// there. A place is reserved first: it answers `AllocError` if that was refused, and then nothing has changed. Where the journal does not
    /// keep all, this asks for no memory: it answers `AllocError` only if 2^64 - 1 envelopes were cleaned up.
    pub fn clean_next<R: Wait>(&mut self, rt: &R) -> Result<bool, AllocError>
        requires ended { closed self.old.cell.who self.old.cell.journal ≡ true }
        requires settled { AgreesWithJournal (K.gives self.old.cell.who.this.0) self.old.cell.acts self.old }
        ensures cleaned { IfOk result (λ some. MatchBool some (Cleans self.old self.new) (FindsNone self.old self.new)) }
        ensures refused { OnErr result (self.new ≡ self.old) }
        ensures never_short { self.old.cell.who.retention.keeps_all ≡ false → length self.old.cleaned + 1 < 2 ^ 64 → IsOk result }
        ensures settled { AgreesWithJournal (K.gives self.new.cell.who.this.0) self.new.cell.acts self.new }
    {
        self.cleaned.reserve(1)?;
        let Some(envelope) = self.take.take(rt) else {
            return Ok(false);
        };
        self.cleaned.push(envelope);
        Ok(true)
    }
}
