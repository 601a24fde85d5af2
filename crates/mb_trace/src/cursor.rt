//! How far an actor's journal was gone through.
ghost use Rattle.std.specs.Prelude.{ℕ, ◌≡◌, ◌+◌, ◌*◌, ◌≤◌, List, IfOk, IsTrue, OnErr, drop, length, option_map, slice_get, is_some, if◌then◌else◌};
ghost use Rattle.mb_journal.specs.Entry.{Entry};
ghost use Rattle.mb_journal.specs.Identity.{Identity};
ghost use Rattle.mb_trace.specs.Cursors.{IsAt};
ghost use Rattle.mb_trace.specs.Lives.{AreRulesOf, script_read};
ghost use Rattle.mb_trace.specs.Steps.{step_data, steps_of};

use crate::life::Life;
use crate::rules::Rules;
use crate::step::TraceStep;
use mb_journal::Journal;
use mb_msg::ActorId;
use std::alloc::{AllocError, Global};

/// How far an actor's journal was gone through, and how the actor stands there.
#[derive(Drop)]
pub(crate) struct JournalCursor {
    /// The place of the next entry.
    next: usize,
    life: Life,
}

impl JournalCursor {
    /// At the beginning of the journal of an actor with these rules.
    pub(crate) fn new(alloc: Global, rules: &Rules<'_, '_>) -> Self
        ensures next { result.next ≡ 0 }
        ensures at { (who : Identity) (journal : List Entry) → IsAt who (script_read rules.now.script) journal result }
    {
        JournalCursor {
            next: 0,
            life: Life::new(alloc, rules),
        }
    }

    /// Goes past the next entry of this actor's journal; `None` at its end. The only error: memory was refused.
    pub(crate) fn pass<'a>(
        &mut self,
        actor: ActorId,
        rules: &Rules<'_, '_>,
        journal: &'a Journal,
    ) -> Result<Option<TraceStep<'a>>, AllocError>
        requires kept { IsTrue journal.now.retention.keeps_all }
        requires few { self.old.life.suspended ≤ 1 + 3 * self.old.next }
        ensures at { (who : Identity) → AreRulesOf who rules.now → IsAt who (script_read rules.now.script) journal.now.entries self.old
            → IsAt who (script_read rules.now.script) journal.now.entries self.new }
        ensures found { (who : Identity) → AreRulesOf who rules.now → IsAt who (script_read rules.now.script) journal.now.entries self.old
            → IfOk result (λ found. option_map step_data found ≡ slice_get (steps_of actor.0 who (script_read rules.now.script) journal.now.entries) self.old.next) }
        ensures next { IfOk result (λ found. self.new.next ≡ (if is_some found then self.old.next + 1 else self.old.next)) }
        ensures err { OnErr result (self.new.next ≡ self.old.next) }
    {
        let index = self.next;
        if index >= journal.len() {
            return Ok(None);
        }
        let entry = journal.get(index);
        let before = self.life.snapshot();
        self.life.make_room(rules, &entry)?;
        self.life.apply(rules, &entry);
        self.next = index + 1;
        let after = self.life.snapshot();
        Ok(Some(TraceStep {
            actor,
            index,
            entry,
            before,
            after,
        }))
    }
}
