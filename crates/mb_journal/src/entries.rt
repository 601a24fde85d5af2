//! Entries that stand in proofs alone.
ghost use Rattle.std.specs.Prelude.{◌≡◌, [], ◌∷◌};
ghost use Rattle.mb_journal.specs.JournalView.{entry_with};

use crate::entry::Received;
use mb_actor::Effect;
use std::marker::Model;
use std::mem;
use std::mem::size_of;
use std::snapshot::Snapshot;

/// Entries, the newest in front. No value of this type is kept: it exists in snapshots alone.
#[derive(Drop)]
pub(crate) enum Past {
    /// No entry yet.
    Nothing,
    /// One entry more, after those before it, and its effects.
    Then(Snapshot<Past>, Received, Snapshot<Vec<Effect>>),
}

/// All entries, for contracts alone. It takes no bytes.
#[derive(Drop)]
pub(crate) struct Entries {
    past: Snapshot<Past>,
}

const _: () = prove!(size_of::<Entries>() == 0);

impl Model for Entries {
    ghost use Rattle.std.specs.Prelude.{List};
    ghost use Rattle.mb_journal.specs.Entry.{Entry};

    ghost Value = { List Entry };

    ghost use Rattle.mb_journal.specs.EntryList.{entries_of};

    ghost view = { λ e. entries_of e.past.value };
}

impl Entries {
    /// No entries.
    #[inline(always)]
    pub(crate) fn none() -> Self
        ensures { result ≡ [] }
    {
        Entries {
            past: Snapshot::of(&Past::Nothing),
        }
    }

    /// Adds an entry with these effects.
    #[inline(always)]
    pub(crate) fn add(&mut self, arrival: Received, effects: &Vec<Effect>)
        ensures { self.new ≡ entry_with arrival effects.now.items ∷ self.old }
    {
        let effects = Snapshot::of(effects);
        let past = mem::replace(&mut self.past, Snapshot::of(&Past::Nothing));
        self.past = Snapshot::of(&Past::Then(past, arrival, effects));
    }
}
