//! Entries that were kept, and stand in proofs alone now.
ghost use Rattle.std.specs.Prelude.{◌≡◌, [], ◌++◌};

use crate::kept_entries::KeptEntries;
use std::marker::Model;
use std::mem;
use std::mem::size_of;
use std::snapshot::Snapshot;

/// Lists of entries, the newest in front. No value of this type is kept: it exists in snapshots alone.
#[derive(Drop)]
pub(crate) enum PastLists {
    /// No list yet.
    Nothing,
    /// One list more, after those before it.
    Then(Snapshot<PastLists>, Snapshot<KeptEntries>),
}

/// Entries that are kept no more, for contracts alone. It takes no bytes.
#[derive(Drop)]
pub(crate) struct GoneEntries {
    past: Snapshot<PastLists>,
}

const _: () = prove!(size_of::<GoneEntries>() == 0);

impl Model for GoneEntries {
    ghost use Rattle.std.specs.Prelude.{List};
    ghost use Rattle.mb_journal.specs.Entry.{Entry};

    ghost Value = { List Entry };

    ghost use Rattle.mb_journal.specs.GoneEntries.{gone_of};

    ghost view = { λ e. gone_of e.past.value };
}

impl GoneEntries {
    /// No entries.
    #[inline(always)]
    pub(crate) fn none() -> Self
        ensures { result ≡ [] }
    {
        GoneEntries {
            past: Snapshot::of(&PastLists::Nothing),
        }
    }

    /// Adds the entries of a list, which are newer than those before.
    #[inline(always)]
    pub(crate) fn add(&mut self, list: &KeptEntries)
        ensures { self.new ≡ list.now.entries ++ self.old }
    {
        let list = Snapshot::of(list);
        let past = mem::replace(&mut self.past, Snapshot::of(&PastLists::Nothing));
        self.past = Snapshot::of(&PastLists::Then(past, list));
    }
}
