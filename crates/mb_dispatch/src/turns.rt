//! What a quiet run did, in order.
ghost use Rattle.std.specs.Prelude.{◌≡◌, ◌⊎◌, ◌-◌, ◌≤◌, [], true, drop, IfOk, IsOk, length};
ghost use Rattle.mb_msg.specs.JournalMode.{keeps_all, keeps_last, retention_of};
ghost use Rattle.mb_dispatch.specs.Runs.{turns_in};

use mb_dead_letters::KeptList;
use mb_mailbox::Turn;
use mb_msg::JournalMode;
use std::alloc::{AllocError, Global};

/// What each run of a mailbox did in a quiet run, in the order in which they were made. All turns are kept, or the newest, or none, as
/// a journal keeps its entries; those that are not kept are counted. Only `run_quietly` makes one, and only `continue_quietly` puts more behind them:
/// so whoever has it has that order. (This project's own profile: Akka's dispatchers keep no such list.)
#[derive(Drop)]
pub struct Turns {
    /// The turns, in order.
    pub(crate) list: KeptList<Turn>,
}

impl Turns {
    /// How many turns there were, of which not all may be kept.
    pub fn len(&self) -> u64
        ensures { result ≡ length (turns_in self.now) }
    {
        self.list.len()
    }

    /// Whether all turns are kept.
    pub fn is_kept(&self) -> bool
        ensures { result ≡ self.now.list.retention.keeps_all }
    {
        self.list.is_kept()
    }

    /// The turns that are kept, the earliest first: all, or the newest.
    pub fn kept(&self) -> &[Turn]
        ensures all { self.now.list.retention.keeps_all ≡ true → result.now ≡ turns_in self.now }
        ensures newest { result.now ≡ drop (length (turns_in self.now) - length result.now) (turns_in self.now) }
        ensures last { (self.now.list.retention.last ≤ length result.now) ⊎ (result.now ≡ turns_in self.now) }
    {
        self.list.kept()
    }
}

/// No turns yet, of which as many are kept as a journal of this mode keeps of its entries.
///
/// The only error: memory was refused. Where all are kept, or none, this takes none.
pub(crate) fn no_turns(alloc: Global, mode: JournalMode) -> Result<KeptList<Turn>, AllocError>
    ensures made { IfOk result (λ turns. turns ≡ record { items = []; kept = []; retention = retention_of mode; room = turns.room }) }
    ensures never_short { ((keeps_all mode ≡ true) ⊎ (keeps_last mode ≡ 0)) → IsOk result }
{
    match mode {
        JournalMode::Kept => KeptList::new(alloc, true, 0),
        JournalMode::Counted => KeptList::new(alloc, false, 0),
        JournalMode::Last(last) => KeptList::new(alloc, false, last as usize),
    }
}
