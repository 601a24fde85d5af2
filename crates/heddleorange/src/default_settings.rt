//! The settings of a system by default.
ghost use Rattle.std.specs.Prelude.{◌≡◌};
ghost use Rattle.mb_msg.specs.declared.journal_mode.JournalMode.TheVariants as journal_mode;
ghost use Rattle.mb_msg.specs.declared.pool_kind.PoolKind.TheVariants as pool_kind;

use crate::planned_system::{SETTINGS, Settings};

impl Default for Settings {
    /// `SETTINGS`.
    fn default() -> Settings
        ensures { result ≡ record {
          throughput = 5;
          workers = 1;
          pool = pool_kind.Shared;
          senders = 1;
          journal = journal_mode.Kept;
          journal_limit = 1000000;
        } }
    {
        SETTINGS
    }
}
