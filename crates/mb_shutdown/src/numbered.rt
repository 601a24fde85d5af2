//! Handles and senders by their numbers.
ghost use Rattle.std.specs.Prelude.{◌≡◌, ℕ};

use mb_actor::{Actor, Behaviours};
use mb_msg::limits::ACTORS;
use mb_system::{Sender, WorkerHandle};

/// Something that has a number.
pub(crate) trait Numbered {
    // which it has
    ghost numbered: { Self → ℕ };

    /// Its number.
    fn number(&self) -> u32
        ensures { result ≡ numbered self.now };
}

impl<A: Actor, K: Behaviours> Numbered for WorkerHandle<A, K> {
    ghost numbered = { λ e. e.number };

    fn number(&self) -> u32 {
        self.number
    }
}

/// A sender's, counted from 0.
impl<A: Actor, K: Behaviours> Numbered for Sender<A, K> {
    ghost use Rattle.std.specs.Prelude.{◌-◌};
    ghost use Rattle.mb_msg.specs.Limits.{most_actors};

    ghost numbered = { λ s. s.send_log.by.0 - most_actors };

    fn number(&self) -> u32 {
        self.send_log.by.0.saturating_sub(ACTORS)
    }
}
