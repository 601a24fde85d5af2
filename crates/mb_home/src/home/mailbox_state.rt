//! What the gates ask of an actor's home.

use super::Home;
use mb_actor::{Actor, Behaviours};
use mb_gate::MailboxState;
use mb_status::Status;

impl<A: Actor, K: Behaviours> MailboxState for Home<A, K> {
    ghost use Rattle.mb_home.specs.AtHome.{IsHomeOf, facts_of};

    ghost is_of = { λ first actor home. IsHomeOf (K.gives actor) first actor home };

    ghost who = { λ home. home.cell.who };

    ghost facts = { λ home. facts_of home };

    fn status(&self) -> Status {
        self.own_status()
    }
}
