//! What the gates ask of a home.
ghost use Rattle.std.specs.Prelude.{◌≡◌, ℕ};
ghost use Rattle.mb_journal.specs.Identity.{Identity};
ghost use Rattle.mb_gate.specs.HomeFacts.{HomeFacts};

use mb_status::Status;

/// What lies at home while nobody holds its actor: the cell (`akka.actor.ActorCell`), and what is kept beside it (this project's own
/// profile).
pub trait MailboxState: Drop {
    // whether it is this actor's own, where the gates began with that first home: of the actor's number and identity, with its queues
    ghost is_of: { Self → ℕ → Self → Type 0 };
    // who the cell's actor is
    ghost who: { Self → Identity };
    // its journal, the mailbox that the journal says, whether nothing is left beside the cell, how many system messages its list gave, which
    // of these it still knows, and which actors it says are closed
    ghost facts: { Self → HomeFacts };

    /// The status that the journal says.
    fn status(&self) -> Status
        ensures { result ≡ (facts self.now).mailbox };
}

impl<H: MailboxState> MailboxState for Box<H> {
    ghost is_of = { λ first actor home. H.is_of first.value actor home.value };

    ghost who = { λ home. H.who home.value };

    ghost facts = { λ home. H.facts home.value };

    fn status(&self) -> Status {
        (**self).status()
    }
}
