//! What holds of a system at rest (this project's own profile).
ghost use Rattle.mb_dispatch.specs.RestingActors.{ShowsRest};

use mb_gate::MailboxState;

/// A law: between any two atomic steps, while the seats that have the whole share together gave back each claim that they got, no
/// actor is scheduled, and each is at home, in its own home. If nobody owes it a look, it has nothing to run: no system message is left to an actor
/// that is open, and no envelope is counted as waiting for one that is not suspended either.
pub fn what_is_at_rest_has_nothing_to_run<H: MailboxState>()
    ensures { (first : H) → ShowsRest (H.is_of first) H.facts }
{}
