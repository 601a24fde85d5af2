//! What a party owes an actor.

/// What a party owes an actor: a check whether the actor has to be scheduled, and why (this project's own profile: in
/// Akka, the calls of `registerForExecution`).
#[derive(Clone, Copy, Debug, PartialEq, Eq)]
pub struct WakeObligation {
    /// There may be system messages for which nobody else checks.
    pub system: bool,
    /// An envelope may be waiting for which nobody else checks. `sending` becomes this once the party has taken a count
    /// back, or has read a status at which envelopes may be handled.
    pub message: bool,
    /// The party has counted an envelope as waiting, and has since neither taken a count back, nor read the status, nor
    /// scheduled the actor. After it has counted two and taken one back this is not set, though one is still counted:
    /// `message` is owed for that one.
    pub sending: bool,
}

impl WakeObligation {
    /// Nothing is owed.
    pub const NOTHING: WakeObligation = WakeObligation {
        system: false,
        message: false,
        sending: false,
    };
}
