//! The refusals of a push.
ghost use Rattle.std.specs.Prelude.{◌≡◌};
ghost use Rattle.mb_pool.specs.Moves.{given_back};

use mb_gate::Claim;

/// Why a push was refused. The claim was not pushed, and comes back as it was (this project's own profile: in Akka the executor throws).
pub enum ClaimRefused<H> {
    /// All 64 places of the shared pool were taken at a moment of the call.
    Full(Claim<H>),
    /// Memory was refused. It never comes of a shared pool.
    NoMemory(Claim<H>),
}

impl<H> ClaimRefused<H> {
    /// The claim that was not pushed.
    pub(crate) fn into_claim(self) -> Claim<H>
        ensures { result ≡ given_back self }
    {
        match self {
            ClaimRefused::Full(claim) => claim,
            ClaimRefused::NoMemory(claim) => claim,
        }
    }
}
