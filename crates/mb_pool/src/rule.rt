//! The rule of a queue of the pool and its steps, in the form that `crossbeam_queue` and `crossbeam_deque` are generic
//! in.
use crate::port_ledger::PortLedger;
use crossbeam_deque::protocol as deque;
use crossbeam_queue::protocol as queue;
use crossbeam_queue::protocol::{Join, Split};
use mb_gate::{MailboxState, PooledClaim};
use std::marker::{Brand, PhantomData};

/// The rule: what each port knows is true of what the queue holds.
pub struct PoolRule;

impl<H: MailboxState> queue::Protocol<PooledClaim<H>, PortLedger<H>> for PoolRule {
    ghost use Rattle.mb_pool.specs.Ledger.{unused};
    ghost use Rattle.mb_pool.specs.Rule.{Kept};
    ghost use Rattle.mb_pool.specs.Items.{claims_of};
    ghost use Rattle.mb_gate.specs.Untouched.{IsUntouched};

    ghost holds = { λ items ledgers. Kept (IsUntouched H.is_of H.facts) (claims_of items) ledgers };

    ghost first = { unused };
}

impl<H: MailboxState> deque::Protocol<PooledClaim<H>, PortLedger<H>> for PoolRule {
    ghost use Rattle.mb_pool.specs.Ledger.{unused};
    ghost use Rattle.mb_pool.specs.Rule.{Kept};
    ghost use Rattle.mb_pool.specs.Items.{claims_of};
    ghost use Rattle.mb_gate.specs.Untouched.{IsUntouched};

    ghost holds = { λ items ledgers. Kept (IsUntouched H.is_of H.facts) (claims_of items) ledgers };

    ghost first = { unused };

    ghost guest = { unused };
}

/// A push.
pub struct Pushed;

impl<H: MailboxState> queue::Outcome<PooledClaim<H>, PortLedger<H>> for Pushed {
    ghost use Rattle.mb_gate.specs.PooledClaims.{claim_in};
    ghost use Rattle.mb_pool.specs.Rule.{PutsLast};
    ghost use Rattle.mb_gate.specs.Untouched.{IsUntouched};

    ghost then = { λ old p new. PutsLast (IsUntouched H.is_of H.facts) old (claim_in p) new };
}

/// What a push learns of a queue that it found full.
impl<H: MailboxState> queue::Lesson<PooledClaim<H>, PortLedger<H>> for Pushed {
    ghost use Rattle.mb_pool.specs.Rule.{QueueMoment};
    ghost use Rattle.mb_pool.specs.Items.{claims_of};
    ghost use Rattle.mb_gate.specs.Untouched.{IsUntouched};

    ghost fact = { λ old items. QueueMoment (IsUntouched H.is_of H.facts) old (claims_of items) };
}

impl<H: MailboxState> deque::Outcome<PooledClaim<H>, PortLedger<H>> for Pushed {
    ghost use Rattle.std.specs.Prelude.{◌≡◌, [], ◌∷◌};
    ghost use Rattle.mb_gate.specs.declared.claim.Claim.{Claim};
    ghost use Rattle.mb_pool.specs.Rule.{PutsLast};
    ghost use Rattle.mb_pool.specs.Items.{claims_of};
    ghost use Rattle.mb_gate.specs.Untouched.{IsUntouched};

    ghost then = { λ old ps new. (c : Claim H) × (claims_of ps ≡ c ∷ [])
        × PutsLast (IsUntouched H.is_of H.facts) old c new };
}

/// A take of the first.
pub struct Taken;

impl<H: MailboxState> queue::Outcome<PooledClaim<H>, PortLedger<H>> for Taken {
    ghost use Rattle.mb_gate.specs.PooledClaims.{claim_in};
    ghost use Rattle.mb_pool.specs.Rule.{TakesFirst};
    ghost use Rattle.mb_gate.specs.Untouched.{IsUntouched};

    ghost then = { λ old p new. TakesFirst (IsUntouched H.is_of H.facts) old (claim_in p) new };
}

/// What a take learns of a queue that it found empty.
impl<H: MailboxState> queue::Lesson<PooledClaim<H>, PortLedger<H>> for Taken {
    ghost use Rattle.mb_pool.specs.Rule.{QueueMoment};
    ghost use Rattle.mb_pool.specs.Items.{claims_of};
    ghost use Rattle.mb_gate.specs.Untouched.{IsUntouched};

    ghost fact = { λ old items. QueueMoment (IsUntouched H.is_of H.facts) old (claims_of items) };
}

impl<H: MailboxState> deque::Outcome<PooledClaim<H>, PortLedger<H>> for Taken {
    ghost use Rattle.std.specs.Prelude.{◌≡◌, [], ◌∷◌};
    ghost use Rattle.mb_gate.specs.declared.claim.Claim.{Claim};
    ghost use Rattle.mb_pool.specs.Rule.{QueueMoment, TakesFirst};
    ghost use Rattle.mb_pool.specs.Items.{claims_of};
    ghost use Rattle.mb_gate.specs.Untouched.{IsUntouched};

    ghost then = { λ old ps new. (c : Claim H) × (claims_of ps ≡ c ∷ [])
        × TakesFirst (IsUntouched H.is_of H.facts) old c new };

    ghost empty = { λ old. QueueMoment (IsUntouched H.is_of H.facts) old [] };
}

/// Whose gates' claims go into a queue, and how many ports it has. The caller chooses it.
pub trait Scoped<H> {
    ghost use Rattle.std.specs.Prelude.{ℕ, Option};
    ghost use Rattle.mb_gate.specs.Untouched.{Origin};

    ghost gates: { Option (Origin H) };

    ghost members: { ℕ };
}

impl<H> Scoped<H> for Brand {
    ghost use Rattle.std.specs.Prelude.{None};

    ghost gates = { None };

    ghost members = { 1 };
}

/// The first step: it fixes whose gates' claims go in, and how many ports there are.
pub struct Opens<S>(PhantomData<S>);

impl<H, S: Scoped<H>> Split<PortLedger<H>> for Opens<S> {
    ghost use Rattle.mb_pool.specs.Ledger.{opened, spent};

    ghost left = { λ old. opened S.gates S.members S.members };

    ghost right = { λ old. spent };
}

/// A share goes to a port of its own.
pub struct Lends;

impl<H> Split<PortLedger<H>> for Lends {
    ghost use Rattle.mb_pool.specs.Ledger.{lending, borrowing};

    ghost left = { λ old. lending 1 old };

    ghost right = { λ old. borrowing 1 old };
}

/// A port comes back with its share.
pub struct Joins;

impl<H> Join<PortLedger<H>> for Joins {
    ghost use Rattle.mb_pool.specs.Ledger.{joining, spent};

    ghost both = { λ old other. joining old other };

    ghost spent = { spent };
}
