//! A claim of the one actor, and what its holder does.
ghost use Rattle.std.specs.Prelude.{◌≡◌, ◌<◌, []};
ghost use Rattle.mb_gate.specs.Accessors.{gates_id, pass_id, claim_id, actors_of, held_actor, taken_with, given_to, recorded_by};

use crate::order_check::OrderCheck;
use crate::test_home::TestHome;
use crate::{calls, tries};
use mb_gate::{Claim, Gates, Pass};
use std::sync::Wait;

/// A claim whose home is its actor's own and counts what the list gave, and for which no system message was sent.
pub struct FreshClaim {
    pub(crate) claim: Claim<TestHome>,
    ghost of_actor: { (claim.home.actor ≡ held_actor claim) × (claim.home.given ≡ given_to claim) },
    ghost begun: { (taken_with claim ≡ []) × (recorded_by claim ≡ []) },
}

impl FreshClaim {
    /// Gives the cell back.
    pub fn handle(self, gates: &Gates<TestHome>, pass: &mut Pass<TestHome>)
        requires same_gates { (claim_id self.claim ≡ gates_id gates.now) × (pass_id pass.old ≡ gates_id gates.now) }
        requires present { held_actor self.claim < actors_of gates.now }
        ensures same_gates { pass_id pass.new ≡ pass_id pass.old }
    {
        let FreshClaim { claim } = self;
        tries::give(gates, claim, pass);
    }

    /// Suspends the actor, unless it is suspended too often, and answers whether that was the first time.
    pub fn suspend(&mut self, gates: &Gates<TestHome>) -> Option<bool>
        requires same_gates { claim_id self.old.claim ≡ gates_id gates.now }
        requires present { held_actor self.old.claim < actors_of gates.now }
        ensures same_gates { (claim_id self.new.claim ≡ claim_id self.old.claim) × (held_actor self.new.claim ≡ held_actor self.old.claim) }
    {
        calls::suspend(gates, &mut self.claim)
    }

    /// Undoes one suspension, and answers whether that was the last one.
    pub fn resume(&mut self, gates: &Gates<TestHome>) -> bool
        requires same_gates { claim_id self.old.claim ≡ gates_id gates.now }
        requires present { held_actor self.old.claim < actors_of gates.now }
        ensures same_gates { (claim_id self.new.claim ≡ claim_id self.old.claim) × (held_actor self.new.claim ≡ held_actor self.old.claim) }
    {
        calls::resume(gates, &mut self.claim)
    }

    /// Counts one envelope as taken.
    pub fn note_taken(&mut self, gates: &Gates<TestHome>)
        requires same_gates { claim_id self.old.claim ≡ gates_id gates.now }
        requires present { held_actor self.old.claim < actors_of gates.now }
        ensures same_gates { (claim_id self.new.claim ≡ claim_id self.old.claim) × (held_actor self.new.claim ≡ held_actor self.old.claim) }
    {
        calls::note_taken(gates, &mut self.claim);
    }

    /// Drains the list, and adds what it gave to the tally.
    pub fn drain<R: Wait>(&mut self, rt: &R, gates: &Gates<TestHome>, tally: &mut OrderCheck)
        requires same_gates { claim_id self.old.claim ≡ gates_id gates.now }
        requires present { held_actor self.old.claim < actors_of gates.now }
        ensures same_gates { (claim_id self.new.claim ≡ claim_id self.old.claim) × (held_actor self.new.claim ≡ held_actor self.old.claim) }
    {
        tries::drain(rt, gates, &mut self.claim, tally);
    }

    /// Closes the actor and its list, and adds what that gave to the tally.
    pub fn close<R: Wait>(&mut self, rt: &R, gates: &Gates<TestHome>, tally: &mut OrderCheck)
        requires same_gates { claim_id self.old.claim ≡ gates_id gates.now }
        requires present { held_actor self.old.claim < actors_of gates.now }
        ensures same_gates { (claim_id self.new.claim ≡ claim_id self.old.claim) × (held_actor self.new.claim ≡ held_actor self.old.claim) }
    {
        tries::close(rt, gates, &mut self.claim, tally);
    }
}
