//! A sender's feed of the pool, as a run queue for its claims.
ghost use Rattle.std.specs.Prelude.{◌≡◌};

use crate::feed::Feed;
use crate::shared_port::SharedPort;
use mb_gate::{Claim, MailboxState, RefusedClaim, RunQueue};
use mb_ghost::Log;
use std::marker::Model;
use std::snapshot::Snapshot;
use std::sync::Wait;

/// A feed of the pool, with the claims that the pool refused, for proofs alone (this project's own profile).
///
/// Contracts see the feed, and the claims that were refused, in order.
pub struct FeedPort<H: MailboxState> {
    // Its port of the queue that all share.
    shared_port: SharedPort<H>,
    refused: Log<Snapshot<Claim<H>>>,
}

// `Drop` is written by hand: with a derived one, each crate above would prove again how the fields are dropped.
impl<H: MailboxState> Drop for FeedPort<H> {
    fn drop(self) {
        let FeedPort {
            shared_port: _,
            refused: _,
        } = self;
    }
}

impl<H: MailboxState> Model for FeedPort<H> {
    ghost use Rattle.mb_pool.specs.FeedPorts.{FeedPortView};

    ghost Value = { FeedPortView H };

    ghost use Rattle.std.specs.Prelude.{map};
    ghost use Rattle.mb_pool.specs.Endpoints.{HasShare, of_feed};
    ghost use Rattle.mb_pool.specs.Parts.{port_view};

    ghost view = { λ p. record { feed = of_feed (port_view p.shared_port); refused = map (λ claim. claim.value) p.refused } };

    ghost invariant = { λ p. HasShare (port_view p.shared_port) };
}

impl<H: MailboxState> FeedPort<H> {
    /// This feed, of which nothing was refused yet.
    pub fn new(feed: Feed<H>) -> FeedPort<H>
        ensures { result.feed ≡ feed }
    {
        FeedPort {
            shared_port: feed.into_shared_port(),
            refused: Log::new(),
        }
    }
}

impl<H: MailboxState> RunQueue<H> for FeedPort<H> {
    ghost use Rattle.std.specs.Prelude.{[], ◌∷◌, ◌++◌, IfErr, MatchResult};
    ghost use Rattle.mb_gate.specs.Untouched.{IsUntouched};
    ghost use Rattle.mb_pool.specs.Moves.{Pushes};
    ghost use Rattle.mb_pool.specs.Places.{gates_of, ports_of, parts_of};
    ghost use Rattle.mb_pool.specs.PoolPorts.{IsRefusedByPool, pushed_first};

    ghost origin = { λ port. gates_of port.feed };

    ghost pushed = { λ port. pushed_first (ports_of port.feed) };

    ghost refused = { λ port. port.refused };

    #[inline(always)]
    fn push<R: Wait>(
        &mut self,
        rt: &R,
        claim: Claim<H>,
        at_run_end: bool,
    ) -> Result<(), RefusedClaim<H>>
        requires untouched { IsUntouched H.is_of H.facts (gates_of self.old.feed) claim }
        ensures same { gates_of self.new.feed ≡ gates_of self.old.feed }
        ensures pushed { MatchResult result
            (λ _. (pushed_first (ports_of self.new.feed) ≡ pushed_first (ports_of self.old.feed) ++ claim ∷ []) × (self.new.refused ≡ self.old.refused))
            (λ back. (back.claim ≡ claim) × (pushed_first (ports_of self.new.feed) ≡ pushed_first (ports_of self.old.feed))
            × (self.new.refused ≡ self.old.refused ++ claim ∷ [])) }
        ensures asked { IfErr result (λ _. IsRefusedByPool (IsUntouched H.is_of H.facts) self.old.feed claim) }
        ensures put { MatchResult result
            (λ _. Pushes (IsUntouched H.is_of H.facts) self.old.feed claim self.new.feed)
            (λ _. self.new.feed ≡ self.old.feed) }
        ensures parts { parts_of self.new.feed ≡ parts_of self.old.feed }
    {
        // A feed has no worker that could take it next.
        let _ = at_run_end;
        match self.shared_port.push(rt, claim) {
            Ok(()) => return Ok(()),
            Err(refused) => {
                let claim = refused.into_claim();
                self.refused.add(Snapshot::of(&claim));
                return Err(RefusedClaim { claim });
            }
        }
    }
}
