//! A stub home for the benchmarks of the gates.
ghost use Rattle.std.specs.Prelude.{◌≡◌, ◌<◌, [], IfOk, IfSome};
ghost use Rattle.mb_gate.specs.Accessors.{gates_id, pass_id, claim_id, actors_of, held_actor, taken_with, given_to, recorded_by};

use crate::status::open;
use mb_gate::{Claim, Gates, MailboxState, Pass, ScheduleOutcome};
use mb_msg::ActorId;
use mb_status::Status;
use std::alloc::{AllocError, Global};

/// A stub home: the actor's number, the status, and how many messages its list gave. Its journal stays empty.
#[derive(Drop)]
pub struct BenchHome {
    pub actor: u32,
    pub status: Status,
    pub given: u64,
}

impl MailboxState for BenchHome {
    ghost use Rattle.std.specs.Prelude.{◌≡◌, [], None, pos, false};

    ghost is_of = { λ first actor desk. desk.actor ≡ actor };

    ghost who = { λ desk. record {
      this = record { 0 = desk.actor };
      parent = None;
      actors = 2;
      prepared = [];
      strategy = [];
      retries = pos 0;
      all_for_one = false;
      limit = 0;
      retention = record { keeps_all = false; last = 0 };
    } };

    ghost facts = { λ desk. record {
      journal = [];
      mailbox = desk.status;
      no_backlog = Unit {0};
      given = desk.given;
      drained = [];
      closed_to = [];
    } };

    fn status(&self) -> Status {
        self.status
    }
}

/// The gates of two actors that may run, with a pass.
pub fn two(alloc: Global) -> Result<(Gates<BenchHome>, Pass<BenchHome>), AllocError>
    ensures { IfOk result (λ made. (actors_of made.0 ≡ 2) × (pass_id made.1 ≡ gates_id made.0)) }
{
    let mut desks = Vec::with_capacity(alloc, 2)?;
    let status = open();
    desks.push_reserved(BenchHome {
        actor: 0,
        status,
        given: 0,
    });
    desks.push_reserved(BenchHome {
        actor: 1,
        status,
        given: 0,
    });
    match Gates::new(alloc, desks) {
        Ok(made) => Ok(made),
        Err(_) => Err(AllocError),
    }
}

/// Tries to schedule the actor: its claim, where that succeeds.
pub fn attempt(
    gates: &Gates<BenchHome>,
    pass: &mut Pass<BenchHome>,
    id: ActorId,
) -> Option<Claim<BenchHome>>
    requires same_gates { pass_id pass.old ≡ gates_id gates.now }
    requires present { id.0 < actors_of gates.now }
    ensures same_gates { pass_id pass.new ≡ pass_id pass.old }
    ensures got { IfSome result (λ claim. (claim_id claim ≡ gates_id gates.now) × (held_actor claim ≡ id.0)) }
    ensures of_actor { IfSome result (λ claim. (claim.home.actor ≡ id.0) × (claim.home.given ≡ given_to claim)) }
    ensures begun { IfSome result (λ claim. (taken_with claim ≡ []) × (recorded_by claim ≡ [])) }
{
    match gates.try_schedule(pass, id) {
        ScheduleOutcome::Got(claim) => Some(claim),
        ScheduleOutcome::Already | ScheduleOutcome::Closed | ScheduleOutcome::Lost(_) => None,
    }
}

/// Releases the claim with the status that it has.
#[tactic(auto, using(mb_gate::proofs::SentSystemLemmas::nothing_since))]
pub fn give(gates: &Gates<BenchHome>, mut claim: Claim<BenchHome>, pass: &mut Pass<BenchHome>)
    requires same_gates { (claim_id claim ≡ gates_id gates.now) × (pass_id pass.old ≡ gates_id gates.now) }
    requires present { held_actor claim < actors_of gates.now }
    requires of_actor { (claim.home.actor ≡ held_actor claim) × (claim.home.given ≡ given_to claim) }
    requires begun { (taken_with claim ≡ []) × (recorded_by claim ≡ []) }
    ensures same_gates { pass_id pass.new ≡ pass_id pass.old }
{
    claim.home.status = claim.status().idle();
    gates.release(claim, pass);
}
