//! Two claims at once are of two actors.
ghost use Rattle.std.specs.Prelude.{◌≡◌, ◌≢◌, ◌<◌, [], IfOk};
ghost use Rattle.mb_gate.specs.Accessors.{gates_id, pass_id, claim_id, actors_of, held_actor, taken_with, given_to, recorded_by};

use crate::test_home::{GUARDIAN, TestHome};
use crate::tries::{claim_of, give};
use mb_gate::{Claim, Gates, Pass};
use mb_msg::ActorId;
use mb_status::Status;
use std::alloc::Global;
use std::test::Fail;

/// The other actor.
const SECOND: ActorId = ActorId(1);

/// The gates of two actors that are not started, with a pass.
fn gates_of_two(alloc: Global) -> Result<(Gates<TestHome>, Pass<TestHome>), Fail>
    ensures { IfOk result (λ made. (actors_of made.0 ≡ 2) × (pass_id made.1 ≡ gates_id made.0)) }
{
    let status = Status::of(4).ok_or("a valid word")?;
    let mut desks = Vec::with_capacity(alloc, 2)?;
    desks.push_reserved(TestHome {
        actor: 0,
        status,
        given: 0,
    });
    desks.push_reserved(TestHome {
        actor: 1,
        status,
        given: 0,
    });
    match Gates::new(alloc, desks) {
        Ok(made) => Ok(made),
        Err(_) => Err(Fail::from("no memory")),
    }
}

/// Whether two claims are of two actors, by what `tell_apart` says and by their numbers. Both cells go back.
fn are_of_two(
    gates: &Gates<TestHome>,
    one: Claim<TestHome>,
    other: Claim<TestHome>,
    pass: &mut Pass<TestHome>,
) -> bool
    requires same_gates { (claim_id one ≡ gates_id gates.now) × (claim_id other ≡ gates_id gates.now) × (pass_id pass.old ≡ gates_id gates.now) }
    requires present { (held_actor one < actors_of gates.now) × (held_actor other < actors_of gates.now) }
    requires of_actor { (one.home.actor ≡ held_actor one) × (other.home.actor ≡ held_actor other) }
    requires given { (one.home.given ≡ given_to one) × (other.home.given ≡ given_to other) }
    requires begun { (taken_with one ≡ []) × (taken_with other ≡ []) }
    requires none_sent { (recorded_by one ≡ []) × (recorded_by other ≡ []) }
    ensures same_gates { pass_id pass.new ≡ pass_id pass.old }
    ensures two { held_actor one ≢ held_actor other }
{
    let (one, other) = gates.tell_apart(one, other);
    let differ = one.actor().0 != other.actor().0;
    give(gates, one, pass);
    give(gates, other, pass);
    differ
}

#[test]
fn two_claims_are_of_two_actors(rt: HostRuntime) -> Result<(), Fail> {
    let (gates, mut pass) = gates_of_two(rt.alloc())?;
    let Some(one) = claim_of(&gates, &mut pass, GUARDIAN) else {
        return Err(Fail::from("the first was not got"));
    };
    let Some(other) = claim_of(&gates, &mut pass, SECOND) else {
        give(&gates, one, &mut pass);
        return Err(Fail::from("the second was not got"));
    };
    assert!(rt; are_of_two(&gates, one, other, &mut pass));
    Ok(())
}
