//! Two threads try to schedule one actor.
ghost use Rattle.std.specs.Prelude.{◌≡◌, ◌<◌};
ghost use Rattle.mb_gate.specs.Accessors.{gates_id, pass_id, actors_of};

use crate::calls::second;
use crate::test_home::{TestHome, gates_of_one};
use crate::tries::{attempt, give};
use mb_gate::{Gates, Pass};
use std::sync::atomic::AtomicBool;
use std::sync::atomic::Ordering::SeqCst;
use std::test::Fail;
use std::thread::join;

const TRIES: u32 = 10_000;

// Tries over and over, gives each claim back at once, and answers whether another held the actor meanwhile.
fn contend(gates: &Gates<TestHome>, mut pass: Pass<TestHome>, is_held: &AtomicBool) -> bool
    requires same_gates { pass_id pass ≡ gates_id gates.now }
    requires present { 0 < actors_of gates.now }
{
    let mut two_held = false;
    for _ in 0..TRIES {
        if let Some(claim) = attempt(gates, &mut pass) {
            if is_held.swap(true, SeqCst) {
                two_held = true;
            }
            is_held.store(false, SeqCst);
            give(gates, claim, &mut pass);
        }
    }
    two_held
}

#[test]
fn never_two_holders(rt: HostRuntime) -> Result<(), Fail> {
    let (gates, mut a) = gates_of_one(rt.alloc())?;
    let b = second(&gates, &mut a);
    let is_held = AtomicBool::new(false);
    let (first, other) = join(
        &rt,
        || -> bool
            requires { (pass_id a ≡ gates_id gates) × (0 < actors_of gates) }
        { contend(&gates, a, &is_held) },
        || -> bool
            requires { (pass_id b ≡ gates_id gates) × (0 < actors_of gates) }
        { contend(&gates, b, &is_held) },
    );
    assert!(rt; !first && !other);
    Ok(())
}
