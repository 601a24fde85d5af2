//! Claims go to other threads by a queue, each with all that is needed to give its cell back, and their cells are given back
//! there.
ghost use Rattle.std.specs.Prelude.{◌≡◌, ◌<◌};
ghost use Rattle.mb_gate.specs.Accessors.{gates_id, pass_id, claim_id, actors_of, held_actor};

use crate::calls::word;
use crate::fresh_claim::FreshClaim;
use crate::test_home::{TestHome, gates_of_one};
use crate::tries::got;
use crossbeam_queue::ArrayQueue;
use mb_gate::{Gates, Pass};
use std::alloc::Global;
use std::process::Abort;
use std::sync::Wait;
use std::test::Fail;
use std::thread;
use std::thread::join;

/// A claim of the one actor, with the gates and the pass by which its cell is given back. Where it is dropped, the cell is given
/// back too.
struct SentClaim {
    gates: Gates<TestHome>,
    pass: Pass<TestHome>,
    shift: FreshClaim,
    ghost same_gates: { (claim_id shift.claim ≡ gates_id gates) × (pass_id pass ≡ gates_id gates) },
    ghost present: { (held_actor shift.claim < actors_of gates) × (0 < actors_of gates) },
}

impl Drop for SentClaim {
    fn drop(self) {
        let SentClaim {
            gates,
            mut pass,
            shift,
        } = self;
        shift.handle(&gates, &mut pass);
    }
}

impl SentClaim {
    /// Gives the cell back, and answers the actor's status word.
    fn handle(self) -> u64 {
        let SentClaim {
            gates,
            mut pass,
            shift,
        } = self;
        shift.handle(&gates, &mut pass);
        word(&gates, &mut pass)
    }
}

/// Gets a claim of the actor of new gates, and puts it into the queue; answers whether there was room.
fn send_claim<R: Abort + Wait>(
    rt: &R,
    alloc: Global,
    queue: &ArrayQueue<SentClaim>,
) -> Result<bool, Fail> {
    let (gates, mut pass) = gates_of_one(alloc)?;
    let claim = got(rt, &gates, &mut pass);
    let errand = SentClaim {
        gates,
        pass,
        shift: FreshClaim { claim },
    };
    Ok(queue.push(rt, errand).is_ok())
}

/// Takes the next claim out of the queue, gives its cell back, and answers the actor's status word.
fn handle_next<R: Wait>(rt: &R, queue: &ArrayQueue<SentClaim>) -> u64 {
    for _ in rt.forever() {
        if let Some(errand) = queue.pop(rt) {
            return errand.handle();
        }
        thread::yield_now();
    }
    unreachable!()
}

#[test]
fn claims_go_by_a_queue(rt: HostRuntime) -> Result<(), Fail> {
    let alloc = rt.alloc();
    let queue = ArrayQueue::new(alloc, 2)?;
    assert!(rt; send_claim(&rt, alloc, &queue)?);
    assert!(rt; send_claim(&rt, alloc, &queue)?);
    let words = join(
        &rt,
        || -> u64 { handle_next(&rt, &queue) },
        || -> u64 { handle_next(&rt, &queue) },
    );
    assert!(rt; words.0 == 4 && words.1 == 4);
    Ok(())
}
