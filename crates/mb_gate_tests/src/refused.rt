//! Memory that is refused as the gates are made: `tools/refuse_each_allocation gates` runs this with each allocation refused in
//! turn.
ghost use Rattle.std.specs.Prelude.{◌≡◌, ◌≤◌, [], IfOk, vec_capacity};

use crate::test_home::TestHome;
use mb_gate::{Gates, NoGates};
use mb_status::Status;
use std::alloc::{AllocError, Global};
use std::test::Fail;

/// Room for one home, asked for again where it was refused.
fn room_at_last(alloc: Global) -> Result<Vec<TestHome>, AllocError>
    ensures { IfOk result (λ room. (room.items ≡ []) × (1 ≤ vec_capacity room)) }
{
    match Vec::with_capacity(alloc, 1) {
        Ok(room) => Ok(room),
        Err(_) => Vec::with_capacity(alloc, 1),
    }
}

#[test]
fn refused_gates_can_be_made_again(rt: HostRuntime) -> Result<(), Fail> {
    let alloc = rt.alloc();
    let status = Status::of(4).ok_or("a valid word")?;
    let mut desks = room_at_last(alloc)?;
    desks.push_reserved(TestHome {
        actor: 0,
        status,
        given: 0,
    });
    let Err(NoGates { homes }) = Gates::new(alloc, desks) else {
        return Ok(());
    };
    assert!(rt; homes.len() == 1);
    match Gates::new(alloc, homes) {
        Ok(_) => Ok(()),
        Err(_) => Err(Fail::from("no memory")),
    }
}
