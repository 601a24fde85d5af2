//! A stub home, and gates of actors with such homes.
ghost use Rattle.std.specs.Prelude.{◌≡◌, ◌<◌, ◌≤◌, IfOk};
ghost use Rattle.mb_gate.specs.Accessors.{gates_id, pass_id, actors_of};

use mb_gate::{Gates, MailboxState, Pass};
use mb_status::Status;
use std::alloc::{AllocError, Global};

/// A stub home: its journal stays empty, and its actor is never started.
#[derive(Drop)]
pub struct StubHome {}

impl MailboxState for StubHome {
    ghost use Rattle.std.specs.Prelude.{[], None, pos, false};
    ghost use Rattle.mb_status.specs.Mailbox.{fresh};

    ghost is_of = { λ first actor desk. Unit {0} };

    ghost who = { λ desk. record {
      this = record { 0 = 0 };
      parent = None;
      actors = 1;
      prepared = [];
      strategy = [];
      retries = pos 0;
      all_for_one = false;
      limit = 0;
      retention = record { keeps_all = false; last = 0 };
    } };

    ghost facts = { λ desk. record {
      journal = [];
      mailbox = fresh;
      no_backlog = Unit {0};
      given = 0;
      drained = [];
      closed_to = [];
    } };

    fn status(&self) -> Status {
        Status::fresh()
    }
}

/// The gates of `count` actors that are not started, with a pass.
pub fn gates_of(
    alloc: Global,
    count: usize,
) -> Result<(Gates<StubHome>, Pass<StubHome>), AllocError>
    requires { (0 < count) × (count ≤ 65536) }
    ensures { IfOk result (λ made. (actors_of made.0 ≡ count) × (pass_id made.1 ≡ gates_id made.0)) }
{
    let mut stub_homes = Vec::with_capacity(alloc, count)?;
    for _desk in 0..count {
        stub_homes.push(StubHome {})?;
    }
    match Gates::new(alloc, stub_homes) {
        Ok(made) => Ok(made),
        Err(_) => Err(AllocError),
    }
}
