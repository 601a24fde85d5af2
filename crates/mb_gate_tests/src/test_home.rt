//! A stand-in for a home, and the gates of one.
ghost use Rattle.std.specs.Prelude.{◌≡◌, IfOk};
ghost use Rattle.mb_gate.specs.Accessors.{gates_id, pass_id, actors_of};

use mb_gate::{Gates, MailboxState, Pass};
use mb_msg::ActorId;
use mb_status::Status;
use std::alloc::Global;
use std::test::Fail;

/// A number, a status and how many messages its list gave; its journal stays empty.
#[derive(Drop)]
pub struct TestHome {
    pub actor: u16,
    pub status: Status,
    pub given: u64,
}

impl MailboxState for TestHome {
    ghost use Rattle.std.specs.Prelude.{◌≡◌, [], None, pos, false};

    ghost is_of = { λ first actor desk. desk.actor ≡ actor };

    ghost who = { λ desk. record {
      this = record { 0 = desk.actor };
      parent = None;
      actors = 1;
      prepared = [];
      strategy = [];
      retries = pos 0;
      all_for_one = false;
      limit = 0;
      retention = record { keeps_all = false; last = 0 };
    } };

    ghost facts = { λ desk. record {
      journal = [];
      mailbox = desk.status;
      no_backlog = Unit {0};
      given = desk.given;
      drained = [];
      closed_to = [];
    } };

    fn status(&self) -> Status {
        self.status
    }
}

/// The one actor.
pub const GUARDIAN: ActorId = ActorId(0);

/// The gates of one actor that is not started, with a pass.
pub fn gates_of_one(alloc: Global) -> Result<(Gates<TestHome>, Pass<TestHome>), Fail>
    ensures { IfOk result (λ made. (actors_of made.0 ≡ 1) × (pass_id made.1 ≡ gates_id made.0)) }
{
    let mut desks = Vec::with_capacity(alloc, 1)?;
    let status = Status::of(4).ok_or("a valid word")?;
    desks.push_reserved(TestHome {
        actor: 0,
        status,
        given: 0,
    });
    match Gates::new(alloc, desks) {
        Ok(made) => Ok(made),
        Err(_) => Err(Fail::from("no memory")),
    }
}
