//! A stand-in for a home, and the gates of three actors.
ghost use Rattle.std.specs.Prelude.{◌≡◌, ◌<◌, IfOk};
ghost use Rattle.mb_gate.specs.Accessors.{gates_id, pass_id, actors_of};

use mb_gate::{Gates, MailboxState, Pass};
use mb_msg::ActorId;
use mb_status::Status;
use std::alloc::Global;
use std::test::Fail;

/// The actors, and the number of none.
pub const GUARDIAN: ActorId = ActorId(0);

pub const FIRST: ActorId = ActorId(1);

pub const SECOND: ActorId = ActorId(2);

pub const NOBODY: ActorId = ActorId(3);

/// One of the three actors.
#[derive(Clone, Copy)]
pub enum Target {
    Guardian,
    First,
    Second,
}

impl Target {
    /// Its number.
    pub fn id(self) -> ActorId
        ensures present { result.0 < 3 }
    {
        match self {
            Target::Guardian => GUARDIAN,
            Target::First => FIRST,
            Target::Second => SECOND,
        }
    }
}

/// A status, which is open as the gates begin, and how many messages its list gave; its journal stays empty.
#[derive(Drop)]
pub struct OpenHome {
    pub(crate) status: Status,
    pub(crate) given: u64,
}

impl MailboxState for OpenHome {
    ghost use Rattle.std.specs.Prelude.{◌≡◌, [], None, pos, false};

    ghost is_of = { λ first actor desk. Unit {0} };

    ghost who = { λ desk. record {
      this = record { 0 = 0 };
      parent = None;
      actors = 1;
      prepared = [];
      strategy = [];
      retries = pos 0;
      all_for_one = false;
      limit = 0;
      retention = record { keeps_all = false; last = 0 };
    } };

    ghost facts = { λ desk. record {
      journal = [];
      mailbox = desk.status;
      no_backlog = Unit {0};
      given = desk.given;
      drained = [];
      closed_to = [];
    } };

    fn status(&self) -> Status {
        self.status
    }
}

/// The gates of a guardian and two actors, with a pass.
pub fn gates_of_three(alloc: Global) -> Result<(Gates<OpenHome>, Pass<OpenHome>), Fail>
    ensures { IfOk result (λ made. (actors_of made.0 ≡ 3) × (pass_id made.1 ≡ gates_id made.0)) }
{
    let mut desks = Vec::with_capacity(alloc, 3)?;
    let Some(status) = Status::of(0) else {
        return Err(Fail::from("a valid word"));
    };
    desks.push_reserved(OpenHome { status, given: 0 });
    desks.push_reserved(OpenHome { status, given: 0 });
    desks.push_reserved(OpenHome { status, given: 0 });
    match Gates::new(alloc, desks) {
        Ok(made) => Ok(made),
        Err(_) => Err(Fail::from("no memory")),
    }
}
