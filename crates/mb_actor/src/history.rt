//! The ghost history of an actor's calls, and the permission for each.
ghost use Rattle.std.specs.Prelude.{◌≡◌, [], ◌∷◌};

use crate::actor::Actor;
use crate::call::Call;
use std::marker::Model;
use std::mem;
use std::snapshot::Snapshot;

/// Calls, the newest first. No value of this type is kept: it exists in snapshots alone.
#[derive(Drop)]
pub(crate) enum CallList {
    Nothing,
    Then(Snapshot<CallList>, Call),
}

/// The permission to make one call of an actor, which that call uses up (this project's own profile: Akka calls an
/// actor from its cell alone). It takes no bytes.
///
/// Only a `RecordedActor` gets one, and records the call with it.
#[derive(Drop)]
pub struct CallPermit {
    call: Snapshot<Call>,
}

const _: () = prove!(size_of::<CallPermit>() == 0);

impl Model for CallPermit {
    ghost use Rattle.mb_actor.specs.declared.call.Call.{Call};

    ghost Value = { Call };

    ghost view = { λ p. p.call.value };
}

/// The calls of an actor that were permitted, for proofs alone. It takes no bytes.
#[derive(Drop)]
pub(crate) struct History {
    past: Snapshot<CallList>,
}

const _: () = prove!(size_of::<History>() == 0);

impl Model for History {
    ghost use Rattle.std.specs.Prelude.{List};
    ghost use Rattle.mb_actor.specs.declared.call.Call.{Call};

    ghost Value = { List Call };

    ghost use Rattle.mb_actor.specs.CallList.{calls_of};

    ghost view = { λ h. calls_of h.past.value };
}

impl History {
    /// The history of this actor, of which no call was made. It takes the actor itself: who calls an actor has no other
    /// to begin a second history with.
    pub(crate) fn of<A: Actor>(actor: A) -> (A, Self)
        ensures actor { result.0 ≡ actor }
        ensures history { result.1 ≡ [] }
    {
        let history = History {
            past: Snapshot::of(&CallList::Nothing),
        };
        (actor, history)
    }

    /// Records a call, and permits it once.
    pub(crate) fn permit(&mut self, call: Call) -> CallPermit
        ensures recorded { self.new ≡ call ∷ self.old }
        ensures permitted { result ≡ call }
    {
        let past = mem::replace(&mut self.past, Snapshot::of(&CallList::Nothing));
        self.past = Snapshot::of(&CallList::Then(past, call));
        CallPermit {
            call: Snapshot::of(&call),
        }
    }
}
