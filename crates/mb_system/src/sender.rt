//! A sender outside the actors of a system.
ghost use Rattle.std.specs.Prelude.{◌≡◌, IsErrOf, MatchResult, OnErr, OnOk};
ghost use Rattle.mb_gate.specs.Accessors.{actors_of, pass_view};
ghost use Rattle.mb_register.specs.Registering.{StopsAt};
ghost use Rattle.mb_system.specs.Obligations.{ForgetsNothing, HasRetried};
ghost use Rattle.mb_system.specs.Members.{IsSenderOf, SendsNothing, sender_caller};
ghost use Rattle.mb_system.specs.OnlyLooks.{LooksForWork};

use crate::failure::RunError;
use crate::system::System;
use mb_actor::{Actor, Behaviours};
use mb_home::BoxedHome;
use mb_pool::FeedPort;
use mb_send::GatesSender;
use std::sync::Wait;

/// A sender outside the actors of a system, whose claims go to the pool of the system. A thread of its own may have it.
pub type Sender<A, K> = GatesSender<BoxedHome<A, K>, FeedPort<BoxedHome<A, K>>>;

/// Registers each actor again to which the sender owes a look.
///
/// It answers `NoMemory` only if the run queue refused a claim again: then a look is still owed to that actor and to those
/// after it. Whatever is answered, nothing that was owed is forgotten.
pub fn retry_refused<A: Actor, K: Behaviours, R: Wait>(
    rt: &R,
    system: &System<A, K>,
    sender: &mut Sender<A, K>,
) -> Result<(), RunError>
    requires same_gates { IsSenderOf system.now.gates sender.old }
    ensures sends_nothing { SendsNothing system.now.gates sender.old sender.new }
    ensures retried { OnOk result (HasRetried (actors_of system.now.gates) (sender_caller sender.old.registrar) (sender_caller sender.new.registrar)) }
    ensures forgets_nothing { ForgetsNothing (actors_of system.now.gates) (sender_caller sender.old.registrar) (sender_caller sender.new.registrar) }
    ensures stops { MatchResult result
        (λ _. (sender_caller sender.new.registrar).account.refused ≡ (sender_caller sender.old.registrar).account.refused)
        (λ _. StopsAt (sender_caller sender.old.registrar).account (sender_caller sender.new.registrar).account) }
    ensures refused { OnErr result (IsErrOf result RunError.NoMemory) }
    ensures looks_for_work { LooksForWork (pass_view sender.old.registrar.pass) (pass_view sender.new.registrar.pass) }
{
    sender.registrar.retry_refused(rt, &system.gates)?;
    Ok(())
}
