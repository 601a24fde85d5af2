//! Carrying out what sources give.
ghost use Rattle.std.specs.Prelude.{◌≡◌, All, IfErr, OnOk, length};
ghost use Rattle.mb_dispatch.specs.Paired.{pairs};
ghost use Rattle.mb_dispatch.specs.Parallel.{HaveEnded};
ghost use Rattle.mb_dispatch.specs.Sources.{BreaksPair, IsPairDone, IsPairOf, KeepsPair};
ghost use Rattle.mb_system.specs.Members.{IsSenderOf};

use crate::order::send_all;
use crate::paired::{PairedTask, each_in_turn};
use mb_actor::{Actor, Behaviours};
use mb_msg::Order;
use mb_source::{RecordedSource, Source, has_nobody};
use mb_system::{RunError, Sender, System, retry_refused};
use std::sync::Wait;

/// Carries out all orders that the source gives, one after another, each before it asks for the next, until the source has no more. An
/// order that can go to no actor comes back to the source. Then each actor is registered again to which the sender owes a look.
///
/// It stops at the first fault, which is `NoMemory`. What was sent before stays sent. No claim is lost.
pub fn send_from<A: Actor, K: Behaviours, S: Source, R: Wait>(
    rt: &R,
    system: &System<A, K>,
    sender: &mut Sender<A, K>,
    source: &mut RecordedSource<S>,
) -> Result<(), RunError>
    requires same_gates { IsSenderOf system.now.gates sender.old }
    ensures keeps { KeepsPair system.now.gates S.gives S.takes_back (sender.old, source.old) (sender.new, source.new) }
    ensures done { OnOk result (IsPairDone system.now.gates S.gives S.takes_back (sender.old, source.old) (sender.new, source.new)) }
    ensures fails { IfErr result (BreaksPair system.now.gates (sender.old, source.old) (sender.new, source.new)) }
{
    for _ in rt.forever() {
        let Some(order) = source.next() else {
            return retry_refused(rt, system, sender);
        };
        if has_nobody(system.gates.actors().saturating_sub(1), &order) {
            source.take_back(order);
        } else {
            send_all(rt, system, sender, &[order])?;
        }
    }
    unreachable!()
}

impl<A: Actor, K: Behaviours, S: Source> PairedTask<System<A, K>, RecordedSource<S>>
    for Sender<A, K> {
    ghost use Rattle.std.specs.Prelude.{◌≡◌, IfErr, OnOk};
    ghost use Rattle.mb_dispatch.specs.Sources.{BreaksPair, IsPairDone, IsPairOf, KeepsPair};

    ghost ready = { λ system both. IsPairOf system.gates both };

    ghost keeps = { λ system old new. KeepsPair system.gates S.gives S.takes_back old new };

    ghost done = { λ system old new. IsPairDone system.gates S.gives S.takes_back old new };

    ghost fails = { λ system old new fault. BreaksPair system.gates old new fault };

    /// Sends what the source gives, as `send_from` does. Whatever comes of it, its job is done then.
    fn perform_with<R: Wait>(
        &mut self,
        rt: &R,
        shared: &System<A, K>,
        value: &mut RecordedSource<S>,
    ) -> Result<(), RunError>
        requires ready { IsPairOf shared.now.gates (self.old, value.old) }
        ensures keeps { KeepsPair shared.now.gates S.gives S.takes_back (self.old, value.old) (self.new, value.new) }
        ensures done { OnOk result (IsPairDone shared.now.gates S.gives S.takes_back (self.old, value.old) (self.new, value.new)) }
        ensures fails { IfErr result (BreaksPair shared.now.gates (self.old, value.old) (self.new, value.new)) }
    {
        let outcome = send_from(rt, shared, self, value);
        shared.going.close_job();
        outcome
    }
}

/// Has each of these senders carry out what the source at its place gives, as `send_from` does, one sender after another on this thread. One that
/// stops stops none behind it.
///
/// It answers the first error in their order.
pub fn send_from_each<A: Actor, K: Behaviours, S: Source, R: Wait>(
    rt: &R,
    system: &System<A, K>,
    senders: &mut [Sender<A, K>],
    sources: &mut [RecordedSource<S>],
) -> Result<(), RunError>
    requires same_count { length senders.old ≡ length sources.old }
    requires same_gates { All (λ s. IsSenderOf system.now.gates s) senders.old }
    ensures ended { HaveEnded (KeepsPair system.now.gates S.gives S.takes_back) (IsPairDone system.now.gates S.gives S.takes_back)
        (BreaksPair system.now.gates) (pairs senders.old sources.old) (pairs senders.new sources.new) result }
{
    system.going.open_jobs(senders.len());
    each_in_turn(rt, system, senders, sources)
}
