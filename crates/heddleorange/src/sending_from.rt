//! Sending what sources give, and running what that leaves to run.
ghost use Rattle.std.specs.Prelude.{◌≡◌, ◌≢◌, [], IfErr, OnOk, length};
ghost use Rattle.std.specs.List.{AllZip};
ghost use Rattle.mb_dispatch.specs.Sources.{others_of};
ghost use Rattle.mb_source.specs.Given.{Gave, GaveAll};
ghost use Rattle.mb_system.specs.Belonging.{BelongsTogether};
ghost use Rattle.heddleorange.specs.BrokenOff.{BreaksHereFrom, BreaksTogetherFrom};
ghost use Rattle.heddleorange.specs.FromSources.{orders_given};
ghost use Rattle.heddleorange.specs.SentAndRun.{HasSentAndRun, IsSameSystem};

use crate::sending::run_first;
use mb_actor::{Actor, Behaviours};
use mb_dispatch::{run_from, send_from_each};
use mb_msg::JournalMode;
use mb_source::{RecordedSource, Source};
use mb_system::{Built, RunError};
use std::sync::Wait;
use std::thread::Threads;

/// Has each sender send what the source at its place gives, until it has no more, and then runs on this thread what there is to run. Then
/// neither the senders nor the handles owe anybody a look.
///
/// It answers the first error of a sender, in their order, and else that of the run.
pub(crate) fn send_from_and_run<A: Actor, K: Behaviours, S: Source, R: Wait>(
    rt: &R,
    built: &mut Built<A, K>,
    sources: &mut [RecordedSource<S>],
) -> Result<(), RunError>
    requires together { BelongsTogether built.old }
    requires not_empty { built.old.handles.items ≢ [] }
    requires same_count { length built.old.senders.items ≡ length sources.old }
    ensures same_system { IsSameSystem built.old built.new }
    ensures ran { OnOk result (HasSentAndRun K.gives (orders_given (others_of built.old.system.gates) sources.old sources.new)
        built.old built.new) }
    ensures fault { IfErr result (BreaksHereFrom K.gives S.gives S.takes_back sources.old sources.new built.old built.new) }
    ensures gave { AllZip (Gave S.gives S.takes_back (others_of built.old.system.gates)) sources.old sources.new }
    ensures gave_all { OnOk result (AllZip (GaveAll S.gives S.takes_back (others_of built.old.system.gates)) sources.old sources.new) }
{
    send_from_each(rt, &built.system, &mut built.senders, sources)?;
    // Nobody reads the turns.
    run_first(rt, built, JournalMode::Counted)?;
    Ok(())
}

/// Runs the workers while each sender sends what the source at its place gives, each on a thread of its own.
///
/// It answers the first error of the handles, then of the senders.
pub(crate) fn run_from_together<
    A: Actor + Send,
    K: Behaviours + Send,
    S: Source + Send,
    R: Threads + Wait + Sync,
>(rt: &R, built: &mut Built<A, K>, sources: &mut [RecordedSource<S>]) -> Result<(), RunError>
    requires together { BelongsTogether built.old }
    requires not_empty { built.old.handles.items ≢ [] }
    requires same_count { length built.old.senders.items ≡ length sources.old }
    ensures same_system { IsSameSystem built.old built.new }
    ensures ran { OnOk result (HasSentAndRun K.gives (orders_given (others_of built.old.system.gates) sources.old sources.new)
        built.old built.new) }
    ensures fault { IfErr result (BreaksTogetherFrom K.gives S.gives S.takes_back sources.old sources.new built.old built.new) }
    ensures gave { AllZip (Gave S.gives S.takes_back (others_of built.old.system.gates)) sources.old sources.new }
    ensures gave_all { OnOk result (AllZip (GaveAll S.gives S.takes_back (others_of built.old.system.gates)) sources.old sources.new) }
{
    run_from(
        rt,
        &built.system,
        &mut built.handles,
        &mut built.senders,
        sources,
    )
}
