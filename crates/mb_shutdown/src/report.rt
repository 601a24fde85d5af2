//! The report on all actors and envelopes.
ghost use Rattle.std.specs.Prelude.{◌≡◌, ◌<◌, IfErr, IfOk, length, map};
ghost use Rattle.mb_gate.specs.Accessors.{actors_of, first_home, pass_view};
ghost use Rattle.mb_shutdown.specs.Homes.{HomesReturned, Disagrees};
ghost use Rattle.mb_shutdown.specs.Mismatched.{of_whom};
ghost use Rattle.mb_shutdown.specs.Reported.{IsGathered, IsReportOnAll};
ghost use Rattle.mb_shutdown.specs.Rooms.{IsRoom, counted_in};

use crate::actor_reports::report_on;
use crate::finished_sender::FinishedSender;
use crate::home_parts::{add_outside, take_apart};
use crate::left_envelopes::take_rests;
use crate::mismatch::Mismatch;
use crate::room::Room;
use mb_actor::{Actor, Behaviours};
use mb_gate::{Gates, Pass};
use mb_home::BoxedHome;
use mb_report::Report;
use std::sync::Wait;

/// Takes everything apart, and reports what became of each actor and of each envelope. The pass has taken over what all others
/// knew; the senders outside come in the order of their numbers. It takes no memory.
///
/// It answers what does not agree.
pub fn build_report<A: Actor, K: Behaviours, R: Wait>(
    rt: &R,
    gates: Gates<BoxedHome<A, K>>,
    pass: Pass<BoxedHome<A, K>>,
    outside: Vec<FinishedSender>,
    room: Room<A, K>,
) -> Result<Report, Mismatch>
    requires gathered { IsGathered gates pass outside.items }
    requires room { IsRoom (actors_of gates) (length outside.items) room }
    ensures report { IfOk result (IsReportOnAll K.after K.gives (first_home gates).value.directory (pass_view pass) outside.items) }
    ensures home { IfOk result (HomesReturned K.gives (first_home gates).value (actors_of gates) (pass_view pass)) }
    ensures counted { IfOk result (λ report. map (λ a. length a.left.items) report.actors.items ≡ counted_in room) }
    ensures in_plan { IfErr result (λ mismatch. of_whom mismatch < actors_of gates) }
    ensures disagreement { IfErr result (Disagrees K.gives (first_home gates).value (actors_of gates) (pass_view pass) (map (λ o. o.sends.items) outside.items)
        (counted_in room)) }
{
    let Room {
        waiting,
        homes,
        mut ended,
        mut takes,
        mut rows,
        mut lefts,
        actors,
        mut senders,
    } = room;
    let all = gates.finish(pass, homes);
    take_apart(all, &mut ended, &mut takes, &mut rows, &mut senders)?;
    add_outside(outside, &mut rows, &mut senders);
    match take_rests(rt, takes, rows, &mut lefts) {
        Ok(()) => report_on(ended, lefts, &waiting, actors, senders),
        Err(mismatch) => Err(mismatch),
    }
}
