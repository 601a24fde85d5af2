//! What is reported of the actors.
ghost use Rattle.std.specs.Prelude.{◌≡◌, ◌≢◌, ◌≤◌, ◌⊎◌, [], IfErr, IfOk, MatchBool, length, map, vec_capacity};
ghost use Rattle.mb_shutdown.specs.HomeParts.{ended_of};
ghost use Rattle.mb_shutdown.specs.Mismatched.{CanHandle, CannotHandle, DiffersFromCount};
ghost use Rattle.mb_shutdown.specs.Shown.{ShowsAll, ShowsCell};

use crate::mismatch::Mismatch;
use crate::room::Ended;
use mb_actor::{Actor, Behaviours, Phase};
use mb_cell::Cell;
use mb_msg::{ActorId, Envelope};
use mb_report::{ActorReport, Report, SenderReport};

/// The report on all actors, for which this is left.
///
/// It answers the actor for which not as many envelopes are left as were counted, or some that it could handle.
pub(crate) fn report_on<A: Actor, K: Behaviours>(
    ended: Vec<Ended<A, K>>,
    lefts: Vec<Vec<Envelope>>,
    waiting: &[u64],
    room: Vec<ActorReport>,
    senders: Vec<SenderReport>,
) -> Result<Report, Mismatch>
    requires same_count { (length lefts.items ≡ length ended.items) × (length waiting.now ≡ length ended.items) × (length ended.items ≤ 64) }
    requires room { (room.items ≡ []) × (length ended.items ≤ vec_capacity room) }
    requires senders { length senders.items ≤ 80 }
    ensures shows { IfOk result (λ report. ShowsAll K.after ended.items (map (λ l. l.items) lefts.items) waiting.now report.actors.items
        × (report.senders ≡ senders)) }
    ensures differs { IfErr result (DiffersFromCount ended.items (map (λ l. l.items) lefts.items) waiting.now) }
{
    let mut actors = room;
    let mut lefts = lefts.into_iter();
    for one in ended {
        let place = actors.len();
        let Some(left) = lefts.next() else {
            unreachable!()
        };
        if !agrees(&one.cell, &left, waiting[place]) {
            return Err(Mismatch::Waiting(ActorId(place as u16)));
        }
        actors.push_reserved(actor_report(one, left));
    }
    Ok(Report { actors, senders })
}

// Whether as many envelopes are left as were counted, and none that the actor could handle.
fn agrees<A: Actor, K: Behaviours>(cell: &Cell<A, K>, left: &[Envelope], waiting: u64) -> bool
    ensures { MatchBool result ((length left.now ≡ waiting) × (left.now ≢ [] → CannotHandle cell.now))
        ((length left.now ≢ waiting) ⊎ ((left.now ≢ []) × CanHandle cell.now)) }
{
    if left.len() as u64 != waiting {
        return false;
    }
    left.is_empty() || !may_handle(cell)
}

// Whether the actor could handle an envelope: it has not ended, and is not suspended.
fn may_handle<A: Actor, K: Behaviours>(cell: &Cell<A, K>) -> bool
    ensures { MatchBool result (CanHandle cell.now) (CannotHandle cell.now) }
{
    let ended = match cell.phase() {
        Phase::Ended => true,
        Phase::Fresh | Phase::Live | Phase::Broken | Phase::Ending => false,
    };
    !ended && cell.count() == 0
}

fn actor_report<A: Actor, K: Behaviours>(ended: Ended<A, K>, left: Vec<Envelope>) -> ActorReport
    ensures { ShowsCell K.after (ended_of ended) left.items result }
{
    let Ended {
        cell,
        cleaned,
        dead_system,
    } = ended;
    let phase = cell.phase();
    let count = cell.count();
    let state = cell.state();
    let parts = cell.into_parts();
    ActorReport {
        phase,
        count,
        state,
        journal: parts.journal,
        aside: parts.aside,
        left,
        cleaned,
        dead_system,
    }
}
