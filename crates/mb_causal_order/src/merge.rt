//! Making the order.
ghost use Rattle.std.specs.Prelude.{ℕ, ◌≡◌, ◌+◌, ◌<◌, ◌≤◌, ◌↔◌, ◌++◌, [], ◌∷◌, All, IfOk, IfSome, IsTrue, List, false, true, get_or, length, reverse};
ghost use Rattle.mb_msg.specs.declared.order.SenderOrder.{SenderOrder as Sending};
ghost use Rattle.mb_actor.specs.declared.effect.Effect.{Effect};
ghost use Rattle.mb_journal.specs.Identity.{Identity};
ghost use Rattle.mb_journal.specs.JournalView.{entry_with};
ghost use Rattle.mb_cell.specs.CellView.{CellView};
ghost use Rattle.mb_causal_order.specs.Answer.{IsAnswer, IsOfPlan};
ghost use Rattle.mb_causal_order.specs.Coming.{AreFewer, MayComeBehind};
ghost use Rattle.mb_causal_order.specs.Merged.{IsCaused, IsEndedBefore, IsSentBefore};
ghost use Rattle.mb_causal_order.specs.Places.{journal_of, entries_placed};
ghost use Rattle.mb_causal_order.specs.Replayed.{IsReady};
ghost use Rattle.mb_causal_order.specs.ReplayOf.{IsReplayOf};
ghost use Rattle.mb_causal_order.specs.declared.place.Place.{Place};

use crate::outcome::MergedOrder;
use crate::place::Place;
use crate::replay::Replay;
use mb_journal::Received;
use mb_msg::limits::ENTRIES;
use mb_msg::{Envelope, Plan, SenderOrder, SysMsg};
use mb_report::ActorReport;
use std::alloc::{AllocError, Global};

/// One order of the entries of all journals in which each journal's own order is kept and what caused an entry stands before it; of the
/// actors whose next entry may come next, the one of the lowest number goes first. `sends` is what senders outside the actors were to
/// send. Where there is no such order, or none was made, the answer says why.
///
/// The only error: memory was refused.
pub fn merged_order(
    alloc: Global,
    plan: &Plan,
    sends: &[SenderOrder],
    actors: &[ActorReport],
) -> Result<MergedOrder, AllocError>
    requires few { length actors.now ≤ 64 }
    ensures { IfOk result (λ answer. IsAnswer plan.now sends.now actors.now answer) }
{
    if !is_of_plan(plan, actors) {
        return Ok(MergedOrder::NotOfPlan);
    }
    if !are_kept(actors) {
        return Ok(MergedOrder::NotKept);
    }
    let Some(first) = Replay::new(alloc, plan, sends, actors)? else {
        return Ok(MergedOrder::NotRemade);
    };
    let mut replay = first;
    let mut order = Vec::new(alloc);
    for _taken in 0..u64::MAX {
        let Some(number) = next_actor(actors, &replay) else {
            if has_all(actors, &replay) {
                return Ok(MergedOrder::Found(order));
            }
            return Ok(MergedOrder::NoOrder);
        };
        if !take(actors, number, &mut replay, &mut order)? {
            return Ok(MergedOrder::NotRemade);
        }
    }
    Ok(MergedOrder::NotRemade)
}

/// Whether a system with these actors is built from the plan.
pub(crate) fn is_of_plan(plan: &Plan, actors: &[ActorReport]) -> bool
    ensures { IsTrue result ↔ IsOfPlan plan.now actors.now }
{
    plan.actors.len() < 64 && actors.len() == plan.actors.len() + 1 && plan.journal_limit <= ENTRIES
}

/// Whether all journals keep their entries.
pub(crate) fn are_kept(actors: &[ActorReport]) -> bool
    ensures { IsTrue result ↔ All (λ actor. actor.journal.retention.keeps_all ≡ true) actors.now }
{
    for actor in actors {
        if !actor.journal.is_kept() {
            return false;
        }
    }
    true
}

/// The actor of the lowest number whose next entry may come next; `None` where there is none.
fn next_actor(actors: &[ActorReport], replay: &Replay<'_>) -> Option<usize>
    requires all_cells { length replay.now.cells.items ≡ length actors.now }
    requires few { length actors.now ≤ 64 }
    requires kept { All (λ actor. actor.journal.retention.keeps_all ≡ true) actors.now }
    ensures ready { (who : List Identity) (sends : List Sending) (order : List Place) → IsReplayOf who sends actors.now order replay.now
        → IfSome result (λ a. IsReady who sends actors.now order a) }
    ensures lowest { (who : List Identity) (sends : List Sending) (before order : List Place) (b : ℕ) → IsReplayOf who sends actors.now order replay.now
        → b < length actors.now → IfSome result (λ a. b < a) → MayComeBehind who sends actors.now before order b → ⊥ }
{
    for number in 0..actors.len() {
        if is_ready(actors, number, replay) {
            return Some(number);
        }
    }
    None
}

/// Whether the actor of this number has an entry that may come next.
fn is_ready(actors: &[ActorReport], number: usize, replay: &Replay<'_>) -> bool
    requires an_actor { number < length actors.now }
    requires all_cells { length replay.now.cells.items ≡ length actors.now }
    requires few { length actors.now ≤ 64 }
    requires kept { All (λ actor. actor.journal.retention.keeps_all ≡ true) actors.now }
    ensures ready { (who : List Identity) (sends : List Sending) (order : List Place) → IsReplayOf who sends actors.now order replay.now
        → IsTrue result → IsReady who sends actors.now order number }
    ensures unready { result ≡ false → (who : List Identity) (sends : List Sending) (before order : List Place) → IsReplayOf who sends actors.now order replay.now
        → MayComeBehind who sends actors.now before order number → ⊥ }
{
    let journal = &actors[number].journal;
    let index = replay.entries(number);
    let Some(entry) = journal.entry(index) else {
        return false;
    };
    if !replay.is_sent(number, entry.arrival) {
        return false;
    }
    is_caused(actors, replay, entry.arrival)
}

/// Whether the envelope that came was sent, or the actor of whose end the message tells has ended; true of other messages.
fn is_caused(actors: &[ActorReport], replay: &Replay<'_>, arrival: Received) -> bool
    requires all_cells { length replay.now.cells.items ≡ length actors.now }
    ensures caused { (who : List Identity) (sends : List Sending) (order : List Place) → IsReplayOf who sends actors.now order replay.now → IsTrue result
        → (effects : List Effect) → IsCaused who actors.now order (entry_with arrival effects) }
    ensures uncaused { result ≡ false → (who : List Identity) (sends : List Sending) (before order : List Place) → IsReplayOf who sends actors.now order replay.now
        → AreFewer before order → (effects : List Effect) → IsCaused who actors.now before (entry_with arrival effects) → ⊥ }
{
    match arrival {
        Received::Handled { envelope, .. } => has_sent(actors, replay, envelope),
        Received::System { message, .. } => has_ended(actors, replay, message),
        Received::SetAside { message, .. } => has_ended(actors, replay, message),
        Received::Dropped { envelope } => has_sent(actors, replay, envelope),
    }
}

/// Whether the actor of whose end the message tells has ended; true of other messages.
fn has_ended(actors: &[ActorReport], replay: &Replay<'_>, message: SysMsg) -> bool
    requires all_cells { length replay.now.cells.items ≡ length actors.now }
    ensures ended { (who : List Identity) (sends : List Sending) (order : List Place) → IsReplayOf who sends actors.now order replay.now → IsTrue result
        → IsEndedBefore actors.now order message }
    ensures unended { result ≡ false → (who : List Identity) (sends : List Sending) (before order : List Place) → IsReplayOf who sends actors.now order replay.now
        → AreFewer before order → IsEndedBefore actors.now before message → ⊥ }
{
    match message {
        SysMsg::Died(id) => is_past(actors, replay, id.0 as usize),
        SysMsg::Create
        | SysMsg::Recreate(_)
        | SysMsg::Suspend
        | SysMsg::Resume { .. }
        | SysMsg::Terminate
        | SysMsg::Watch(_)
        | SysMsg::Unwatch(_)
        | SysMsg::Failed(_, _) => true,
    }
}

/// Whether all entries of the actor of this number were taken; true of a number that no actor has.
fn is_past(actors: &[ActorReport], replay: &Replay<'_>, number: usize) -> bool
    requires all_cells { length replay.now.cells.items ≡ length actors.now }
    ensures past { (who : List Identity) (sends : List Sending) (order : List Place) → IsReplayOf who sends actors.now order replay.now → IsTrue result
        → number < length actors.now → entries_placed number order ≡ length (journal_of actors.now number) }
    ensures within { result ≡ false → (who : List Identity) (sends : List Sending) (order : List Place) → IsReplayOf who sends actors.now order replay.now
        → (number < length actors.now) × (entries_placed number order < length (journal_of actors.now number)) }
{
    if number >= actors.len() {
        return true;
    }
    let entries = actors[number].journal.len();
    replay.entries(number) == entries
}

/// Whether the sender of the envelope, if it is an actor, has sent it.
fn has_sent(actors: &[ActorReport], replay: &Replay<'_>, envelope: Envelope) -> bool
    requires all_cells { length replay.now.cells.items ≡ length actors.now }
    ensures sent { (who : List Identity) (sends : List Sending) (order : List Place) → IsReplayOf who sends actors.now order replay.now → IsTrue result
        → IsSentBefore who actors.now order envelope }
    ensures unsent { result ≡ false → (who : List Identity) (sends : List Sending) (before order : List Place) → IsReplayOf who sends actors.now order replay.now
        → AreFewer before order → IsSentBefore who actors.now before envelope → ⊥ }
{
    let by = envelope.by.0 as usize;
    if by >= actors.len() {
        return true;
    }
    (envelope.number as u128) < replay.told(by)
}

/// Takes the next entry of the actor of this number. It answers `false` where no cell makes this entry, or more messages are sent than are
/// counted. The only error: memory was refused.
fn take(
    actors: &[ActorReport],
    number: usize,
    replay: &mut Replay<'_>,
    order: &mut Vec<Place>,
) -> Result<bool, AllocError>
    requires an_actor { number < length actors.now }
    requires few { length actors.now ≤ 64 }
    requires all_cells { length replay.old.cells.items ≡ length actors.now }
    requires carried_out { (d : CellView) → (get_or replay.old.cells.items number d).acts ≡ [] }
    ensures replayed { IfOk result (λ is_taken. IsTrue is_taken → (who : List Identity) (sends : List Sending)
        → IsReplayOf who sends actors.now (reverse order.old.items) replay.old → IsReady who sends actors.now (reverse order.old.items) number
        → IsReplayOf who sends actors.now (reverse order.new.items) replay.new) }
    ensures placed { IfOk result (λ is_taken. IsTrue is_taken → (d : CellView)
        → order.new.items ≡ order.old.items ++ record { actor = number; index = length (get_or replay.old.cells.items number d).journal } ∷ []) }
{
    let journal = &actors[number].journal;
    let index = replay.entries(number);
    let Some(entry) = journal.entry(index) else {
        return Ok(false);
    };
    if !replay.apply(number, &entry)? {
        return Ok(false);
    }
    order.push(Place {
        actor: number,
        index,
    })?;
    Ok(true)
}

/// Whether all entries of all journals were taken.
fn has_all(actors: &[ActorReport], replay: &Replay<'_>) -> bool
    requires all_cells { length replay.now.cells.items ≡ length actors.now }
    ensures all { IsTrue result → (a : ℕ) (d : CellView) → a < length actors.now
        → length (get_or replay.now.cells.items a d).journal ≡ length (journal_of actors.now a) }
    ensures some_left { result ≡ false → ((a : ℕ) (d : CellView) → a < length actors.now
        → length (get_or replay.now.cells.items a d).journal ≡ length (journal_of actors.now a)) → ⊥ }
{
    for number in 0..actors.len() {
        if replay.entries(number) != actors[number].journal.len() {
            return false;
        }
    }
    true
}
