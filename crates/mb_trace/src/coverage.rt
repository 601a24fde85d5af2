//! Whether turns have the entries of the journals.
ghost use Rattle.std.specs.Prelude.{ℕ, ◌≡◌, ◌<◌, ◌==◌, ◌↔◌, All, IsTrue, if◌then◌else◌, length};
ghost use Rattle.mb_causal_order.specs.Places.{journal_of};
ghost use Rattle.mb_trace.specs.Coverage.{CoverJournals};
ghost use Rattle.mb_trace.specs.Text.{entries_in};

use crate::trace::TurnLength;
use mb_report::ActorReport;

/// Whether these turns have each entry of the journals of these actors exactly once: as many entries of each actor as its journal has,
/// and no turn is of an actor that is not among these.
pub fn cover_journals(turns: &[TurnLength], actors: &[ActorReport]) -> bool
    ensures { IsTrue result ↔ CoverJournals turns.now actors.now }
{
    if !are_known(turns, actors.len()) {
        return false;
    }
    have_journals(turns, actors)
}

/// Whether each of these turns is of one of so many actors.
fn are_known(turns: &[TurnLength], actors: usize) -> bool
    ensures { IsTrue result ↔ All (λ turn. turn.actor.0 < actors) turns.now }
{
    for turn in turns {
        if turn.actor.0 as usize >= actors {
            return false;
        }
    }
    true
}

/// Whether the turns have as many entries of each of these actors as its journal has.
fn have_journals(turns: &[TurnLength], actors: &[ActorReport]) -> bool
    ensures { IsTrue result ↔ ((a : ℕ) → a < length actors.now → entries_in a turns.now ≡ length (journal_of actors.now a)) }
{
    for number in 0..actors.len() {
        if !have_entries(turns, number, actors[number].journal.len()) {
            return false;
        }
    }
    true
}

/// Whether the turns have so many entries of the actor of this number.
fn have_entries(turns: &[TurnLength], actor: usize, entries: usize) -> bool
    ensures { result ≡ (entries_in actor turns.now == entries) }
{
    let mut left = entries as u64;
    for turn in turns {
        let more = entries_of(turn, actor);
        if more > left {
            return false;
        }
        left -= more;
    }
    left == 0
}

/// How many entries of the actor of this number the turn has.
fn entries_of(turn: &TurnLength, actor: usize) -> u64
    ensures { result ≡ (if actor == turn.now.actor.0 then turn.now.entries else 0) }
{
    if actor == turn.actor.0 as usize {
        return turn.entries;
    }
    0
}
