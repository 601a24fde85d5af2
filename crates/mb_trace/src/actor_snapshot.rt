//! How an actor stands between two entries, and how that is printed.
ghost use Rattle.std.specs.Prelude.{◌≡◌};
ghost use Rattle.std.specs.Fmt.{WritesOnOk};
ghost use Rattle.mb_journal.specs.Phase.{phase_is};
ghost use Rattle.mb_report.specs.Lines.{phase_text};
ghost use Rattle.mb_trace.specs.ActorSnapshot.{change_text, phase_change_text, suspension_change_text, state_now_text};

use mb_actor::Phase;
use std::fmt;

/// How an actor stands between two entries of its journal.
#[derive(Clone, Copy)]
pub struct ActorSnapshot {
    /// The phase of its life.
    pub phase: Phase,
    /// How often its mailbox is suspended.
    pub suspended: u128,
    /// Its state; the guardian has none.
    pub state: Option<i64>,
}

/// What an entry changed: the phase and the suspensions where they are others, and the state.
#[tactic(auto, unfolding(crate::specs::ActorSnapshot::change_text))]
pub(crate) fn write_change<W: fmt::Write>(
    f: &mut fmt::Formatter<W>,
    before: ActorSnapshot,
    after: ActorSnapshot,
) -> fmt::Result
    ensures { WritesOnOk W.write_str_gives f.old result (change_text before after) f.new }
{
    write_phase(f, before.phase, after.phase)?;
    write_suspended(f, before.suspended, after.suspended)?;
    write_state(f, after.state)
}

#[tactic(auto, unfolding(crate::specs::ActorSnapshot::phase_change_text))]
fn write_phase<W: fmt::Write>(f: &mut fmt::Formatter<W>, before: Phase, after: Phase) -> fmt::Result
    ensures { WritesOnOk W.write_str_gives f.old result (phase_change_text before after) f.new }
{
    if is_same(before, after) {
        return Ok(());
    }
    write!(f, ", {}", word(after))
}

#[tactic(auto, unfolding(crate::specs::ActorSnapshot::suspension_change_text))]
fn write_suspended<W: fmt::Write>(
    f: &mut fmt::Formatter<W>,
    before: u128,
    after: u128,
) -> fmt::Result
    ensures { WritesOnOk W.write_str_gives f.old result (suspension_change_text before after) f.new }
{
    if before == after {
        return Ok(());
    }
    write!(f, ", suspended {after}")
}

#[tactic(auto, unfolding(crate::specs::ActorSnapshot::state_now_text))]
fn write_state<W: fmt::Write>(f: &mut fmt::Formatter<W>, state: Option<i64>) -> fmt::Result
    ensures { WritesOnOk W.write_str_gives f.old result (state_now_text state) f.new }
{
    match state {
        Some(number) => write!(f, ", state {number}"),
        None => Ok(()),
    }
}

/// Whether the two phases are the same.
pub(crate) fn is_same(one: Phase, other: Phase) -> bool
    ensures { result ≡ phase_is one other }
{
    match (one, other) {
        (Phase::Fresh, Phase::Fresh)
        | (Phase::Live, Phase::Live)
        | (Phase::Broken, Phase::Broken)
        | (Phase::Ending, Phase::Ending)
        | (Phase::Ended, Phase::Ended) => true,
        _ => false,
    }
}

/// The word for a phase, as the report has it.
fn word(phase: Phase) -> &'static str
    ensures { result.now ≡ phase_text phase }
{
    match phase {
        Phase::Fresh => "fresh",
        Phase::Live => "live",
        Phase::Broken => "broken",
        Phase::Ending => "ending",
        Phase::Ended => "ended",
    }
}
