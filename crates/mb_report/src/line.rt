//! The line of one actor.
ghost use Rattle.std.specs.Prelude.{◌≡◌, Some};
ghost use Rattle.std.specs.Fmt.{WritesOnOk};
ghost use Rattle.mb_report.specs.Lines.{phase_text, phase_and_state_text, suspended_text, counts_text, restarts_text, line_text};
ghost use Rattle.mb_report.specs.Kept.{kept};

use mb_actor::Phase;
use std::fmt;

/// What the report says of one actor. Its `Display` is the actor's line.
#[derive(Drop)]
pub(crate) struct Line {
    pub(crate) name: String,
    /// The phase of its life.
    pub(crate) phase: Phase,
    /// Its content; the guardian has none.
    pub(crate) state: Option<i64>,
    /// How often its mailbox is suspended.
    pub(crate) suspended: u64,
    /// How many envelopes it handled.
    pub(crate) handled: usize,
    /// How many are left in its queue.
    pub(crate) left: usize,
    /// How many of those to it are dead letters.
    pub(crate) dead: u128,
    /// How often it was restarted.
    pub(crate) restarts: usize,
}

impl fmt::Display for Line {
    ghost output = { λ line. Some (line_text (kept line)) };

    fn fmt<W: fmt::Write>(&self, f: &mut fmt::Formatter<W>) -> fmt::Result {
        write_phase_and_state(f, self.name.as_str(), self.phase, self.state)?;
        write_suspended(f, self.suspended)?;
        write_counts(f, self.handled as u128, self.left as u128, self.dead)?;
        write_restarts(f, self.restarts)
    }
}

#[tactic(auto, unfolding(crate::specs::Lines::phase_and_state_text))]
fn write_phase_and_state<W: fmt::Write>(
    f: &mut fmt::Formatter<W>,
    name: &str,
    phase: Phase,
    state: Option<i64>,
) -> fmt::Result
    ensures { WritesOnOk W.write_str_gives f.old result (phase_and_state_text name.now phase state) f.new }
{
    write!(f, "{name} {} state ", word(phase))?;
    match state {
        Some(number) => write!(f, "{number}"),
        None => f.write_str("-"),
    }
}

#[tactic(auto, unfolding(crate::specs::Lines::suspended_text))]
fn write_suspended<W: fmt::Write>(f: &mut fmt::Formatter<W>, suspended: u64) -> fmt::Result
    ensures { WritesOnOk W.write_str_gives f.old result (suspended_text suspended) f.new }
{
    write!(f, " suspended {suspended}")
}

#[tactic(auto, unfolding(crate::specs::Lines::restarts_text))]
fn write_restarts<W: fmt::Write>(f: &mut fmt::Formatter<W>, restarts: usize) -> fmt::Result
    ensures { WritesOnOk W.write_str_gives f.old result (restarts_text restarts) f.new }
{
    writeln!(f, " restarts {restarts}")
}

/// What became of envelopes.
#[tactic(auto, unfolding(crate::specs::Lines::counts_text))]
pub(crate) fn write_counts<W: fmt::Write>(
    f: &mut fmt::Formatter<W>,
    handled: u128,
    left: u128,
    dead: u128,
) -> fmt::Result
    ensures { WritesOnOk W.write_str_gives f.old result (counts_text handled left dead) f.new }
{
    write!(f, " handled {handled} left {left} dead {dead}")
}

/// The word for a phase, as it is printed.
fn word(phase: Phase) -> &'static str
    ensures { result.now ≡ phase_text phase }
{
    match phase {
        Phase::Fresh => "fresh",
        Phase::Live => "live",
        Phase::Broken => "broken",
        Phase::Ending => "ending",
        Phase::Ended => "ended",
    }
}
