//! The lines of all actors.
ghost use Rattle.std.specs.Prelude.{◌<◌, ◌≤◌, ◌^◌, Some, length, map};
ghost use Rattle.std.specs.List.{All};

use crate::line::Line;
use crate::totals::write_totals;
use std::fmt;

/// The lines of all actors. Its `Display` is the whole text.
#[derive(Drop)]
pub(crate) struct Lines {
    /// One for each actor, by number.
    pub(crate) lines: Vec<Line>,
    pub(crate) ghost within_limit: { length lines.items ≤ 64 },
    pub(crate) ghost below_bound: { All (λ line. line.dead < 2 ^ 72) lines.items },
}

impl fmt::Display for Lines {
    ghost use Rattle.mb_report.specs.Kept.{kept};
    ghost use Rattle.mb_report.specs.Lines.{lines_text};

    ghost output = { λ report. Some (lines_text (map kept report.lines.items)) };

    fn fmt<W: fmt::Write>(&self, f: &mut fmt::Formatter<W>) -> fmt::Result {
        for line in &self.lines {
            write!(f, "{line}")?;
        }
        write_totals(f, &self.lines)
    }
}
