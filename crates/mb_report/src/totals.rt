//! The line of totals.
ghost use Rattle.std.specs.Prelude.{◌≡◌, ◌+◌, ◌<◌, ◌≤◌, ◌^◌, length, map, sum_by};
ghost use Rattle.std.specs.Fmt.{WritesOnOk};
ghost use Rattle.std.specs.List.{All};
ghost use Rattle.mb_report.specs.Kept.{kept};
ghost use Rattle.mb_report.specs.Lines.{LineData, totals_of};
ghost use Rattle.mb_report.specs.declared.line.Line.{Line as LineType};

use crate::line::{Line, write_counts};
use std::fmt;

struct Sums {
    handled: u128,
    left: u128,
    dead: u128,
}

pub(crate) fn write_totals<W: fmt::Write>(f: &mut fmt::Formatter<W>, lines: &[Line]) -> fmt::Result
    requires within_limit { length lines.now ≤ 64 }
    requires below_bound { All (λ (line : LineType). line.dead < 2 ^ 72) lines.now }
    ensures { WritesOnOk W.write_str_gives f.old result (totals_of (map kept lines.now)) f.new }
{
    let Sums {
        handled,
        left,
        dead,
    } = sums_of(lines);
    write!(f, "sent {}", handled + left + dead)?;
    write_counts(f, handled, left, dead)?;
    f.write_str("\n")
}

fn sums_of(lines: &[Line]) -> Sums
    requires within_limit { length lines.now ≤ 64 }
    requires below_bound { All (λ (line : LineType). line.dead < 2 ^ 72) lines.now }
    ensures handled { result.handled ≡ sum_by (λ (line : LineData). line.handled) (map kept lines.now) }
    ensures left { result.left ≡ sum_by (λ (line : LineData). line.left) (map kept lines.now) }
    ensures dead { result.dead ≡ sum_by (λ (line : LineData). line.dead) (map kept lines.now) }
    ensures fits { result.handled + result.left + result.dead < 2 ^ 100 }
{
    let mut sums = Sums {
        handled: 0,
        left: 0,
        dead: 0,
    };
    for line in lines {
        sums.handled = plus(sums.handled, line.handled);
        sums.left = plus(sums.left, line.left);
        sums.dead = plus_wide(sums.dead, line.dead);
    }
    sums
}

fn plus(sum: u128, count: usize) -> u128
    requires { sum < 2 ^ 80 }
    ensures value { result ≡ sum + count }
    ensures grows { result ≤ sum + 2 ^ 72 }
{
    sum + count as u128
}

fn plus_wide(sum: u128, count: u128) -> u128
    requires sum { sum < 2 ^ 80 }
    requires count { count < 2 ^ 72 }
    ensures value { result ≡ sum + count }
    ensures grows { result ≤ sum + 2 ^ 72 }
{
    sum + count
}
