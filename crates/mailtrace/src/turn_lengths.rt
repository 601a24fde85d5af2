//! The turns of a quiet run, as a trace needs them.
ghost use Rattle.std.specs.Prelude.{◌≡◌, IfOk, map};
ghost use Rattle.mailtrace.specs.TurnLengths.{length_of};

use mb_dispatch::Turn;
use mb_trace::TurnLength;
use std::alloc::{AllocError, Global};

/// How long each of these turns was, in their order. The only error: memory was refused.
pub(crate) fn turn_lengths(alloc: Global, turns: &[Turn]) -> Result<Vec<TurnLength>, AllocError>
    ensures { IfOk result (λ lengths. lengths.items ≡ map length_of turns.now) }
{
    let mut lengths = Vec::new(alloc);
    for turn in turns {
        lengths.push(length_of(turn))?;
    }
    Ok(lengths)
}

/// How long this one was.
fn length_of(turn: &Turn) -> TurnLength
    ensures { result ≡ length_of turn.now }
{
    TurnLength {
        actor: turn.actor,
        entries: turn.system.saturating_add(turn.envelopes),
    }
}
