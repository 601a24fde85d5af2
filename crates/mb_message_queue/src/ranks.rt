//! The rank of an envelope in a priority mailbox, by a table of ranks.
ghost use Rattle.std.specs.Prelude.{◌≡◌, ◌==◌, find};
ghost use Rattle.mb_message_queue.specs.MessageQueue.{rank_of};

use mb_msg::{Body, RankRow};

/// The rank of a body: that of the first row of its kind for a user message, and `other` for one whose kind has no row and for
/// all other bodies.
pub(crate) fn rank_of(rows: &[RankRow], other: u32, body: Body) -> u32
    ensures { result ≡ rank_of rows.now other body }
{
    match body {
        Body::User { kind, .. } => match row_of(rows, kind) {
            Some(row) => row.rank,
            None => other,
        },
        Body::Control { .. } | Body::PoisonPill | Body::Kill | Body::Terminated(_) => other,
    }
}

fn row_of(rows: &[RankRow], kind: u32) -> Option<RankRow>
    ensures { result ≡ find (λ row. row.kind == kind) rows.now }
{
    rows.iter().copied().find(|row| row.kind == kind)
}
