//! The rank of an envelope in a priority mailbox, by a table of ranks.
ghost use Rattle.std.specs.Prelude.{◌≡◌, ◌==◌, find};
ghost use Rattle.mb_queue.specs.Rank.{rank_of};

use mb_msg::{Body, RankRow};
use std::marker::Model;

/// The table of ranks of a priority mailbox (in Akka its `PriorityGenerator`, a function; that it is a table of user
/// kinds is this project's own profile). Contracts see the list of its rows.
#[derive(Debug, Drop)]
pub struct Ranks {
    rows: Vec<RankRow>,
}

impl Model for Ranks {
    ghost use Rattle.std.specs.Prelude.{List};
    ghost use Rattle.mb_msg.specs.declared.mailbox_type.RankRow.{RankRow};

    ghost Value = { List RankRow };

    ghost view = { λ r. r.rows.items };
}

impl Ranks {
    /// A table of these rows, of which the first of each kind counts.
    pub fn new(rows: Vec<RankRow>) -> Ranks
        ensures { result ≡ rows.items }
    {
        Ranks { rows }
    }

    /// The rank of a body: that of the first row of its kind for a user message, and `other` for one whose kind has no row
    /// and for all other bodies.
    pub fn rank_of(&self, other: u32, body: Body) -> u32
        ensures { result ≡ rank_of self.now other body }
    {
        match body {
            Body::User { kind, .. } => match row_of(&self.rows, kind) {
                Some(row) => row.rank,
                None => other,
            },
            Body::Control { .. } | Body::PoisonPill | Body::Kill | Body::Terminated(_) => other,
        }
    }
}

fn row_of(rows: &[RankRow], kind: u32) -> Option<RankRow>
    ensures { result ≡ find (λ row. row.kind == kind) rows.now }
{
    rows.iter().copied().find(|row| row.kind == kind)
}
