//! What the heap of a priority mailbox orders: rank, then arrival.
ghost use Rattle.std.specs.Prelude.{◌≡◌, ◌+◌, ◌*◌, ◌^◌};
ghost use Rattle.std.specs.Ordering.{as_partial_cmp, eq_by_cmp, nat_cmp, ordering_then};
ghost use Rattle.std.specs.Cmp.{eq_by_cmp_equiv, partial_equiv_from_equiv, partial_order_from_total};
ghost use Rattle.std.proofs.Common.{refl};
ghost use Rattle.mb_queue.specs.RankKey.{rank_key_order, rank_key_total};

use mb_msg::Envelope;
use std::cmp::Ordering;
use std::snapshot::Snapshot;

/// The rank and the arrival number of an envelope that is held, and the slot that it is in. This is small, since a heap
/// moves many of them. Contracts see the envelope too.
#[derive(Drop)]
pub(crate) struct RankKey {
    pub(crate) rank: u32,
    /// Its number in the order of arrival, from 0.
    pub(crate) number: u64,
    /// The slot that the envelope is in.
    pub(crate) slot: usize,
    /// The envelope, for proofs alone.
    pub(crate) envelope: Snapshot<Envelope>,
}

impl PartialEq for RankKey {
    ghost eq = { eq_by_cmp rank_key_order };

    ghost laws = { partial_equiv_from_equiv (eq_by_cmp_equiv rank_key_total) };

    fn eq(&self, other: &RankKey) -> bool {
        self.cmp(other).is_eq()
    }
}

impl Eq for RankKey {
    ghost laws = { eq_by_cmp_equiv rank_key_total };
}

impl PartialOrd for RankKey {
    ghost partial_cmp = { as_partial_cmp rank_key_order };

    ghost laws = { partial_order_from_total rank_key_total };

    fn partial_cmp(&self, other: &RankKey) -> Option<Ordering> {
        Some(self.cmp(other))
    }
}

impl Ord for RankKey {
    ghost cmp = { rank_key_order };

    ghost total = { rank_key_total };

    ghost matches_partial_cmp = { λ x y. refl };

    ghost matches_eq = { λ x y. refl };

    fn cmp(&self, other: &RankKey) -> Ordering {
        compare(self.rank, self.number, other.rank, other.number)
    }
}

/// Compares by rank, then by number. Both are compared as one number, since a branch on the ranks is often
/// mispredicted.
#[inline(always)]
fn compare(rank: u32, number: u64, other_rank: u32, other_number: u64) -> Ordering
    ensures { result ≡ ordering_then (nat_cmp rank other_rank) (nat_cmp number other_number) }
{
    place(rank, number).cmp(&place(other_rank, other_number))
}

/// Rank and number as one number: the smaller goes first.
#[inline(always)]
fn place(rank: u32, number: u64) -> u128
    ensures { result ≡ rank * 2 ^ 64 + number }
{
    u128::from(rank) * (1 << 64) + u128::from(number)
}
