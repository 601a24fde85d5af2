//! Counts of how often each number was given.
ghost use Rattle.std.specs.Prelude.{◌≡◌, ◌+◌, ◌<◌, if◌then◌else◌, length, slice_index, ℕ};
ghost use Rattle.mb_dead_letters.specs.Tally.{counted_at};

/// Adds one at this place, if there is such a place.
pub(crate) fn count_at(counts: &mut [u64], place: usize)
    requires { place < length counts.old → slice_index counts.old place < 18446744073709551615 }
    ensures { counts.new ≡ counted_at place counts.old }
{
    if place < counts.len() {
        counts[place] += 1;
    }
}

/// A count of 0 for each of 64 places.
pub(crate) fn none_of_64() -> [u64; 64]
    ensures { (length result ≡ 64) × ((place : ℕ) → place < 64 → slice_index result place ≡ 0) }
{
    [0; 64]
}

/// A count of 0 for each of four places.
pub(crate) fn none_of_four() -> [u64; 4]
    ensures { (length result ≡ 4) × ((place : ℕ) → place < 4 → slice_index result place ≡ 0) }
{
    [0; 4]
}
