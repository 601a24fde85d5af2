//! Whether all that belongs to a system is there, and in the order of its numbers.
ghost use Rattle.std.specs.Prelude.{◌≡◌, ◌↔◌, ◌≤◌, Contains, IsPermutation, IsTrue, MatchOption, Some, length, map, slice_get};
ghost use Rattle.mb_build.specs.Numbers.{numbers};
ghost use Rattle.mb_shutdown.specs.Belonging.{AreThere, IsLeastMissing};

use crate::numbered::Numbered;

/// The least number below `many` that none of these has.
pub(crate) fn missing<T: Numbered>(many: u32, all: &[T]) -> Option<u32>
    ensures { MatchOption result (AreThere many (map T.numbered all.now)) (IsLeastMissing many (map T.numbered all.now)) }
{
    (0..many).find(|number| !has(all, *number))
}

fn has<T: Numbered>(all: &[T], number: u32) -> bool
    ensures { IsTrue result ↔ Contains (map T.numbered all.now) number }
{
    place_of(all, number).is_some()
}

// The place of the one with this number.
fn place_of<T: Numbered>(all: &[T], number: u32) -> Option<usize>
    ensures { MatchOption result (Contains (map T.numbered all.now) number → ⊥)
        (λ place. slice_get (map T.numbered all.now) place ≡ Some number) }
{
    all.iter().position(|one| one.number() == number)
}

/// Sorts these by their numbers, all of which are there.
pub(crate) fn sort_by_number<T: Numbered>(all: &mut [T])
    requires within_limit { length all.old ≤ 16 }
    requires present { AreThere (length all.old) (map T.numbered all.old) }
    ensures numbers { map T.numbered all.new ≡ numbers 0 (length all.old) }
    ensures same { IsPermutation all.new all.old }
{
    for place in 0..all.len() {
        let Some(other) = place_of(all, place as u32) else {
            unreachable!()
        };
        all.swap(place, other);
    }
}
