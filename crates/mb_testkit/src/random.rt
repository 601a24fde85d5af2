//! Pseudo-random numbers, the same for the same seed.
ghost use Rattle.std.specs.Prelude.{◌≤◌, max};

use mb_msg::ActorId;

/// A sequence of pseudo-random numbers.
#[derive(Drop)]
pub struct Random {
    last: u64,
}

impl Random {
    /// The sequence of this seed.
    pub fn new(seed: u64) -> Self {
        Random {
            last: seed.wrapping_mul(0x9E37_79B9_7F4A_7C15),
        }
    }

    /// A number from `least` to `most`.
    pub fn number_between(&mut self, least: u32, most: u32) -> u32
        ensures { result ≤ max least most }
    {
        self.last = self
            .last
            .wrapping_mul(6_364_136_223_846_793_005)
            .wrapping_add(1_442_695_040_888_963_407);
        let sides = most.saturating_sub(least).saturating_add(1);
        least.saturating_add((self.last >> 33) as u32 % sides)
    }

    /// An actor whose number is from `least` to `most`.
    pub fn actor_between(&mut self, least: u16, most: u16) -> ActorId {
        ActorId(self.number_between(u32::from(least), u32::from(most)) as u16)
    }

    /// True once in `sides` times, at random.
    pub fn is_one_of(&mut self, sides: u32) -> bool {
        self.number_between(1, sides) == 1
    }
}
