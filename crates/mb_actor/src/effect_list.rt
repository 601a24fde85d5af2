//! The effects in an outbox.
ghost use Rattle.std.specs.Prelude.{◌≡◌, ◌<◌, ◌≤◌, ◌==◌, [], ◌∷◌, ◌++◌, length, take};
ghost use Rattle.mb_msg.specs.Limits.{most_effects};

use crate::effect::Effect;
use mb_msg::limits::EFFECTS;
use std::marker::Model;

/// At most 16 effects, in order. It is emptied in one step, whatever it has: what lies behind its last effect is not read.
#[derive(Drop)]
pub(crate) struct EffectList {
    places: [Effect; EFFECTS],
    count: usize,
}

impl Model for EffectList {
    ghost use Rattle.std.specs.Prelude.{◌≡◌, ◌≤◌, length, take};
    ghost use Rattle.mb_actor.specs.EffectListView.{EffectListView};

    ghost Value = { EffectListView };

    ghost view = { λ l. record { items = take l.count l.places } };

    ghost invariant = { λ l. (l.count ≤ 16) × (length l.places ≡ 16) };
}

impl EffectList {
    /// No effect.
    pub(crate) fn new() -> EffectList
        ensures { result.items ≡ [] }
    {
        EffectList {
            places: Default::default(),
            count: 0,
        }
    }

    /// The effects, in order.
    #[inline]
    pub(crate) fn as_slice(&self) -> &[Effect]
        ensures value { result.now ≡ self.now.items }
        ensures fits { length result.now ≤ most_effects }
    {
        &self.places[..self.count]
    }

    /// Whether there is room for no further effect.
    #[inline]
    pub(crate) fn is_full(&self) -> bool
        ensures value { result ≡ (length self.now.items == most_effects) }
        ensures fits { length self.now.items ≤ most_effects }
    {
        self.count == EFFECTS
    }

    /// Puts the effect last.
    #[inline]
    pub(crate) fn push(&mut self, effect: Effect)
        requires { length self.old.items < most_effects }
        ensures items { self.new.items ≡ self.old.items ++ effect ∷ [] }
    {
        let count = self.count;
        self.places[count] = effect;
        self.count = count + 1;
    }

    /// Keeps the first `kept` effects.
    #[inline]
    pub(crate) fn truncate(&mut self, kept: usize)
        ensures { self.new.items ≡ take kept self.old.items }
    {
        self.count = self.count.min(kept);
    }
}
