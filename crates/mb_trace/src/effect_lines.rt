//! The lines of the effects of an entry.
ghost use Rattle.std.specs.Prelude.{Some, map, string_bytes};

use crate::words::EffectWords;
use mb_actor::Effect;
use std::fmt;

/// The effects of an entry, a line for each, in order.
#[derive(Clone, Copy)]
pub(crate) struct EffectLines<'a> {
    pub(crate) names: &'a [String],
    pub(crate) effects: &'a [Effect],
}

impl fmt::Display for EffectLines<'_> {
    ghost use Rattle.mb_trace.specs.Entries.{effect_lines_text};

    ghost output = { λ lines. Some (effect_lines_text (map string_bytes lines.names.now) lines.effects.now) };

    fn fmt<W: fmt::Write>(&self, f: &mut fmt::Formatter<W>) -> fmt::Result {
        for effect in self.effects {
            let words = EffectWords {
                names: self.names,
                effect: *effect,
            };
            write!(f, "    {words}\n")?;
        }
        Ok(())
    }
}
