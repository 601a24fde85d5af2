//! The line above the entries of an actor.
ghost use Rattle.std.specs.Prelude.{Some, map, string_bytes};
ghost use Rattle.mb_trace.specs.Text.{title_text};

use crate::words::name_of;
use mb_msg::ActorId;
use std::fmt;

/// The name of an actor behind a word. Its `Display` is its line.
#[derive(Clone, Copy)]
pub(crate) struct TitleLine<'a> {
    pub(crate) names: &'a [String],
    pub(crate) title: &'a str,
    pub(crate) actor: ActorId,
}

impl fmt::Display for TitleLine<'_> {
    ghost output = { λ l. Some (title_text (map string_bytes l.names.now) l.title.now l.actor.0) };

    fn fmt<W: fmt::Write>(&self, f: &mut fmt::Formatter<W>) -> fmt::Result {
        write!(f, "{} {}\n", self.title, name_of(self.names, self.actor))
    }
}
