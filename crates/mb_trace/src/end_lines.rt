//! The lines at the end of a trace: dead letters, what is left, and what is set aside.
ghost use Rattle.std.specs.Prelude.{◌≡◌, Some, map, string_bytes};
ghost use Rattle.mb_trace.specs.Ends.{addressed_text, aside_text, letter_text, left_text, why_text};

use crate::words::{EnvelopeWords, SystemWords, name_of};
use mb_msg::{ActorId, DeadLetterReason, Envelope, SysMsg};
use std::fmt;

/// An envelope, and for whom it was.
#[derive(Clone, Copy)]
struct Addressed<'a> {
    names: &'a [String],
    envelope: Envelope,
}

impl fmt::Display for Addressed<'_> {
    ghost output = { λ a. Some (addressed_text (map string_bytes a.names.now) a.envelope) };

    #[tactic(auto, unfolding(crate::specs::Ends::addressed_text))]
    fn fmt<W: fmt::Write>(&self, f: &mut fmt::Formatter<W>) -> fmt::Result {
        let words = EnvelopeWords {
            names: self.names,
            envelope: self.envelope,
        };
        write!(f, "{words} to {}", name_of(self.names, self.envelope.to))
    }
}

/// A dead letter, with its reason. Its `Display` is its line.
#[derive(Clone, Copy)]
pub(crate) struct LetterLine<'a> {
    pub(crate) names: &'a [String],
    pub(crate) envelope: Envelope,
    pub(crate) why: DeadLetterReason,
}

impl fmt::Display for LetterLine<'_> {
    ghost output = { λ l. Some (letter_text (map string_bytes l.names.now) l.envelope l.why) };

    fn fmt<W: fmt::Write>(&self, f: &mut fmt::Formatter<W>) -> fmt::Result {
        let addressed = Addressed {
            names: self.names,
            envelope: self.envelope,
        };
        write!(f, "dead {addressed}: {}\n", reason(self.why))
    }
}

/// The word for why an envelope is dead.
fn reason(why: DeadLetterReason) -> &'static str
    ensures { result.now ≡ why_text why }
{
    match why {
        DeadLetterReason::Closed => "closed",
        DeadLetterReason::Full => "full",
        DeadLetterReason::NoMemory => "no memory",
        DeadLetterReason::Cleaned => "cleaned",
    }
}

/// An envelope that is left in its receiver's queue. Its `Display` is its line.
#[derive(Clone, Copy)]
pub(crate) struct LeftLine<'a> {
    pub(crate) names: &'a [String],
    pub(crate) envelope: Envelope,
}

impl fmt::Display for LeftLine<'_> {
    ghost output = { λ l. Some (left_text (map string_bytes l.names.now) l.envelope) };

    fn fmt<W: fmt::Write>(&self, f: &mut fmt::Formatter<W>) -> fmt::Result {
        let addressed = Addressed {
            names: self.names,
            envelope: self.envelope,
        };
        write!(f, "left {addressed}\n")
    }
}

/// A system message that is set aside. Its `Display` is its line.
#[derive(Clone, Copy)]
pub(crate) struct AsideLine<'a> {
    pub(crate) names: &'a [String],
    pub(crate) actor: ActorId,
    pub(crate) number: u64,
    pub(crate) message: SysMsg,
}

impl fmt::Display for AsideLine<'_> {
    ghost output = { λ l. Some (aside_text (map string_bytes l.names.now) l.actor.0 l.number l.message) };

    fn fmt<W: fmt::Write>(&self, f: &mut fmt::Formatter<W>) -> fmt::Result {
        let words = SystemWords {
            names: self.names,
            message: self.message,
        };
        let to = name_of(self.names, self.actor);
        write!(f, "aside system #{} {words} to {to}\n", self.number)
    }
}
