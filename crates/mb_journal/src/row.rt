//! How an entry is stored.
ghost use Rattle.std.specs.Prelude.{◌≡◌, List, length, ◌<◌, ◌≤◌, IfSome, IsTrue};
ghost use Rattle.mb_journal.specs.Rows.{answer_of, error_of, needs, whole};

use crate::entry::Received;
use mb_actor::{Answer, Effect};
use mb_msg::{ActorId, Body, Envelope, SenderId, SysMsg};
use std::mem::size_of;

/// What an actor answered, if it was called, in two bytes.
#[derive(Clone, Copy)]
pub(crate) enum ShortAnswer {
    NotCalled,
    Handled,
    Unhandled,
    Failed(u8),
}

/// A row of the journal: an entry without its effects, and where its effects end in the list of all effects. They begin
/// where those of the row before end.
///
/// With the fields in this order it takes 32 bytes. An entry with a number that is too large for its field stands in a list
/// beside the rows.
#[derive(Clone, Copy)]
pub(crate) enum Row {
    /// An envelope that was handled.
    Handled {
        by: u8,
        to: u8,
        answer: ShortAnswer,
        reading: u16,
        number: u32,
        end: u32,
        body: Body,
    },
    /// A system message that was applied.
    System {
        answer: ShortAnswer,
        number: u32,
        end: u32,
        message: SysMsg,
    },
    /// A system message that was set aside.
    SetAside {
        number: u32,
        end: u32,
        message: SysMsg,
    },
    /// An envelope that was dropped.
    Dropped {
        by: u8,
        to: u8,
        number: u32,
        end: u32,
        body: Body,
    },
    /// Any entry: it stands at this place of the list beside the rows.
    Wide {
        place: usize,
        end: usize,
    },
}

// The sizes that the journal promises: a row of at most 32 bytes, an effect of at most 16.
const _: () = prove!(size_of::<Row>() <= 32);

const _: () = prove!(size_of::<Effect>() <= 16);

impl ShortAnswer {
    /// This answer, whose error fits.
    #[inline(always)]
    fn of(answer: Option<Answer>) -> ShortAnswer
        requires { error_of answer < 256 }
        ensures { answer_of result ≡ answer }
    {
        match answer {
            None => ShortAnswer::NotCalled,
            Some(Answer::Handled) => ShortAnswer::Handled,
            Some(Answer::Unhandled) => ShortAnswer::Unhandled,
            Some(Answer::Failed(error)) => ShortAnswer::Failed(error as u8),
        }
    }

    /// The answer that it stands for.
    fn answer(self) -> Option<Answer>
        ensures { result ≡ answer_of self }
    {
        match self {
            ShortAnswer::NotCalled => None,
            ShortAnswer::Handled => Some(Answer::Handled),
            ShortAnswer::Unhandled => Some(Answer::Unhandled),
            ShortAnswer::Failed(error) => Some(Answer::Failed(u32::from(error))),
        }
    }
}

impl Row {
    /// The row of this entry, whose effects end there; `None` if it does not fit.
    #[inline(always)]
    pub(crate) fn of(arrival: Received, end: usize) -> Option<Row>
        ensures says { IfSome result (λ row. (wide : List Received) → whole wide row ≡ record { arrival = arrival; end = end }) }
        ensures alone { IfSome result (λ row. needs row ≡ 0) }
    {
        match arrival {
            Received::Handled {
                answer,
                envelope,
                reading,
            } => {
                let Envelope {
                    by,
                    to,
                    number,
                    body,
                } = envelope;
                if !fits(by.0, to.0, error_in(answer), reading, number, end) {
                    return None;
                }
                Some(Row::Handled {
                    by: by.0 as u8,
                    to: to.0 as u8,
                    answer: ShortAnswer::of(answer),
                    reading: reading as u16,
                    number: number as u32,
                    end: end as u32,
                    body,
                })
            }
            Received::System {
                answer,
                number,
                message,
            } => {
                if !fits(0, 0, error_in(answer), 0, number, end) {
                    return None;
                }
                Some(Row::System {
                    answer: ShortAnswer::of(answer),
                    number: number as u32,
                    end: end as u32,
                    message,
                })
            }
            Received::SetAside { number, message } => {
                if !fits(0, 0, 0, 0, number, end) {
                    return None;
                }
                Some(Row::SetAside {
                    number: number as u32,
                    end: end as u32,
                    message,
                })
            }
            Received::Dropped { envelope } => {
                let Envelope {
                    by,
                    to,
                    number,
                    body,
                } = envelope;
                if !fits(by.0, to.0, 0, 0, number, end) {
                    return None;
                }
                Some(Row::Dropped {
                    by: by.0 as u8,
                    to: to.0 as u8,
                    number: number as u32,
                    end: end as u32,
                    body,
                })
            }
        }
    }

    /// The entry, without its effects.
    pub(crate) fn arrival(self, wide: &[Received]) -> Received
        requires { needs self ≤ length wide.now }
        ensures { result ≡ (whole wide.now self).arrival }
    {
        match self {
            Row::Handled {
                by,
                to,
                answer,
                reading,
                number,
                end: _,
                body,
            } => Received::Handled {
                answer: answer.answer(),
                envelope: envelope(by, to, number, body),
                reading: u64::from(reading),
            },
            Row::System {
                answer,
                number,
                end: _,
                message,
            } => Received::System {
                answer: answer.answer(),
                number: u64::from(number),
                message,
            },
            Row::SetAside {
                number,
                end: _,
                message,
            } => Received::SetAside {
                number: u64::from(number),
                message,
            },
            Row::Dropped {
                by,
                to,
                number,
                end: _,
                body,
            } => Received::Dropped {
                envelope: envelope(by, to, number, body),
            },
            Row::Wide { place, end: _ } => wide[place],
        }
    }

    /// Where its effects end.
    pub(crate) fn end(self) -> usize
        ensures { (wide : List Received) → result ≡ (whole wide self).end }
    {
        match self {
            Row::Handled { end, .. }
            | Row::System { end, .. }
            | Row::SetAside { end, .. }
            | Row::Dropped { end, .. } => end as usize,
            Row::Wide { end, .. } => end,
        }
    }
}

/// Whether these numbers fit into a row: those of two actors and an error into one byte each, a reading into two, the
/// number of a message and where its effects end into four. (All are tested together, with no branch for each.)
#[inline(always)]
fn fits(by: u32, to: u16, error: u32, reading: u64, number: u64, end: usize) -> bool
    ensures { IsTrue result → (by < 256) × (to < 256) × (error < 256) × (reading < 65536)
        × (number < 4294967296) × (end < 4294967296) }
{
    (by < 256)
        & (to < 256)
        & (error < 256)
        & (reading < 65_536)
        & (number < 4_294_967_296)
        & (end < 4_294_967_296)
}

/// The error of this answer; 0 where it has none.
#[inline(always)]
fn error_in(answer: Option<Answer>) -> u32
    ensures { result ≡ error_of answer }
{
    match answer {
        Some(Answer::Failed(error)) => error,
        None | Some(Answer::Handled | Answer::Unhandled) => 0,
    }
}

/// The envelope with these numbers.
fn envelope(by: u8, to: u8, number: u32, body: Body) -> Envelope
    ensures { result ≡ record { by = record { 0 = by }; to = record { 0 = to }; number = number; body = body } }
{
    Envelope {
        by: SenderId(u32::from(by)),
        to: ActorId(u16::from(to)),
        number: u64::from(number),
        body,
    }
}
