//! The lines.
ghost use Rattle.std.specs.Prelude.{◌≡◌, ◌≤◌, false, map, string_bytes, IfOk};
ghost use Rattle.serde_json.specs.Data.{depth};
ghost use Rattle.serde_json.specs.Read.{max_depth};
ghost use Rattle.serde_json.specs.View.{view};
ghost use Rattle.serde_json.specs.Written.{has_float};
ghost use Rattle.mb_journal.specs.JournalView.{entry_of};
ghost use Rattle.mb_trace_json.specs.Entries.{entry_data};
ghost use Rattle.mb_trace_json.specs.Lines.{ReadsAs, line_text};
ghost use Rattle.mb_trace_json.specs.Undelivered.{aside_data, left_data, letter_data};
ghost use Rattle.mb_trace_json.specs.Telling.{TellsEntry};

use crate::entry::{Place, entry_value};
use crate::undelivered::{dead_letter_value, left_value, set_aside_value};
use mb_journal::EntryRef;
use mb_msg::{ActorId, DeadLetter, Envelope, SysMsg};
use mb_trace::ActorSnapshot;
use serde_json::Value;
use std::alloc::{AllocError, Global};

/// The line of an entry of this actor's journal, at this place there, from 0, after which the actor stands so. The actors beside the
/// guardian have these names, from number 1 on. The only error, here and of the other lines: memory was refused.
pub fn entry_line(
    alloc: Global,
    names: &[String],
    actor: ActorId,
    place: usize,
    after: ActorSnapshot,
    entry: &EntryRef<'_>,
) -> Result<String, AllocError>
    ensures text { IfOk result (λ line. string_bytes line ≡ line_text (entry_data (map string_bytes names.now) actor.0 place after (entry_of entry.now))) }
    ensures value { IfOk result (λ line. ReadsAs (string_bytes line) (entry_data (map string_bytes names.now) actor.0 place after (entry_of entry.now))) }
    ensures entry { TellsEntry (map string_bytes names.now) actor.0 place after (entry_of entry.now) }
{
    let place = Place {
        actor,
        index: place,
        after,
    };
    line_of(alloc, &entry_value(alloc, names, place, entry)?)
}

/// The line of a dead letter.
pub fn dead_letter_line(
    alloc: Global,
    names: &[String],
    letter: &DeadLetter,
) -> Result<String, AllocError>
    ensures text { IfOk result (λ line. string_bytes line ≡ line_text (letter_data (map string_bytes names.now) letter.now)) }
    ensures value { IfOk result (λ line. ReadsAs (string_bytes line) (letter_data (map string_bytes names.now) letter.now)) }
{
    line_of(alloc, &dead_letter_value(alloc, names, letter)?)
}

/// The line of an envelope that is left in its receiver's mailbox.
pub fn left_line(alloc: Global, names: &[String], envelope: &Envelope) -> Result<String, AllocError>
    ensures text { IfOk result (λ line. string_bytes line ≡ line_text (left_data (map string_bytes names.now) envelope.now)) }
    ensures value { IfOk result (λ line. ReadsAs (string_bytes line) (left_data (map string_bytes names.now) envelope.now)) }
{
    line_of(alloc, &left_value(alloc, names, envelope)?)
}

/// The line of a system message that is set aside at this actor in the end, and its number.
pub fn set_aside_line(
    alloc: Global,
    names: &[String],
    actor: ActorId,
    number: u64,
    message: SysMsg,
) -> Result<String, AllocError>
    ensures text { IfOk result (λ line. string_bytes line ≡ line_text (aside_data (map string_bytes names.now) actor.0 number message)) }
    ensures value { IfOk result (λ line. ReadsAs (string_bytes line) (aside_data (map string_bytes names.now) actor.0 number message)) }
{
    line_of(
        alloc,
        &set_aside_value(alloc, names, actor, number, message)?,
    )
}

/// The text of a value, and the end of its line.
fn line_of(alloc: Global, value: &Value) -> Result<String, AllocError>
    ensures text { IfOk result (λ line. has_float (view value.now) ≡ false → string_bytes line ≡ line_text (view value.now)) }
    ensures value { IfOk result (λ line. depth (view value.now) ≤ max_depth → ReadsAs (string_bytes line) (view value.now)) }
{
    let mut line = value.to_string(alloc)?;
    line.push('\n')?;
    Ok(line)
}
