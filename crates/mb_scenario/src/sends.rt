//! What is sent.

ghost use Rattle.std.specs.Prelude.{◌≡◌, IfOk, map};
ghost use Rattle.toml.specs.View.{view, items_view};
ghost use Rattle.mb_schema.specs.Context.{actor_entry_data};
ghost use Rattle.mb_scenario.specs.Fields.{map_items, small};
ghost use Rattle.mb_scenario.specs.Sends.{send_of, senders_of, what_sent};

use crate::fields::{field, id_of, integer_or, number_or, small};
use mb_msg::{Order, OrderKind, Payload, SenderOrder};
use mb_schema::{ActorEntry, is_text, text_or};
use std::alloc::{AllocError, Global};
use toml::Value;

/// What the entries say is sent, in order.
pub(crate) fn sends_of(
    alloc: Global,
    actor_entries: &[ActorEntry<'_>],
    values: &[Value],
) -> Result<Vec<SenderOrder>, AllocError>
    ensures { IfOk result (λ sends. sends.items ≡ map_items (send_of (map actor_entry_data actor_entries.now)) (items_view values.now)) }
{
    let mut sends = Vec::new(alloc);
    for value in values {
        sends.push(send_of(actor_entries, value))?;
    }
    Ok(sends)
}

fn send_of(actor_entries: &[ActorEntry<'_>], value: &Value) -> SenderOrder
    ensures { result ≡ send_of (map actor_entry_data actor_entries.now) (view value.now) }
{
    let word = text_or(b"user", field(value, "what"));
    let kind = number_or(0, field(value, "kind"));
    let number = integer_or(0, field(value, "value"));
    SenderOrder {
        from: number_or(0, field(value, "from")),
        order: Order {
            to: id_of(actor_entries, text_or(b"", field(value, "to"))),
            what: what_sent(word, kind, number),
            times: number_or(1, field(value, "times")),
        },
    }
}

fn what_sent(word: &[u8], kind: u32, value: i64) -> OrderKind
    ensures { result ≡ what_sent word.now kind value }
{
    if is_text(word, b"poison") {
        return OrderKind::Tell(Payload::PoisonPill);
    }
    if is_text(word, b"kill") {
        return OrderKind::Tell(Payload::Kill);
    }
    if is_text(word, b"stop") {
        return OrderKind::Stop;
    }
    if is_text(word, b"control") {
        return OrderKind::Tell(Payload::Control { kind, value });
    }
    OrderKind::Tell(Payload::User { kind, value })
}

/// How many senders there are.
pub(crate) fn senders_of(sends: &[SenderOrder]) -> u32
    ensures { result ≡ small (senders_of sends.now) }
{
    let mut senders: u64 = 0;
    for send in sends {
        senders = senders.max(u64::from(send.from) + 1);
    }
    small(senders as usize)
}
