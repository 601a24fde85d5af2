//! What is wrong with the value of a key.

ghost use Rattle.std.specs.Prelude.{◌≡◌, ◌<◌, ◌&&◌, ◌||◌, codes, length, option_map, IfSome};
ghost use Rattle.std.specs.Str.{bytes_eq};
ghost use Rattle.toml.specs.Data.{get_member};
ghost use Rattle.toml.specs.View.{view, items_view, table_view};
ghost use Rattle.mb_schema.specs.Context.{context_data};
ghost use Rattle.mb_schema.specs.Format.{key_data, words};
ghost use Rattle.mb_schema.specs.Name.{is_name, is_guardian};
ghost use Rattle.mb_schema.specs.Value.{has_type, text_of, text_or, mailbox_word, what_word, may_stand, is_from_to};
ghost use Rattle.mb_schema.specs.Value.{is_among, is_error_of, is_cause, is_in_range, is_few, items_of, is_known};
ghost use Rattle.mb_schema.specs.Value.{is_fresh, value_reason, key_reason};

use crate::context::Context;
use crate::finding::Reason;
use crate::form::{Form, Only, Words};
use crate::key::KeySchema;
use crate::name::{is_guardian, is_name, is_text};
use crate::number::number_of;
use crate::operation::space_in;
use toml::{Table, Value};

/// What is wrong with a key; `found` is its value, if it is there.
pub(crate) fn key_reason(
    context: &Context<'_>,
    table: &Table,
    key: &KeySchema,
    found: Option<&Value>,
) -> Option<Reason>
    ensures { result ≡ key_reason (context_data context.now) (table_view table.now) (key_data key.now) (option_map (λ v. view v.now) found.entry) }
{
    match found {
        Some(value) => value_reason(context, table, key, value),
        None => {
            if key.required && may_stand(key.only, table) {
                Some(Reason::Missing)
            } else {
                None
            }
        }
    }
}

fn value_reason(
    context: &Context<'_>,
    table: &Table,
    key: &KeySchema,
    value: &Value,
) -> Option<Reason>
    ensures { result ≡ value_reason (context_data context.now) (table_view table.now) (key_data key.now) (view value.now) }
{
    if !has_type(key.form, value) {
        return Some(Reason::WrongType);
    }
    if !may_stand(key.only, table) {
        return Some(Reason::NotAllowed);
    }
    if !is_in_range(key.form, table, value) {
        return Some(Reason::OutOfRange);
    }
    if !is_few(key.form, value) {
        return Some(Reason::TooMany);
    }
    if !is_known(key.form, context, value) {
        return Some(Reason::UnknownName);
    }
    if !is_fresh(key.form, context, value) {
        return Some(Reason::RepeatedName);
    }
    None
}

fn has_type(form: Form, value: &Value) -> bool
    ensures { result ≡ has_type form (view value.now) }
{
    match form {
        Form::Whole { .. } | Form::AnyInteger => value.as_integer().is_some(),
        Form::Truth => value.as_bool().is_some(),
        Form::Word(_) | Form::Cause | Form::Name | Form::Parent | Form::Receiver => {
            value.as_str().is_some()
        }
        Form::Tables { .. } | Form::Rows(_) | Form::Operations { .. } => value.as_array().is_some(),
    }
}

/// The text of a value; empty where it is not a text.
pub fn text_of(value: &Value) -> &[u8]
    ensures { result.now ≡ text_of (view value.now) }
{
    match value.as_str() {
        Some(text) => text.as_bytes(),
        None => b"",
    }
}

/// The text at a key, or the default where the key is absent.
pub fn text_or<'a>(default: &'static [u8], found: Option<&'a Value>) -> &'a [u8]
    ensures { result.now ≡ text_or default.now (option_map (λ v. view v.now) found.entry) }
{
    match found {
        Some(value) => text_of(value),
        None => default,
    }
}

/// The value at a key.
pub fn value_at<'a>(table: &'a Table, key: &str) -> Option<&'a Value>
    ensures { option_map (λ v. view v.now) result ≡ get_member key.now (table_view table.now) }
{
    table.get(key)
}

fn mailbox_word(table: &Table) -> &[u8]
    ensures { result.now ≡ mailbox_word (table_view table.now) }
{
    text_or(b"unbounded", value_at(table, "mailbox"))
}

fn what_word(table: &Table) -> &[u8]
    ensures { result.now ≡ what_word (table_view table.now) }
{
    text_or(b"user", value_at(table, "what"))
}

/// Whether the key is allowed in this table.
fn may_stand(only: Only, table: &Table) -> bool
    ensures { result ≡ may_stand only (table_view table.now) }
{
    match only {
        Only::Always => true,
        Only::Bounded => is_text(mailbox_word(table), b"bounded"),
        Only::Priority => is_text(mailbox_word(table), b"priority"),
        Only::Message => {
            is_text(what_word(table), b"user") || is_text(what_word(table), b"control")
        }
    }
}

/// Whether there is an integer and it is from `low` to `high`.
fn is_from_to(low: u32, high: u32, found: Option<i64>) -> bool
    ensures { result ≡ is_from_to low high found }
{
    match found {
        Some(number) => i64::from(low) <= number && number <= i64::from(high),
        None => false,
    }
}

/// Whether the word is one of the set.
fn is_word(set: Words, text: &[u8]) -> bool
    ensures { result ≡ is_among (words set) text.now }
{
    match set {
        Words::Pool => is_text(b"shared", text) || is_text(b"stealing", text),
        Words::Mailbox => {
            is_text(b"unbounded", text)
                || is_text(b"bounded", text)
                || is_text(b"priority", text)
                || is_text(b"control", text)
        }
        Words::What => {
            is_text(b"user", text)
                || is_text(b"poison", text)
                || is_text(b"kill", text)
                || is_text(b"stop", text)
                || is_text(b"control", text)
        }
        Words::Directive => {
            is_text(b"resume", text)
                || is_text(b"restart", text)
                || is_text(b"stop", text)
                || is_text(b"escalate", text)
        }
    }
}

/// Whether the text is a cause of failure.
fn is_cause(text: &[u8]) -> bool
    ensures { result ≡ is_cause text.now }
{
    is_text(b"any", text)
        || is_text(b"error", text)
        || is_text(b"init", text)
        || is_text(b"killed", text)
        || is_text(b"deathpact", text)
        || is_error_of(text, space_in(text))
}

/// Whether the text is `error` with a number; `space` is where its first space is.
fn is_error_of(text: &[u8], space: Option<usize>) -> bool
    requires { IfSome space (λ i. i < length text.now) }
    ensures { result ≡ is_error_of text.now space }
{
    match space {
        Some(at) => is_text(&text[..at], b"error") && number_of(&text[at + 1..]).is_some(),
        None => false,
    }
}

/// Whether the value is one of those that are allowed.
fn is_in_range(form: Form, table: &Table, value: &Value) -> bool
    ensures { result ≡ is_in_range form (table_view table.now) (view value.now) }
{
    match form {
        Form::Whole { low, high } => is_from_to(low, high, value.as_integer()),
        Form::Word(set) => is_word(set, text_of(value)),
        Form::Cause => is_cause(text_of(value)),
        Form::Name => is_name(text_of(value)),
        Form::Parent => is_name(text_of(value)) || is_guardian(text_of(value)),
        Form::Receiver => is_receiver(table, text_of(value)),
        Form::AnyInteger
        | Form::Truth
        | Form::Tables { .. }
        | Form::Rows(_)
        | Form::Operations { .. } => true,
    }
}

/// Whether a send may name this receiver.
fn is_receiver(table: &Table, text: &[u8]) -> bool
    ensures { result ≡ (is_name text.now || (is_guardian text.now && bytes_eq (what_word (table_view table.now)) (codes "stop"))) }
{
    is_name(text) || (is_guardian(text) && is_text(what_word(table), b"stop"))
}

/// Whether there are no more items than are allowed.
fn is_few(form: Form, value: &Value) -> bool
    ensures { result ≡ is_few form (view value.now) }
{
    match form {
        Form::Tables { most } => items_of(value).len() <= most,
        _ => true,
    }
}

/// The items of a value; none where it is not an array.
pub fn items_of(value: &Value) -> &[Value]
    ensures { items_view result.now ≡ items_of (view value.now) }
{
    match value.as_array() {
        Some(array) => array.as_slice(),
        None => &[],
    }
}

/// Whether an actor that may be named here has the name.
fn is_known(form: Form, context: &Context<'_>, value: &Value) -> bool
    ensures { result ≡ is_known form (context_data context.now) (view value.now) }
{
    match form {
        Form::Parent => is_guardian(text_of(value)) || context.knows_earlier(text_of(value)),
        Form::Receiver => is_guardian(text_of(value)) || context.knows(text_of(value)),
        _ => true,
    }
}

/// Whether no earlier actor has the name.
fn is_fresh(form: Form, context: &Context<'_>, value: &Value) -> bool
    ensures { result ≡ is_fresh form (context_data context.now) (view value.now) }
{
    match form {
        Form::Name => !context.knows_earlier(text_of(value)),
        _ => true,
    }
}
