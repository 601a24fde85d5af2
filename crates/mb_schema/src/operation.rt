//! Parsing the operations of scripts.

ghost use Rattle.std.specs.Prelude.{◌≡◌, ◌<◌, true, codes, length, option_map, Some, IfSome};
ghost use Rattle.mb_schema.specs.Context.{context_data};
ghost use Rattle.mb_schema.specs.Operation.{op_alone, op_of, op_of_three, op_of_two, op_after, verb_of_both};
ghost use Rattle.mb_schema.specs.Operation.{verb_of_name, about_name, space_in, is_spawn, op_reason, about};
ghost use Rattle.mb_schema.specs.OpView.{op_data};

use crate::context::Context;
use crate::finding::Reason;
use crate::name::{is_name, is_text};
use crate::number::number_of;

/// What an operation does to the actor that it names.
#[derive(Clone, Copy)]
pub enum Verb {
    Tell,
    Control,
    Watch,
    Unwatch,
    Stop,
    Spawn,
}

/// An operation as it is parsed; an actor is still a name.
#[derive(Clone, Copy)]
pub enum Op<'a> {
    Add,
    Ignore,
    Fail(u32),
    /// An operation on the actor of a name. The number is 0 where the verb has none.
    About(Verb, &'a [u8], u32),
}

/// Parses an operation: words with single spaces between them.
pub fn op_of(text: &[u8]) -> Option<Op<'_>>
    ensures { option_map op_data result ≡ op_of text.now }
{
    match space_in(text) {
        None => op_alone(text),
        Some(space) => op_after(&text[..space], &text[space + 1..]),
    }
}

fn op_after<'a>(word: &[u8], rest: &'a [u8]) -> Option<Op<'a>>
    ensures { option_map op_data result ≡ op_after word.now rest.now (space_in rest.now) }
{
    match space_in(rest) {
        None => op_of_two(word, rest),
        Some(space) => op_of_three(word, &rest[..space], &rest[space + 1..]),
    }
}

/// Where the first space is.
pub fn space_in(text: &[u8]) -> Option<usize>
    ensures value { result ≡ space_in text.now }
    ensures within { IfSome result (λ i. i < length text.now) }
{
    text.iter().position(|byte| *byte == b' ')
}

fn op_alone(word: &[u8]) -> Option<Op<'static>>
    ensures { option_map op_data result ≡ op_alone word.now }
{
    if is_text(word, b"add") {
        return Some(Op::Add);
    }
    if is_text(word, b"ignore") {
        return Some(Op::Ignore);
    }
    None
}

fn op_of_two<'a>(word: &[u8], next: &'a [u8]) -> Option<Op<'a>>
    ensures { option_map op_data result ≡ op_of_two word.now next.now }
{
    if is_text(word, b"fail") {
        let number = number_of(next)?;
        return Some(Op::Fail(number));
    }
    let verb = verb_of_name(word)?;
    about_name(verb, next, 0)
}

fn op_of_three<'a>(word: &[u8], name: &'a [u8], last: &[u8]) -> Option<Op<'a>>
    ensures { option_map op_data result ≡ op_of_three word.now name.now last.now }
{
    let verb = verb_of_both(word)?;
    let number = number_of(last)?;
    about_name(verb, name, number)
}

fn verb_of_name(word: &[u8]) -> Option<Verb>
    ensures { result ≡ verb_of_name word.now }
{
    if is_text(word, b"watch") {
        return Some(Verb::Watch);
    }
    if is_text(word, b"unwatch") {
        return Some(Verb::Unwatch);
    }
    if is_text(word, b"stop") {
        return Some(Verb::Stop);
    }
    if is_text(word, b"spawn") {
        return Some(Verb::Spawn);
    }
    None
}

fn verb_of_both(word: &[u8]) -> Option<Verb>
    ensures { result ≡ verb_of_both word.now }
{
    if is_text(word, b"tell") {
        return Some(Verb::Tell);
    }
    if is_text(word, b"control") {
        return Some(Verb::Control);
    }
    None
}

fn about_name(verb: Verb, name: &[u8], number: u32) -> Option<Op<'_>>
    ensures { option_map op_data result ≡ about_name verb name.now number }
{
    if is_name(name) {
        Some(Op::About(verb, name, number))
    } else {
        None
    }
}

/// What is wrong with an operation; `adds` says whether `add` is allowed.
pub(crate) fn op_reason(context: &Context<'_>, adds: bool, op: Option<Op<'_>>) -> Option<Reason>
    ensures { result ≡ op_reason (context_data context.now) adds (option_map op_data op.entry) }
{
    match op {
        None => Some(Reason::BadOp),
        Some(Op::Add) => (!adds).then_some(Reason::BadOp),
        Some(Op::Ignore) => None,
        Some(Op::Fail(_)) => None,
        Some(Op::About(verb, name, _)) => name_reason(context, verb, name),
    }
}

fn name_reason(context: &Context<'_>, verb: Verb, name: &[u8]) -> Option<Reason>
    ensures { result ≡ op_reason (context_data context.now) true (Some (about verb name.now 0)) }
{
    if !context.knows(name) {
        return Some(Reason::UnknownName);
    }
    if is_spawn(verb) && !context.knows_child(name) {
        return Some(Reason::BadOp);
    }
    None
}

fn is_spawn(verb: Verb) -> bool
    ensures { result ≡ is_spawn verb }
{
    matches!(verb, Verb::Spawn)
}
