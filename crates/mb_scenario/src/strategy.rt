//! Reading the strategies of supervision.

ghost use Rattle.std.specs.Prelude.{◌≡◌, ◌<◌, IfOk, IfSome, length};
ghost use Rattle.toml.specs.View.{view, items_view};
ghost use Rattle.mb_scenario.specs.Fields.{map_items};
ghost use Rattle.mb_scenario.specs.Plans.{directive_of, error_number, pattern_of, strategy_of, strategy_row_of};
ghost use Rattle.mb_scenario.specs.View.{strategy_data};

use crate::fields::{field, integer_or, truth_or};
use crate::scripts::items_found;
use mb_msg::{Directive, Pattern, Strategy};
use mb_schema::{is_text, number_of, space_in, text_or};
use std::alloc::{AllocError, Global};
use toml::Value;

pub(crate) fn strategy_of(alloc: Global, value: &Value) -> Result<Strategy, AllocError>
    ensures { IfOk result (λ strategy. strategy_data strategy ≡ strategy_of (view value.now)) }
{
    let rows = strategy_rows(alloc, items_found(field(value, "strategy")))?;
    Ok(Strategy {
        rows,
        retries: integer_or(-1, field(value, "retries")),
        all_for_one: truth_or(false, field(value, "all_for_one")),
    })
}

fn strategy_rows(alloc: Global, values: &[Value]) -> Result<Vec<(Pattern, Directive)>, AllocError>
    ensures { IfOk result (λ rows. rows.items ≡ map_items strategy_row_of (items_view values.now)) }
{
    let mut rows = Vec::new(alloc);
    for value in values {
        rows.push(strategy_row_of(value))?;
    }
    Ok(rows)
}

fn strategy_row_of(value: &Value) -> (Pattern, Directive)
    ensures { result ≡ strategy_row_of (view value.now) }
{
    let pattern = pattern_of(text_or(b"", field(value, "cause")));
    let directive = directive_of(text_or(b"", field(value, "then")));
    (pattern, directive)
}

fn pattern_of(text: &[u8]) -> Pattern
    ensures { result ≡ pattern_of text.now }
{
    if is_text(text, b"any") {
        return Pattern::Any;
    }
    if is_text(text, b"error") {
        return Pattern::AnyError;
    }
    if is_text(text, b"init") {
        return Pattern::Init;
    }
    if is_text(text, b"killed") {
        return Pattern::Killed;
    }
    if is_text(text, b"deathpact") {
        return Pattern::DeathPact;
    }
    Pattern::Error(error_number(text, space_in(text)))
}

fn error_number(text: &[u8], space: Option<usize>) -> u32
    requires { IfSome space (λ i. i < length text.now) }
    ensures { result ≡ error_number text.now space }
{
    match space {
        Some(at) => number_of(&text[at + 1..]).unwrap_or(0),
        None => 0,
    }
}

fn directive_of(text: &[u8]) -> Directive
    ensures { result ≡ directive_of text.now }
{
    if is_text(text, b"resume") {
        return Directive::Resume;
    }
    if is_text(text, b"stop") {
        return Directive::Stop;
    }
    if is_text(text, b"escalate") {
        return Directive::Escalate;
    }
    Directive::Restart
}
