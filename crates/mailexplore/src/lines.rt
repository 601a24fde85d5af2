//! The lines that are printed of a report, and those of it that are searched for.
use mb_explore::Outcome;
use mb_msg::ActorId;
use mb_world::Choice;
use std::alloc::{AllocError, Global};

/// How many orders lead to a report, one of them, the report, and an empty line.
pub(crate) fn add_outcome(
    alloc: Global,
    text: &mut String,
    outcome: &Outcome,
    names: &[String],
) -> Result<(), AllocError> {
    text.push_str(&format!(in alloc; "orders {}:", outcome.orders)?)?;
    add_steps(alloc, text, &outcome.schedule, names)?;
    text.push_str("\n")?;
    text.push_str(&outcome.text)?;
    text.push_str("\n")
}

/// Steps, in words, each behind a space.
pub(crate) fn add_steps(
    alloc: Global,
    text: &mut String,
    steps: &[Choice],
    names: &[String],
) -> Result<(), AllocError> {
    for choice in steps {
        match *choice {
            Choice::Send(sender) => text.push_str(&format!(in alloc; " send {sender}")?)?,
            Choice::Run(actor) => {
                text.push_str(" run ")?;
                text.push_str(name_of(actor, names))?;
            }
        }
    }
    Ok(())
}

/// The name of an actor.
fn name_of(actor: ActorId, names: &[String]) -> &str {
    if actor.0 == 0 {
        return "guardian";
    }
    match names.get(actor.0 as usize - 1) {
        Some(name) => name.as_str(),
        None => "?",
    }
}

/// Whether a line of the text begins with the first of these words, and has the others next to one another, in this order: `a state 7` is in the
/// line `a live state 7 suspended 0 ..`.
pub(crate) fn has_line(text: &str, words: &str) -> bool {
    for line in text.lines() {
        if has_words(line, words) {
            return true;
        }
    }
    false
}

fn has_words(line: &str, words: &str) -> bool {
    let mut wanted = words.split_whitespace();
    let mut there = line.split_whitespace();
    let Some(first) = wanted.next() else {
        return false;
    };
    if there.next() != Some(first) {
        return false;
    }
    let rest = after_word(words);
    let mut left = after_word(line);
    for _word in 0..line.len() {
        if begins_with_words(left, rest) {
            return true;
        }
        left = after_word(left);
    }
    false
}

/// What stands behind the first word.
fn after_word(text: &str) -> &str {
    match text.trim().split_once(' ') {
        Some((_, rest)) => rest.trim(),
        None => "",
    }
}

/// Whether these words come first, as whole words.
fn begins_with_words(text: &str, words: &str) -> bool {
    let mut there = text.split_whitespace();
    for word in words.split_whitespace() {
        if there.next() != Some(word) {
            return false;
        }
    }
    true
}
