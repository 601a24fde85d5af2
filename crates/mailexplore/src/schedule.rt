//! An order of steps, read from words.
use crate::failure::Failure;
use mb_msg::ActorId;
use mb_world::Choice;
use std::alloc::Global;

/// The steps that a text names, as this program prints them: `send 0` for a send of the sender outside whose `from` is 0, and `run a` for the run of
/// the mailbox of `a`. It answers `Steps` if a word has no such form, or names an actor that there is not.
pub(crate) fn schedule_of(
    alloc: Global,
    text: &str,
    names: &[String],
) -> Result<Vec<Choice>, Failure> {
    let mut steps = Vec::new(alloc);
    let mut before = "";
    for word in text.split_whitespace() {
        match before {
            "send" => steps.push(Choice::Send(number_of(word)?))?,
            "run" => steps.push(Choice::Run(actor_of(word, names)?))?,
            _ => {}
        }
        before = next_before(before, word)?;
    }
    if before == "" {
        Ok(steps)
    } else {
        Err(Failure::Steps)
    }
}

/// The word that is kept for the next: a step's first word, or none once the step is whole.
fn next_before<'a>(before: &str, word: &'a str) -> Result<&'a str, Failure> {
    if before != "" {
        return Ok("");
    }
    match word {
        "send" | "run" => Ok(word),
        _ => Err(Failure::Steps),
    }
}

fn number_of(word: &str) -> Result<u32, Failure> {
    match word.parse::<u32>() {
        Ok(number) => Ok(number),
        Err(_) => Err(Failure::Steps),
    }
}

/// The actor of this name.
fn actor_of(word: &str, names: &[String]) -> Result<ActorId, Failure> {
    if word == "guardian" {
        return Ok(ActorId(0));
    }
    let mut number = 0_u16;
    for name in names {
        number = number.saturating_add(1);
        if name.as_str() == word {
            return Ok(ActorId(number));
        }
    }
    Err(Failure::Steps)
}
