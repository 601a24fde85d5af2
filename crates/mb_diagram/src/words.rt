//! What came to an actor and what it asked for, in the words of a scenario.
use crate::escape::write_escaped;
use crate::picture::PictureEntry;
use crate::widths::name_width;
use mb_actor::{Answer, Effect, Phase};
use mb_journal::Received;
use mb_msg::limits::ACTORS;
use mb_msg::{ActorId, Body, Cause, DeadLetterReason, SysMsg};
use mb_trace::ActorSnapshot;
use std::fmt;

/// The name of a sender: of an actor, or of one outside.
#[derive(Clone, Copy)]
pub(crate) struct Name<'a> {
    pub(crate) names: &'a [String],
    /// The sender's number, which is an actor's own.
    pub(crate) id: u32,
}

impl fmt::Display for Name<'_> {
    fn fmt<W: fmt::Write>(&self, f: &mut fmt::Formatter<W>) -> fmt::Result {
        if self.id >= ACTORS {
            return write_numbered(f, "outside", self.id - ACTORS);
        }
        if self.id == 0 {
            return f.write_str("guardian");
        }
        match self.names.get(self.id as usize - 1) {
            Some(name) => write_escaped(f, name.as_str()),
            None => write_numbered(f, "actor", self.id),
        }
    }
}

/// The name of an entry's line in a page.
#[derive(Clone, Copy)]
pub(crate) struct EntryLine {
    actor: u16,
    index: usize,
}

impl EntryLine {
    pub(crate) fn of(entry: &PictureEntry<'_>) -> Self {
        EntryLine {
            actor: entry.actor.0,
            index: entry.index,
        }
    }
}

impl fmt::Display for EntryLine {
    fn fmt<W: fmt::Write>(&self, f: &mut fmt::Formatter<W>) -> fmt::Result {
        write!(f, "e{}-{}", self.actor, self.index)
    }
}

fn write_numbered<W: fmt::Write>(
    f: &mut fmt::Formatter<W>,
    word: &str,
    number: u32,
) -> fmt::Result {
    write!(f, "{word} {number}")
}

/// How much room the name needs at most.
pub(crate) fn width_of(names: &[String], id: u32) -> u64 {
    if id == 0 || id >= ACTORS {
        return 100;
    }
    match names.get(id as usize - 1) {
        Some(name) => name_width(name.as_str()),
        None => 100,
    }
}

/// What came to an actor.
#[derive(Clone, Copy)]
pub(crate) struct Message<'a> {
    pub(crate) names: &'a [String],
    pub(crate) came: Received,
}

impl fmt::Display for Message<'_> {
    fn fmt<W: fmt::Write>(&self, f: &mut fmt::Formatter<W>) -> fmt::Result {
        match self.came {
            Received::Handled { envelope, .. } | Received::Dropped { envelope } => {
                write_body(f, self.names, envelope.body)
            }
            Received::System { message, .. } | Received::SetAside { message, .. } => {
                write_system(f, self.names, message)
            }
        }
    }
}

/// What an envelope carries.
fn write_body<W: fmt::Write>(
    f: &mut fmt::Formatter<W>,
    names: &[String],
    body: Body,
) -> fmt::Result {
    match body {
        Body::User { kind, value } => write_kind(f, "", kind, value),
        Body::Control { kind, value } => write_kind(f, "control ", kind, value),
        Body::PoisonPill => f.write_str("poison"),
        Body::Kill => f.write_str("kill"),
        Body::Terminated(id) => write_of(f, "terminated", names, id),
    }
}

/// A kind and a value, behind a word.
fn write_kind<W: fmt::Write>(
    f: &mut fmt::Formatter<W>,
    word: &str,
    kind: u32,
    value: i64,
) -> fmt::Result {
    write!(f, "{word}kind {kind} value {value}")
}

/// A kind, and the first and the last value of messages of that kind.
#[derive(Clone, Copy)]
pub(crate) struct Values {
    word: &'static str,
    kind: u32,
    first: i64,
    last: i64,
    /// Whether there are others between them.
    has_more: bool,
}

impl Values {
    /// Those of so many messages, of which these are the first and the last; `None` where they have none.
    pub(crate) fn of(first: Body, last: Body, times: u64) -> Option<Values> {
        let (word, kind, first) = valued(first)?;
        let (_, _, last) = valued(last)?;
        Some(Values {
            word,
            kind,
            first,
            last,
            has_more: times > 2,
        })
    }
}

/// The word, the kind and the value of a message that has one.
fn valued(body: Body) -> Option<(&'static str, u32, i64)> {
    match body {
        Body::User { kind, value } => Some(("", kind, value)),
        Body::Control { kind, value } => Some(("control ", kind, value)),
        Body::PoisonPill | Body::Kill | Body::Terminated(_) => None,
    }
}

impl fmt::Display for Values {
    fn fmt<W: fmt::Write>(&self, f: &mut fmt::Formatter<W>) -> fmt::Result {
        let between = if self.has_more { ", …, " } else { ", " };
        let Values {
            word,
            kind,
            first,
            last,
            ..
        } = *self;
        write!(f, "{word}kind {kind} values {first}{between}{last}")
    }
}

fn write_system<W: fmt::Write>(
    f: &mut fmt::Formatter<W>,
    names: &[String],
    message: SysMsg,
) -> fmt::Result {
    match message {
        SysMsg::Recreate(cause) => write!(f, "restart after {}", CauseWords(cause)),
        SysMsg::Watch(id) => write_of(f, "watch by", names, id),
        SysMsg::Unwatch(id) => write_of(f, "unwatch by", names, id),
        SysMsg::Failed(id, cause) => write_failure(f, names, id, cause),
        SysMsg::Died(id) => write_of(f, "died", names, id),
        _ => f.write_str(system_word(message)),
    }
}

/// The words for a system message that tells of no actor and no cause.
fn system_word(message: SysMsg) -> &'static str {
    match message {
        SysMsg::Create => "create",
        SysMsg::Suspend => "suspend",
        SysMsg::Resume { of_failure: true } => "resume after its failure",
        SysMsg::Resume { of_failure: false } => "resume",
        SysMsg::Terminate => "terminate",
        _ => "",
    }
}

fn write_failure<W: fmt::Write>(
    f: &mut fmt::Formatter<W>,
    names: &[String],
    id: ActorId,
    cause: Cause,
) -> fmt::Result {
    write_of(f, "failed", names, id)?;
    write!(f, " after {}", CauseWords(cause))
}

/// A word and the name of an actor.
fn write_of<W: fmt::Write>(
    f: &mut fmt::Formatter<W>,
    word: &str,
    names: &[String],
    id: ActorId,
) -> fmt::Result {
    let name = Name {
        names,
        id: u32::from(id.0),
    };
    write!(f, "{word} {name}")
}

/// The cause of a failure.
#[derive(Clone, Copy)]
struct CauseWords(Cause);

impl fmt::Display for CauseWords {
    fn fmt<W: fmt::Write>(&self, f: &mut fmt::Formatter<W>) -> fmt::Result {
        if let Cause::Error(number) = self.0 {
            return write!(f, "error {number}");
        }
        f.write_str(cause_word(self.0))
    }
}

/// The word for a cause that is no error of the actor's own.
fn cause_word(cause: Cause) -> &'static str {
    match cause {
        Cause::Error(_) => "error",
        Cause::Init => "init",
        Cause::Killed => "killed",
        Cause::DeathPact => "deathpact",
    }
}

/// What came of a message where that has to be told: nothing where it was handled, or applied with no call.
#[derive(Clone, Copy, PartialEq, Eq)]
pub(crate) enum Outcome {
    Plain,
    Unhandled,
    Failed(u32),
    Killed,
    DeathPact,
    SetAside,
    Dropped,
}

impl Outcome {
    pub(crate) fn of(came: Received) -> Self {
        match came {
            Received::Handled {
                answer,
                envelope,
                ..
            } => Outcome::of_envelope(answer, envelope.body),
            Received::System { answer, .. } => Outcome::of_answer(answer),
            Received::SetAside { .. } => Outcome::SetAside,
            Received::Dropped { .. } => Outcome::Dropped,
        }
    }

    /// A kill makes its receiver fail, and so does the end of a watched actor that it does not handle.
    fn of_envelope(answer: Option<Answer>, body: Body) -> Self {
        match (body, answer) {
            (Body::Kill, _) => Outcome::Killed,
            (Body::Terminated(_), Some(Answer::Unhandled)) => Outcome::DeathPact,
            _ => Outcome::of_answer(answer),
        }
    }

    /// Whether the actor failed.
    pub(crate) fn is_failure(self) -> bool {
        match self {
            Outcome::Failed(_) | Outcome::Killed | Outcome::DeathPact => true,
            _ => false,
        }
    }

    fn of_answer(answer: Option<Answer>) -> Self {
        match answer {
            None | Some(Answer::Handled) => Outcome::Plain,
            Some(Answer::Unhandled) => Outcome::Unhandled,
            Some(Answer::Failed(number)) => Outcome::Failed(number),
        }
    }
}

impl fmt::Display for Outcome {
    fn fmt<W: fmt::Write>(&self, f: &mut fmt::Formatter<W>) -> fmt::Result {
        if let Outcome::Failed(number) = *self {
            return write!(f, "failed {number}");
        }
        f.write_str(outcome_word(*self))
    }
}

fn outcome_word(outcome: Outcome) -> &'static str {
    match outcome {
        Outcome::Plain => "handled",
        Outcome::Unhandled => "unhandled",
        Outcome::Failed(_) => "failed",
        Outcome::Killed => "killed",
        Outcome::DeathPact => "death pact",
        Outcome::SetAside => "set aside",
        Outcome::Dropped => "dropped",
    }
}

/// What an entry, or some, changed of how their actor stands: the phase and the suspensions where they are others, and the state.
#[derive(Clone, Copy)]
pub(crate) struct Change {
    pub(crate) before: ActorSnapshot,
    pub(crate) after: ActorSnapshot,
    /// What stands in front of it, if there is anything.
    pub(crate) lead: &'static str,
}

impl Change {
    /// Whether there is nothing to say.
    pub(crate) fn is_empty(self) -> bool {
        self.before.phase == self.after.phase
            && self.before.suspended == self.after.suspended
            && self.after.state.is_none()
    }
}

impl fmt::Display for Change {
    fn fmt<W: fmt::Write>(&self, f: &mut fmt::Formatter<W>) -> fmt::Result {
        let Change {
            before,
            after,
            lead,
        } = *self;
        let mut lead = lead;
        if before.phase != after.phase {
            write!(f, "{lead}{}", phase_word(after.phase))?;
            lead = ", ";
        }
        if before.suspended != after.suspended {
            write!(f, "{lead}suspended {}", after.suspended)?;
            lead = ", ";
        }
        match after.state {
            Some(state) => write!(f, "{lead}state {state}"),
            None => Ok(()),
        }
    }
}

/// Something that an actor asked for.
#[derive(Clone, Copy)]
pub(crate) struct EffectWords<'a> {
    pub(crate) names: &'a [String],
    pub(crate) effect: Effect,
}

impl fmt::Display for EffectWords<'_> {
    fn fmt<W: fmt::Write>(&self, f: &mut fmt::Formatter<W>) -> fmt::Result {
        let names = self.names;
        match self.effect {
            Effect::Tell { to, kind, value } => {
                write_of(f, "tell", names, to)?;
                write_kind(f, " ", kind, value)
            }
            Effect::Control { to, kind, value } => {
                write_of(f, "control", names, to)?;
                write_kind(f, " ", kind, value)
            }
            Effect::Watch(id) => write_of(f, "watch", names, id),
            Effect::Unwatch(id) => write_of(f, "unwatch", names, id),
            Effect::Stop(id) => write_of(f, "stop", names, id),
            Effect::Spawn(id) => write_of(f, "spawn", names, id),
        }
    }
}

/// How often something was repeated, with commas between thousands; nothing where it was not.
#[derive(Clone, Copy)]
pub(crate) struct Times(pub(crate) u64);

impl fmt::Display for Times {
    fn fmt<W: fmt::Write>(&self, f: &mut fmt::Formatter<W>) -> fmt::Result {
        if self.0 <= 1 {
            return Ok(());
        }
        f.write_str(" × ")?;
        write_number(f, self.0)
    }
}

fn write_number<W: fmt::Write>(f: &mut fmt::Formatter<W>, number: u64) -> fmt::Result {
    if number < 1_000 {
        return write!(f, "{number}");
    }
    if number < 1_000_000 {
        return write!(f, "{},{:03}", number / 1_000, number % 1_000);
    }
    let thousands = number / 1_000 % 1_000;
    write!(
        f,
        "{},{thousands:03},{:03}",
        number / 1_000_000,
        number % 1_000
    )
}

/// Why an envelope is dead.
pub(crate) fn why_word(why: DeadLetterReason) -> &'static str {
    match why {
        DeadLetterReason::Closed => "closed",
        DeadLetterReason::Full => "full",
        DeadLetterReason::NoMemory => "no memory",
        DeadLetterReason::Cleaned => "cleaned",
    }
}

/// The phase of a life.
pub(crate) fn phase_word(phase: Phase) -> &'static str {
    match phase {
        Phase::Fresh => "fresh",
        Phase::Live => "live",
        Phase::Broken => "broken",
        Phase::Ending => "ending",
        Phase::Ended => "ended",
    }
}
