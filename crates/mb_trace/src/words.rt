//! Messages, causes and effects in the words of a scenario.
ghost use Rattle.std.specs.Prelude.{◌≡◌, ◌++◌, Some, codes, map, string_bytes};
ghost use Rattle.std.specs.Fmt.{WritesOnOk};
ghost use Rattle.mb_trace.specs.Words as spec;

use mb_actor::Effect;
use mb_msg::limits::ACTORS;
use mb_msg::{ActorId, Body, Cause, Envelope, SenderId, SysMsg};
use std::fmt;

/// The name of an actor, the others beside the guardian having these; nothing for a number that no actor has.
pub fn name_of(names: &[String], id: ActorId) -> &str
    ensures { result.now ≡ spec.name_of (map string_bytes names.now) id.0 }
{
    if id.0 == 0 {
        return "guardian";
    }
    match names.get(id.0 as usize - 1) {
        Some(name) => name.as_str(),
        None => "",
    }
}

/// An envelope's body as it is printed: `kind 1 value 5`, `control kind 1 value 5`, `poison`, `kill`, `terminated NAME`.
#[derive(Clone, Copy)]
pub struct BodyWords<'a> {
    /// The names of the actors beside the guardian.
    pub names: &'a [String],
    /// The body.
    pub body: Body,
}

impl fmt::Display for BodyWords<'_> {
    ghost output = { λ w. Some (spec.body_text (map string_bytes w.names.now) w.body) };

    fn fmt<W: fmt::Write>(&self, f: &mut fmt::Formatter<W>) -> fmt::Result {
        match self.body {
            Body::User { kind, value } => write_kind(f, "", kind, value),
            Body::Control { kind, value } => write_kind(f, "control ", kind, value),
            Body::PoisonPill => f.write_str("poison"),
            Body::Kill => f.write_str("kill"),
            Body::Terminated(id) => write_of(f, "terminated ", self.names, id),
        }
    }
}

/// Words, and a kind and a value.
fn write_kind<W: fmt::Write>(
    f: &mut fmt::Formatter<W>,
    words: &str,
    kind: u32,
    value: i64,
) -> fmt::Result
    ensures { WritesOnOk W.write_str_gives f.old result (words.now ++ spec.kind_text kind value) f.new }
{
    write!(f, "{words}kind {kind} value {value}")
}

/// Words, and the name of an actor.
pub(crate) fn write_of<W: fmt::Write>(
    f: &mut fmt::Formatter<W>,
    words: &str,
    names: &[String],
    id: ActorId,
) -> fmt::Result
    ensures { WritesOnOk W.write_str_gives f.old result (words.now ++ spec.name_of (map string_bytes names.now) id.0) f.new }
{
    write!(f, "{words}{}", name_of(names, id))
}

/// An envelope as it is printed: who sent it, its number, and its body, as `a #3 kind 1 value 5`. A sender outside the actors is
/// `outside` with its number.
#[derive(Clone, Copy)]
pub struct EnvelopeWords<'a> {
    /// The names of the actors beside the guardian.
    pub names: &'a [String],
    /// The envelope.
    pub envelope: Envelope,
}

impl fmt::Display for EnvelopeWords<'_> {
    ghost output = { λ w. Some (spec.envelope_text (map string_bytes w.names.now) w.envelope) };

    fn fmt<W: fmt::Write>(&self, f: &mut fmt::Formatter<W>) -> fmt::Result {
        write_sender(f, self.names, self.envelope.by)?;
        let body = BodyWords {
            names: self.names,
            body: self.envelope.body,
        };
        write!(f, " #{} {body}", self.envelope.number)
    }
}

/// The name of a sender.
#[tactic(auto, unfolding(crate::specs::Words::sender_text))]
pub(crate) fn write_sender<W: fmt::Write>(
    f: &mut fmt::Formatter<W>,
    names: &[String],
    by: SenderId,
) -> fmt::Result
    ensures { WritesOnOk W.write_str_gives f.old result (spec.sender_text (map string_bytes names.now) by.0) f.new }
{
    if by.0 < ACTORS {
        return f.write_str(name_of(names, ActorId(by.0 as u16)));
    }
    write!(f, "outside {}", by.0 - ACTORS)
}

/// Why an actor failed, as it is printed.
#[derive(Clone, Copy)]
struct CauseWords {
    cause: Cause,
}

impl fmt::Display for CauseWords {
    ghost output = { λ w. Some (spec.cause_text w.cause) };

    fn fmt<W: fmt::Write>(&self, f: &mut fmt::Formatter<W>) -> fmt::Result {
        match self.cause {
            Cause::Error(number) => write!(f, "error {number}"),
            Cause::Init => f.write_str("init"),
            Cause::Killed => f.write_str("killed"),
            Cause::DeathPact => f.write_str("deathpact"),
        }
    }
}

/// A system message as it is printed: `create`, `restart after error 1`, `suspend`, `resume`, `resume after its failure`, `terminate`,
/// `watch by NAME`, `unwatch by NAME`, `failed NAME after error 1`, `died NAME`.
#[derive(Clone, Copy)]
pub struct SystemWords<'a> {
    /// The names of the actors beside the guardian.
    pub names: &'a [String],
    /// The message.
    pub message: SysMsg,
}

impl fmt::Display for SystemWords<'_> {
    ghost output = { λ w. Some (spec.system_text (map string_bytes w.names.now) w.message) };

    fn fmt<W: fmt::Write>(&self, f: &mut fmt::Formatter<W>) -> fmt::Result {
        match self.message {
            SysMsg::Create => f.write_str("create"),
            SysMsg::Recreate(cause) => write!(f, "restart after {}", CauseWords { cause }),
            SysMsg::Suspend => f.write_str("suspend"),
            SysMsg::Resume { of_failure } => f.write_str(resume_words(of_failure)),
            SysMsg::Terminate => f.write_str("terminate"),
            SysMsg::Watch(id) => write_of(f, "watch by ", self.names, id),
            SysMsg::Unwatch(id) => write_of(f, "unwatch by ", self.names, id),
            SysMsg::Failed(id, cause) => write_failed(f, self.names, id, cause),
            SysMsg::Died(id) => write_of(f, "died ", self.names, id),
        }
    }
}

/// Which actor failed, and why.
fn write_failed<W: fmt::Write>(
    f: &mut fmt::Formatter<W>,
    names: &[String],
    id: ActorId,
    cause: Cause,
) -> fmt::Result
    ensures { WritesOnOk W.write_str_gives f.old result
        (codes "failed " ++ spec.name_of (map string_bytes names.now) id.0 ++ codes " after " ++ spec.cause_text cause) f.new }
{
    let name = name_of(names, id);
    write!(f, "failed {name} after {}", CauseWords { cause })
}

/// The words for a Resume.
fn resume_words(of_failure: bool) -> &'static str
    ensures { result.now ≡ spec.resume_text of_failure }
{
    if of_failure {
        "resume after its failure"
    } else {
        "resume"
    }
}

/// An effect as it is printed: `tell NAME kind 1 value 5`, `control NAME kind 1 value 5`, `watch NAME`, `unwatch NAME`, `stop NAME`,
/// `spawn NAME`.
#[derive(Clone, Copy)]
pub struct EffectWords<'a> {
    /// The names of the actors beside the guardian.
    pub names: &'a [String],
    /// The effect.
    pub effect: Effect,
}

impl fmt::Display for EffectWords<'_> {
    ghost output = { λ w. Some (spec.effect_text (map string_bytes w.names.now) w.effect) };

    fn fmt<W: fmt::Write>(&self, f: &mut fmt::Formatter<W>) -> fmt::Result {
        match self.effect {
            Effect::Tell { to, kind, value } => {
                write_told(f, "tell ", name_of(self.names, to), kind, value)
            }
            Effect::Control { to, kind, value } => {
                write_told(f, "control ", name_of(self.names, to), kind, value)
            }
            Effect::Watch(id) => write_of(f, "watch ", self.names, id),
            Effect::Unwatch(id) => write_of(f, "unwatch ", self.names, id),
            Effect::Stop(id) => write_of(f, "stop ", self.names, id),
            Effect::Spawn(id) => write_of(f, "spawn ", self.names, id),
        }
    }
}

/// Words, a name, and a kind and a value.
fn write_told<W: fmt::Write>(
    f: &mut fmt::Formatter<W>,
    words: &str,
    name: &str,
    kind: u32,
    value: i64,
) -> fmt::Result
    ensures { WritesOnOk W.write_str_gives f.old result (words.now ++ name.now ++ codes " " ++ spec.kind_text kind value) f.new }
{
    write!(f, "{words}{name} kind {kind} value {value}")
}
