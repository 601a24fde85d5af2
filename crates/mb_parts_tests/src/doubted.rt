//! The checks of reports, tried on reports by hand: on two that are right, and on others with one thing wrong.
ghost use Rattle.std.specs.Prelude.{◌≡◌, OnOk, IfOk, IsTrue, length};

use crate::doubted::Twist::{
    Cleaned, Dead, Elsewhere, Left, Nothing, Overlooked, SentMore, StartedLate, Stopped, Suspended,
};
use crate::seen::see;
use mb_actor::Answer;
use mb_actor::Phase::{self, Broken, Ended, Live};
use mb_dead_letters::{DeadLetters, KeptList};
use mb_journal::Journal;
use mb_msg::DeadLetterReason::{self, Closed, Full};
use mb_msg::{ActorId, Body, DeadLetter, Envelope, JournalMode, SenderId, SysMsg};
use mb_report::{ActorReport, Report, SenderReport};
use mb_testkit::{ADD, COUNTER, Order, PLAIN, TestCase, is_right, plan_of, sends_of, stop, tell};
use std::alloc::{AllocError, Global};
use std::process::Abort;

/// An envelope to the only actor: its sender, its number and its value.
type Letter = (u32, u64, i64);

/// The first sender outside was to send this, and then 2.
const ONE: Letter = (64, 0, 1);

const TWO: Letter = (64, 1, 2);

/// The other was to send this, and then 8.
const FOUR: Letter = (65, 0, 4);

const EIGHT: Letter = (65, 1, 8);

const TWO_SENDERS: TestCase<'static> = TestCase {
    senders: 2,
    parts: &[COUNTER],
    ..PLAIN
};

const FIRST: &[Order] = &[tell!(1, ADD, 1), tell!(1, ADD, 2)];

const OTHER: &[Order] = &[tell!(1, ADD, 4), tell!(1, ADD, 8)];

const OTHER_AND_STOP: &[Order] = &[tell!(1, ADD, 4), tell!(1, ADD, 8), stop!(1)];

const ALL: &[Letter] = &[ONE, FOUR, TWO, EIGHT];

const WITHOUT_TWO: &[Letter] = &[ONE, FOUR, EIGHT];

/// What is special about a report.
#[derive(Clone, Copy)]
enum Twist {
    Nothing,
    /// The envelope with 2 is left.
    Left,
    /// The envelope with 2 was cleaned up.
    Cleaned,
    /// The envelope with 2 is dead.
    Dead(DeadLetterReason),
    /// The guardian handled the envelope with 2.
    Elsewhere,
    /// The status word that was read before each envelope tells of one suspension.
    Suspended,
    /// The first sender sent one more.
    SentMore,
    /// A system message came before the first, but is not there.
    StartedLate,
    /// The other sender was to stop the actor, and it was stopped.
    Stopped,
    /// The other sender was to stop the actor, and the actor got no Terminate.
    Overlooked,
}

/// A report of an actor to which the two sent: a name, the envelopes that it handled, its state, its phase, and what is
/// special.
type Claim = (&'static str, &'static [Letter], i64, Phase, Twist);

const RIGHT: &[Claim] = &[
    ("all is handled", ALL, 15, Live, Nothing),
    ("all is handled before the end", ALL, 15, Ended, Stopped),
];

const WRONG: &[Claim] = &[
    ("one is lost", WITHOUT_TWO, 13, Live, Nothing),
    (
        "one is handled twice",
        &[ONE, FOUR, ONE, EIGHT],
        14,
        Live,
        Nothing,
    ),
    ("one is handled and dead", ALL, 15, Live, Dead(Full)),
    (
        "one was not sent",
        &[ONE, FOUR, TWO, EIGHT, (64, 2, 2)],
        17,
        Live,
        Nothing,
    ),
    ("one is at another actor", WITHOUT_TWO, 13, Live, Elsewhere),
    (
        "one has another value",
        &[ONE, FOUR, (64, 1, 3), EIGHT],
        16,
        Live,
        Nothing,
    ),
    (
        "two are exchanged",
        &[TWO, FOUR, ONE, EIGHT],
        15,
        Live,
        Nothing,
    ),
    (
        "two senders sent one another's",
        &[(65, 0, 1), (64, 0, 4), (65, 1, 2), (64, 1, 8)],
        15,
        Live,
        Nothing,
    ),
    ("a wrong number of envelopes", ALL, 15, Live, SentMore),
    ("a wrong state", ALL, 16, Live, Nothing),
    ("a wrong phase", ALL, 15, Broken, Nothing),
    ("an end that never came", ALL, 15, Ended, Nothing),
    ("a stop that never came", ALL, 15, Live, Overlooked),
    ("left, but not suspended", WITHOUT_TWO, 13, Live, Left),
    ("cleaned up before an end", WITHOUT_TWO, 13, Live, Cleaned),
    ("closed before an end", WITHOUT_TWO, 13, Live, Dead(Closed)),
    ("full without a bound", WITHOUT_TWO, 13, Live, Dead(Full)),
    ("begun while suspended", ALL, 15, Live, Suspended),
    ("a system message is lost", ALL, 15, Live, StartedLate),
];

/// Whether the checks find the report right.
fn is_found_right(alloc: Global, claim: &Claim) -> Result<bool, AllocError> {
    let report = report_of(alloc, claim)?;
    let (_, _, _, _, twist) = *claim;
    is_report_right(alloc, &report, twist)
}

fn is_report_right(alloc: Global, report: &Report, twist: Twist) -> Result<bool, AllocError> {
    let plan = plan_of(alloc, &TWO_SENDERS)?;
    let sends = sends(alloc, twist)?;
    is_right(alloc, report, &plan, &sends)
}

/// What the two were to send.
fn sends(alloc: Global, twist: Twist) -> Result<Vec<Vec<Order>>, AllocError> {
    let other = match twist {
        Stopped | Overlooked => OTHER_AND_STOP,
        _ => OTHER,
    };
    let mut sends = Vec::new(alloc);
    sends.push(sends_of(alloc, FIRST)?)?;
    sends.push(sends_of(alloc, other)?)?;
    Ok(sends)
}

fn report_of(alloc: Global, claim: &Claim) -> Result<Report, AllocError> {
    Ok(Report {
        actors: actors(alloc, claim)?,
        senders: senders(alloc, claim)?,
    })
}

fn actors(alloc: Global, claim: &Claim) -> Result<Vec<ActorReport>, AllocError>
    ensures { IfOk result (λ actors. length actors.items ≡ 2) }
{
    let (_, _, _, _, twist) = *claim;
    let guardian = guardian(alloc, twist)?;
    let actor = receiver(alloc, claim)?;
    Ok(vec![in alloc; guardian, actor]?)
}

fn senders(alloc: Global, claim: &Claim) -> Result<Vec<SenderReport>, AllocError>
    ensures { IfOk result (λ senders. length senders.items ≡ 4) }
{
    let (_, _, _, _, twist) = *claim;
    let first = first_sender(alloc, twist)?;
    Ok(vec![in alloc; sender(alloc, 0), sender(alloc, 0), first, sender(alloc, 2)]?)
}

fn guardian(alloc: Global, twist: Twist) -> Result<ActorReport, AllocError> {
    let mut guardian = started(alloc, 0, None)?;
    if matches!(twist, Elsewhere) {
        handle(&mut guardian.journal, TWO, 0)?;
    }
    Ok(guardian)
}

fn receiver(alloc: Global, claim: &Claim) -> Result<ActorReport, AllocError> {
    let (_, _, state, phase, twist) = *claim;
    let first = u64::from(matches!(twist, StartedLate));
    let mut actor = started(alloc, first, Some(Answer::Handled))?;
    actor.phase = phase;
    actor.state = Some(state);
    handle_all(&mut actor, claim)?;
    Ok(actor)
}

fn handle_all(actor: &mut ActorReport, claim: &Claim) -> Result<(), AllocError> {
    let (_, handled, _, _, twist) = *claim;
    let reading = if matches!(twist, Suspended) { 4 } else { 0 };
    for letter in handled {
        handle(&mut actor.journal, *letter, reading)?;
    }
    do_otherwise(actor, twist)
}

/// Does what is special.
fn do_otherwise(actor: &mut ActorReport, twist: Twist) -> Result<(), AllocError> {
    match twist {
        Left => actor.left.push(envelope(TWO))?,
        Cleaned => clean_up(actor, envelope(TWO))?,
        Stopped => apply(&mut actor.journal, 1, SysMsg::Terminate, None)?,
        _ => {}
    }
    Ok(())
}

fn first_sender(alloc: Global, twist: Twist) -> Result<SenderReport, AllocError> {
    let mut first = sender(alloc, 2);
    match twist {
        Dead(why) => refuse(&mut first, envelope(TWO), why)?,
        SentMore => first.sent = 3,
        _ => {}
    }
    Ok(first)
}

fn clean_up(actor: &mut ActorReport, envelope: Envelope) -> Result<(), AllocError> {
    actor.cleaned.reserve(1)?;
    actor.cleaned.push(envelope);
    Ok(())
}

fn refuse(
    sender: &mut SenderReport,
    envelope: Envelope,
    why: DeadLetterReason,
) -> Result<(), AllocError> {
    sender.dead.reserve(1)?;
    sender.dead.push(DeadLetter { envelope, why });
    Ok(())
}

fn sender(alloc: Global, sent: u64) -> SenderReport {
    SenderReport {
        sent,
        dead: DeadLetters::keeping_all(alloc),
    }
}

/// An actor that was started by the system message of this number, and did nothing else.
fn started(alloc: Global, number: u64, answer: Option<Answer>) -> Result<ActorReport, AllocError> {
    let mut journal = Journal::new(alloc, JournalMode::Kept, 100)?;
    apply(&mut journal, number, SysMsg::Create, answer)?;
    Ok(ActorReport {
        phase: Live,
        count: 0,
        state: None,
        journal,
        aside: Vec::new(alloc),
        left: Vec::new(alloc),
        cleaned: KeptList::keeping_all(alloc),
        dead_system: 0,
    })
}

/// Adds the entry of the system message of this number.
fn apply(
    journal: &mut Journal,
    number: u64,
    message: SysMsg,
    answer: Option<Answer>,
) -> Result<(), AllocError> {
    make_ready(journal)?;
    journal.push_system(number, message, answer, &[]);
    Ok(())
}

/// Adds the entry of this envelope, handled at this status word.
fn handle(journal: &mut Journal, letter: Letter, reading: u64) -> Result<(), AllocError> {
    make_ready(journal)?;
    journal.push_handled(envelope(letter), reading, Some(Answer::Handled), &[]);
    Ok(())
}

fn make_ready(journal: &mut Journal) -> Result<(), AllocError>
    ensures { OnOk result (IsTrue journal.new.is_ready) }
{
    match journal.ready() {
        Ok(()) => Ok(()),
        Err(_) => Err(AllocError),
    }
}

fn envelope(letter: Letter) -> Envelope {
    let (by, number, value) = letter;
    Envelope {
        by: SenderId(by),
        to: ActorId(1),
        number,
        body: Body::User { kind: ADD, value },
    }
}

fn find_out<R: Abort>(rt: &R, alloc: Global, claims: &[Claim], is_right: bool) {
    for claim in claims {
        let (what, ..) = *claim;
        let is_found_right = is_found_right(alloc, claim);
        see(rt, is_found_right == Ok(is_right), what);
    }
}

#[test]
fn a_report_with_one_thing_wrong_is_found_out(rt: HostRuntime) {
    find_out(&rt, rt.alloc(), RIGHT, true);
    find_out(&rt, rt.alloc(), WRONG, false)
}
