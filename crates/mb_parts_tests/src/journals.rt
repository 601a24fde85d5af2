//! Tests of journals, which are read back entry by entry, count their entries or keep the newest, and keep to their limit, and of
//! strategies, which decide by their first row that matches.
ghost use Rattle.std.specs.Prelude.{◌≡◌, ◌≤◌, true, length};

use crate::seen::see_nth;
use mb_actor::{Answer, Effect};
use mb_journal::{EntryRef, Journal, ReadyError, Received};
use mb_msg::{
    ActorId, Body, Cause, Directive, Envelope, JournalMode, Pattern, SenderId, Strategy, SysMsg,
};
use std::alloc::{AllocError, Global};
use std::process::Abort;
use std::test::Fail;

fn add(number: u64, value: i64) -> Envelope {
    Envelope {
        by: SenderId(64),
        number,
        to: ActorId(1),
        body: Body::User { kind: 1, value },
    }
}

/// Makes room. Where memory was refused, nothing has changed, and the same call again succeeds.
fn make_ready(rt: &impl Abort, journal: &mut Journal)
    ensures { journal.new ≡ record journal.old { is_ready = true } }
{
    let before = journal.len();
    if let Err(error) = journal.ready() {
        assert!(rt; error == ReadyError::NoMemory && journal.len() == before);
        journal.ready().expect(rt, "there is memory again");
    }
}

/// The first of some envelopes.
const ADDED: Envelope = Envelope {
    by: SenderId(64),
    number: 0,
    to: ActorId(1),
    body: Body::User { kind: 1, value: 7 },
};

/// An entry, with its effects.
type Told = (Received, &'static [Effect]);

/// One of each kind.
const ENTRIES: &[Told] = &[
    (
        Received::System {
            number: 0,
            message: SysMsg::Create,
            answer: Some(Answer::Handled),
        },
        &[Effect::Spawn(ActorId(2)), Effect::Watch(ActorId(2))],
    ),
    (
        Received::Handled {
            envelope: ADDED,
            reading: 2,
            answer: Some(Answer::Failed(3)),
        },
        &[],
    ),
    (
        Received::SetAside {
            number: 1,
            message: SysMsg::Failed(ActorId(2), Cause::Error(1)),
        },
        &[],
    ),
    (
        Received::Handled {
            envelope: Envelope {
                number: 1,
                body: Body::User { kind: 1, value: 8 },
                ..ADDED
            },
            reading: 0,
            answer: Some(Answer::Unhandled),
        },
        &[Effect::Stop(ActorId(3))],
    ),
    (
        Received::Dropped {
            envelope: Envelope {
                number: 2,
                body: Body::User { kind: 1, value: 9 },
                ..ADDED
            },
        },
        &[],
    ),
];

/// Entries with the greatest numbers that fit into a row of 32 bytes, and after each some with one that does not.
const GREAT: &[Told] = &[
    (
        Received::Handled {
            envelope: GREATEST,
            reading: 65_535,
            answer: Some(Answer::Failed(255)),
        },
        TOLD,
    ),
    (
        Received::Handled {
            envelope: Envelope {
                number: 4_294_967_296,
                ..GREATEST
            },
            reading: 1,
            answer: Some(Answer::Handled),
        },
        TOLD,
    ),
    (
        Received::Handled {
            envelope: ADDED,
            reading: 65_536,
            answer: None,
        },
        &[],
    ),
    (
        Received::Handled {
            envelope: ADDED,
            reading: 4_294_967_296,
            answer: Some(Answer::Unhandled),
        },
        &[],
    ),
    (
        Received::System {
            number: 4_294_967_295,
            message: SysMsg::Failed(ActorId(65_535), Cause::Error(4_294_967_295)),
            answer: None,
        },
        TOLD,
    ),
    (
        Received::System {
            number: 4_294_967_296,
            message: SysMsg::Terminate,
            answer: None,
        },
        &[],
    ),
    (
        Received::System {
            number: 0,
            message: SysMsg::Create,
            answer: Some(Answer::Failed(256)),
        },
        TOLD,
    ),
    (
        Received::SetAside {
            number: 4_294_967_295,
            message: SysMsg::Suspend,
        },
        &[],
    ),
    (
        Received::SetAside {
            number: 18_446_744_073_709_551_615,
            message: SysMsg::Died(ActorId(256)),
        },
        &[],
    ),
    (Received::Dropped { envelope: GREATEST }, &[]),
    (
        Received::Dropped {
            envelope: Envelope {
                by: SenderId(256),
                ..ADDED
            },
        },
        &[],
    ),
    (
        Received::Dropped {
            envelope: Envelope {
                to: ActorId(256),
                ..ADDED
            },
        },
        &[],
    ),
    (
        Received::Handled {
            envelope: ADDED,
            reading: 2,
            answer: Some(Answer::Handled),
        },
        TOLD,
    ),
];

/// An envelope with the greatest numbers that fit into a row.
const GREATEST: Envelope = Envelope {
    by: SenderId(255),
    number: 4_294_967_295,
    to: ActorId(255),
    body: Body::Control {
        kind: 4_294_967_295,
        value: -1,
    },
};

fn push(rt: &impl Abort, journal: &mut Journal, told: &Told) {
    let (arrival, effects) = *told;
    assert!(rt; effects.len() <= 16);
    make_ready(rt, journal);
    match arrival {
        Received::Handled {
            envelope,
            reading,
            answer,
        } => journal.push_handled(envelope, reading, answer, effects),
        Received::System {
            number,
            message,
            answer,
        } => journal.push_system(number, message, answer, effects),
        Received::SetAside { number, message } => journal.push_set_aside(number, message),
        Received::Dropped { envelope } => journal.push_dropped(envelope),
    }
}

/// A new journal. Where memory is refused for it, the same call again succeeds.
fn new_journal(rt: &impl Abort, alloc: Global, mode: JournalMode, limit: u64) -> Journal {
    match Journal::new(alloc, mode, limit) {
        Ok(journal) => journal,
        Err(_) => Journal::new(alloc, mode, limit).expect(rt, "there is memory again"),
    }
}

/// A journal with these entries.
fn journal_of(rt: &impl Abort, alloc: Global, mode: JournalMode, entries: &[Told]) -> Journal {
    let mut journal = new_journal(rt, alloc, mode, 100);
    assert!(rt; journal.is_empty() && !journal.is_full());
    for told in entries {
        push(rt, &mut journal, told);
    }
    journal
}

/// Whether the entry of this number is as it was added.
fn is_read_back(journal: &Journal, index: usize, told: &Told) -> bool {
    let (arrival, effects) = *told;
    let Some(entry) = journal.entry(index) else {
        return false;
    };
    entry.arrival == arrival && entry.effects == effects
}

#[test]
fn entries_are_read_back(rt: HostRuntime) {
    let journal = journal_of(&rt, rt.alloc(), JournalMode::Kept, ENTRIES);
    are_read_back(&rt, &journal, ENTRIES);
}

#[test]
fn entries_with_great_numbers_are_read_back(rt: HostRuntime) {
    let journal = journal_of(&rt, rt.alloc(), JournalMode::Kept, GREAT);
    are_read_back(&rt, &journal, GREAT);
}

/// Checks that the journal has these entries, and no others.
fn are_read_back(rt: &impl Abort, journal: &Journal, entries: &[Told]) {
    assert!(rt; journal.len() == entries.len());
    for (index, told) in entries.iter().enumerate() {
        assert!(rt; is_read_back(journal, index, told));
    }
}

#[test]
fn the_limit_is_kept(rt: HostRuntime) {
    for mode in [
        JournalMode::Kept,
        JournalMode::Counted,
        JournalMode::Last(0),
        JournalMode::Last(1),
        JournalMode::Last(3),
    ] {
        is_full_after(&rt, &mut new_journal(&rt, rt.alloc(), mode, 1), 1);
        is_full_after(&rt, &mut new_journal(&rt, rt.alloc(), mode, 2), 2);
    }
}

/// Checks that a new journal has room for this many entries, and no more.
fn is_full_after(rt: &impl Abort, journal: &mut Journal, entries: u64) {
    for number in 0..entries {
        assert!(rt; !journal.is_full());
        handle(rt, journal, add(number, 1), &[]);
    }
    assert!(rt; journal.is_full());
    assert!(rt; journal.ready() == Err(ReadyError::JournalFull));
}

#[test]
fn a_long_journal_keeps_its_entries(rt: HostRuntime) {
    let mut journal = new_journal(&rt, rt.alloc(), JournalMode::Kept, 4_294_967_295);
    for number in 0..200 {
        handle(&rt, &mut journal, add(number, 5), TOLD);
    }
    assert!(rt; journal.len() == 200);
    for index in 0..journal.len() {
        let entry = journal.entry(index).expect(&rt, "an entry");
        tells_of(&rt, &entry, index as u64);
    }
}

/// Both journals of these entries have the same counts; one has the entries too.
#[test]
fn a_journal_that_counts_its_entries_has_their_counts(rt: HostRuntime) {
    for entries in [ENTRIES, GREAT] {
        let kept = journal_of(&rt, rt.alloc(), JournalMode::Kept, entries);
        let counted = journal_of(&rt, rt.alloc(), JournalMode::Counted, entries);
        assert!(rt; kept.is_kept() && !counted.is_kept());
        assert!(rt; kept.entry(0).is_some() && counted.entry(0).is_none());
        assert!(rt; counted.len() == kept.len());
        assert!(rt; counted.envelopes() == kept.envelopes());
        assert!(rt; counted.restarts() == kept.restarts());
    }
}

/// A journal that keeps at least its last three entries: the first that is kept after none, one, two and more.
const FIRST_OF_THREE: &[usize] = &[0, 0, 0, 0, 0, 0, 3, 3, 3, 6, 6, 6, 9, 9];

#[test]
fn a_journal_that_keeps_its_newest_entries_has_them(rt: HostRuntime) {
    let mut journal = new_journal(&rt, rt.alloc(), JournalMode::Last(3), 100);
    for first in FIRST_OF_THREE {
        has_entries_from(&rt, &journal, *first, GREAT);
        if let Some(told) = GREAT.get(journal.len()) {
            push(&rt, &mut journal, told);
        }
    }
    assert!(rt; journal.len() == GREAT.len() && journal.last() == 3 && !journal.is_kept());
}

/// Checks that of these entries the journal has those from this index on, up to its length, and none before.
fn has_entries_from(rt: &impl Abort, journal: &Journal, first: usize, entries: &[Told]) {
    assert!(rt; journal.first_kept() == first);
    for (index, told) in entries.iter().enumerate() {
        if index < first || index >= journal.len() {
            assert!(rt; journal.entry(index).is_none());
        } else {
            assert!(rt; is_read_back(journal, index, told));
        }
    }
}

/// A journal that keeps its newest entries has the counts of one that keeps all, and at least the entries that it is to keep, but fewer
/// than twice as many.
#[test]
fn a_journal_keeps_as_many_of_the_newest_as_it_is_to(rt: HostRuntime) {
    for last in 0..8 {
        let kept = journal_of(&rt, rt.alloc(), JournalMode::Kept, GREAT);
        let newest = journal_of(&rt, rt.alloc(), JournalMode::Last(last), GREAT);
        assert!(rt; newest.len() == kept.len() && newest.envelopes() == kept.envelopes());
        let number = newest.len() - newest.first_kept();
        assert!(rt; last as usize <= number && (number < 2 * last as usize || last == 0));
        has_entries_from(&rt, &newest, newest.first_kept(), GREAT);
    }
}

/// Adds the entry of an envelope that was handled, with at most 16 effects.
fn handle(rt: &impl Abort, journal: &mut Journal, envelope: Envelope, effects: &[Effect])
    requires { length effects.now ≤ 16 }
{
    make_ready(rt, journal);
    journal.push_handled(envelope, 2, Some(Answer::Handled), effects);
}

const TOLD: &[Effect] = &[Effect::Tell {
    to: ActorId(2),
    kind: 4,
    value: 6,
}];

/// Checks that an entry is of the envelope of this number, with this effect.
fn tells_of(rt: &impl Abort, entry: &EntryRef<'_>, number: u64) {
    let arrival = Received::Handled {
        envelope: add(number, 5),
        reading: 2,
        answer: Some(Answer::Handled),
    };
    assert!(rt; entry.arrival == arrival && entry.effects == TOLD);
}

const ROWS: &[(Pattern, Directive)] = &[
    (Pattern::Error(3), Directive::Resume),
    (Pattern::AnyError, Directive::Stop),
    (Pattern::Killed, Directive::Escalate),
];

/// What is decided by these rows, and by the default where none matches.
const BY_ROWS: &[(Cause, Directive)] = &[
    (Cause::Error(3), Directive::Resume),
    (Cause::Error(4), Directive::Stop),
    (Cause::Killed, Directive::Escalate),
    (Cause::Init, Directive::Stop),
    (Cause::DeathPact, Directive::Stop),
];

const BY_DEFAULT: &[(Cause, Directive)] = &[
    (Cause::Error(3), Directive::Restart),
    (Cause::Killed, Directive::Stop),
];

/// Checks that a strategy of these rows decides so.
fn decides(rt: &impl Abort, rows: Vec<(Pattern, Directive)>, cases: &[(Cause, Directive)]) {
    let strategy = Strategy {
        rows,
        retries: -1,
        all_for_one: false,
    };
    let mut number = 0u64;
    for case in cases {
        let (cause, directive) = *case;
        see_nth(rt, strategy.decide(cause) == directive, number);
        number = number.wrapping_add(1);
    }
}

/// A list of the rows; retried where memory was refused.
fn rows_at_last(alloc: Global) -> Result<Vec<(Pattern, Directive)>, AllocError> {
    match ROWS.to_vec(alloc) {
        Err(_) => ROWS.to_vec(alloc),
        made => made,
    }
}

#[test]
fn the_first_row_that_matches_decides(rt: HostRuntime) -> Result<(), Fail> {
    let rows = rows_at_last(rt.alloc())?;
    decides(&rt, rows, BY_ROWS);
    decides(&rt, Vec::new(rt.alloc()), BY_DEFAULT);
    Ok(())
}
