//! Tests of each transition on the first status words, by the table of `akka.dispatch.Mailbox`.

use crate::seen::see_nth;
use mb_status::Status;
use std::process::Abort;

/// A status word, and what each call gives on it.
struct Row {
    word: u64,
    with_scheduled: Option<u64>,
    idle: u64,
    suspend: (u64, bool),
    resume: (u64, bool),
    close: bool,
    should_process: bool,
    by_messages: bool,
    by_system: bool,
}

#[rattlefmt::skip]
const ROWS: [Row; 5] = [
    Row { word: 0, with_scheduled: Some(2), idle: 0, suspend: (4, true), resume: (0, true), close: true, should_process: true, by_messages: true, by_system: true },
    Row { word: 1, with_scheduled: None, idle: 1, suspend: (1, false), resume: (1, false), close: false, should_process: false, by_messages: false, by_system: false },
    Row { word: 2, with_scheduled: None, idle: 0, suspend: (6, true), resume: (2, true), close: true, should_process: true, by_messages: true, by_system: true },
    Row { word: 4, with_scheduled: Some(6), idle: 4, suspend: (8, false), resume: (0, true), close: true, should_process: false, by_messages: false, by_system: true },
    Row { word: 6, with_scheduled: None, idle: 4, suspend: (10, false), resume: (2, true), close: true, should_process: false, by_messages: false, by_system: true },
];

#[test]
fn transitions(rt: HostRuntime) {
    for row in ROWS.iter() {
        let status = Status::of(row.word).expect(&rt, "a valid word");
        see_nth(&rt, is_scheduled(row, status), row.word);
        see_nth(&rt, is_suspended(&rt, row, status), row.word);
        see_nth(&rt, is_resumed(row, status), row.word);
        see_nth(&rt, is_closed(row, status), row.word);
        see_nth(&rt, is_asked(row, status), row.word);
    }
}

fn is_scheduled(row: &Row, status: Status) -> bool {
    scheduled(status) == row.with_scheduled && status.idle().word() == row.idle
}

/// The word once the actor is scheduled, where it can be.
fn scheduled(status: Status) -> Option<u64> {
    Some(status.with_scheduled()?.word())
}

fn is_suspended(rt: &impl Abort, row: &Row, status: Status) -> bool {
    let mut suspended = status;
    assert!(rt; suspended.count() < 2);
    let first = suspended.suspend();
    (suspended.word(), first) == row.suspend
}

fn is_resumed(row: &Row, status: Status) -> bool {
    let mut resumed = status;
    let last = resumed.resume();
    (resumed.word(), last) == row.resume
}

fn is_closed(row: &Row, status: Status) -> bool {
    let mut closed = status;
    let closes = closed.close();
    closed.word() == 1 && closes == row.close
}

fn is_asked(row: &Row, status: Status) -> bool {
    status.should_process() == row.should_process
        && status.can_schedule(true, false) == row.by_messages
        && status.can_schedule(false, true) == row.by_system
}

#[test]
fn first_words(rt: HostRuntime) {
    let fresh = Status::fresh();
    assert!(rt; fresh.word() == 4 && fresh.count() == 1);
    for (word, is_valid) in WORDS {
        assert!(rt; Status::of(*word).is_some() == *is_valid);
    }
    let mut twice = Status::of(8).expect(&rt, "a valid word");
    assert!(rt; !twice.resume() && twice.word() == 4);
}

/// Words, and whether they are a status.
const WORDS: &[(u64, bool)] = &[(3, false), ((1 << 62) + 4, false), (1 << 62, true)];
