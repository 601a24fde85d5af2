//! The table of the machine's steps: where each is allowed, and what it leaves.
//!
//! A line with bars is a case of one actor and two parties: its status word as the run begins; the steps before the one
//! in question, each with its party; that step; and the actor after it, or `no` where the step is not allowed. An actor
//! is shown by its status word, the number counted as waiting, the numbers of its envelopes, its system messages, who
//! holds it, what the parties 0 and 1 owe it (`s` a check of the system messages, `m` one of the envelopes, `g` that it
//! is sending), and `!` where a worker should take it.
use crate::machine::words::{add_event, events_of, shows};
use crate::seen::see;
use mb_core::{Event, replay};
use std::alloc::Global;
use std::process::Abort;

const STATUS: &str = "
Read of an open mailbox: what was being sent, is sent; all else stays owed.
0           |                                                       | 1 read                   | 0 0 - - - - -
0           | 1 add terminate, 1 sent                               | 1 read                   | 0 1 - terminate - - sm !
0           | 1 sent, 1 unsent                                      | 1 read                   | 0 0 - - - - m
0           | 1 add terminate, 1 sent, 1 unsent, 1 sent             | 1 read                   | 0 1 - terminate - - sm !
Of a suspended one: system work alone is owed.
4           | 1 add terminate, 1 sent, 1 unsent, 1 sent             | 1 read                   | 4 1 - terminate - - s !
Of a scheduled one, suspended or not, and of a closed one, held or not: nothing is owed.
0           | 0 schedule, 1 add terminate, 1 sent, 1 unsent, 1 sent | 1 read                   | 2 1 - terminate 0 - -
4           | 0 schedule, 1 add terminate, 1 sent                   | 1 read                   | 6 1 - terminate 0 - -
1           | 1 add terminate, 1 sent, 1 unsent, 1 sent             | 1 read                   | 1 1 - terminate - - -
0           | 0 schedule, 0 close, 1 add terminate, 1 sent          | 1 read                   | 1 1 - terminate 0 - -
0           | 0 schedule, 0 close, 0 end, 1 sent                    | 1 read                   | 1 1 - gone 0 - -
0           | 0 schedule, 0 sent                                    | 0 read                   | 2 1 - - 0 - -
What another owes stays.
1           | 0 sent                                                | 1 read                   | 1 1 - - - g -
Schedule: neither closed nor scheduled, and then nothing is owed by the one that holds.
0           | 1 add terminate, 1 sent, 1 unsent, 1 sent             | 1 schedule               | 2 1 - terminate 1 - -
4           | 0 sent                                                | 1 schedule               | 6 1 - - 1 g -
4611686018427387904 |                                                       | 0 schedule               | 4611686018427387906 0 - - 0 - -
1           |                                                       | 1 schedule               | no
0           | 0 schedule                                            | 1 schedule               | no
0           | 0 schedule                                            | 0 schedule               | no
4           | 0 schedule                                            | 1 schedule               | no
0           | 0 schedule, 0 close                                   | 0 schedule               | no
0           | 0 schedule, 0 close, 0 idle                           | 1 schedule               | no
Idle: by the holder, who then owes both looks; what it did not apply goes in front, unless the list is gone.
0           | 0 schedule                                            | 0 idle                   | 0 0 - - - sm -
4           | 0 schedule                                            | 0 idle                   | 4 0 - - - sm -
0           | 0 schedule, 0 sent                                    | 0 idle                   | 0 1 - - - smg - !
0           | 1 sent, 1 push 7, 0 schedule                          | 0 idle                   | 0 1 7 - - sm g !
0           | 0 schedule, 1 add suspend                             | 0 idle terminate         | 0 0 - terminate+suspend - sm s !
0           | 0 schedule                                            | 0 idle terminate suspend | 0 0 - terminate+suspend - sm - !
0           | 0 schedule, 0 close                                   | 0 idle terminate         | 1 0 - terminate - sm -
0           | 0 schedule, 0 close, 0 end                            | 0 idle terminate         | 1 0 - gone - sm -
0           |                                                       | 0 idle                   | no
1           |                                                       | 0 idle                   | no
0           | 0 schedule                                            | 1 idle                   | no
0           | 0 schedule, 0 idle                                    | 0 idle                   | no
0           | 0 schedule, 0 close                                   | 1 idle                   | no
Suspend: by the holder, up to 2^60 times; a closed mailbox stays as it is. What is owed stays.
0           | 0 schedule                                            | 0 suspend                | 6 0 - - 0 - -
4           | 0 schedule, 1 add terminate, 1 sent                   | 0 suspend                | 10 1 - terminate 0 - sg
0           | 0 schedule, 0 close                                   | 0 suspend                | 1 0 - - 0 - -
0           | 0 schedule, 0 close, 0 end                            | 0 suspend                | 1 0 - gone 0 - -
4611686018427387900 | 0 schedule                                            | 0 suspend                | 4611686018427387906 0 - - 0 - -
4611686018427387904 | 0 schedule                                            | 0 suspend                | no
0           |                                                       | 0 suspend                | no
0           | 0 schedule                                            | 1 suspend                | no
Resume: by the holder; a count of 0 and a closed mailbox stay as they are.
0           | 0 schedule                                            | 0 resume                 | 2 0 - - 0 - -
4           | 0 schedule, 1 add terminate, 1 sent                   | 0 resume                 | 2 1 - terminate 0 - sg
8           | 0 schedule                                            | 0 resume                 | 6 0 - - 0 - -
0           | 0 schedule, 0 close                                   | 0 resume                 | 1 0 - - 0 - -
0           | 0 schedule, 0 close, 0 end                            | 0 resume                 | 1 0 - gone 0 - -
4           |                                                       | 0 resume                 | no
4           | 0 schedule                                            | 1 resume                 | no
Close: by the holder, who goes on holding; nothing but the word changes.
0           | 0 schedule                                            | 0 close                  | 1 0 - - 0 - -
8           | 1 sent, 1 push 7, 1 add terminate, 0 schedule         | 0 close                  | 1 1 7 terminate 0 - sg
0           | 0 schedule, 0 close                                   | 0 close                  | 1 0 - - 0 - -
0           | 0 schedule, 0 close, 0 end                            | 0 close                  | 1 0 - gone 0 - -
0           |                                                       | 0 close                  | no
0           | 0 schedule                                            | 1 close                  | no
";

const ENVELOPES: &str = "
Sent: always, over the end of the numbers too.
0 |                                               | 1 sent   | 0 1 - - - - g !
4 | 1 sent                                        | 1 sent   | 4 2 - - - - g
1 | 0 sent                                        | 1 sent   | 1 2 - - - g g
0 | 1 add terminate, 1 sent, 1 unsent             | 1 sent   | 0 1 - terminate - - smg !
0 | 0 schedule, 0 taken                           | 1 sent   | 2 0 - - 0 - g
0 | 0 schedule, 0 close, 0 end                    | 1 sent   | 1 1 - gone 0 - g
Unsent: by one that is sending, who owes a look instead.
0 | 1 sent                                        | 1 unsent | 0 0 - - - - m
0 | 1 sent, 1 sent                                | 1 unsent | 0 1 - - - - m !
1 | 1 add terminate, 1 sent                       | 1 unsent | 1 0 - terminate - - sm
4 | 1 sent                                        | 1 unsent | 4 0 - - - - m
0 | 1 sent, 0 schedule, 0 close, 0 end            | 1 unsent | 1 0 - gone 0 - m
0 | 1 sent, 0 schedule, 0 taken                   | 1 unsent | 2 18446744073709551615 - - 0 - m
0 |                                               | 1 unsent | no
0 | 0 sent                                        | 1 unsent | no
0 | 1 sent, 1 read                                | 1 unsent | no
0 | 1 sent, 1 sent, 1 unsent                      | 1 unsent | no
0 | 1 add terminate                               | 1 unsent | no
Taken: by the holder, below 0 too.
0 | 1 sent, 0 schedule                            | 0 taken  | 2 0 - - 0 - g
0 | 0 schedule                                    | 0 taken  | 2 18446744073709551615 - - 0 - -
4 | 1 sent, 0 schedule, 0 close                   | 0 taken  | 1 0 - - 0 - g
4 | 1 sent, 0 schedule                            | 0 taken  | 6 0 - - 0 - g
0 | 1 sent, 0 schedule, 0 close, 0 end            | 0 taken  | 1 0 - gone 0 - g
0 | 1 sent                                        | 1 taken  | no
0 | 1 sent, 0 schedule                            | 1 taken  | no
Count: where nothing waits no look at the envelopes is owed, but what is being sent still is.
0 | 1 add terminate, 1 sent, 1 unsent             | 1 count  | 0 0 - terminate - - s !
0 | 1 sent, 1 unsent, 1 sent, 0 schedule, 0 taken | 1 count  | 2 0 - - 0 - g
0 | 1 sent, 1 read                                | 1 count  | 0 1 - - - - m !
0 | 1 sent, 1 unsent, 0 schedule, 0 taken         | 1 count  | 2 18446744073709551615 - - 0 - m
4 | 0 sent, 0 unsent                              | 1 count  | 4 0 - - - m -
1 | 1 sent, 1 unsent                              | 1 count  | 1 0 - - - - -
0 | 1 sent, 1 unsent, 0 schedule, 0 close, 0 end  | 1 count  | 1 0 - gone 0 - -
Push: always, at the end; the waiting number and what is owed stay.
0 |                                               | 1 push 7 | 0 0 7 - - - -
4 | 1 push 7                                      | 0 push 8 | 4 0 7+8 - - - -
1 |                                               | 1 push 7 | 1 0 7 - - - -
0 | 0 schedule                                    | 1 push 7 | 2 0 7 - 0 - -
0 | 0 schedule, 0 close, 0 end                    | 1 push 7 | 1 0 7 gone 0 - -
Take: by the holder, the envelope at any place that is there.
0 | 1 push 7, 1 push 8, 1 push 9, 0 schedule      | 0 take 0 | 2 0 8+9 - 0 - -
4 | 1 push 7, 1 push 8, 1 push 9, 0 schedule      | 0 take 1 | 6 0 7+9 - 0 - -
0 | 1 push 7, 1 push 8, 0 schedule, 0 close       | 0 take 1 | 1 0 7 - 0 - -
0 | 1 push 7, 0 schedule, 0 close, 0 end          | 0 take 0 | 1 0 - gone 0 - -
0 | 1 push 7, 0 schedule                          | 0 take 1 | no
0 | 0 schedule                                    | 0 take 0 | no
0 | 1 push 7                                      | 1 take 0 | no
0 | 1 push 7, 0 schedule                          | 1 take 0 | no
";

const SYSTEM: &str = "
SysAdd: unless the list is gone, at the end.
0 |                                                                | 1 add terminate | 0 0 - terminate - - s !
4 | 0 add terminate, 1 sent                                        | 1 add suspend   | 4 1 - terminate+suspend - s sg !
1 |                                                                | 1 add terminate | 1 0 - terminate - - s
0 | 0 schedule                                                     | 0 add terminate | 2 0 - terminate 0 s -
0 | 0 schedule, 0 close, 0 end                                     | 1 add terminate | no
0 | 0 schedule, 0 close, 0 end, 0 idle                             | 1 add terminate | no
SysRead: where nothing is listed, or the list is gone, no look at it is owed.
0 | 1 add terminate                                                | 1 look          | 0 0 - terminate - - s !
0 | 1 add terminate, 1 sent, 1 unsent, 1 sent, 0 schedule, 0 drain | 1 look          | 2 1 - - 0 - mg
0 | 1 add terminate, 0 schedule, 0 close, 0 end                    | 1 look          | 1 0 - gone 0 - -
0 | 1 add terminate, 0 schedule, 0 drain                           | 0 look          | 2 0 - - 0 - s
0 | 1 add terminate, 0 schedule, 0 drain, 0 idle                   | 1 look          | 0 0 - - - sm -
4 | 1 add terminate, 0 schedule, 0 drain                           | 1 look          | 6 0 - - 0 - -
1 | 1 add terminate                                                | 1 look          | 1 0 - terminate - - s
SysDrain: by the holder; a list that is gone stays gone.
0 | 1 add terminate, 1 add suspend, 0 schedule                     | 0 drain         | 2 0 - - 0 - s
4 | 1 add terminate, 0 schedule                                    | 0 drain         | 6 0 - - 0 - s
0 | 1 add terminate, 0 schedule, 0 close                           | 0 drain         | 1 0 - - 0 - s
0 | 0 schedule, 0 close, 0 end                                     | 0 drain         | 1 0 - gone 0 - -
0 | 1 add terminate                                                | 1 drain         | no
0 | 0 schedule                                                     | 1 drain         | no
SysEnd: by the holder of a closed actor.
0 | 1 add terminate, 0 schedule, 0 close                           | 0 end           | 1 0 - gone 0 - s
0 | 0 schedule, 0 close, 0 end                                     | 0 end           | 1 0 - gone 0 - -
0 | 0 schedule                                                     | 0 end           | no
4 | 0 schedule                                                     | 0 end           | no
1 |                                                                | 0 end           | no
0 | 0 schedule, 0 close                                            | 1 end           | no
";

const RUNS: &str = "
One holds at a time.
0 |                                                                                | 0 schedule | 2 0 - - 0 - -
0 | 0 schedule, 0 idle                                                             | 1 schedule | 2 0 - - 1 sm -
An envelope is sent, handled, and its holder looks again.
0 | 0 sent, 0 push 7, 0 read, 0 schedule, 0 taken, 0 take 0                        | 0 idle     | 0 0 - - - sm -
0 | 0 sent, 0 push 7, 0 read, 0 schedule, 0 taken, 0 take 0, 0 idle                | 0 count    | 0 0 - - - s -
0 | 0 sent, 0 push 7, 0 read, 0 schedule, 0 taken, 0 take 0, 0 idle, 0 count       | 0 look     | 0 0 - - - - -
A refused push owes a look.
0 | 0 sent, 0 sent                                                                 | 0 unsent   | 0 1 - - - m - !
The sender leaves an envelope to the worker that holds the actor, which had found the queue empty before: it is woken.
0 | 0 schedule, 1 sent, 1 push 7, 1 read, 0 idle, 0 look                           | 0 count    | 0 1 7 - - m - !
0 | 0 schedule, 1 sent, 1 push 7, 1 read, 0 idle, 0 look, 0 count                  | 0 schedule | 2 1 7 - 0 - -
";

/// A case: where the run begins, the steps before the one in question, that step, and the actor then.
#[derive(Clone, Copy)]
struct Case<'a> {
    word: u64,
    before: &'a str,
    step: &'a str,
    after: &'a str,
}

/// The case of a line; a line without bars is a heading, and none.
fn case_of(line: &str) -> Option<Case<'_>> {
    let (word, rest) = column_of(line)?;
    let (before, rest) = column_of(rest)?;
    let (step, after) = column_of(rest)?;
    Some(Case {
        word: word.parse::<u64>().ok()?,
        before,
        step,
        after,
    })
}

/// The text before a bar, and that behind it.
fn column_of(line: &str) -> Option<(&str, &str)> {
    let (column, rest) = line.split_once('|')?;
    Some((column.trim(), rest.trim()))
}

/// Whether these steps leave the actor so, or are no run where it is `no`.
fn leave(alloc: Global, word: u64, events: &[Event], after: &str) -> Option<bool> {
    match replay(alloc, &[word], 2, events).ok()? {
        None => Some(after == "no"),
        Some(model) => Some(shows(model.actors().first()?, after)),
    }
}

/// Whether the steps before are a run, and the case's step leaves what it says.
fn is_right(alloc: Global, case: Case<'_>) -> Option<bool> {
    let events = events_of(alloc, case.before)?;
    if leave(alloc, case.word, &events, "no")? {
        return Some(false);
    }
    leads_on(alloc, case, events)
}

/// Whether the case's step leaves what it says, after these.
fn leads_on(alloc: Global, case: Case<'_>, events: Vec<Event>) -> Option<bool> {
    let mut events = events;
    add_event(&mut events, alloc, case.step)?;
    leave(alloc, case.word, &events, case.after)
}

/// Checks that a table has `cases` cases, all of which are right.
fn try_each<R: Abort>(rt: &R, alloc: Global, table: &str, cases: u64) {
    let mut count = 0u64;
    for line in table.lines() {
        if let Some(case) = case_of(line) {
            see(rt, matches!(is_right(alloc, case), Some(true)), line);
            count = count.wrapping_add(1);
        }
    }
    assert!(rt; count == cases);
}

/// The tables, each with its number of cases.
const TABLES: &[(&str, u64)] = &[(STATUS, 55), (ENVELOPES, 44), (SYSTEM, 25), (RUNS, 8)];

#[test]
fn each_step_by_its_table(rt: HostRuntime) {
    for (table, cases) in TABLES {
        try_each(&rt, rt.alloc(), *table, *cases);
    }
}
