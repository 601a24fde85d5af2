//! Tests of lists of system messages: they give the earliest first, go on numbering, may be long, and may go to another
//! thread.
ghost use Rattle.std.specs.Prelude.{◌≡◌};

use crate::seen::see_nth;
use mb_msg::{ActorId, Cause, SysMsg};
use mb_syslist::{Chain, ListClosed, Node, SysList};
use std::alloc::Global;
use std::process::Abort;
use std::test::Fail;
use std::thread;

/// How many nodes a long list has.
const MANY: u64 = 1_000_000;

/// A node. Where memory was refused, the same call again succeeds.
fn node_of(rt: &impl Abort, alloc: Global, message: SysMsg) -> Node
    ensures { result ≡ message }
{
    match Node::new(alloc, message) {
        Ok(node) => node,
        Err(_) => Node::new(alloc, message).expect(rt, "there is memory again"),
    }
}

/// Pushes a node; its number has to be this one.
fn push(rt: &impl Abort, list: &mut SysList, node: Node, number: u64) {
    see_nth(rt, list.push(node).ok() == Some(number), number);
}

/// Takes a node out of a chain; it has to have this number and this message.
fn take(rt: &impl Abort, chain: &mut Chain, number: u64, message: SysMsg) {
    see_nth(rt, next_of(chain) == Some((number, message)), number);
}

/// The number and the message of the next node of a chain.
fn next_of(chain: &mut Chain) -> Option<(u64, SysMsg)> {
    let (number, node) = chain.next()?;
    Some((number, node.msg()))
}

/// A list of many nodes.
fn long_list(rt: &impl Abort, alloc: Global) -> SysList {
    let mut list = SysList::new();
    for number in 0..MANY {
        let node = node_of(rt, alloc, SysMsg::Watch(ActorId((number % 64) as u16)));
        push(rt, &mut list, node, number);
    }
    list
}

/// A call on a list, or on what was drained last, and its answer.
#[derive(Clone, Copy)]
enum Step {
    /// The message is listed under this number.
    Listed(SysMsg, u64),
    /// The list is closed: the node comes back.
    Back(SysMsg),
    Drained,
    Closed,
    /// The next of what was drained has this number and this message.
    Next(u64, SysMsg),
    /// The node of the next one is listed again, with this message under this number.
    Relisted(SysMsg, u64),
    /// Whether something is listed, and whether something is left of what was drained; and how many were given.
    Stands(bool, bool, u64),
    /// Nothing is left of what was drained.
    End,
}

/// The earliest comes first; a list that is closed gives a node back, and stays empty.
const EARLIEST_FIRST: &[Step] = &[
    Step::Stands(false, false, 0),
    Step::Listed(SysMsg::Create, 0),
    Step::Listed(SysMsg::Suspend, 1),
    Step::Listed(SysMsg::Resume { of_failure: false }, 2),
    Step::Stands(true, false, 0),
    Step::Drained,
    Step::Stands(false, true, 3),
    Step::Next(0, SysMsg::Create),
    Step::Next(1, SysMsg::Suspend),
    Step::Stands(false, true, 3),
    Step::Next(2, SysMsg::Resume { of_failure: false }),
    Step::Stands(false, false, 3),
    Step::End,
    Step::Closed,
    Step::Stands(false, false, 3),
    Step::Back(SysMsg::Terminate),
    Step::Stands(false, false, 3),
    Step::Drained,
    Step::Stands(false, false, 3),
];

/// Numbers go on after a drain, also those of a node that is used again.
const NUMBERS_GO_ON: &[Step] = &[
    Step::Listed(SysMsg::Create, 0),
    Step::Drained,
    Step::Relisted(FAILED, 1),
    Step::Listed(SysMsg::Died(ActorId(3)), 2),
    Step::Closed,
    Step::Stands(false, true, 3),
    Step::Next(1, FAILED),
    Step::Next(2, SysMsg::Died(ActorId(3))),
    Step::End,
];

const FAILED: SysMsg = SysMsg::Failed(ActorId(3), Cause::Error(7));

fn goes(rt: &impl Abort, alloc: Global, list: &mut SysList, chain: &mut Chain, step: Step) -> bool {
    match step {
        Step::Listed(message, number) => listed(rt, alloc, list, message) == Some(number),
        Step::Back(message) => is_back(rt, alloc, list, message),
        Step::Drained => {
            *chain = list.drain();
            true
        }
        Step::Closed => {
            *chain = list.close();
            true
        }
        Step::Next(number, message) => next_of(chain) == Some((number, message)),
        Step::Relisted(message, number) => relisted(list, chain, message) == Some(number),
        Step::Stands(is_listed, is_left, given) => {
            list.is_empty() != is_listed && chain.is_empty() != is_left && list.given() == given
        }
        Step::End => next_of(chain).is_none(),
    }
}

/// The number under which a new node with this message is listed.
fn listed(rt: &impl Abort, alloc: Global, list: &mut SysList, message: SysMsg) -> Option<u64> {
    list.push(node_of(rt, alloc, message)).ok()
}

/// Whether a new node with this message comes back.
fn is_back(rt: &impl Abort, alloc: Global, list: &mut SysList, message: SysMsg) -> bool {
    match list.push(node_of(rt, alloc, message)) {
        Ok(_) => false,
        Err(ListClosed(node)) => node.msg() == message,
    }
}

/// The number under which the next node is listed, with this message in it.
fn relisted(list: &mut SysList, chain: &mut Chain, message: SysMsg) -> Option<u64> {
    let (_, mut node) = chain.next()?;
    node.set(message);
    list.push(node).ok()
}

/// Checks these steps on a new list.
fn goes_so(rt: &impl Abort, alloc: Global, course: &[Step]) {
    let mut list = SysList::new();
    let mut chain = list.drain();
    let mut number = 0u64;
    for step in course {
        let is_so = goes(rt, alloc, &mut list, &mut chain, *step);
        see_nth(rt, is_so, number);
        number = number.wrapping_add(1);
    }
}

#[test]
fn the_earliest_comes_first_and_numbers_go_on(rt: HostRuntime) {
    goes_so(&rt, rt.alloc(), EARLIEST_FIRST);
    goes_so(&rt, rt.alloc(), NUMBERS_GO_ON);
}

#[test]
fn a_long_chain_is_walked(rt: HostRuntime) {
    let mut chain = long_list(&rt, rt.alloc()).drain();
    for number in 0..MANY {
        let watcher = ActorId((number % 64) as u16);
        take(&rt, &mut chain, number, SysMsg::Watch(watcher));
    }
    assert!(rt; chain.is_empty());
}

#[test]
fn a_long_chain_and_a_long_list_are_dropped(rt: HostRuntime) {
    let mut list = long_list(&rt, rt.alloc());
    drop(list.drain());
    assert!(rt; list.is_empty() && list.given() == MANY);
    drop(long_list(&rt, rt.alloc()));
}

#[test]
fn lists_and_chains_move_to_threads(rt: HostRuntime) {
    let mut list = SysList::new();
    let node = node_of(&rt, rt.alloc(), SysMsg::Create);
    push(&rt, &mut list, node, 0);
    let chain = list.drain();
    let node = node_of(&rt, rt.alloc(), SysMsg::Suspend);
    let Ok(child) = thread::spawn(&rt, move || {
        let mut list = list;
        let pushed = list.push(node).is_ok();
        (pushed, list, chain)
    }) else {
        panic!(&rt; "no thread could be made");
    };
    let (pushed, mut list, mut chain) = child.join(&rt);
    assert!(rt; pushed);
    take(&rt, &mut chain, 0, SysMsg::Create);
    take(&rt, &mut list.close(), 1, SysMsg::Suspend);
}
