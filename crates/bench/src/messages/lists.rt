//! Benchmark of a system list: nodes are pushed and drained again and again.

ghost use Rattle.std.specs.Prelude.{◌≡◌, ◌+◌, ◌*◌, ◌%◌, ◌^◌, [], length, false, IfOk};
ghost use Rattle.mb_syslist.specs.MessageList.{with_last};

use crate::clock::{now, since};
use mb_msg::SysMsg;
use mb_syslist::{Chain, Node, SysList};
use std::alloc::{AllocError, AllocGlobal};
use std::time::{Clock, Duration};

const NODES: u32 = 16;

/// What the rounds came to, and their time.
#[derive(Clone, Copy)]
pub struct Listed {
    /// How many messages were pushed and drained.
    pub given: u64,
    /// The time that it took; `None` where the system does not give it.
    pub time: Option<Duration>,
}

/// Pushes sixteen nodes and drains them, `rounds` times. The only error: memory for the nodes was refused.
pub fn measure_lists<R: Clock + AllocGlobal>(rt: &R, rounds: u32) -> Result<Listed, AllocError>
    ensures { IfOk result (λ listed. listed.given ≡ 16 * rounds) }
{
    let mut chain = nodes(rt)?;
    let mut list = SysList::new();
    let begin = now(rt);
    for _ in 0..rounds {
        go_round(&mut list, &mut chain);
    }
    let time = since(rt, begin);
    Ok(Listed {
        given: list.given(),
        time,
    })
}

#[tactic(auto, using(crate::proofs::Numbers::as_many_numbered))]
fn nodes<R: AllocGlobal>(rt: &R) -> Result<Chain, AllocError>
    ensures { IfOk result (λ chain. length chain ≡ 16) }
{
    let mut list = SysList::new();
    for _ in 0..NODES {
        push(&mut list, Node::new(rt.alloc(), SysMsg::Suspend)?);
    }
    Ok(list.drain())
}

/// Pushes all nodes of the chain, and drains them.
#[tactic(auto, using(crate::proofs::Numbers::as_many_numbered))]
fn go_round(list: &mut SysList, chain: &mut Chain)
    requires open { list.old.closed ≡ false }
    requires empty { list.old.messages ≡ [] }
    ensures given { list.new ≡ record list.old { given = (list.old.given + length chain.old) % 2 ^ 64 } }
    ensures as_many { length chain.new ≡ length chain.old }
{
    while let Some((_number, node)) = chain.next() {
        push(list, node);
    }
    *chain = list.drain();
}

/// Pushes a node into a list that is open.
fn push(list: &mut SysList, node: Node)
    requires open { list.old.closed ≡ false }
    ensures { list.new ≡ with_last list.old node }
{
    match list.push(node) {
        Ok(_number) => {}
        Err(_closed) => unreachable!(),
    }
}
