//! At the end of a stealing pool: each deque's owner joins the other handles' ports of it.
ghost use Rattle.std.specs.Prelude.{◌≡◌, [], All};
ghost use Rattle.mb_pool.specs.Handles.{AreGathered, AreMatched, Gathers, IsAmong, joined_first, MayJoin};
ghost use Rattle.mb_pool.specs.Places.{PoolPort, part_of};

use crate::handle::PoolHandle;
use crate::thief::Thief;
use mb_gate::MailboxState;
use std::alloc::Global;
use std::mem;

/// Each handle's ports of the other deques are joined by the owners of these.
pub fn gather<H: MailboxState>(alloc: Global, handles: &mut [PoolHandle<H>])
    requires { AreMatched handles.old }
    ensures { AreGathered handles.old handles.new }
{
    for index in 0..handles.len() {
        let handle = &mut handles[index];
        let thieves = take_thieves(alloc, handle);
        join_all(handles, thieves);
    }
}

/// Takes the handle's ports of the other deques out of it.
fn take_thieves<H: MailboxState>(alloc: Global, handle: &mut PoolHandle<H>) -> Vec<Thief<H>>
    ensures stealers { result.items ≡ handle.old.next }
    ensures rest { handle.new ≡ record handle.old { next = [] } }
{
    match &mut handle.member {
        None => return Vec::new(alloc),
        Some(member) => return mem::replace(&mut member.thieves, Vec::new(alloc)),
    }
}

/// Each of these ports is joined by the handle whose deque it is of.
fn join_all<H: MailboxState>(handles: &mut [PoolHandle<H>], thieves: Vec<Thief<H>>)
    requires { All (λ (l : PoolPort H). IsAmong handles.old (part_of l)) thieves.items }
    ensures { Gathers handles.old thieves.items handles.new }
{
    for thief in thieves {
        let number = thief.number();
        let handle = &mut handles[number];
        join_own(handle, thief);
    }
}

/// The handle joins a port of its own deque.
fn join_own<H: MailboxState>(handle: &mut PoolHandle<H>, thief: Thief<H>)
    requires { MayJoin handle.old.own_deque (part_of thief) }
    ensures { handle.new ≡ record handle.old { own_deque = joined_first handle.old.own_deque thief } }
{
    match &mut handle.member {
        Some(member) => member.own_deque.join(thief),
        None => unreachable!(),
    }
}
