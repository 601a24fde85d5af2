//! What a thread does with a handle, and what another does with a feed.
ghost use Rattle.std.specs.Prelude.{◌≡◌, ◌<◌, Some};
ghost use Rattle.mb_gate.specs.Accessors.{gates_id, pass_id, actors_of};
ghost use Rattle.mb_gate.specs.Untouched.{origin_of};
ghost use Rattle.mb_pool.specs.Places.{gates_of, parts_of};

use crate::pools::pushed::back;
use mb_gate::{Gates, MailboxState, Pass};
use mb_msg::ActorId;
use mb_pool::{Feed, PoolHandle};
use mb_testkit::{attempt, give};
use std::sync::Wait;
use std::sync::atomic::AtomicU64;
use std::sync::atomic::Ordering::SeqCst;
use std::thread;

/// How many claims are taken in all.
pub const MOVES: u64 = 100_000;

/// More actors than a shared pool has places.
pub const ACTORS: u16 = 80;

/// Moves claims through this handle until enough were taken.
pub fn work<H: MailboxState, R: Wait>(
    rt: &R,
    gates: &Gates<H>,
    mut pass: Pass<H>,
    mut handle: PoolHandle<H>,
    moved: &AtomicU64,
) -> PoolHandle<H>
    requires same_gates { pass_id pass ≡ gates_id gates.now }
    requires same_origin { gates_of handle ≡ Some (origin_of gates.now) }
    ensures same { parts_of result ≡ parts_of handle }
{
    for _ in rt.forever() {
        if moved.load(SeqCst) >= MOVES {
            break;
        }
        if move_one(rt, gates, &mut pass, &mut handle) {
            moved.fetch_add(1, SeqCst);
        } else {
            thread::yield_now();
        }
    }
    handle
}

/// Takes a claim, if there is one, and releases it. Then schedules its actor again and pushes that claim, which is
/// released where the pool refuses it.
fn move_one<H: MailboxState, R: Wait>(
    rt: &R,
    gates: &Gates<H>,
    pass: &mut Pass<H>,
    handle: &mut PoolHandle<H>,
) -> bool
    requires same_gates { pass_id pass.old ≡ gates_id gates.now }
    requires same_origin { gates_of handle.old ≡ Some (origin_of gates.now) }
    ensures same_gates { pass_id pass.new ≡ pass_id pass.old }
    ensures same { parts_of handle.new ≡ parts_of handle.old }
{
    let Some(claim) = handle.take(rt) else {
        return false;
    };
    let actor = claim.actor();
    give(gates, claim, pass);
    if let Some(claim) = attempt(gates, pass, actor)
        && let Err(refused) = handle.push(rt, claim)
    {
        give(gates, back(refused), pass);
    }
    true
}

/// Schedules each actor that is free, and pushes its claim, until enough were taken.
pub fn supply<H: MailboxState, R: Wait>(
    rt: &R,
    gates: &Gates<H>,
    mut pass: Pass<H>,
    mut feed: Feed<H>,
    moved: &AtomicU64,
) -> Feed<H>
    requires same_gates { pass_id pass ≡ gates_id gates.now }
    requires present { actors_of gates.now ≡ 80 }
    requires same_origin { gates_of feed ≡ Some (origin_of gates.now) }
    ensures same { parts_of result ≡ parts_of feed }
{
    for _ in rt.forever() {
        if moved.load(SeqCst) >= MOVES {
            break;
        }
        for actor in 0..ACTORS {
            supply_one(rt, gates, &mut pass, &mut feed, ActorId(actor));
        }
        thread::yield_now();
    }
    feed
}

/// Schedules the actor if it is free, and pushes its claim, which is released where the pool refuses it.
fn supply_one<H: MailboxState, R: Wait>(
    rt: &R,
    gates: &Gates<H>,
    pass: &mut Pass<H>,
    feed: &mut Feed<H>,
    actor: ActorId,
)
    requires same_gates { pass_id pass.old ≡ gates_id gates.now }
    requires present { actor.0 < actors_of gates.now }
    requires same_origin { gates_of feed.old ≡ Some (origin_of gates.now) }
    ensures same_gates { pass_id pass.new ≡ pass_id pass.old }
    ensures same { parts_of feed.new ≡ parts_of feed.old }
{
    if let Some(claim) = attempt(gates, pass, actor)
        && let Err(refused) = feed.push(rt, claim)
    {
        give(gates, back(refused), pass);
    }
}
