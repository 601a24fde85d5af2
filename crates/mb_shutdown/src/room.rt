//! The memory that the end of a system takes. It is reserved first; after that none is taken.
ghost use Rattle.std.specs.Prelude.{◌≡◌, ◌≤◌, IfOk, length};
ghost use Rattle.std.specs.List.{AllZip};
ghost use Rattle.mb_gate.specs.Accessors.{actors_of, gates_id, pass_view, pass_id};
ghost use Rattle.mb_gate.specs.Rule.{IsPart};
ghost use Rattle.mb_shutdown.specs.Rooms.{AreCounted, HasOnlyCounted, IsEmptyWithRoom, IsRoom, counted_in};

use mb_actor::{Actor, Behaviours};
use mb_cell::Cell;
use mb_dead_letters::KeptList;
use mb_gate::{Gates, MailboxState, Pass, ReturnedActor};
use mb_home::BoxedHome;
use mb_msg::{ActorId, Envelope};
use mb_queue::{SendPass, TakePass};
use mb_report::{ActorReport, SenderReport};
use std::alloc::{AllocError, Global};

/// What a home leaves, without its passes.
#[derive(Drop)]
pub(crate) struct Ended<A: Actor, K: Behaviours> {
    pub(crate) cell: Cell<A, K>,
    pub(crate) cleaned: KeptList<Envelope>,
    pub(crate) dead_system: u64,
}

/// Room for what is left of each actor and of each sender, and how many envelopes wait for each actor.
#[derive(Drop)]
pub struct Room<A: Actor, K: Behaviours> {
    pub(crate) waiting: Vec<u64>,
    pub(crate) homes: Vec<Option<ReturnedActor<BoxedHome<A, K>>>>,
    pub(crate) ended: Vec<Ended<A, K>>,
    pub(crate) takes: Vec<TakePass>,
    pub(crate) rows: Vec<Vec<SendPass>>,
    pub(crate) lefts: Vec<Vec<Envelope>>,
    pub(crate) actors: Vec<ActorReport>,
    pub(crate) senders: Vec<SenderReport>,
}

/// Makes room for so many senders outside, and for all envelopes that wait.
pub fn make_room<A: Actor, K: Behaviours>(
    alloc: Global,
    gates: &Gates<BoxedHome<A, K>>,
    pass: &mut Pass<BoxedHome<A, K>>,
    outside: usize,
) -> Result<Room<A, K>, AllocError>
    requires same_gates { pass_id pass.old ≡ gates_id gates.now }
    requires within_limit { (actors_of gates.now ≤ 64) × (outside ≤ 16) }
    ensures same_gates { pass_id pass.new ≡ pass_id pass.old }
    ensures known { IsPart (pass_view pass.old).log (pass_view pass.new).log }
    ensures only { HasOnlyCounted (pass_view pass.old) (pass_view pass.new) }
    ensures room { IfOk result (IsRoom (actors_of gates.now) outside) }
    ensures waiting { IfOk result (λ room. AreCounted (pass_view pass.new).log (counted_in room)) }
{
    let actors = gates.actors();
    let (waiting, lefts) = make_lefts(alloc, gates, pass)?;
    room_around(alloc, actors, outside, waiting, lefts)
}

// This room for the envelopes, and room for everything else.
fn room_around<A: Actor, K: Behaviours>(
    alloc: Global,
    actors: usize,
    outside: usize,
    waiting: Vec<u64>,
    lefts: Vec<Vec<Envelope>>,
) -> Result<Room<A, K>, AllocError>
    requires within_limit { (actors ≤ 64) × (outside ≤ 16) }
    requires counted { length waiting.items ≡ actors }
    requires empty_with_room { AllZip IsEmptyWithRoom waiting.items lefts.items }
    ensures { IfOk result (λ room. IsRoom actors outside room × (counted_in room ≡ waiting.items)) }
{
    let senders = actors + outside;
    Ok(Room {
        waiting,
        homes: Vec::with_capacity(alloc, actors)?,
        ended: Vec::with_capacity(alloc, actors)?,
        takes: Vec::with_capacity(alloc, actors)?,
        rows: Vec::with_capacity(alloc, senders)?,
        lefts,
        actors: Vec::with_capacity(alloc, actors)?,
        senders: Vec::with_capacity(alloc, senders)?,
    })
}

// How many envelopes wait for each actor, and room for so many.
fn make_lefts<H: MailboxState>(
    alloc: Global,
    gates: &Gates<H>,
    pass: &mut Pass<H>,
) -> Result<(Vec<u64>, Vec<Vec<Envelope>>), AllocError>
    requires same_gates { pass_id pass.old ≡ gates_id gates.now }
    requires within_limit { actors_of gates.now ≤ 64 }
    ensures same_gates { pass_id pass.new ≡ pass_id pass.old }
    ensures known { IsPart (pass_view pass.old).log (pass_view pass.new).log }
    ensures only { HasOnlyCounted (pass_view pass.old) (pass_view pass.new) }
    ensures counted { IfOk result (λ made. length made.0.items ≡ actors_of gates.now) }
    ensures room { IfOk result (λ made. AllZip IsEmptyWithRoom made.0.items made.1.items) }
    ensures waiting { IfOk result (λ made. AreCounted (pass_view pass.new).log made.0.items) }
{
    let actors = gates.actors();
    let mut counts = Vec::with_capacity(alloc, actors)?;
    let mut lefts = Vec::with_capacity(alloc, actors)?;
    for number in 0..actors {
        let waiting = gates.waiting(pass, ActorId(number as u16));
        let room = Vec::with_capacity(alloc, waiting as usize)?;
        counts.push_reserved(waiting);
        lefts.push_reserved(room);
    }
    Ok((counts, lefts))
}
