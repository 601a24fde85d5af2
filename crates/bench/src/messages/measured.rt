//! The run of a cell that is measured.

ghost use Rattle.std.specs.Prelude.{◌≡◌, ◌↔◌, ◌+◌, ◌<◌, ◌≤◌, [], ◌++◌, length, false, pos, IfOk, OnOk, IsErrOf};
ghost use Rattle.mb_actor.specs.Behaviour.{AllowsSame};
ghost use Rattle.mb_journal.specs.Identity.{is_guardian};
ghost use Rattle.mb_journal.specs.Incarnation.{messages};
ghost use Rattle.bench.specs.Idle.{IsIdle, new_cell};
ghost use Rattle.bench.specs.Steady.{IsSteady};
ghost use Rattle.bench.specs.Sum.{sends};

use crate::clock::{now, since};
use crate::messages::memory::Memory;
use crate::status::open;
use mb_actor::{Actor, Behaviours};
use mb_cell::Cell;
use mb_journal::ReadyError;
use mb_msg::{ActorId, Body, Envelope, JournalMode, SenderId, Strategy, SysMsg, limits};
use std::alloc::{AllocError, AllocGlobal};
use std::rt::Files;
use std::time::{Clock, Duration};

pub const ACTOR: ActorId = ActorId(1);

/// The number of the guardian, its parent.
const GUARDIAN: ActorId = ActorId(0);

/// How many actors there are, the guardian among them.
const ACTORS: u32 = 2;

/// How many entries the journal may have.
const JOURNAL_LIMIT: u64 = 4_294_967_295;

const SENDER: SenderId = SenderId(limits::ACTORS);

/// What a run came to, with its time and memory. A figure is `None` where the system does not give it.
#[derive(Clone, Copy)]
pub struct Measured {
    /// How many handled messages the journal has.
    pub handled: usize,
    /// The actor's content after them.
    pub state: i64,
    /// How many acts there were.
    pub acts: u64,
    /// The time that handling all of them took.
    pub time: Option<Duration>,
    /// By how much the memory grew meanwhile.
    pub memory: Option<Memory>,
}

/// Starts the actor, whose journal has this mode, gives it `count` messages, and measures handling them.
///
/// The errors are `NoMemory`, and `JournalFull` where the messages and the start are more than 2^32 - 1 entries: then
/// the answer is never `Ok`.
pub fn measure<R: Clock + Files + AllocGlobal, A: Actor, K: Behaviours>(
    rt: &R,
    actor: A,
    mode: JournalMode,
    count: u32,
) -> Result<Measured, ReadyError>
    requires unused { A.content actor ≡ A.after actor [] }
    requires behaves { A.after actor ≡ K.after 1 }
    requires allows { AllowsSame (A.gives actor) (K.gives 1) }
    requires steady { IsSteady (K.gives 1) }
    ensures handled { IfOk result (λ measured. measured.handled ≡ count) }
    ensures state { IfOk result (λ measured. measured.state ≡ K.after 1 (sends count)) }
    ensures room { OnOk result (count + 1 ≤ 4294967295) }
    ensures full { IsErrOf result ReadyError.JournalFull → 4294967295 < count + 1 }
{
    let Ok(mut cell) = cell_of::<R, A, K>(rt, actor, mode) else {
        return Err(ReadyError::NoMemory);
    };
    measure_in(rt, &mut cell, count)
}

/// The same of a cell to which nothing came yet.
fn measure_in<R: Clock + Files + AllocGlobal, A: Actor, K: Behaviours>(
    rt: &R,
    cell: &mut Cell<A, K>,
    count: u32,
) -> Result<Measured, ReadyError>
    requires new { cell.old ≡ new_cell cell.old.who }
    requires an_actor { is_guardian cell.old.who ≡ false }
    requires first_actor { cell.old.who.this ≡ record { 0 = 1 } }
    requires limit { cell.old.who.limit ≡ 4294967295 }
    requires steady { IsSteady (K.gives 1) }
    ensures handled { IfOk result (λ measured. measured.handled ≡ count) }
    ensures state { IfOk result (λ measured. measured.state ≡ K.after 1 (sends count)) }
    ensures room { OnOk result (count + 1 ≤ 4294967295) }
    ensures full { IsErrOf result ReadyError.JournalFull → 4294967295 < count + 1 }
{
    start(cell)?;
    measure_handling(rt, cell, count)
}

/// Gives the cell `count` messages, and measures handling them.
fn measure_handling<R: Clock + Files + AllocGlobal, A: Actor, K: Behaviours>(
    rt: &R,
    cell: &mut Cell<A, K>,
    count: u32,
) -> Result<Measured, ReadyError>
    requires idle { IsIdle cell.old }
    requires the_actor { cell.old.who.this ≡ record { 0 = 1 } }
    requires steady { IsSteady (K.gives cell.old.who.this.0) }
    ensures handled { IfOk result (λ measured. measured.handled ≡ count) }
    ensures state { IfOk result (λ measured. measured.state ≡ K.after 1 (messages cell.old.who cell.old.journal ++ sends count)) }
    ensures room { OnOk result (0 < count → length cell.old.journal + count ≤ cell.old.who.limit) }
    ensures full { IsErrOf result ReadyError.JournalFull → cell.old.who.limit < length cell.old.journal + count }
{
    let entries = cell.journal().len();
    let memory = Memory::read(rt);
    let begin = now(rt);
    let acts = handle_all(cell, count)?;
    let time = since(rt, begin);
    let state = state_of(cell);
    Ok(Measured {
        handled: cell.journal().len() - entries,
        state,
        acts,
        time,
        memory: Memory::growth(rt, memory),
    })
}

/// The content of an actor that is not the guardian.
fn state_of<A: Actor, K: Behaviours>(cell: &Cell<A, K>) -> i64
    requires { is_guardian cell.now.who ≡ false }
    ensures { result ≡ K.after cell.now.who.this.0 (messages cell.now.who cell.now.journal) }
{
    match cell.state() {
        Some(state) => state,
        None => unreachable!(),
    }
}

/// The cell of the actor, to which nothing came yet.
fn cell_of<R: AllocGlobal, A: Actor, K: Behaviours>(
    rt: &R,
    actor: A,
    mode: JournalMode,
) -> Result<Cell<A, K>, AllocError>
    requires unused { A.content actor ≡ A.after actor [] }
    requires behaves { A.after actor ≡ K.after 1 }
    requires allows { AllowsSame (A.gives actor) (K.gives 1) }
    ensures new { IfOk result (λ cell. cell ≡ new_cell cell.who) }
    ensures an_actor { IfOk result (λ cell. is_guardian cell.who ≡ false) }
    ensures first_actor { IfOk result (λ cell. cell.who.this ≡ record { 0 = 1 }) }
    ensures limit { IfOk result (λ cell. cell.who.limit ≡ 4294967295) }
{
    let strategy = Strategy {
        rows: Vec::new(rt.alloc()),
        retries: -1,
        all_for_one: false,
    };
    Cell::new(
        rt.alloc(),
        ACTOR,
        ACTORS,
        Some(GUARDIAN),
        Some(actor),
        Vec::new(rt.alloc()),
        strategy,
        mode,
        JOURNAL_LIMIT,
    )
}

/// Starts the actor of a cell to which nothing came yet.
fn start<A: Actor, K: Behaviours>(cell: &mut Cell<A, K>) -> Result<(), ReadyError>
    requires new { cell.old ≡ new_cell cell.old.who }
    requires an_actor { is_guardian cell.old.who ≡ false }
    requires steady { IsSteady (K.gives cell.old.who.this.0) }
    ensures same_who { cell.new.who ≡ cell.old.who }
    ensures idle { IfOk result (λ _. IsIdle cell.new) }
    ensures entry { OnOk result (length cell.new.journal ≡ 1) }
    ensures room { OnOk result (1 ≤ cell.old.who.limit) }
    ensures full { IsErrOf result ReadyError.JournalFull ↔ (cell.old.who.limit ≤ 0) }
    ensures no_message { IfOk result (λ _. messages cell.new.who cell.new.journal ≡ []) }
{
    cell.ready()?;
    cell.apply_system(0, SysMsg::Create);
    let _ = take_acts(cell);
    Ok(())
}

/// The loop that is measured: for each of `count` messages it makes room, handles it, and takes its acts. It answers
/// how many acts there were.
fn handle_all<A: Actor, K: Behaviours>(cell: &mut Cell<A, K>, count: u32) -> Result<u64, ReadyError>
    requires idle { IsIdle cell.old }
    requires the_actor { cell.old.who.this ≡ record { 0 = 1 } }
    requires steady { IsSteady (K.gives cell.old.who.this.0) }
    ensures same_who { cell.new.who ≡ cell.old.who }
    ensures entries { IfOk result (λ _. length cell.new.journal ≡ length cell.old.journal + count) }
    ensures room { OnOk result (0 < count → length cell.old.journal + count ≤ cell.old.who.limit) }
    ensures full { IsErrOf result ReadyError.JournalFull → cell.old.who.limit < length cell.old.journal + count }
    ensures messages_added { IfOk result (λ _. messages cell.new.who cell.new.journal ≡ messages cell.old.who cell.old.journal ++ sends count) }
{
    let reading = open();
    let mut acts: u64 = 0;
    for number in 0..count {
        cell.ready()?;
        cell.apply_envelope(reading, envelope(number));
        acts = acts.saturating_add(take_acts(cell));
    }
    Ok(acts)
}

/// Takes the acts of the cell; answers how many there were.
fn take_acts<A: Actor, K: Behaviours>(cell: &mut Cell<A, K>) -> u64
    ensures { cell.new ≡ record cell.old { acts = [] } }
{
    let mut acts: u64 = 0;
    while cell.next_act().is_some() {
        acts = acts.saturating_add(1);
    }
    acts
}

fn envelope(number: u32) -> Envelope
    ensures { result ≡ record { by = record { 0 = 64 }; number = number; to = record { 0 = 1 }; body = Body.User 1 (pos 7) } }
{
    Envelope {
        by: SENDER,
        number: u64::from(number),
        to: ACTOR,
        body: Body::User { kind: 1, value: 7 },
    }
}
