//! The cell: what it holds and what it shows.
ghost use Rattle.std.specs.Prelude.{◌≡◌, ◌≢◌, ◌↔◌, ◌<◌, ◌≤◌, [], ◌∷◌, ◌++◌, length, map, option_to_list, true, false};
ghost use Rattle.std.specs.Prelude.{IsTrue, IsSome, IsOk, IsErrOf, OnOk, OnErr, IfOk, IfNone, IfSome, MatchOption, not, is_some, filter, if◌then◌else◌};
ghost use Rattle.std.specs.List.{All};
ghost use Rattle.mb_msg.specs.JournalMode.{keeps_all, retention_of};
ghost use Rattle.mb_msg.specs.Limits.{most_actors, most_entries};
ghost use Rattle.mb_actor.specs.OutboxView.{is_tell};
ghost use Rattle.mb_journal.specs.Acts.{stop_acts};
ghost use Rattle.mb_journal.specs.Aside.{aside as aside_of, next_front as front_of};
ghost use Rattle.mb_journal.specs.Identity.{is_guardian};
ghost use Rattle.mb_journal.specs.Incarnation.{messages};
ghost use Rattle.mb_journal.specs.Lawful.{IsLawful};
ghost use Rattle.mb_journal.specs.Life.{closed, phase as phase_of};
ghost use Rattle.mb_journal.specs.Remaining.{all_set_aside, was_applied};
ghost use Rattle.mb_journal.specs.Suspension.{count as count_of};
ghost use Rattle.mb_supervision.specs.ActQueue.{act_of};
ghost use Rattle.mb_cell.specs.NewActor.{IsNewActor};

mod apply;
mod auto_receive;
pub(crate) mod cell_parts;
mod create;
mod died;
mod dispatch;
mod end;
mod ending;
mod failed;
mod front;
mod handle;
mod queries;
mod recreate;
mod resume;
mod set_aside;
mod suspend;
mod unwatch;
mod watch;
mod without_change;

use mb_actor::{Actor, Behaviours, Effect, Outbox, Phase, RecordedActor};
use mb_journal::{Journal, ReadyError};
use mb_msg::{ActorId, Body, JournalMode, Strategy, SysMsg};
use mb_supervision::{Act, ActorIdentity, CellState};
use mb_syslist::Node;
use std::alloc::{AllocError, Global};
use std::marker::{Model, PhantomData};

/// An actor with its journal, or the guardian, which has no actor.
///
/// The other fields are what the journal says, changed in place.
pub struct Cell<A: Actor, K: Behaviours> {
    place: ActorIdentity,
    actor: Option<RecordedActor<A>>,
    journal: Journal,
    cell_state: CellState,
    outbox: Outbox,
    /// How many effects of the newest entry are still to be sent. Where there are some, they are tells.
    unsent: usize,
    behaviours: PhantomData<K>,
}

// `Drop` is written by hand: with a derived one, each crate above would prove again how the fields are dropped.
impl<A: Actor, K: Behaviours> Drop for Cell<A, K> {
    fn drop(self) {
        let Cell {
            place: _,
            actor: _,
            outbox: _,
            unsent: _,
            journal: _,
            cell_state: _,
            behaviours: _,
        } = self;
    }
}

impl<A: Actor, K: Behaviours> Model for Cell<A, K> {
    ghost use Rattle.std.specs.Prelude.{◌≡◌, true, MatchOption};
    ghost use Rattle.std.specs.Prelude.{◌++◌};
    ghost use Rattle.mb_cell.specs.CellView.{CellView};
    ghost use Rattle.mb_cell.specs.Unsent.{IsUnsent, unsent_acts};

    ghost Value = { CellView };

    ghost use Rattle.mb_journal.specs.Identity.{is_guardian};
    ghost use Rattle.mb_cell.specs.Agrees.{Agrees, FollowsBehaviour};
    ghost use Rattle.mb_supervision.specs.ActorIdentity.{identity_of};

    ghost view = { λ c. record {
      who = identity_of c.place c.journal.limit c.journal.retention;
      journal = c.journal.entries;
      acts = unsent_acts c.unsent c.journal.entries ++ c.cell_state.acts;
      is_ready = c.journal.is_ready;
    } };

    ghost invariant = { λ c.
        Agrees (identity_of c.place c.journal.limit c.journal.retention) c.journal.entries (K.gives c.place.this.0) c.cell_state c.outbox
        × (c.journal.is_ready ≡ true → c.cell_state.is_ready ≡ true)
        × MatchOption c.actor (is_guardian (identity_of c.place c.journal.limit c.journal.retention) ≡ true)
        (λ a. FollowsBehaviour (identity_of c.place c.journal.limit c.journal.retention) c.journal.entries (K.after c.place.this.0) (K.gives c.place.this.0)
        (A.after a.actor) (A.gives a.actor) (A.content a.actor) a.calls)
        × IsUnsent c.unsent c.journal.entries };
}

impl<A: Actor, K: Behaviours> Cell<A, K> {
    /// The cell of an actor that is not started yet, or of the guardian, which alone has no parent and no actor.
    /// `actors` is how many actors there are, `prepared` are the children that it may start, in order, and its journal
    /// may have `journal_limit` entries.
    ///
    /// With a journal that keeps all its entries this takes no memory. One that counts them, or keeps the newest, takes all its memory here.
    /// The only error: memory was refused. What was handed in is dropped then.
    pub fn new(
        alloc: Global,
        this: ActorId,
        actors: u32,
        parent: Option<ActorId>,
        actor: Option<A>,
        prepared: Vec<ActorId>,
        strategy: Strategy,
        journal_mode: JournalMode,
        journal_limit: u64,
    ) -> Result<Self, AllocError>
        requires guardian { is_some actor ≡ is_some parent }
        requires within_limit { length prepared.items ≤ most_actors }
        requires numbered { All (λ x. x.0 < most_actors) prepared.items }
        requires within_journal { journal_limit ≤ most_entries }
        requires new_actor { IfSome actor (IsNewActor A.content A.after A.gives (K.after this.0) (K.gives this.0)) }
        ensures fresh { IfOk result (λ cell. cell ≡ record {
          who = record {
            this = this;
            parent = parent;
            actors = actors;
            prepared = prepared.items;
            strategy = strategy.rows.items;
            retries = strategy.retries;
            all_for_one = strategy.all_for_one;
            limit = journal_limit;
            retention = retention_of journal_mode;
          };
          journal = [];
          acts = [];
          is_ready = false;
        }) }
        ensures lawful { IfOk result (λ cell. IsLawful cell.who (K.gives this.0) cell.journal) }
        ensures never_short { keeps_all journal_mode ≡ true → IsOk result }
    {
        let journal = Journal::new(alloc, journal_mode, journal_limit)?;
        let outbox = Outbox::new(actors, &prepared);
        let cell_state = CellState::new(alloc, prepared.len());
        let place = ActorIdentity {
            this,
            parent,
            actors,
            prepared,
            strategy,
        };
        let Some(actor) = actor else {
            return Ok(Cell {
                place,
                actor: None,
                outbox,
                unsent: 0,
                journal,
                cell_state,
                behaviours: PhantomData,
            });
        };
        Ok(Cell {
            place,
            actor: Some(RecordedActor::new(actor)),
            outbox,
            unsent: 0,
            journal,
            cell_state,
            behaviours: PhantomData,
        })
    }

    /// Whether there is room for one message. It is one comparison, and takes no memory.
    #[inline(always)]
    pub fn is_ready(&self) -> bool
        ensures value { result ≡ self.now.is_ready }
        ensures not_full { IsTrue result → length self.now.journal < self.now.who.limit }
    {
        self.journal.is_ready()
    }

    /// Makes room for one message, unless there is room already: for its entry, its effects, its acts and what it adds to the cell's
    /// lists.
    ///
    /// It answers `JournalFull` if the journal has as many entries as it may have, and else `NoMemory` if memory was
    /// refused. Nothing has changed then.
    #[inline(always)]
    pub fn ready(&mut self) -> Result<(), ReadyError>
        ensures full { IsErrOf result ReadyError.JournalFull ↔ (self.old.who.limit ≤ length self.old.journal) }
        ensures ok { OnOk result (self.new ≡ record self.old { is_ready = true }) }
        ensures err { OnErr result (self.new ≡ self.old) }
        ensures again { IsTrue self.old.is_ready → IsOk result }
    {
        if self.is_ready() {
            return Ok(());
        }
        self.prepare()
    }

    /// Makes room for some messages. It answers as `ready` does.
    #[cold]
    #[inline(never)]
    fn prepare(&mut self) -> Result<(), ReadyError>
        ensures full { IsErrOf result ReadyError.JournalFull ↔ (self.old.who.limit ≤ length self.old.journal) }
        ensures ok { OnOk result (self.new ≡ record self.old { is_ready = true }) }
        ensures err { OnErr result (self.new ≡ self.old) }
    {
        if self.cell_state.make_room().is_err() {
            if self.journal.is_full() {
                return Err(ReadyError::JournalFull);
            }
            return Err(ReadyError::NoMemory);
        }
        self.journal.ready()
    }

    /// Counts on no room any more: `ready` looks how much there is before the next message. It is for a caller that keeps room of its
    /// own beside that of the cell, and used some of it.
    pub fn forget_room(&mut self)
        ensures { self.new ≡ record self.old { is_ready = false } }
    {
        self.journal.forget_room();
    }

    /// Keeps the node of a message that was taken, for an act that comes later. This takes no memory.
    pub fn keep_node(&mut self, node: Node)
        ensures { self.new ≡ self.old }
    {
        self.cell_state.keep_node(node);
    }

    /// Takes out the earliest act that is still to be carried out; `None` if there is none. This takes no memory.
    #[inline(always)]
    pub fn next_act(&mut self) -> Option<Act>
        ensures taken { self.old.acts ≡ map act_of (option_to_list result) ++ self.new.acts }
        ensures none { IfNone result (self.old.acts ≡ []) }
        ensures rest { self.new ≡ record self.old { acts = self.new.acts } }
    {
        if self.unsent == 0 {
            return self.cell_state.next_act();
        }
        let effect = self.journal.newest_effect(self.unsent);
        self.unsent -= 1;
        Some(tell_of(effect))
    }

    /// What came to the actor, and what became of it.
    pub fn journal(&self) -> &Journal
        ensures shown { result.now ≡ record {
          entries = self.now.journal;
          limit = self.now.who.limit;
          is_ready = self.now.is_ready;
          retention = self.now.who.retention;
        } }
        ensures lawful { IsLawful self.now.who (K.gives self.now.who.this.0) self.now.journal }
    {
        &self.journal
    }

    /// What is set aside, the earliest first, each with its number: unless the actor ended, what some entry sets aside
    /// and no entry applies.
    pub fn aside(&self) -> &[(u64, SysMsg)]
        ensures value { result.now ≡ aside_of self.now.who self.now.journal }
        ensures unapplied { result.now ≡ (if closed self.now.who self.now.journal then []
            else filter (λ m. not (was_applied self.now.journal m.0)) (all_set_aside self.now.journal)) }
    {
        self.cell_state.aside()
    }

    /// The actor's parent; the guardian has none (`akka.actor.ActorContext.parent`).
    pub fn parent(&self) -> Option<ActorId>
        ensures { result ≡ self.now.who.parent }
    {
        self.place.parent
    }

    /// The phase of the actor's life.
    pub fn phase(&self) -> Phase
        ensures { result ≡ phase_of self.now.who self.now.journal }
    {
        self.cell_state.phase()
    }

    /// How often the actor's mailbox is suspended: once until it is started.
    pub fn count(&self) -> u64
        ensures { result ≡ count_of self.now.who self.now.journal }
    {
        self.cell_state.count()
    }

    /// The actor's content as one number; `None` for the guardian, which has no actor.
    pub fn state(&self) -> Option<i64>
        ensures guardian { IfNone result (is_guardian self.now.who ≡ true) }
        ensures an_actor { IfSome result (λ z. is_guardian self.now.who ≡ false) }
        ensures content { IfSome result (λ z. z ≡ K.after self.now.who.this.0 (messages self.now.who self.now.journal)) }
    {
        match &self.actor {
            None => None,
            Some(actor) => Some(actor.state()),
        }
    }
}

/// The act that a tell asks for.
#[inline(always)]
fn tell_of(effect: Effect) -> Act
    requires { is_tell effect ≡ true }
    ensures { act_of result ∷ [] ≡ stop_acts (effect ∷ []) }
{
    match effect {
        Effect::Tell { to, kind, value } => Act::Tell(to, Body::User { kind, value }),
        Effect::Control { to, kind, value } => Act::Tell(to, Body::Control { kind, value }),
        _ => unreachable!(),
    }
}
