//! The lists of system messages. Each is behind a gate, which is locked for one step and then opened again.
ghost use Rattle.std.specs.Prelude.{◌≡◌, ◌+◌, ◌^◌, ◌<◌, [], ◌∷◌};
ghost use Rattle.std.specs.Prelude.{false, true, None, IfErr, IfOk, IfSome, MatchBool, if◌then◌else◌, is_err};
ghost use Rattle.atomic_table.specs.Table.{rest};
ghost use Rattle.mb_syslist.specs.MessageList.{pushed, with_last};
ghost use Rattle.mb_gate.specs.View.{enlisting, refusing, draining, ending, looking};
ghost use Rattle.mb_gate.specs.Rule.{is_some_item};
ghost use Rattle.mb_gate.specs.Claims.{held_in};
ghost use Rattle.mb_gate.specs.NamedActors.{NamesBelow, EachNamesBelow};
ghost use Rattle.mb_gate.specs.ClaimCounts.{WasHeldBy};
ghost use Rattle.mb_gate.specs.TableSteps.{ListLocked};
ghost use Rattle.mb_gate.specs.Lists.{IsOut, HasClaim, HoldsList, IsNumberedFrom, may_lock_list};
ghost use Rattle.mb_gate.specs.ListWord.{is_locked, is_ended};
ghost use Rattle.mb_gate.specs.Accessors.{gates_id, pass_id, claim_id, actors_of, pass_view};
ghost use Rattle.mb_gate.specs.Accessors.{claim_view, held_actor, status_of, gave_last, given_to, IsRecorded, SameTaken};
ghost use Rattle.mb_gate.specs.ClaimSteps.{IsSameClaim, NotesDrained};

use crate::claim::Claim;
use crate::gates::Gates;
use crate::gates_rule::{CheckDrained, Drain, End, Enlist, LockList, Refuse};
use crate::layout::{GATE, LIST, slot_index, word_index};
use crate::list_word::ListWord;
use crate::mailbox_state::MailboxState;
use crate::pass::Pass;
use crate::seat_view::SeatView;
use crate::slot::Slot;
use atomic_table::Seat;
use mb_msg::{ActorId, SysMsg};
use mb_syslist::{Chain, ListClosed, Node, SysList};
use std::sync::Wait;
use std::thread;

impl<H: MailboxState> Gates<H> {
    // Tries once to take the list, where the gate shows this word. The list stays in its slot, which no other seat can see then.
    #[inline(always)]
    fn try_lock_list(&self, seat: &mut Seat<Slot<H>, SeatView>, id: ActorId, word: ListWord) -> bool
        requires same_gates { seat.old.table_id ≡ gates_id self.now }
        requires present { id.0 < actors_of self.now }
        requires in_slot { is_locked word.bits ≡ false }
        requires no_list { seat.old.me.0.list ≡ None }
        requires may_lock { may_lock_list id.0 seat.old.me.0 ≡ true }
        ensures same_gates { seat.new.table_id ≡ seat.old.table_id }
        ensures answer { MatchBool result (ListLocked id.0 word.bits seat.old.me seat.new.me) (seat.new.me ≡ seat.old.me) }
    {
        let gate = word_index(id, GATE);
        let found = self
            .table
            .shared
            .compare_exchange::<LockList>(seat, gate, word.bits, word.locked().bits);
        found == word.bits
    }

    // Tries once to note that a message found the list ended, where the gate shows this word.
    fn try_refuse(
        &self,
        seat: &mut Seat<Slot<H>, SeatView>,
        id: ActorId,
        word: ListWord,
        message: SysMsg,
    ) -> bool
        requires same_gates { seat.old.table_id ≡ gates_id self.now }
        requires present { id.0 < actors_of self.now }
        requires ended { is_ended word.bits ≡ true }
        ensures same_gates { seat.new.table_id ≡ seat.old.table_id }
        ensures answer { seat.new.me ≡ (if result then (refusing id.0 message seat.old.me.0, seat.old.me.1) else seat.old.me) }
        ensures held { result ≡ true → WasHeldBy id.0 seat.old.me.0 }
    {
        let gate = word_index(id, GATE);
        let note = Slot::Note(message);
        let found = self
            .table
            .shared
            .compare_exchange_with::<Refuse>(seat, gate, word.bits, word.bits, &note);
        found == word.bits
    }

    // Takes the list out, or notes that the message found it ended.
    fn lock_open_list<R: Wait>(
        &self,
        rt: &R,
        seat: &mut Seat<Slot<H>, SeatView>,
        id: ActorId,
        message: SysMsg,
    ) -> Option<ListWord>
        requires same_gates { seat.old.table_id ≡ gates_id self.now }
        requires present { id.0 < actors_of self.now }
        requires no_list { seat.old.me.0.list ≡ None }
        requires share { is_some_item seat.old.me.0.share ≡ true }
        ensures same_gates { seat.new.table_id ≡ seat.old.table_id }
        ensures refused { result ≡ None → seat.new.me ≡ (refusing id.0 message seat.old.me.0, seat.old.me.1) }
        ensures held { result ≡ None → WasHeldBy id.0 seat.old.me.0 }
        ensures lent { IfSome result (λ word. (locked : ListLocked id.0 word.bits seat.old.me seat.new.me) × (locked.listed.closed ≡ false)) }
    {
        for _ in rt.forever() {
            let word = ListWord::of(self.table.shared.peek(word_index(id, GATE)));
            if word.is_locked() {
                thread::yield_now();
            } else if word.is_ended() {
                if self.try_refuse(seat, id, word, message) {
                    return None;
                }
            } else if self.try_lock_list(seat, id, word) {
                return Some(word);
            }
        }
        unreachable!()
    }

    // Takes the list, which stays in its slot.
    fn lock_list<R: Wait>(
        &self,
        rt: &R,
        seat: &mut Seat<Slot<H>, SeatView>,
        id: ActorId,
    ) -> ListWord
        requires same_gates { seat.old.table_id ≡ gates_id self.now }
        requires present { id.0 < actors_of self.now }
        requires no_list { seat.old.me.0.list ≡ None }
        requires holder { HasClaim id.0 seat.old.me }
        ensures same_gates { seat.new.table_id ≡ seat.old.table_id }
        ensures answer { ListLocked id.0 result.bits seat.old.me seat.new.me }
    {
        for _ in rt.forever() {
            let word = ListWord::of(self.table.shared.peek(word_index(id, GATE)));
            if word.is_locked() {
                thread::yield_now();
            } else if self.try_lock_list(seat, id, word) {
                return word;
            }
        }
        unreachable!()
    }

    /// Puts a node last into the actor's list (`systemEnqueue`), and records that. It answers the message's number: how
    /// many were put into the list before. (After 2^64 - 1 messages it waits for ever.) A drain gives the message with
    /// this number. From now on the pass owes the actor a look at it. The call takes no memory, and may wait for the
    /// list's gate. The message has to name actors of these gates alone, so that who drains it can send to each that it
    /// names.
    ///
    /// It answers `ListClosed` with the same node if the list is ended, and records that too. For a pass that has taken in all
    /// others, or beside which there never was another, a list is ended only if this pass got a claim of its actor.
    pub fn sys_enqueue<R: Wait>(
        &self,
        rt: &R,
        pass: &mut Pass<H>,
        id: ActorId,
        node: Node,
    ) -> Result<u64, ListClosed>
        requires same_gates { pass_id pass.old ≡ gates_id self.now }
        requires present { id.0 < actors_of self.now }
        requires named { NamesBelow (actors_of self.now) node }
        ensures same_gates { pass_id pass.new ≡ pass_id pass.old }
        ensures listed { IfOk result (λ number. pass_view pass.new ≡ enlisting id.0 number node (pass_view pass.old)) }
        ensures ended { IfErr result (λ refused. (refused.0 ≡ node) × (pass_view pass.new ≡ refusing id.0 node (pass_view pass.old))) }
        ensures held { IfErr result (λ _. WasHeldBy id.0 (pass_view pass.old)) }
    {
        match self.lock_open_list(rt, &mut pass.seat, id, node.msg()) {
            Some(word) => Ok(self.enlist(rt, &mut pass.seat, id, word, node)),
            None => Err(ListClosed(node)),
        }
    }

    /// The same in the run of a claim, which is lent beside the pass: the message that was sent then stands in the claim's
    /// record (this project's own profile).
    pub fn sys_enqueue_in_run<R: Wait>(
        &self,
        rt: &R,
        pass: &mut Pass<H>,
        claim: &mut Claim<H>,
        id: ActorId,
        node: Node,
    ) -> Result<u64, ListClosed>
        requires same_gates { pass_id pass.old ≡ gates_id self.now }
        requires present { id.0 < actors_of self.now }
        requires named { NamesBelow (actors_of self.now) node }
        ensures same_gates { pass_id pass.new ≡ pass_id pass.old }
        ensures listed { IfOk result (λ number. pass_view pass.new ≡ enlisting id.0 number node (pass_view pass.old)) }
        ensures ended { IfErr result (λ refused. (refused.0 ≡ node) × (pass_view pass.new ≡ refusing id.0 node (pass_view pass.old))) }
        ensures recorded { IsRecorded claim.old claim.new (record { to = id.0; message = node; was_ended = is_err result }) }
    {
        let message = node.msg();
        let answer = self.sys_enqueue(rt, pass, id, node);
        claim.sent_log.add(id, message, answer.is_err());
        answer
    }

    // Puts the node last into the list that was taken, and gives the list back. It waits for ever where the list has taken
    // 2^64 - 1 messages: no run comes there, and so no two messages have the same number.
    fn enlist<R: Wait>(
        &self,
        rt: &R,
        seat: &mut Seat<Slot<H>, SeatView>,
        id: ActorId,
        word: ListWord,
        node: Node,
    ) -> u64
        requires same_gates { seat.old.table_id ≡ gates_id self.now }
        requires present { id.0 < actors_of self.now }
        requires lent { (out : IsOut id.0 word.bits seat.old.me) × (out.listed.closed ≡ false) }
        requires named { NamesBelow (actors_of self.now) node }
        ensures same_gates { seat.new.table_id ≡ seat.old.table_id }
        ensures listed { seat.new.me ≡ (enlisting id.0 result node seat.old.me.0, rest seat.old.me.1) }
    {
        let number = match seat.slot_mut(&self.table.shared, slot_index(id, LIST)) {
            Slot::List(list) => push_last(rt, list, node),
            _ => unreachable!(),
        };
        let gate = word_index(id, GATE);
        let new = word.with_listed();
        self.table.shared.store::<Enlist>(seat, gate, new.bits);
        number
    }

    // Whether nothing is listed and the last drain gave nothing, by the gate's word: then this load counts as a drain that
    // gives nothing, else as a look that found work.
    fn is_drained(&self, seat: &mut Seat<Slot<H>, SeatView>, id: ActorId) -> bool
        requires same_gates { seat.old.table_id ≡ gates_id self.now }
        requires present { id.0 < actors_of self.now }
        requires holder { HasClaim id.0 seat.old.me }
        requires no_list { seat.old.me.0.list ≡ None }
        ensures same_gates { seat.new.table_id ≡ seat.old.table_id }
        ensures known { seat.new.me ≡ (if result then (draining id.0 [] false seat.old.me.0, seat.old.me.1) else (looking id.0 true seat.old.me.0, seat.old.me.1)) }
    {
        let gate = word_index(id, GATE);
        let bits = self.table.shared.load::<CheckDrained>(seat, gate);
        ListWord::of(bits).is_drained()
    }

    // Takes all out of the list that was taken, and gives the list back.
    fn drain_list(&self, seat: &mut Seat<Slot<H>, SeatView>, id: ActorId, word: ListWord) -> Chain
        requires same_gates { seat.old.table_id ≡ gates_id self.now }
        requires present { id.0 < actors_of self.now }
        requires holds_list { HoldsList id.0 word.bits seat.old.me }
        ensures same_gates { seat.new.table_id ≡ seat.old.table_id }
        ensures drained { seat.new.me ≡ (draining id.0 result (is_some_item result) seat.old.me.0, rest seat.old.me.1) }
        ensures numbers { IsNumberedFrom (held_in seat.old.me.0).given result }
        ensures named { EachNamesBelow (actors_of self.now) result }
    {
        let chain = match seat.slot_mut(&self.table.shared, slot_index(id, LIST)) {
            Slot::List(list) => list.drain(),
            _ => unreachable!(),
        };
        let gate = word_index(id, GATE);
        let new = word.with_drained(chain.is_empty());
        self.table.shared.store::<Drain>(seat, gate, new.bits);
        chain
    }

    // Takes all out of the list that was taken, and gives the list back ended.
    fn end_list(&self, seat: &mut Seat<Slot<H>, SeatView>, id: ActorId, word: ListWord) -> Chain
        requires same_gates { seat.old.table_id ≡ gates_id self.now }
        requires present { id.0 < actors_of self.now }
        requires holds_list { HoldsList id.0 word.bits seat.old.me }
        requires closed { (held_in seat.old.me.0).word ≡ 1 }
        ensures same_gates { seat.new.table_id ≡ seat.old.table_id }
        ensures drained { seat.new.me ≡ (ending id.0 result (held_in seat.old.me.0).gave seat.old.me.0, rest seat.old.me.1) }
        ensures numbers { IsNumberedFrom (held_in seat.old.me.0).given result }
        ensures named { EachNamesBelow (actors_of self.now) result }
    {
        let chain = match seat.slot_mut(&self.table.shared, slot_index(id, LIST)) {
            Slot::List(list) => list.close(),
            _ => unreachable!(),
        };
        let gate = word_index(id, GATE);
        let new = word.with_ended();
        self.table.shared.store::<End>(seat, gate, new.bits);
        chain
    }

    /// Whether nothing is listed of the claim's actor and the last drain gave nothing (`systemQueue` that is empty). It is one
    /// load, and answers by what that shows: the load counts as a drain that gives nothing, as by `sys_drain`, or stands in
    /// what the claim saw as a look that found work. A list that is out counts as work too. It waits for nobody.
    #[inline]
    pub fn sys_is_drained(&self, claim: &mut Claim<H>) -> bool
        requires same_gates { claim_id claim.old ≡ gates_id self.now }
        requires present { held_actor claim.old < actors_of self.now }
        ensures same_claim { IsSameClaim claim.old claim.new }
        ensures known { result ≡ true → claim_view claim.new ≡ draining (held_actor claim.old) [] false (claim_view claim.old) }
        ensures looked { result ≡ false → claim_view claim.new ≡ looking (held_actor claim.old) true (claim_view claim.old) }
        ensures noted { result ≡ true → NotesDrained claim.old claim.new [] false }
        ensures unchanged { result ≡ false → SameTaken claim.old claim.new }
    {
        self.is_drained(&mut claim.seat, claim.actor)
    }

    /// Takes all system messages that are listed out of the list of the claim's actor, the earliest first, with their numbers,
    /// which go on from how many were given before (`systemDrain`). Each names actors of these gates alone. It takes no memory,
    /// and may wait for the list's gate. `sys_is_drained` says first, in one load, whether there is anything to drain.
    pub fn sys_drain<R: Wait>(&self, rt: &R, claim: &mut Claim<H>) -> Chain
        requires same_gates { claim_id claim.old ≡ gates_id self.now }
        requires present { held_actor claim.old < actors_of self.now }
        ensures same_claim { IsSameClaim claim.old claim.new }
        ensures known { claim_view claim.new ≡ draining (held_actor claim.old) result (is_some_item result) (claim_view claim.old) }
        ensures numbers { IsNumberedFrom (given_to claim.old) result }
        ensures named { EachNamesBelow (actors_of self.now) result }
        ensures noted { NotesDrained claim.old claim.new result (is_some_item result) }
    {
        let word = self.lock_list(rt, &mut claim.seat, claim.actor);
        self.drain_list(&mut claim.seat, claim.actor, word)
    }

    /// Takes out all that is listed, as `sys_drain` does, and ends the list for good (`systemDrain` that leaves no list). The
    /// claim's actor has to be closed.
    pub fn sys_close<R: Wait>(&self, rt: &R, claim: &mut Claim<H>) -> Chain
        requires same_gates { claim_id claim.old ≡ gates_id self.now }
        requires present { held_actor claim.old < actors_of self.now }
        requires closed { (status_of claim.old).closed ≡ true }
        ensures same_claim { IsSameClaim claim.old claim.new }
        ensures known { claim_view claim.new ≡ ending (held_actor claim.old) result (gave_last claim.old) (claim_view claim.old) }
        ensures numbers { IsNumberedFrom (given_to claim.old) result }
        ensures named { EachNamesBelow (actors_of self.now) result }
        ensures noted { NotesDrained claim.old claim.new result (gave_last claim.old) }
    {
        let shown = self.lock_list(rt, &mut claim.seat, claim.actor);
        self.end_list(&mut claim.seat, claim.actor, shown)
    }
}

// Puts the node last into this list, and answers its number. It waits for ever where the list has taken 2^64 - 1 messages.
#[inline(always)]
fn push_last<R: Wait>(rt: &R, list: &mut SysList, node: Node) -> u64
    requires not_ended { list.old.closed ≡ false }
    ensures list { list.new ≡ with_last list.old node }
    ensures number { result ≡ pushed list.old }
    ensures not_full { pushed list.old + 1 < 2 ^ 64 }
{
    if list.is_full() {
        for _ in rt.forever() {
            thread::yield_now();
        }
        unreachable!()
    }
    match list.push(node) {
        Ok(number) => number,
        Err(_) => unreachable!(),
    }
}
