//! The laws of the queries of a journal: what is in each, by the newest entry or effect that speaks of it.
ghost use Rattle.std.specs.Prelude.{◌≡◌, ℕ, ◌≤◌, not, if◌then◌else◌, List, [], ◌∷◌, filter};
ghost use Rattle.mb_msg.specs.declared.id.ActorId.{ActorId};
ghost use Rattle.mb_msg.specs.declared.system.SysMsg.{SysMsg};
ghost use Rattle.mb_journal.specs.Aside.{aside};
ghost use Rattle.mb_journal.specs.Effects.{applies};
ghost use Rattle.mb_journal.specs.Entry.{Entry, Outcome};
ghost use Rattle.mb_journal.specs.Entry.Entry.{System};
ghost use Rattle.mb_journal.specs.Entry.Outcome.{SetAside};
ghost use Rattle.mb_actor.specs.ActorList.{is_same};
ghost use Rattle.mb_journal.specs.Events.{events, is_died_of, watching_says, due_says};
ghost use Rattle.mb_journal.specs.Failure.{failed};
ghost use Rattle.mb_journal.specs.Identity.{Identity};
ghost use Rattle.mb_journal.specs.Lawful.{IsLawful};
ghost use Rattle.mb_journal.specs.Life.{children, spawned, closed};
ghost use Rattle.mb_journal.specs.Members.{members_in_order, watcher_of, watched_by, died_while_watched};
ghost use Rattle.mb_journal.specs.Newest.{joins, newest, times_in, once_if, watcher_says};
ghost use Rattle.mb_journal.specs.NewestFailure.{newest_where, decides_failure, decided_failure};
ghost use Rattle.mb_journal.specs.Remaining.{remaining, set_aside_by, applies_number, all_set_aside, was_applied};
ghost use Rattle.mb_journal.specs.Waiting.{HasToWait};
ghost use Rattle.mb_journal.specs.Watching.{watchers, watching, due};

use mb_actor::Behaviours;

/// A law: an actor is among the watchers, once, if the newest applied Watch or Unwatch of it is a Watch. Else it is not.
pub fn watchers_by_newest()
    ensures { (journal : List Entry) (x : ActorId) → times_in (watchers journal) x ≡ once_if (joins (newest (watcher_says x) journal)) }
{}

/// A law: another actor is among those that the actor watches, once, if the newest among its `watch`, its `unwatch`, its
/// Died that was applied and the ending is the `watch`. Else it is not, and the actor itself never is.
pub fn watching_by_newest()
    ensures { (who : Identity) (journal : List Entry) (x : ActorId)
        → times_in (watching who journal) x ≡ (if is_same who.this x then 0 else once_if (joins (newest (watching_says x) (events journal)))) }
{}

/// A law: an actor is among those whose end is still to be told, once, if the newest among its Died that was applied while
/// it was watched, its `unwatch`, its handled Terminated and the ending is that Died. Else it is not.
pub fn due_by_newest()
    ensures { (who : Identity) (journal : List Entry) (x : ActorId)
        → times_in (due who journal) x ≡ once_if (joins (newest (due_says who x) (events journal))) }
{}

/// A law: by whom the actor is failed is decided by the newest among its failures, restarts, Resumes for its failure while
/// Live, and an ending that waits for children. Without these, after a restart without failure, or after such a Resume it is
/// nobody. After an escalation it is that child, and else the actor itself.
pub fn failed_by_newest()
    ensures { (who : Identity) (journal : List Entry)
        → failed who journal ≡ decided_failure who (newest_where (decides_failure who) journal) }
{}

/// A law: the children are those that the entries start, in order, without those whose Died a later entry applies.
pub fn children_in_order()
    ensures { (who : Identity) (journal : List Entry)
        → children who journal ≡ remaining (spawned who) (λ x. applies (is_died_of x)) [] journal }
{}

/// A law: the messages that are set aside are those that the entries set aside, in order, without those whose number a
/// later entry applies. An actor that ended has none.
pub fn aside_in_order()
    ensures { (who : Identity) (journal : List Entry)
        → aside who journal
        ≡ (if closed who journal then [] else remaining (λ e before. set_aside_by e) (λ m. applies_number m.0) [] journal) }
{}

/// A law: the watchers are in order of joining. They are those whose Watch was applied, in order, without those whose
/// Unwatch was applied later. Who watches already does not join again.
pub fn watchers_in_order()
    ensures { (journal : List Entry) → watchers journal ≡ members_in_order watcher_of watcher_says journal }
{}

/// A law: so are those that the actor watches.
pub fn watching_in_order()
    ensures { (who : Identity) (journal : List Entry)
        → watching who journal ≡ members_in_order (watched_by who.this) watching_says (events journal) }
{}

/// A law: so are those whose end is still to be told.
pub fn due_in_order()
    ensures { (who : Identity) (journal : List Entry)
        → due who journal ≡ members_in_order (died_while_watched who) (due_says who) (events journal) }
{}

/// A law: in a lawful journal the messages that are set aside are those that some entry sets aside and none applies.
pub fn aside_is_unapplied<K: Behaviours>()
    ensures { (who : Identity) (journal : List Entry) → IsLawful who (K.gives who.this.0) journal
        → aside who journal
        ≡ (if closed who journal then [] else filter (λ m. not (was_applied journal m.0)) (all_set_aside journal)) }
{}

/// A law: in a lawful journal each child stands at most as often as it was prepared, so once if it was prepared once.
pub fn children_each_once<K: Behaviours>()
    ensures { (who : Identity) (journal : List Entry) (x : ActorId) → IsLawful who (K.gives who.this.0) journal
        → times_in (children who journal) x ≤ times_in who.prepared x }
{}

/// A law: a system message of a lawful journal is set aside exactly if it has to wait.
pub fn aside_has_to_wait<K: Behaviours>()
    ensures { (who : Identity) (before : List Entry) (number : ℕ) (m : SysMsg) (outcome : Outcome)
        → IsLawful who (K.gives who.this.0) (System number m outcome ∷ before)
        → (outcome ≡ SetAside → HasToWait who before m) × (HasToWait who before m → outcome ≡ SetAside) }
{}
