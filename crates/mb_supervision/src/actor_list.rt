//! Lists of actors without repetition, changed in place.

ghost use Rattle.std.specs.Prelude.{◌≡◌, ◌+◌, ◌<◌, ◌≤◌, vec_len, vec_capacity};
ghost use Rattle.mb_actor.specs.ActorList.{has as holds};
ghost use Rattle.mb_journal.specs.ActorList.{joined, without};

use mb_msg::ActorId;

/// Whether the actor is in the list.
pub(crate) fn has(list: &[ActorId], id: ActorId) -> bool
    ensures { result ≡ holds list.now id }
{
    list.iter().any(|other| id.0 == other.0)
}

/// Puts the actor at the end, unless it is in the list.
pub(crate) fn join(list: &mut Vec<ActorId>, id: ActorId)
    requires { vec_len list.old < vec_capacity list.old }
    ensures items { list.new.items ≡ joined list.old.items id }
    ensures one_more { vec_len list.new ≤ vec_len list.old + 1 }
    ensures capacity { vec_capacity list.old ≤ vec_capacity list.new }
{
    if !has(list, id) {
        list.push(id).unwrap();
    }
}

/// Takes the actor out, if it is in the list.
pub(crate) fn leave(list: &mut Vec<ActorId>, id: ActorId)
    ensures items { list.new.items ≡ without list.old.items id }
    ensures no_more { vec_len list.new ≤ vec_len list.old }
    ensures capacity { vec_capacity list.old ≤ vec_capacity list.new }
{
    list.retain(|other| id.0 != other.0);
}
