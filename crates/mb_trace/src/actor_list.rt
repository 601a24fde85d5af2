//! Lists of actors, changed in place.
ghost use Rattle.std.specs.Prelude.{◌≡◌, ◌≤◌, vec_capacity, vec_len};
ghost use Rattle.mb_actor.specs.ActorList.{has as holds};
ghost use Rattle.mb_journal.specs.ActorList.{without};
ghost use Rattle.mb_journal.specs.Life.{is_alone as spec_is_alone};

use mb_msg::ActorId;

/// Whether the actor is in the list.
pub(crate) fn has(list: &[ActorId], id: ActorId) -> bool
    ensures { result ≡ holds list.now id }
{
    list.iter().any(|other| id.0 == other.0)
}

/// Whether the list is this actor alone.
pub(crate) fn is_alone(list: &[ActorId], id: ActorId) -> bool
    ensures { result ≡ spec_is_alone list.now id }
{
    match list {
        [only] => only.0 == id.0,
        _ => false,
    }
}

/// Takes the actor out, if it is in the list.
pub(crate) fn leave(list: &mut Vec<ActorId>, id: ActorId)
    ensures items { list.new.items ≡ without list.old.items id }
    ensures no_more { vec_len list.new ≤ vec_len list.old }
    ensures capacity { vec_capacity list.old ≤ vec_capacity list.new }
{
    list.retain(|other| id.0 != other.0);
}
