//! What the check of a table knows of the rest of the document.
ghost use Rattle.std.specs.Prelude.{◌≡◌, ◌≤◌, length, map, take};
ghost use Rattle.mb_schema.specs.Context.{context_data, actor_entry_data, knows, knows_child, knows_earlier};

use crate::name::is_text;

/// An actor of the document, by its name and its parent's.
#[derive(Clone, Copy)]
pub struct ActorEntry<'a> {
    /// Its name; empty where it has none.
    pub name: &'a [u8],
    /// Its parent's name; empty where it is faulty.
    pub parent: &'a [u8],
}

/// What the check of a table knows of the rest of the document.
#[derive(Clone, Copy)]
pub struct Context<'a> {
    /// The actors.
    pub actor_entries: &'a [ActorEntry<'a>],
    /// How many of them come before the one that is checked.
    pub earlier: usize,
    /// The name of the one that is checked.
    pub own_name: &'a [u8],
}

impl Context<'_> {
    pub(crate) fn knows(&self, name: &[u8]) -> bool
        ensures { result ≡ knows (context_data self.now).actor_entries name.now }
    {
        has_name(self.actor_entries, name)
    }

    pub(crate) fn knows_earlier(&self, name: &[u8]) -> bool
        ensures { result ≡ knows_earlier (context_data self.now) name.now }
    {
        if self.earlier < self.actor_entries.len() {
            has_name(&self.actor_entries[..self.earlier], name)
        } else {
            has_name(self.actor_entries, name)
        }
    }

    /// Whether a child of the actor that is checked has the name.
    pub(crate) fn knows_child(&self, name: &[u8]) -> bool
        ensures { result ≡ knows_child (context_data self.now) name.now }
    {
        for actor_entries in self.actor_entries {
            if is_text(actor_entries.name, name) && is_text(actor_entries.parent, self.own_name) {
                return true;
            }
        }
        false
    }
}

fn has_name(actor_entries: &[ActorEntry<'_>], name: &[u8]) -> bool
    ensures { result ≡ knows (map actor_entry_data actor_entries.now) name.now }
{
    for one in actor_entries {
        if is_text(one.name, name) {
            return true;
        }
    }
    false
}
