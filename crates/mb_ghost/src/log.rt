//! A ghost list: contracts read it, and it takes no bytes.
ghost use Rattle.std.specs.Prelude.{◌≡◌, [], ◌∷◌, ◌++◌};

use std::marker::Model;
use std::mem;
use std::snapshot::Snapshot;

/// The items so far, the newest in front. It exists in snapshots alone.
#[derive(Drop)]
pub enum Past<T> {
    /// No item yet.
    Nothing,
    /// One item more, after those before it.
    Then(Snapshot<Past<T>>, T),
}

/// A list that grows at its end, for contracts alone. It takes no bytes.
pub struct Log<T> {
    past: Snapshot<Past<T>>,
}

// `Drop` is written by hand: with a derived one, each crate above would prove again how the fields are dropped.
impl<T: Drop> Drop for Log<T> {
    fn drop(self) {
        let Log { past: _ } = self;
    }
}

impl<T> Model for Log<T> {
    ghost use Rattle.std.specs.Prelude.{List};

    ghost Value = { List T };

    ghost use Rattle.mb_ghost.specs.Log.{listed};

    ghost view = { λ l. listed l.past.value };
}

impl<T: Drop> Log<T> {
    /// The empty list.
    #[inline]
    pub fn new() -> Log<T>
        ensures { result ≡ [] }
    {
        let past = Past::Nothing;
        Log {
            past: Snapshot::of(&past),
        }
    }

    /// Adds an item at the end.
    #[inline]
    pub fn add(&mut self, item: T)
        ensures { self.new ≡ self.old ++ item ∷ [] }
    {
        let nothing = Past::Nothing;
        let past = mem::replace(&mut self.past, Snapshot::of(&nothing));
        let past = Past::Then(past, item);
        self.past = Snapshot::of(&past);
    }
}
