//! A list of which all items are kept, or the newest, or none.
ghost use Rattle.std.specs.Prelude.{◌≡◌, ◌⊎◌, ◌+◌, ◌-◌, ◌*◌, ◌^◌, ◌<◌, ◌≤◌, [], ◌∷◌, ◌++◌, true, false, length, drop};
ghost use Rattle.std.specs.Prelude.{vec_len, vec_capacity, IfOk, IsOk, OnOk, if◌then◌else◌};
ghost use Rattle.mb_dead_letters.specs.KeptList.{IsKeptAfter};

use mb_ghost::Log;
use std::alloc::{AllocError, Global};
use std::marker::Model;

/// A list that grows at its end. All its items are kept, so that they can be read, or the newest are, at least a given number; if that is 0, none
/// is. The items that are not kept stand in proofs alone.
///
/// A list that does not keep all takes all its memory when it is made: room for twice as many items as it keeps at least.
pub struct KeptList<T> {
    keeps_all: bool,
    last: usize,
    len: u64,
    kept: Vec<T>,
    all: Log<T>,
}

// `Drop` is written by hand: with a derived one, each crate above would prove again how the fields are dropped.
impl<T: Drop> Drop for KeptList<T> {
    fn drop(self) {
        let KeptList {
            keeps_all: _,
            last: _,
            len: _,
            kept: _,
            all: _,
        } = self;
    }
}

impl<T> Model for KeptList<T> {
    ghost use Rattle.std.specs.Prelude.{◌-◌, vec_len, vec_capacity, if◌then◌else◌};
    ghost use Rattle.mb_dead_letters.specs.KeptListView.{KeptListView, most_items};
    ghost use Rattle.mb_dead_letters.specs.KeptList.{IsKept};

    ghost Value = { KeptListView T };

    ghost view = { λ l. record {
      items = l.all;
      kept = l.kept.items;
      retention = record { keeps_all = l.keeps_all; last = l.last };
      room = if l.keeps_all then vec_capacity l.kept - vec_len l.kept else most_items - l.len;
    } };

    ghost invariant = { λ l. IsKept l.keeps_all l.last l.len (vec_capacity l.kept) l.kept.items l.all };
}

impl<T: Copy> KeptList<T> {
    /// An empty list that keeps all its items, or else at least the last so many.
    ///
    /// The only error: memory was refused. One that keeps all, or none, takes none.
    pub fn new(alloc: Global, keeps_all: bool, last: usize) -> Result<Self, AllocError>
        ensures made { IfOk result (λ list. list ≡ record { items = []; kept = []; retention = record { keeps_all = keeps_all; last = last }; room = list.room }) }
        ensures never_short { ((keeps_all ≡ true) ⊎ (last ≡ 0)) → IsOk result }
    {
        let places = places(keeps_all, last)?;
        Ok(KeptList {
            keeps_all,
            last,
            len: 0,
            kept: Vec::with_capacity(alloc, places)?,
            all: Log::new(),
        })
    }

    /// An empty list that keeps all its items. It takes no memory yet.
    pub fn keeping_all(alloc: Global) -> Self
        ensures { result ≡ record { items = []; kept = []; retention = record { keeps_all = true; last = 0 }; room = result.room } }
    {
        KeptList {
            keeps_all: true,
            last: 0,
            len: 0,
            kept: Vec::new(alloc),
            all: Log::new(),
        }
    }

    /// How many items it has, of which not all may be kept.
    pub fn len(&self) -> u64
        ensures { result ≡ length self.now.items }
    {
        self.len
    }

    /// Whether all its items are kept.
    pub fn is_kept(&self) -> bool
        ensures { result ≡ self.now.retention.keeps_all }
    {
        self.keeps_all
    }

    /// How many of the newest items it keeps at least, if it does not keep all.
    pub fn last(&self) -> usize
        ensures { result ≡ self.now.retention.last }
    {
        self.last
    }

    /// The items that are kept, in order: all, or the newest, at least as many as `last` says and at most twice as many.
    pub fn kept(&self) -> &[T]
        ensures value { result.now ≡ self.now.kept }
        ensures all { self.now.retention.keeps_all ≡ true → self.now.kept ≡ self.now.items }
        ensures newest { self.now.kept ≡ drop (length self.now.items - length self.now.kept) self.now.items }
        ensures within { length self.now.kept ≤ length self.now.items }
        ensures last { (self.now.retention.last ≤ length self.now.kept) ⊎ (self.now.kept ≡ self.now.items) }
        ensures most { self.now.retention.keeps_all ≡ false → length self.now.kept ≤ 2 * self.now.retention.last }
    {
        &self.kept
    }

    /// Makes room for so many more items. It answers `AllocError` if memory was refused, and then nothing has changed. A list that does not keep
    /// all asks for no memory: it answers `AllocError` only if it would have more than 2^64 - 1 items.
    pub fn reserve(&mut self, additional: usize) -> Result<(), AllocError>
        ensures room { OnOk result (additional ≤ self.new.room) }
        ensures same { self.new ≡ record self.old { room = self.new.room } }
        ensures grows { self.old.room ≤ self.new.room }
        ensures never_short { self.old.retention.keeps_all ≡ false → length self.old.items + additional < 2 ^ 64 → IsOk result }
    {
        if self.keeps_all {
            return self.kept.reserve(additional);
        }
        if u64::MAX - self.len < additional as u64 {
            return Err(AllocError);
        }
        Ok(())
    }

    /// Adds an item at the end. This takes no memory.
    pub fn push(&mut self, item: T)
        requires room { 0 < self.old.room }
        ensures items { self.new.items ≡ self.old.items ++ item ∷ [] }
        ensures room { self.old.room ≡ self.new.room + 1 }
        ensures same { self.new.retention ≡ self.old.retention }
        ensures within { length self.new.items < 2 ^ 64 }
    {
        keep(&mut self.kept, self.keeps_all, self.last, item);
        self.len += 1;
        self.all.add(item);
    }
}

/// How many items a list has room for when it is made. It answers `AllocError` if their number does not fit.
fn places(keeps_all: bool, last: usize) -> Result<usize, AllocError>
    ensures value { IfOk result (λ places. places ≡ (if keeps_all then 0 else 2 * last)) }
    ensures fits { ((keeps_all ≡ true) ⊎ (last ≡ 0)) → IsOk result }
{
    if keeps_all {
        return Ok(0);
    }
    if last > usize::MAX / 2 {
        return Err(AllocError);
    }
    Ok(2 * last)
}

/// Keeps one more item: beside all that are kept, or beside the newest.
fn keep<T: Copy>(kept: &mut Vec<T>, keeps_all: bool, last: usize, item: T)
    requires all { keeps_all ≡ true → vec_len kept.old < vec_capacity kept.old }
    requires newest { keeps_all ≡ false → (length kept.old.items ≤ 2 * last) × (2 * last ≤ vec_capacity kept.old) }
    ensures kept { IsKeptAfter keeps_all last item kept.old.items kept.new.items }
    ensures capacity { vec_capacity kept.new ≡ vec_capacity kept.old }
{
    if keeps_all {
        kept.push_reserved(item);
        return;
    }
    if last == 0 {
        return;
    }
    if kept.len() / 2 >= last {
        forget_oldest(kept, last);
    }
    kept.push_reserved(item);
}

/// Forgets the oldest so many items.
fn forget_oldest<T: Copy>(kept: &mut Vec<T>, number: usize)
    requires { number ≤ vec_len kept.old }
    ensures items { kept.new.items ≡ drop number kept.old.items }
    ensures capacity { vec_capacity kept.new ≡ vec_capacity kept.old }
{
    let left = kept.len() - number;
    kept.rotate_left(number);
    kept.truncate(left);
}
