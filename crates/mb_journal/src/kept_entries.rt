//! Entries that are kept, one after another.
ghost use Rattle.std.specs.Prelude.{◌≡◌, ◌+◌, ◌-◌, ◌^◌, ◌<◌, ◌≤◌, [], ◌∷◌, ◌++◌};
ghost use Rattle.std.specs.Prelude.{List, length, map, reverse, slice_get, slice_range, vec_len, vec_capacity, Some, IfOk, OnOk, OnErr};
ghost use Rattle.mb_msg.specs.Limits.{most_effects};
ghost use Rattle.mb_journal.specs.Entry.{newest_effects};
ghost use Rattle.mb_journal.specs.Stored as stored;
ghost use Rattle.mb_journal.specs.Rows.{needs, whole};
ghost use Rattle.mb_journal.specs.declared.entry.Received.{Received};
ghost use Rattle.mb_journal.specs.declared.row.Row.TheVariants.{Wide};
ghost use Rattle.mb_journal.specs.JournalView.{entry_of, entry_with};

use crate::entry::{EntryRef, Received};
use crate::row::Row;
use mb_actor::Effect;
use mb_msg::limits::EFFECTS;
use std::alloc::{AllocError, Global};
use std::marker::Model;

/// For how many more entries room is made at once at most.
const MOST_AT_ONCE: usize = 64;

/// Entries that are all kept.
// What most messages use comes first, so that it lies in few cache lines.
pub(crate) struct KeptEntries {
    rows: Vec<Row>,
    effects: Vec<Effect>,
    /// Up to this many entries there is room, each with as many effects as a call may ask for.
    places: usize,
    /// The entries that do not fit into a row.
    wide: Vec<Received>,
    /// For this many entries there is room once they are cleared, each with as many effects as a call may ask for.
    reserved: usize,
}

// `Drop` is written by hand: with a derived one, each crate above would prove again how the fields are dropped.
impl Drop for KeptEntries {
    fn drop(self) {
        let KeptEntries {
            rows: _,
            effects: _,
            places: _,
            wide: _,
            reserved: _,
        } = self;
    }
}

impl Model for KeptEntries {
    ghost use Rattle.std.specs.Prelude.{reverse};
    ghost use Rattle.mb_journal.specs.KeptEntriesView.{KeptEntriesView};

    ghost Value = { KeptEntriesView };

    ghost use Rattle.mb_journal.specs.Stored.{listed, rows_of, IsStored};

    ghost view = { λ j. record { entries = reverse (listed 0 (rows_of j) j.effects.items); places = j.places; reserved = j.reserved } };

    ghost invariant = { IsStored };
}

impl KeptEntries {
    /// No entries yet. This takes no memory.
    pub(crate) fn new(alloc: Global) -> Self
        ensures { result ≡ record { entries = []; places = 0; reserved = 0 } }
    {
        KeptEntries {
            rows: Vec::new(alloc),
            effects: Vec::new(alloc),
            places: 0,
            wide: Vec::new(alloc),
            reserved: 0,
        }
    }

    /// No entries yet, and room for this many. The only error: memory was refused.
    pub(crate) fn with_room(alloc: Global, places: usize) -> Result<Self, AllocError>
        requires { places < 2 ^ 32 }
        ensures { IfOk result (λ entries. entries ≡ record { entries = []; places = places; reserved = places }) }
    {
        Ok(KeptEntries {
            rows: Vec::with_capacity(alloc, places)?,
            effects: Vec::with_capacity(alloc, EFFECTS * places)?,
            places,
            wide: Vec::with_capacity(alloc, places)?,
            reserved: places,
        })
    }

    /// How many entries there are.
    #[inline(always)]
    pub(crate) fn len(&self) -> usize
        ensures { result ≡ length self.now.entries }
    {
        self.rows.len()
    }

    /// Takes all entries away. Their memory is left for others.
    pub(crate) fn clear(&mut self)
        ensures { self.new ≡ record { entries = []; places = self.old.reserved; reserved = self.old.reserved } }
    {
        self.rows.clear();
        self.effects.clear();
        self.wide.clear();
        self.places = self.reserved;
    }

    /// Makes room for some more entries, unless there is room already: the more of them, the more entries there are, so that this is
    /// seldom done.
    ///
    /// It answers up to how many entries there is room. The only error: memory was refused. Nothing has changed then.
    pub(crate) fn make_room(&mut self) -> Result<usize, AllocError>
        ensures places { IfOk result (λ places. self.new ≡ record self.old { places = places }) }
        ensures room { IfOk result (λ places. length self.new.entries < places) }
        ensures no_less { self.old.places ≤ self.new.places }
        ensures err { OnErr result (self.new ≡ self.old) }
    {
        let len = self.rows.len();
        if len < self.places {
            return Ok(self.places);
        }
        let more = (len / 4 + 1).min(MOST_AT_ONCE);
        reserve(&mut self.rows, more)?;
        reserve(&mut self.wide, more)?;
        reserve(&mut self.effects, EFFECTS * more)?;
        let rows = room_of(&self.rows).min(room_of(&self.wide));
        self.places = len + rows.min(room_of(&self.effects) / EFFECTS);
        Ok(self.places)
    }

    /// Adds an entry and its effects. There is room for them.
    #[inline(always)]
    pub(crate) fn push(&mut self, arrival: Received, effects: &[Effect])
        requires room { length self.old.entries < self.old.places }
        requires within_limit { length effects.now ≤ most_effects }
        ensures { self.new ≡ record self.old { entries = entry_with arrival effects.now ∷ self.old.entries } }
    {
        add_all(&mut self.effects, effects);
        let end = self.effects.len();
        self.rows
            .push_reserved(row_of(&mut self.wide, arrival, end));
    }

    /// The effect at this place of the newest entry's, counted from their end, where the last has place 1.
    #[inline(always)]
    pub(crate) fn newest_effect(&self, place: usize) -> Effect
        requires above_0 { 0 < place }
        requires within { place ≤ length (newest_effects self.now.entries) }
        ensures { slice_get (newest_effects self.now.entries) (length (newest_effects self.now.entries) - place) ≡ Some result }
    {
        self.effects[self.effects.len() - place]
    }

    /// The entry at this index, from 0.
    pub(crate) fn get(&self, index: usize) -> EntryRef<'_>
        requires { index < length self.now.entries }
        ensures { slice_get (reverse self.now.entries) index ≡ Some (entry_of result) }
    {
        let from = start_of(&self.rows, index);
        let row = self.rows[index];
        EntryRef {
            arrival: row.arrival(&self.wide),
            effects: part(&self.effects, from, row.end()),
        }
    }
}

/// For how many more items there is room.
fn room_of<T>(list: &Vec<T>) -> usize
    ensures { vec_len list.now + result ≡ vec_capacity list.now }
{
    list.capacity() - list.len()
}

/// Makes room for this many more items, unless there is room already.
///
/// A list of fewer than 32 items gets room for at least four times as many, and a longer one for 8,192 more, so that items
/// are seldom moved. Memory that is not written yet is mostly not taken from the machine.
fn reserve<T>(list: &mut Vec<T>, more: usize) -> Result<(), AllocError>
    requires { more ≤ 1_024 }
    ensures room { OnOk result (vec_len list.new + more ≤ vec_capacity list.new) }
    ensures no_less { vec_capacity list.old ≤ vec_capacity list.new }
    ensures same { (vec_len list.new ≡ vec_len list.old) × (list.new.items ≡ list.old.items) }
{
    if room_of(list) >= more {
        return Ok(());
    }
    let len = list.len();
    let further = if len < 32 { 3 * len } else { 8_192 };
    list.reserve(more + further)
}

/// Adds these effects. There is room for them.
#[inline(always)]
pub(crate) fn add_all(list: &mut Vec<Effect>, effects: &[Effect])
    requires { vec_len list.old + length effects.now ≤ vec_capacity list.old }
    ensures added { list.new.items ≡ list.old.items ++ effects.now }
    ensures more { vec_len list.new ≡ vec_len list.old + length effects.now }
    ensures room { vec_capacity list.new ≡ vec_capacity list.old }
{
    for effect in effects {
        list.push_reserved(*effect);
    }
}

/// The row of this entry, whose effects end there. An entry that does not fit into a row is added to the list beside the
/// rows. There is room for it.
#[inline(always)]
fn row_of(wide: &mut Vec<Received>, arrival: Received, end: usize) -> Row
    requires { vec_len wide.old < vec_capacity wide.old }
    ensures says { whole wide.new.items result ≡ record { arrival = arrival; end = end } }
    ensures there { needs result ≤ length wide.new.items }
    ensures kept { (more : List Received) × (wide.new.items ≡ wide.old.items ++ more) }
    ensures one { vec_len wide.new ≤ vec_len wide.old + 1 }
    ensures room { vec_capacity wide.new ≡ vec_capacity wide.old }
{
    match Row::of(arrival, end) {
        Some(row) => row,
        None => put_beside(wide, arrival, end),
    }
}

/// Adds this entry, whose effects end there, to the list beside the rows. There is room for it.
#[cold]
fn put_beside(wide: &mut Vec<Received>, arrival: Received, end: usize) -> Row
    requires { vec_len wide.old < vec_capacity wide.old }
    ensures place { result ≡ Wide (vec_len wide.old) end }
    ensures added { wide.new.items ≡ wide.old.items ++ arrival ∷ [] }
    ensures one { vec_len wide.new ≡ vec_len wide.old + 1 }
    ensures room { vec_capacity wide.new ≡ vec_capacity wide.old }
{
    let place = wide.len();
    wide.push_reserved(arrival);
    Row::Wide { place, end }
}

/// Where the effects of the row at this index begin.
fn start_of(rows: &[Row], index: usize) -> usize
    requires { index < length rows.now }
    ensures { (wide : List Received) → result ≡ stored.start_of 0 (map (whole wide) rows.now) index }
{
    if index == 0 { 0 } else { rows[index - 1].end() }
}

/// The effects from one index up to another.
fn part(effects: &[Effect], from: usize, to: usize) -> &[Effect]
    requires ordered { from ≤ to }
    requires within { to ≤ length effects.now }
    ensures { result.now ≡ slice_range effects.now from to }
{
    &effects[from..to]
}
