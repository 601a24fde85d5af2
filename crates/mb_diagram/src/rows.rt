//! The rows of a picture.
ghost use Rattle.std.specs.Prelude.{◌≡◌, IsTrue};
ghost use Rattle.mb_journal.specs.Entry.{is_failed};
ghost use Rattle.mb_diagram.specs.Rows as spec;

use crate::alike::{is_like_entry, is_like_letter};
use crate::label::body_of;
use crate::letter_order::{PlacedLetter, letters_in_order};
use crate::picture::{Picture, PictureEntry};
use crate::sent::SentEnvelopes;
use crate::sources::Sources;
use crate::words::Outcome;
use mb_actor::Answer;
use mb_journal::Received;
use mb_msg::{DeadLetter, SysMsg};
use std::alloc::{AllocError, Global};

/// Entries that follow one another and differ in their numbers and values alone.
#[derive(Clone, Copy)]
pub(crate) struct Row<'a> {
    /// The first.
    pub(crate) shown: PictureEntry<'a>,
    /// The last.
    pub(crate) last: PictureEntry<'a>,
    /// Whether they have one value.
    pub(crate) has_one_value: bool,
    /// Who sent it, if that is known.
    pub(crate) source: Option<u32>,
    /// How many they are.
    pub(crate) times: u64,
}

/// Dead letters that follow one another and differ in their numbers and values alone.
#[derive(Clone, Copy)]
pub(crate) struct LetterRow {
    /// The first.
    pub(crate) letter: DeadLetter,
    /// The last.
    pub(crate) last: DeadLetter,
    /// Whether they have one value.
    pub(crate) has_one_value: bool,
    /// How many they are.
    pub(crate) times: u64,
}

/// A row of a picture.
#[derive(Clone, Copy)]
pub(crate) enum DrawnRow<'a> {
    /// One of entries.
    Entries(Row<'a>),
    /// One of dead letters.
    Letters(LetterRow),
}

/// All rows, from top to bottom.
#[derive(Drop)]
pub(crate) struct Rows<'a> {
    /// The actors that the guardian created and that started, and the guardian itself: one row, above the others.
    pub(crate) created: Vec<u32>,
    /// The others: one for each entry and each dead letter, or for some that are alike.
    pub(crate) rows: Vec<DrawnRow<'a>>,
}

impl<'a> Rows<'a> {
    /// The rows of a picture. A dead letter stands behind the entry that sent it.
    pub(crate) fn of(
        alloc: Global,
        picture: &Picture<'a>,
        sent: &SentEnvelopes,
    ) -> Result<Self, AllocError> {
        let sources = Sources::new(alloc, picture.report)?;
        let letters = letters_in_order(alloc, picture, sent)?;
        let mut next_letter = 0;
        let mut rows = Rows {
            created: Vec::new(alloc),
            rows: Vec::new(alloc),
        };
        for (place, entry) in picture.entries.iter().enumerate() {
            next_letter = rows.add_letters(&letters, next_letter, place)?;
            let source = sources.of(picture, place, entry);
            if entry.is_shown {
                rows.add(*entry, source)?;
            }
        }
        let _ = rows.add_letters(&letters, next_letter, usize::MAX)?;
        Ok(rows)
    }

    /// Adds the dead letters from this one on that stand behind no more than so many entries. The answer is which one comes next.
    fn add_letters(
        &mut self,
        letters: &[PlacedLetter],
        first: usize,
        entries: usize,
    ) -> Result<usize, AllocError> {
        let mut next = first;
        for letter in letters.iter().skip(first) {
            if letter.place > entries {
                break;
            }
            self.add_letter(letter.letter)?;
            next = next.saturating_add(1);
        }
        Ok(next)
    }

    /// Adds an entry to the row of those that were created, to the last row, or in a row of its own.
    fn add(&mut self, shown: PictureEntry<'a>, source: Option<u32>) -> Result<(), AllocError> {
        if is_plain_create(&shown, source) {
            self.created.push(u32::from(shown.actor.0))?;
            return Ok(());
        }
        if let Some(DrawnRow::Entries(last)) = self.rows.last_mut() {
            if is_alike(last, &shown, source) {
                last.add(shown);
                return Ok(());
            }
        }
        self.rows.push(DrawnRow::Entries(Row {
            shown,
            last: shown,
            has_one_value: true,
            source,
            times: 1,
        }))?;
        Ok(())
    }

    fn add_letter(&mut self, letter: DeadLetter) -> Result<(), AllocError> {
        if let Some(DrawnRow::Letters(last)) = self.rows.last_mut() {
            if is_like_letter(&last.letter, &letter) {
                last.add(letter);
                return Ok(());
            }
        }
        self.rows.push(DrawnRow::Letters(LetterRow {
            letter,
            last: letter,
            has_one_value: true,
            times: 1,
        }))?;
        Ok(())
    }
}

impl LetterRow {
    /// Adds a dead letter that is like the first.
    fn add(&mut self, letter: DeadLetter) {
        let is_same = self.letter.envelope.body == letter.envelope.body;
        self.has_one_value = self.has_one_value && is_same;
        self.last = letter;
        self.times = self.times.saturating_add(1);
    }
}

impl<'a> Row<'a> {
    /// Adds an entry that is like the first.
    fn add(&mut self, entry: PictureEntry<'a>) {
        let is_same = body_of(self.shown.entry.arrival) == body_of(entry.entry.arrival);
        self.has_one_value = self.has_one_value && is_same;
        self.last = entry;
        self.times = self.times.saturating_add(1);
    }
    /// Whether it is one of an envelope.
    pub(crate) fn is_user(&self) -> bool {
        is_user(self.shown.entry.arrival)
    }

    /// Whether the actor began again.
    pub(crate) fn is_restart(&self) -> bool {
        match self.shown.entry.arrival {
            Received::System {
                answer: Some(_),
                message,
                ..
            } => may_restart(message),
            _ => false,
        }
    }
}

fn may_restart(message: SysMsg) -> bool {
    match message {
        SysMsg::Recreate(_) | SysMsg::Resume { .. } => true,
        _ => false,
    }
}

/// Whether it is an envelope.
fn is_user(came: Received) -> bool {
    match came {
        Received::Handled { .. } | Received::Dropped { .. } => true,
        Received::System { .. } | Received::SetAside { .. } => false,
    }
}

/// The class of the row of an entry in a picture, and of its line in a page.
pub(crate) fn class_of(came: Received) -> &'static str {
    match (is_user(came), is_failure(came)) {
        (true, true) => "user failure",
        (true, false) => "user",
        (false, true) => "system failure",
        (false, false) => "system",
    }
}

/// Whether the actor failed, is told of a failure, or is restarted or resumed after one.
fn is_failure(came: Received) -> bool {
    Outcome::of(came).is_failure() || tells_of_failure(came)
}

fn tells_of_failure(came: Received) -> bool {
    match came {
        Received::System { message, .. } | Received::SetAside { message, .. } => match message {
            SysMsg::Failed(_, _) | SysMsg::Recreate(_) | SysMsg::Resume { of_failure: true } =>
                true,
            _ => false,
        },
        _ => false,
    }
}

/// Whether this is the first entry of its journal, a Create from the guardian or the guardian's own, and it did not fail. A Create behind
/// another message has a row of its own, so that each journal is drawn in its order.
fn is_plain_create(shown: &PictureEntry<'_>, source: Option<u32>) -> bool
    ensures { result ≡ spec.is_in_created_row shown.now source }
{
    match shown.entry.arrival {
        Received::System {
            answer,
            message: SysMsg::Create,
            ..
        } => shown.index == 0 && is_from_guardian(source) && !has_failed(answer),
        _ => false,
    }
}

/// Whether the guardian sent it, or nobody is known to have.
fn is_from_guardian(source: Option<u32>) -> bool
    ensures { result ≡ spec.is_from_guardian source }
{
    match source {
        None => true,
        Some(id) => id == 0,
    }
}

fn has_failed(answer: Option<Answer>) -> bool
    ensures { result ≡ is_failed answer }
{
    match answer {
        Some(Answer::Failed(_)) => true,
        _ => false,
    }
}

/// Whether an entry is like those of a row but for its numbers and values.
fn is_alike(row: &Row<'_>, shown: &PictureEntry<'_>, source: Option<u32>) -> bool
    ensures { IsTrue result → spec.AreOneRow row.now.shown shown.now row.now.source source }
{
    row.source == source
        && row.shown.actor == shown.actor
        && is_like_entry(&row.shown.entry, &shown.entry)
}
