//! The lanes of a picture: a vertical line for each who sends or receives.
use crate::picture::Picture;
use crate::rows::{DrawnRow, Rows};
use crate::words::width_of;
use mb_actor::Phase;
use mb_msg::limits::{ACTORS, OUTSIDE_SENDERS};
use std::alloc::{AllocError, Global};

/// The lanes, from left to right: the senders outside, the guardian, the actors.
#[derive(Drop)]
pub(crate) struct Lanes {
    /// The number of each as a sender, which is an actor's own.
    pub(crate) ids: Vec<u32>,
    /// How much room the widest name needs, or the longest state.
    pub(crate) widest: u64,
}

impl Lanes {
    /// The lanes of those who send or receive what is shown, or to whom something is left.
    pub(crate) fn of(
        alloc: Global,
        picture: &Picture<'_>,
        rows: &Rows<'_>,
    ) -> Result<Self, AllocError> {
        let most = ACTORS + OUTSIDE_SENDERS;
        let mut used = vec![in alloc; false; most as usize]?;
        mark_rows(&mut used, rows);
        for (id, actor) in picture.report.actors.iter().enumerate() {
            if !actor.left.is_empty() {
                mark(&mut used, id as u32);
            }
        }
        let mut lanes = Lanes {
            ids: Vec::new(alloc),
            widest: 0,
        };
        for id in ACTORS..most {
            lanes.add(&used, picture.names, id)?;
        }
        for id in 0..ACTORS {
            lanes.add(&used, picture.names, id)?;
        }
        lanes.widest = lanes.widest.max(widest_state(picture));
        Ok(lanes)
    }

    /// Adds the lane of this number if it is used.
    fn add(&mut self, used: &[bool], names: &[String], id: u32) -> Result<(), AllocError> {
        if used.get(id as usize).copied() == Some(true) {
            self.ids.push(id)?;
            self.widest = self.widest.max(width_of(names, id));
        }
        Ok(())
    }

    /// Which lane this number has; the first, where it has none.
    pub(crate) fn position(&self, id: u32) -> usize {
        self.ids.iter().position(|lane| *lane == id).unwrap_or(0)
    }
}

fn mark_rows(used: &mut Vec<bool>, rows: &Rows<'_>) {
    for id in &rows.created {
        mark(used, 0);
        mark(used, *id);
    }
    for row in &rows.rows {
        match row {
            DrawnRow::Entries(row) => {
                mark(used, u32::from(row.shown.actor.0));
                if let Some(source) = row.source {
                    mark(used, source);
                }
            }
            DrawnRow::Letters(row) => {
                mark(used, row.letter.envelope.by.0);
                mark(used, u32::from(row.letter.envelope.to.0));
            }
        }
    }
}

fn mark(used: &mut Vec<bool>, id: u32) {
    if let Some(place) = used.get_mut(id as usize) {
        *place = true;
    }
}

/// The row at which this actor's lane ends: that of its last entry, if it has ended.
pub(crate) fn last_row(picture: &Picture<'_>, rows: &Rows<'_>, id: u32) -> Option<usize> {
    let actor = picture.report.actors.get(id as usize)?;
    if actor.phase != Phase::Ended {
        return None;
    }
    let mut last = None;
    for (index, row) in rows.rows.iter().enumerate() {
        if let DrawnRow::Entries(row) = row {
            if u32::from(row.shown.actor.0) == id {
                last = Some(index);
            }
        }
    }
    last
}

/// How much room a state may need: more than most names, where a state is great.
fn widest_state(picture: &Picture<'_>) -> u64 {
    let is_small = picture.report.actors.iter().all(|actor| match actor.state {
        None => true,
        Some(state) => state > -100_000_000 && state < 1_000_000_000,
    });
    if is_small { 0 } else { 180 }
}
