//! Where things stand in a picture, in its units.
use crate::lanes::Lanes;
use crate::order::EntryOrder;
use crate::room::Room;
use crate::rows::Rows;

/// The height of a row.
pub(crate) const ROW: u64 = 28;
/// Where the boxes with the names begin where no line stands above them, and how high they are.
const HEAD: u64 = 16;

pub(crate) const BOX: u64 = 28;
/// The height of the line above the boxes, and of its letters.
const NOTE: u64 = 20;
/// The height of the foot without names, and of the legend.
pub(crate) const FOOT: u64 = 72;

pub(crate) const LEGEND: u64 = 126;
/// With more rows than this the names stand at the foot again.
const TALL: u64 = 24;
/// The least room on the left of all words, and on the right.
pub(crate) const MARGIN: u64 = 12;
/// The least width, for the legend.
const LEAST_WIDTH: u64 = 700;
/// From one lane to the next at most.
const MOST_SPACING: u64 = 500;

/// Where things stand.
#[derive(Clone, Copy)]
pub(crate) struct Geometry {
    /// Where the boxes with the names begin.
    head: u64,
    left: u64,
    /// The room of a name.
    name: u64,
    /// From one lane to the next.
    spacing: u64,
    lanes: u64,
    created: u64,
    rows: u64,
    /// Where the last words end.
    words_end: u64,
}

impl Geometry {
    pub(crate) fn of(lanes: &Lanes, rows: &Rows<'_>, order: EntryOrder) -> Self {
        let name = name_room(lanes);
        Geometry {
            head: head_of(order),
            left: side_of(name),
            name,
            spacing: name,
            lanes: lanes.ids.len() as u64,
            created: if rows.created.is_empty() { 0 } else { 1 },
            rows: rows.rows.len() as u64,
            words_end: 0,
        }
    }

    /// The same with lanes at least so far apart, up to the most.
    pub(crate) fn with_spacing(self, needed: u64) -> Self {
        let spacing = self.spacing.max(needed.min(MOST_SPACING));
        Geometry { spacing, ..self }
    }

    /// The same with room for all words.
    pub(crate) fn with_room(self, room: Room) -> Self {
        Geometry {
            left: self.left.saturating_add(room.missing),
            words_end: room.end.saturating_add(room.missing),
            ..self
        }
    }

    /// The middle of a lane.
    pub(crate) fn x(&self, lane: usize) -> u64 {
        self.spacing
            .saturating_mul(lane as u64)
            .saturating_add(self.left)
    }

    /// The middle of the first lane.
    pub(crate) fn first(&self) -> u64 {
        self.left
    }

    /// The middle of the last lane.
    pub(crate) fn last(&self) -> u64 {
        self.spacing
            .saturating_mul(self.lanes.saturating_sub(1))
            .saturating_add(self.left)
    }

    /// The width of a box with a name.
    pub(crate) fn box_width(&self) -> u64 {
        self.name.saturating_sub(16)
    }

    /// Where the line above the boxes stands.
    pub(crate) fn order_y(&self) -> u64 {
        self.head.saturating_sub(8)
    }

    /// Where the boxes with the names begin.
    pub(crate) fn head(&self) -> u64 {
        self.head
    }

    /// Where the lanes begin.
    pub(crate) fn lanes_top(&self) -> u64 {
        self.head.saturating_add(BOX)
    }

    /// The row of those that were created.
    pub(crate) fn created_y(&self) -> u64 {
        self.lanes_top().saturating_add(34)
    }

    /// The row of this number.
    pub(crate) fn row_y(&self, row: usize) -> u64 {
        (row as u64)
            .saturating_add(self.created)
            .saturating_mul(ROW)
            .saturating_add(self.created_y())
    }

    /// Where the lanes end.
    pub(crate) fn lanes_end(&self) -> u64 {
        self.row_y(0)
            .saturating_add(self.rows.saturating_mul(ROW))
            .saturating_sub(8)
    }

    /// Whether the names stand at the foot again.
    pub(crate) fn is_tall(&self) -> bool {
        self.rows > TALL
    }

    /// Where the lines begin that say what became of each actor.
    pub(crate) fn snapshot_top(&self) -> u64 {
        let room = if self.is_tall() { BOX } else { 0 };
        self.lanes_end().saturating_add(room)
    }

    /// Where the legend begins.
    pub(crate) fn legend_top(&self) -> u64 {
        self.snapshot_top().saturating_add(FOOT)
    }

    pub(crate) fn width(&self) -> u64 {
        self.last()
            .saturating_add(side_of(self.name))
            .max(self.words_end.saturating_add(MARGIN))
            .max(LEAST_WIDTH)
    }

    pub(crate) fn height(&self) -> u64 {
        self.legend_top().saturating_add(LEGEND)
    }
}

/// Below the line above the boxes, if there is one.
fn head_of(order: EntryOrder) -> u64 {
    match order.words() {
        Some(_) => HEAD + NOTE,
        None => HEAD,
    }
}

/// As much as the widest name needs.
fn name_room(lanes: &Lanes) -> u64 {
    lanes.widest.saturating_add(30).clamp(150, MOST_SPACING)
}

/// The room beside the middle of the first lane, and of the last: half a box with a name, and a margin.
fn side_of(name: u64) -> u64 {
    name / 2 + 8
}
