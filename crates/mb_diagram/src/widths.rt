//! How much room words need.

/// The room of words.
#[derive(Clone, Copy)]
pub(crate) struct Width {
    /// At most: in the widest font that the style names (DejaVu Sans).
    pub(crate) most: u64,
    /// In the fonts that most readers have: Helvetica, or one of its widths.
    pub(crate) usual: u64,
}

impl Width {
    /// That of a message, which stands in letters of 12 units.
    pub(crate) fn of_label(words: &str) -> Self {
        Width {
            most: label_width(words),
            usual: width_of(words, 4, 7, 12),
        }
    }

    /// That of what stands beside a receiver, in letters of 11 units.
    pub(crate) fn of_note(words: &str) -> Self {
        Width {
            most: label_width(words),
            usual: width_of(words, 4, 6, 12),
        }
    }
}

/// The width of a name at most, which stands in bold letters of 13 units.
pub(crate) fn name_width(name: &str) -> u64 {
    width_of(name, 10, 10, 14)
}

/// The width of a message at most, which stands in letters of 12 units.
pub(crate) fn label_width(words: &str) -> u64 {
    width_of(words, 8, 8, 12)
}

/// So much for each narrow letter, for each other that scenarios have, and for each that may be wider.
fn width_of(words: &str, narrow: u64, letter: u64, widest: u64) -> u64 {
    let mut width: u64 = 0;
    for character in words.chars() {
        let room = match character {
            'm' | 'w' => widest,
            'f' | 'i' | 'j' | 'l' | 'r' | 't' | ' ' | '-' | ',' => narrow,
            'a'..='z' | '0'..='9' | '_' => letter,
            _ => widest,
        };
        width = width.saturating_add(room);
    }
    width
}
