//! A run as a picture: a sequence diagram in SVG, and a page in HTML that has it beside the journals.
//!
//! A picture shows each entry of the journals once. What is drawn is written as it is made, to any writer.
#![tactic(auto)]

mod alike;
mod arrow;
mod causes;
mod created;
mod dead_letters;
mod drawing;
mod escape;
mod foot;
mod geometry;
mod head;
mod html;
mod journal;
mod label;
mod lanes;
mod legend;
mod letter_order;
mod note;
mod order;
mod picture;
mod room;
mod rows;
mod script;
mod sent;
mod sources;
mod style;
mod svg;
mod template;
mod widths;
mod words;

pub use html::write_html;
pub use order::EntryOrder;
pub use picture::{Picture, PictureEntry};
pub use svg::write_svg;
