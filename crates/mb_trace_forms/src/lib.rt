//! The forms of a trace beside text: lines of JSON, a sequence diagram in SVG, and a page of HTML.
//!
//! Each shows the entries that the text shows, in the same order: of a quiet run turn by turn, of a run on threads in one that agrees with
//! what caused what.
#![tactic(auto)]

mod copied_plan;
mod format;
mod json;
mod json_ends;
mod json_rest;
mod kinds;
mod letters;
mod order;
mod picture;
mod shown;
mod traced_system;

pub use format::{TraceFormat, write_trace};
pub use json::write_json;
pub use picture::{write_html, write_svg};
pub use traced_system::TracedSystem;
