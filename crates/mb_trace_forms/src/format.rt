//! The forms of a trace.
ghost use Rattle.mb_trace_forms.specs.Forms.{IsWrittenAs};

use crate::json::write_json;
use crate::picture::{write_html, write_svg};
use mb_trace::{Filter, Trace, TraceError, write_text};
use std::alloc::Global;
use std::io::Write;

/// In which form a trace is written.
#[derive(Clone, Copy, Debug, PartialEq, Eq)]
pub enum TraceFormat {
    /// Lines of text.
    Text,
    /// Lines of JSON.
    Json,
    /// A sequence diagram, as an SVG document.
    Svg,
    /// A page of HTML with the diagram and the journals.
    Html,
}

/// Writes the trace in this form, as far as the filter leaves it: as `write_text`, `write_json`, `write_svg` or `write_html` does.
///
/// The errors: `NoMemory`, `Closed` where whoever reads the output has closed it, and `Os` where writing failed otherwise.
pub fn write_trace<W: Write>(
    alloc: Global,
    trace: &Trace<'_>,
    filter: &Filter<'_>,
    format: TraceFormat,
    out: &mut W,
) -> Result<(), TraceError>
    ensures { IsWrittenAs trace.now filter.now format (W.contents out.old) (W.contents out.new) result }
{
    match format {
        TraceFormat::Text => write_text(alloc, trace, filter, out),
        TraceFormat::Json => write_json(alloc, trace, filter, out),
        TraceFormat::Svg => write_svg(alloc, trace, filter, out),
        TraceFormat::Html => write_html(alloc, trace, filter, out),
    }
}
