//! The input and output of the program: how its input is read, how a report is written, and which line and exit status
//! say why there is no report. No stream is called again after a call of it failed.
#![tactic(auto)]

mod arguments;
mod fault;
mod flush;
mod input;
mod program_error;
mod refusal;
mod report;
mod streams;
mod tracked_stream;

pub use arguments::{Arguments, argument_count};
pub use fault::RunFault;
pub use flush::Flush;
pub use input::read_input;
pub use program_error::ProgramError;
pub use report::write_report;
pub use streams::Streams;
pub use tracked_stream::TrackedStream;
