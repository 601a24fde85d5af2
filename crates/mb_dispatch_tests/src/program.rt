//! The tests of the program as a function of its streams: whole runs from bytes to bytes, texts that it refuses, streams that fail, and
//! arguments.

mod command_line;
mod driven;
mod refusals;
mod reports;
mod streams;
