//! Tests of the machine: a table of its steps, worked runs, where runs begin, a long run, and random runs against the
//! laws.
mod cases;
mod generated;
mod runs;
mod words;
