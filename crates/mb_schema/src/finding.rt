//! Findings: what is wrong in a document, and where.
ghost use Rattle.std.specs.Prelude.{Some};
ghost use Rattle.mb_schema.specs.Location.{path_text, location_text, reason_text};

use crate::path::Path;
use std::fmt;

/// What is wrong at a place of a document.
#[derive(Clone, Copy, Debug)]
pub enum Reason {
    /// The table has no such key.
    UnknownKey,
    /// A required key is missing.
    Missing,
    /// The value has another type.
    WrongType,
    /// The key is not allowed in this table.
    NotAllowed,
    /// The value is not one of those that are allowed.
    OutOfRange,
    /// There are more items than are allowed.
    TooMany,
    /// No actor that may be named here has the name.
    UnknownName,
    /// An earlier actor has the name.
    RepeatedName,
    /// It is not an operation, or not one that is allowed here.
    BadOp,
}

/// A place of a document.
#[derive(Clone, Copy)]
pub enum Location<'a> {
    /// A key of a table.
    KeySchema(Path, &'a str),
    /// A key that is not printed, since it is not a valid name.
    Unnamed(Path),
    /// The entry at a position of the array at a key of a table.
    Entry(Path, &'a str, usize),
}

/// The first thing that is wrong with a document.
#[derive(Clone, Copy)]
pub struct Finding<'a> {
    /// Where.
    pub place: Location<'a>,
    /// What.
    pub reason: Reason,
}

impl fmt::Display for Path {
    ghost output = { λ path. Some (path_text path) };

    fn fmt<W: fmt::Write>(&self, f: &mut fmt::Formatter<W>) -> fmt::Result {
        match self {
            Path::Top => Ok(()),
            Path::Actor(position) => write!(f, "actor {position} "),
            Path::Send(position) => write!(f, "send {position} "),
            Path::Row(actor, name, position) => write!(f, "actor {actor} {name} {position} "),
        }
    }
}

impl fmt::Display for Location<'_> {
    ghost output = { λ place. Some (location_text place) };

    fn fmt<W: fmt::Write>(&self, f: &mut fmt::Formatter<W>) -> fmt::Result {
        match self {
            Location::KeySchema(path, key) => write!(f, "{path}{key}"),
            Location::Unnamed(path) => write!(f, "{path}?"),
            Location::Entry(path, name, position) => write!(f, "{path}{name} {position}"),
        }
    }
}

impl fmt::Display for Reason {
    ghost output = { λ reason. Some (reason_text reason) };

    fn fmt<W: fmt::Write>(&self, f: &mut fmt::Formatter<W>) -> fmt::Result {
        f.write_str(match self {
            Reason::UnknownKey => "unknown key",
            Reason::Missing => "missing",
            Reason::WrongType => "wrong type",
            Reason::NotAllowed => "not allowed",
            Reason::OutOfRange => "out of range",
            Reason::TooMany => "too many",
            Reason::UnknownName => "unknown name",
            Reason::RepeatedName => "repeated name",
            Reason::BadOp => "bad op",
        })
    }
}
