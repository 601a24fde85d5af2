//! Tests of the limits of a text, with texts near them of the shapes that cost most.

use crate::scenarios::cases::tells;
use std::alloc::{AllocError, Global};
use std::test::Fail;

/// A text of `count` copies of a line between a head and a tail.
fn repeated(
    alloc: Global,
    head: &str,
    line: &str,
    count: usize,
    tail: &str,
) -> Result<String, AllocError> {
    let mut text = String::from_str(alloc, head)?;
    for _ in 0..count {
        text.push_str(line)?;
    }
    text.push_str(tail)?;
    Ok(text)
}

/// The shape of a text: its head, a line and how often it is repeated, its tail, and the error.
struct Shape {
    head: &'static str,
    line: &'static str,
    count: usize,
    tail: &'static str,
    told: &'static str,
}

const SHAPES: [Shape; 12] = [
    // As many actors and sends as are allowed, and one more.
    Shape {
        head: "actor = [\n",
        line: "1,\n",
        count: 63,
        tail: "]\n",
        told: "12 BadScenario actor 1: wrong type",
    },
    Shape {
        head: "actor = [\n",
        line: "1,\n",
        count: 64,
        tail: "]\n",
        told: "12 BadScenario actor: too many",
    },
    Shape {
        head: "send = [\n",
        line: "1,\n",
        count: 10_000,
        tail: "]\n",
        told: "12 BadScenario send 1: wrong type",
    },
    Shape {
        head: "send = [\n",
        line: "1,\n",
        count: 10_001,
        tail: "]\n",
        told: "12 BadScenario send: too many",
    },
    // As many bytes as are allowed, and one more, whatever they are.
    Shape {
        head: "",
        line: " ",
        count: 1_048_576,
        tail: "",
        told: "",
    },
    Shape {
        head: "",
        line: " ",
        count: 1_048_577,
        tail: "",
        told: "12 BadScenario input: too many",
    },
    Shape {
        head: "[[actor",
        line: " ",
        count: 1_048_570,
        tail: "",
        told: "12 BadScenario input: too many",
    },
    // Deep nesting, one long string, many operations, many sends with long names.
    Shape {
        head: "x = ",
        line: "[",
        count: 1_000_000,
        tail: "",
        told: "11 NotToml",
    },
    Shape {
        head: "x = \"",
        line: "y",
        count: 1_000_000,
        tail: "\"",
        told: "12 BadScenario x: unknown key",
    },
    Shape {
        head: "actor = [{ name = \"a\", start = [\n",
        line: "\"ignore\",",
        count: 100_000,
        tail: "\"add\"] }]\n",
        told: "12 BadScenario actor 1 start 100001: bad op",
    },
    Shape {
        head: "actor = [{ name = \"abcdefghijklmnopqrstuvwxyz_01234\" }]\nsend = [\n",
        line: "{ to = \"abcdefghijklmnopqrstuvwxyz_01234\", kind = 1, value = 123, times = 0 },\n",
        count: 10_000,
        tail: "]\n",
        told: "12 BadScenario send 1 times: out of range",
    },
    Shape {
        head: "actor = [{ name = \"abcdefghijklmnopqrstuvwxyz_01234\" }]\nsend = [\n",
        line: "{ to = \"abcdefghijklmnopqrstuvwxyz_01234\", kind = 1, value = 123, times = 1 },\n",
        count: 10_000,
        tail: "]\n",
        told: "",
    },
];

#[test]
fn answers_great_texts(rt: HostRuntime) -> Result<(), Fail> {
    let alloc = rt.alloc();
    for shape in &SHAPES {
        let text = repeated(alloc, shape.head, shape.line, shape.count, shape.tail)?;
        tells(&rt, alloc, text.as_bytes(), shape.told)?;
    }
    Ok(())
}

#[test]
fn answers_many_keys(rt: HostRuntime) -> Result<(), Fail> {
    let alloc = rt.alloc();
    let mut keys = String::new(alloc);
    for number in 0..9_000u32 {
        let line = format!(in alloc; "k{number} = 1\n")?;
        keys.push_str(line.as_str())?;
    }
    tells(
        &rt,
        alloc,
        keys.as_bytes(),
        "12 BadScenario k0: unknown key",
    )
}
