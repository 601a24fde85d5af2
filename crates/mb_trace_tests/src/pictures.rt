//! What pictures have: each entry once, names escaped, repeated messages in one row.
use crate::made::{entries, letters, names, report};
use mb_diagram::{EntryOrder, Picture, write_html, write_svg};
use std::alloc::{AllocError, Global};
use std::test::Fail;

/// The diagram of the run that was made by hand, or its page, with its entries in this order.
fn drawn(alloc: Global, is_page: bool, order: EntryOrder) -> Option<Vec<u8>> {
    let report = report(alloc)?;
    let names = names(alloc)?;
    let letters = letters(alloc)?;
    let entries = entries(alloc, &report)?;
    let picture = Picture {
        names: &names,
        report: &report,
        entries: &entries,
        causes: &[],
        order,
        letters: &letters,
    };
    let mut out = Vec::new(alloc);
    if is_page {
        write_html(alloc, &mut out, &picture, "1 < 2 & 3\n").ok()?;
    } else {
        write_svg(alloc, &mut out, &picture).ok()?;
    }
    Some(out)
}

/// How often a text stands in another.
fn count(text: &[u8], word: &[u8]) -> usize {
    text.windows(word.len().max(1))
        .filter(|part| *part == word)
        .count()
}

#[test]
fn a_picture_has_each_entry_once(rt: HostRuntime) -> Result<(), Fail> {
    let svg = drawn(rt.alloc(), false, EntryOrder::Turns).ok_or(AllocError)?;
    // Of 1,012 entries three Creates share a row, and a thousand envelopes; the other nine have a row each.
    for (word, wanted) in [
        ("data-entries=", 11),
        ("data-entries=\"3\"", 1),
        ("data-entries=\"1000\"", 1),
        ("data-entries=\"1\"", 9),
        ("kind 1 value -5 × 1,000<", 1),
        ("data-letters=", 2),
        (">state 1</text>", 1),
        (">unhandled, state 1</text>", 1),
        ("<tspan class=\"after\">, state 2</tspan>", 1),
        (">live, suspended 0, state 2</text>", 1),
        ("data-letters=\"2\"", 1),
        ("<text class=\"bad\"", 4),
        ("<rect class=\"bar\"", 2),
        ("<path class=\"end\"", 2),
    ] {
        assert!(rt; count(&svg, word.as_bytes()) == wanted, "{word}");
    }
    Ok(())
}

#[test]
fn names_are_escaped(rt: HostRuntime) -> Result<(), Fail> {
    for is_page in [false, true] {
        let text = drawn(rt.alloc(), is_page, EntryOrder::Turns).ok_or(AllocError)?;
        assert!(rt; count(&text, b"<\"c\"") == 0);
        assert!(rt; count(&text, b"& '") == 0);
        assert!(rt; count(&text, b"&lt;&quot;c&quot; &amp; &#39;d&#39;&gt;") > 0);
    }
    Ok(())
}

#[test]
fn a_page_has_each_entry_once_in_a_journal(rt: HostRuntime) -> Result<(), Fail> {
    let page = drawn(rt.alloc(), true, EntryOrder::Turns).ok_or(AllocError)?;
    for (word, wanted) in [
        ("<tr class=\"entry", 1_012),
        ("<details class=\"journal\"", 4),
        ("data-entries=", 11),
        ("1 &lt; 2 &amp; 3\n</pre>", 1),
        ("<td>spawn b</td>", 1),
        ("http://", 1),
        ("src=", 0),
    ] {
        assert!(rt; count(&page, word.as_bytes()) == wanted, "{word}");
    }
    Ok(())
}

#[test]
fn a_picture_of_threads_says_its_order(rt: HostRuntime) -> Result<(), Fail> {
    for (order, said, found) in [
        (EntryOrder::Turns, 0, 0),
        (EntryOrder::Causes, 1, 0),
        (EntryOrder::Unordered, 1, 0),
        (EntryOrder::Actors, 1, 1),
    ] {
        let svg = drawn(rt.alloc(), false, order).ok_or(AllocError)?;
        assert!(rt; count(&svg, b">on threads: ") == said);
        assert!(rt; count(&svg, b">on threads: no order found ") == found);
    }
    Ok(())
}
