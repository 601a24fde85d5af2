//! A cell with 62 children and 63 watchers: whatever comes to it, the room that `ready` made is enough.

use crate::tables::each_case;
use crate::words::{first_word, number};
use std::alloc::{AllocError, Global};
use std::test::Fail;

/// A text in brackets is repeated for each child from the number on with which it begins; `#` is the child's number.
const CROWDS: &str = "
It starts each child, and is watched by it and by its parent. All are suspended and resumed, and fail with their parent, which is
restarted. Then it watches them all, and ends after the last of them: it tells its parent and all who watch it.
actor 1 of 0; children 2 to 63; rules restart error
create | handled | resume | live 0 0
watch 0 | none | - | live 0 0
user add | handled | - | live 0 1
[2 user spawn # | handled: spawn # | #: create | live 0 #
watch # | none | - | live 0 #
]suspend | none | suspend[2 , #: suspend] | live 1 63
resume | none | resume[2 , #: resume] | live 0 63
user fail 1 | failed 1 | suspend[2 , #: suspend], 0: failed 1 error 1 | live 1 64
recreate error 1 | handled | resume[2 , #: recreate error 1] | live 0 0
user add | handled | - | live 0 1
[2 user watch # | handled: watch # | #: watch 1 | live 0 #
]terminate | none | 2: unwatch 1[3 , #: unwatch 1][2 , #: terminate], suspend | ending 1 63
[3 died # | none | - | ending 1 63
]died 2 | none | close, 0: died 1[2 , #: died 1] | ended 0 63

Each failure of one is for all: two acts for each child but the one that failed.
actor 1 of 0; children 2 to 63; rules restart error; all for one
create | handled | resume | live 0 0
watch 0 | none | - | live 0 0
user add | handled | - | live 0 1
[2 user spawn # | handled: spawn # | #: create | live 0 #
watch # | none | - | live 0 #
]failed 2 error 1 | none | 2: recreate error 1[3 , #: suspend, #: recreate error 1] | live 0 63
failed 2 error 1 | none | 2: recreate error 1[3 , #: suspend, #: recreate error 1] | live 0 63
";

/// The first number past those of the children, 2 to 63.
const PAST: u32 = 64;

/// The text, with what is in brackets repeated for each child.
fn spread(alloc: Global, text: &str) -> Result<String, AllocError> {
    let mut spread = String::new(alloc);
    for piece in text.split('[') {
        let (item, after) = piece.split_once(']').unwrap_or(("", piece));
        add_each(alloc, &mut spread, item)?;
        spread.push_str(after)?;
    }
    Ok(spread)
}

/// Adds the item for each child from the number on with which it begins.
fn add_each(alloc: Global, spread: &mut String, item: &str) -> Result<(), AllocError> {
    let (from, item) = first_word(item);
    for child in number(from).unwrap_or(PAST)..PAST {
        let name = format!(in alloc; "{child}")?;
        let said = item.replace(alloc, "#", name.as_str())?;
        spread.push_str(said.as_str())?;
    }
    Ok(())
}

#[test]
fn crowds(rt: HostRuntime) -> Result<(), Fail> {
    let stories = spread(rt.alloc(), CROWDS)?;
    each_case(&rt, rt.alloc(), stories.as_str(), 386)
}
