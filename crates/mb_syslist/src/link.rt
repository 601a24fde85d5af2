//! The linked list below a list of system messages.
ghost use Rattle.std.specs.Prelude.{◌≡◌, [], ◌∷◌, IfSome, IfNone, reverse};
ghost use Rattle.mb_syslist.specs.Boxes.{boxed};

use mb_msg::SysMsg;
use std::mem;

/// A linked list of messages, each in a box of its own.
#[cycle(link)]
pub enum Link {
    End,
    More(Box<LinkedMessage>),
}

/// A message and the rest of the list.
#[cycle(link)]
#[derive(Drop)]
pub struct LinkedMessage {
    pub message: SysMsg,
    pub next: Link,
}

impl Link {
    /// The first box, with the rest of the list; `None` if the list is empty.
    pub fn into_first(self) -> Option<Box<LinkedMessage>>
        ensures not_empty { IfSome result (λ entry. boxed self ≡ entry.value.message ∷ boxed entry.value.next) }
        ensures none { IfNone result (boxed self ≡ []) }
    {
        match self {
            Link::End => None,
            Link::More(entry) => Some(entry),
        }
    }

    /// The same boxes in the opposite order.
    pub fn reversed(self) -> Link
        ensures { boxed result ≡ reverse (boxed self) }
    {
        let mut left = self;
        let mut turned = Link::End;
        while let Some(mut entry) = left.into_first() {
            left = mem::replace(&mut entry.next, turned);
            turned = Link::More(entry);
        }
        turned
    }
}

impl Drop for Link {
    // box by box: a call for each box would overflow the stack
    fn drop(mut self) {
        loop {
            match self {
                Link::End => return,
                Link::More(entry) => {
                    let LinkedMessage { message: _, next } = Box::into_inner(entry);
                    self = next;
                }
            }
        }
    }
}
