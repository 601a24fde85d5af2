//! An actor is claimed, held and given back, and each call has its answer.
use crate::holding::Holding;
use crate::order_check::NOTHING;
use crate::single::Single;
use crate::steps::{HeldStep, PassStep};
use std::alloc::Global;
use std::process::Abort;
use std::sync::Wait;
use std::test::Fail;

/// What is done before the actor is claimed, while it is held, and after its cell was given back; its status word at last, and how
/// many messages its list gave.
#[derive(Clone, Copy)]
pub struct Story {
    pub before: &'static [PassStep],
    pub held: &'static [HeldStep],
    pub after: &'static [PassStep],
    pub word: u64,
    pub given: u64,
}

/// Checks that all goes as the story says.
pub fn goes_so<R: Abort + Wait>(rt: &R, alloc: Global, story: &Story) -> Result<(), Fail> {
    let mut single = Single::new(alloc)?;
    play(rt, alloc, &mut single, story.before);
    let mut holding = single.got(rt);
    play_held(rt, alloc, &mut holding, story.held);
    let mut single = holding.give();
    play(rt, alloc, &mut single, story.after);
    let left = single.left(alloc)?;
    assert!(rt; left == Some((story.word, story.given)));
    Ok(())
}

fn play<R: Abort + Wait>(rt: &R, alloc: Global, single: &mut Single, steps: &[PassStep]) {
    for &step in steps {
        assert!(rt; single.answers(rt, alloc, step));
    }
}

fn play_held<R: Abort + Wait>(rt: &R, alloc: Global, holding: &mut Holding, steps: &[HeldStep]) {
    let mut tally = NOTHING;
    for &step in steps {
        assert!(rt; holding.answers(rt, alloc, &mut tally, step));
    }
}
