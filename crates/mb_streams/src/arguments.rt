//! The arguments of the program.
ghost use Rattle.std.specs.Prelude.{◌≡◌, ◌≤◌, ◌↔◌, ℕ, min, Option, None, IfSome, IsTrue};

use std::env::{Env, FillError};

/// The arguments of a process, without the program's own path. They are not read: an argument may be any bytes.
pub trait Arguments {
    /// How many there are, where that is known. The contracts of std do not say it of an environment.
    ghost count: { Self → Option ℕ } = { λ _. None };

    /// Whether there are at least so many, where 1 stands for the first.
    fn has(&self, number: usize) -> bool
        ensures { IfSome (count self.now) (λ count. IsTrue result ↔ number ≤ count) };
}

impl<V: Env> Arguments for V {
    fn has(&self, number: usize) -> bool {
        !matches!(self.arg(number, &mut []), Err(FillError::NotPresent))
    }
}

/// How many arguments there are; with more than a `usize` can say, the most that it can.
pub fn argument_count<A: Arguments>(arguments: &A) -> usize
    ensures { IfSome (A.count arguments.now) (λ count. result ≡ min count usize.MAX) }
{
    for count in 0..usize::MAX {
        if !arguments.has(count + 1) {
            return count;
        }
    }
    usize::MAX
}
