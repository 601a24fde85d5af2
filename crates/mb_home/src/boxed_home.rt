//! A home as the gates keep it.
use crate::home::Home;

/// A home in a box, so that a worker that takes it moves only a pointer.
pub type BoxedHome<A, K> = Box<Home<A, K>>;
